//! A settlement beside the record that supports it. A board takes the settlement, a journal the record; whoever has
//! both need not ask again whether they belong together.
ghost use Rattle.std.specs.Prelude.{◌≡◌, ◌≤◌, IfOk};
ghost use Rattle.std.specs.Arc.{arc_value};
ghost use Rattle.prv_record.specs.Fields.{HasFields};
ghost use Rattle.prv_record.specs.Payloads.{payload_length};
ghost use Rattle.prv_settle.specs.Supported.{IsSupported, IsKept};
ghost use Rattle.prv_settle.specs.declared.limits.TheConstants.{MAX_PAYLOAD};

use prv_part::Settlement;
use prv_record::{Proof, Raw};
use std::alloc::{AllocError, Global};
use std::marker::Model;
use std::sync::Arc;

/// A settlement with the record that supports it, whether or not its entry is open on a board. It is
/// seen as both.
#[derive(Drop)]
pub struct Settled {
    /// The settlement, shared with the boards that took it.
    inner: Arc<Settlement>,
    /// Its record.
    raw: Raw,
}

impl Model for Settled {
    ghost use Rattle.std.specs.Arc.{arc_value};
    ghost use Rattle.prv_settle.specs.Supported.{IsKept};
    ghost use Rattle.prv_settle.specs.Pairings.{Supported, supported_code};

    ghost Value = { Supported };

    ghost coded = { supported_code };

    ghost view = { λ s. record { finding = arc_value s.inner; raw = s.raw } };

    ghost invariant = { λ s. IsKept (arc_value s.inner) s.raw };
}

impl Settled {
    /// A settlement with its record.
    pub(crate) fn new(
        alloc: Global,
        settlement: Settlement,
        raw: Raw,
    ) -> Result<Settled, AllocError>
        requires { IsKept settlement raw }
        ensures { IfOk result (λ s. s ≡ record { finding = settlement; raw = raw }) }
    {
        Ok(Settled {
            inner: Arc::new(alloc, settlement)?,
            raw,
        })
    }

    /// The settlement. That the record supports it is handed out here.
    pub fn settlement(&self) -> &Arc<Settlement>
        ensures value { arc_value result.now ≡ self.now.finding }
        ensures supported { IsSupported self.now.finding self.now.raw }
    {
        &self.inner
    }

    /// Its record. That it has the fields of its shape, and is small enough for a journal, is handed out here.
    pub fn raw(&self) -> &Raw
        ensures value { result.now ≡ self.now.raw }
        ensures fields { HasFields self.now.raw }
        ensures small { payload_length self.now.raw ≤ MAX_PAYLOAD }
    {
        &self.raw
    }

    /// What the record proves itself by.
    pub fn proof(&self) -> &Proof
        ensures { result.now ≡ self.now.raw.proof }
    {
        &self.raw.proof
    }

    /// Takes both apart, without a copy.
    pub fn into_parts(self) -> (Arc<Settlement>, Raw)
        ensures settlement { arc_value result.0 ≡ self.finding }
        ensures raw { result.1 ≡ self.raw }
        ensures supported { IsSupported self.finding self.raw }
        ensures fields { HasFields self.raw }
        ensures small { payload_length self.raw ≤ MAX_PAYLOAD }
    {
        let Settled { inner, raw } = self;
        (inner, raw)
    }
}
