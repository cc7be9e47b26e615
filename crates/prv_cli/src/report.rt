//! What a command shows.
ghost use Rattle.std.specs.Prelude.{◌≡◌, [], OnOk, OnErr, IfErr};
ghost use Rattle.std.specs.Io.KnownBytes.{append_known};
ghost use Rattle.prv_io.specs.Faults.{Rose};
ghost use Rattle.prv_cli.specs.Steps.{Told, Trace, writes};

use crate::refusal::Refusal;
use crate::status::Status;
use prv_io::{Sink, write_all};
use std::marker::Model;

/// What is shown, and the status that comes with it.
#[derive(Drop)]
pub struct Report {
    /// The bytes that are written to standard output.
    pub text: Vec<u8>,
    /// The exit status.
    pub status: Status,
}

impl Model for Report {
    ghost use Rattle.prv_cli.specs.Steps.{Shown};

    ghost Value = { Shown };

    ghost view = { λ r. record { text = r.text.items; status = r.status } };
}

/// Writes a report, and answers its status.
pub fn write_report<O: Sink>(out: &mut O, report: &Report) -> Result<Status, Refusal>
    ensures written { (told : Told) → (trace : Trace) × writes report.now told trace result × (trace.reads ≡ []) × (O.taken out.new ≡ append_known (O.taken out.old) trace.writes) }
    ensures fault { OnErr result (Rose (O.faults out.old) (O.faults out.new)) }
    ensures no_fault { OnOk result (O.faults out.new ≡ O.faults out.old) }
    ensures write_alone { IfErr result (λ why. why ≡ Refusal.Write) }
{
    match write_all(out, report.text.as_slice()) {
        Ok(()) => Ok(report.status),
        Err(_) => Err(Refusal::Write),
    }
}
