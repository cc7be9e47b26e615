//! Injection of faults: an object that stands in for a device counts its calls, and fails those that it was told to
//! fail when it was made. So every path behind a fault can be run at will, and a contract can say when each fault comes.
ghost use Rattle.std.specs.Prelude.{◌≡◌, ◌==◌, ◌≤◌};
ghost use Rattle.std.specs.List.{list_any};
ghost use Rattle.prv_io.specs.FaultPlan.{fresh, is_to_fail, after_call};

use std::marker::Model;

/// Which calls of an object in memory are to fail, and how many did. Both counts stand still at 2^64 - 1.
#[derive(Debug, Drop)]
pub struct FaultPlan {
    // The numbers, from 1, of the calls that are to fail.
    fail: Vec<u32>,
    // How many calls there were.
    calls: u64,
    // How many of them failed.
    faults: u64,
}

impl Model for FaultPlan {
    ghost use Rattle.prv_io.specs.FaultPlan.{Plan};

    ghost Value = { Plan };

    ghost view = { λ p. record { fail = p.fail.items; calls = p.calls; faults = p.faults } };
}

fn has_number(numbers: &[u32], number: u64) -> bool
    ensures { result ≡ list_any (λ n. n == number) numbers.now }
{
    numbers.iter().any(|n| u64::from(*n) == number)
}

impl FaultPlan {
    /// Before the first call. `fail` holds the numbers, from 1, of the calls that are to fail.
    pub fn new(fail: Vec<u32>) -> FaultPlan
        ensures { result ≡ fresh fail.items }
    {
        FaultPlan {
            fail,
            calls: 0,
            faults: 0,
        }
    }

    /// How many calls have failed.
    pub fn faults(&self) -> u64
        ensures { result ≡ self.now.faults }
    {
        self.faults
    }

    /// Whether the next call is to fail.
    pub fn is_to_fail(&self) -> bool
        ensures { result ≡ is_to_fail self.now }
    {
        has_number(&self.fail, self.calls.saturating_add(1))
    }

    /// Counts a call, and a fault where it `fails`.
    pub fn count_call(&mut self, fails: bool)
        ensures after { self.new ≡ after_call fails self.old }
        ensures never_falls { self.old.faults ≤ self.new.faults }
    {
        self.calls = self.calls.saturating_add(1);
        if fails {
            self.faults = self.faults.saturating_add(1);
        }
    }
}
