//! Being told how far an exploration is, which can take hours: who shows it to a user is told of each settlement.

/// Is told how far an exploration is. What is found doesn't depend on it, and no clause speaks of it.
pub trait Progress {
    /// A settlement was made. By now so many were made, and so many live entries are open.
    fn made(&mut self, settlements: u32, open: u32);

    /// No more settlements are made. It comes once behind the last one, also where memory ran out.
    fn ended(&mut self);
}

/// Shows nothing of what it is told.
#[derive(Debug, Drop)]
pub struct Quiet;

impl Progress for Quiet {
    fn made(&mut self, _settlements: u32, _open: u32) {}

    fn ended(&mut self) {}
}
