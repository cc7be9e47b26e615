//! When to restart: after as many conflicts as the Luby row says (Luby, Sinclair, Zuckerman, 1993).

/// So many conflicts for each 1 of the row.
const UNIT: u32 = 6;

/// How many conflicts are left to the next restart, and where in the row it is.
#[derive(Clone, Copy, Debug)]
pub struct Restarts {
    /// The conflicts that are left.
    left: u32,
    /// The first of Knuth's pair.
    u: u32,
    /// The second of the pair: the row's number.
    v: u32,
}

impl Restarts {
    pub fn new() -> Restarts {
        Restarts {
            left: UNIT,
            u: 1,
            v: 1,
        }
    }

    /// Counts a conflict, and answers whether to restart.
    pub fn count(&mut self) -> bool {
        if self.left > 1 {
            self.left -= 1;
            return false;
        }
        // The row by Knuth's pair: (u, v) becomes (u + 1, 1) where the lowest set bit of u is v, and
        // else (u, 2v).
        if self.u & self.u.wrapping_neg() == self.v {
            self.u = self.u.wrapping_add(1);
            self.v = 1;
        } else {
            self.v = self.v.wrapping_mul(2);
        }
        self.left = UNIT.wrapping_mul(self.v);
        true
    }
}
