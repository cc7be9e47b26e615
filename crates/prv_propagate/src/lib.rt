//! Unit propagation with two watched literals a clause (Moskewicz, Madigan, Zhao, Zhang, Malik,
//! 2001), over the clauses of a formula and the lines of a log. The clauses are read where they
//! stand: neither their literals nor their order change.
#![tactic(auto)]

mod adding;
mod clauses;
mod loading;
mod look;
mod propagation;
mod same;
mod trail;
mod walk;
mod watches;

pub use adding::add_line;
pub use clauses::{clause_at, known_count};
pub use loading::load;
pub use propagation::propagate;
pub use same::is_same;
pub use trail::{NO_REASON, Step, Trail};
pub use watches::{Pair, Watch, Watches};
