//! Settling a region: one run of both versions, the conditions that it gives, and what the solver finds
//! of the rest, with the grounds of each claim.
#![tactic(auto)]

mod answer;
mod cut;
mod equality;
mod error;
mod halves;
mod laws;
mod limits;
mod partition;
mod parts;
mod probe;
mod record;
mod room;
mod runs;
mod search;
mod settled;
mod settling;
mod task;

pub use error::SettleAtError;
pub use laws::{
    boards_and_records_determine_settlements, granted_partitions_have_no_other_part,
    open_entries_take_supported_settlements, refuted_conditions_have_no_input,
    settled_regions_are_supported, supported_settlements_are_true, supporting_records_are_small,
};
pub use limits::{MAX_LINES, MAX_NODES, MAX_NUMBERS, MAX_PAYLOAD};
pub use settled::Settled;
pub use settling::{settle, settle_at};
pub use task::Options;
