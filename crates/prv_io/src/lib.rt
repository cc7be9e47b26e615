//! Files to read from and sinks to write to, as traits with a count of faults: a fault is answered only
//! where the count rose. In memory they tell what they have, and fail the calls that a plan of faults names; the
//! adapters of the real ones tell nothing.
#![tactic(auto)]

mod fault_plan;
mod files;
mod host_files;
mod host_sink;
mod mem_files;
mod mem_sink;
mod sink;
#[cfg(test)]
mod tests;

pub use fault_plan::FaultPlan;
pub use files::{FileError, Files};
pub use host_files::HostFiles;
pub use host_sink::HostSink;
pub use mem_files::{MemFile, MemFiles};
pub use mem_sink::MemSink;
pub use sink::{Failed, Sink, write_all};
