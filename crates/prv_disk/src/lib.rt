//! A disk: bytes that are read and written at places, the images that a crash may leave of them, and a count of
//! faults. One in memory, whose crashes can be had; and a real file, locked while it is held, of which nothing is told.
#![tactic(auto)]

mod disk;
mod file_disk;
mod held_file;
mod history;
mod mem_disk;
mod past_write;
mod quiet_calls;
#[cfg(test)]
mod tests;

pub use disk::{Disk, DiskError};
pub use file_disk::FileDisk;
pub use held_file::OpenMode;
pub use mem_disk::MemDisk;
