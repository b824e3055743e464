//! Defines a disk in memory whose contents are known in full, and the program's contract over such
//! a disk.
//!
//! `disk` defines the disk, and `over_disk` performs a line of the program on it. Read first:
//! over_disk.rt, whose clauses state which files a line leaves.
#![tactic(auto)]

mod disk;
mod over_disk;

pub use disk::Disk;
pub use over_disk::performed;
