//! A disk that may crash at any moment: what a crash may leave of it, and a disk in memory.
#![tactic(auto)]

pub mod call;
pub mod disk;
pub mod mem_disk;
pub mod pages;
