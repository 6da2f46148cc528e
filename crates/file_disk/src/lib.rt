//! The disk under a store of records as one file of the operating system.
//!
//! No contract can say what a file gives or takes, so [`FileDisk`] tells nothing of its content. Of a store over it the
//! contracts claim the count of failures and when the store is ready: each [`StoreFault::Device`] has a call of the
//! file that failed. That a real file is a disk as [`Disk`] describes one is not proved.
//!
//! [`StoreFault::Device`]: stable_records::StoreFault::Device
//! [`Disk`]: disk_records::Disk
#![tactic(auto)]

mod file;

pub use file::FileDisk;
