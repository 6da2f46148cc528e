//! Conformance tests of `disk_records`, `file_disk`, `record_sums` and `shared_values`, over their public calls: files that are cut off and
//! files with other bytes, long files, and stops at each call of the disk in a run of recalls and keeps, under each of three crashes, and
//! under each that tears a write into parts; a real file; sums of records that changed; and values that are shared.
//!
//! The crate has no code but tests, so that what is proved in the crates below is not proved again together with them.
#![tactic(auto)]

#[cfg(test)]
mod files;
#[cfg(test)]
mod real_files;
#[cfg(test)]
mod record_bytes;
#[cfg(test)]
mod refused_memory;
#[cfg(test)]
mod sharing;
#[cfg(test)]
mod stops;
#[cfg(test)]
mod sums;
#[cfg(test)]
mod support;
#[cfg(test)]
mod torn_disk;
