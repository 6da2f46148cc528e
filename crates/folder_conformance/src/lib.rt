//! Conformance tests of what a cluster's folder holds, over the public calls of `chosen_records`, `folder_report`, `cluster_identity` and
//! `cluster_folder`: what records say was chosen, the report of a folder, the text of an identity, and folders of real files.
//!
//! The crate has no code but tests, so that what is proved in the crates below is not proved again together with them.
#![tactic(auto)]

#[cfg(test)]
mod chosen;
#[cfg(test)]
mod folders;
#[cfg(test)]
mod identities;
#[cfg(test)]
mod reports;
