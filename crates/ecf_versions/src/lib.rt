//! The store of a contract in versions that share what they have in common: three levels of sorted pages, each behind
//! an `Arc`.
#![tactic(auto)]

mod branch;
mod leaf;
mod page;
mod root;
mod rows;
mod search;
mod versions;

pub use versions::{Snapshot, Versions};
