//! The plain data that every layer speaks of: trees, typed contracts, transactions, runs and receipts,
//! and in `specs/` what a contract means.
#![tactic(auto)]

pub mod cell;
pub mod costs;
pub mod limits;
pub mod name;
pub mod receipt;
pub mod run;
pub mod tree;
pub mod tx;
pub mod typed;
