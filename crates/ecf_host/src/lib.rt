//! The host: reads a contract and a stream, runs the transactions and writes the journal; or shows a contract.
#![tactic(auto)]

mod contract;
mod deliver;
mod failure;
mod journal;
mod laws;
mod refusal;
mod rounds;
mod run;
mod show;
mod top;
mod words;

pub use top::{host, tool};
