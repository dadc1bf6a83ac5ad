//! Reads decimal digits as a number.
#![tactic(auto)]

mod digits;

pub use digits::decimal;
