//! Tests of the rows of a book. There is nothing here to call.
//!
//! Each call under test stands in a function without clauses that gives a line of text, so that what is proved of a test
//! carries no clause of the call.
#![tactic(auto)]

#[cfg(test)]
mod schedules;
