//! Tests of invocations that are run alone, on runs of whole contracts. There is nothing here to call.
//!
//! The call under test stands below a function without clauses, which gives a line of text. So what is proved of the test carries no
//! clause of the call, and a row of the table costs next to nothing.
#![tactic(auto)]

#[cfg(test)]
mod alone;
#[cfg(test)]
mod isolated;
#[cfg(test)]
mod texts;
