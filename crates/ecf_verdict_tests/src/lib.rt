//! Tests of what judges a run: relations, pairs of "before", monitors and verdicts. There is nothing here to call.
//!
//! Each call under test stands in a function without clauses, which gives plain data or a line of text. So what is proved
//! of a test carries no clause of the call, and a row of a table costs next to nothing.
#![tactic(auto)]

#[cfg(test)]
mod monitors;
#[cfg(test)]
mod pairs;
#[cfg(test)]
mod relations;
#[cfg(test)]
mod rows;
#[cfg(test)]
mod short_traces;
#[cfg(test)]
mod traces;
#[cfg(test)]
mod verdicts;
