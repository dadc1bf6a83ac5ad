//! Tests of streams and of journals: lines, pieces, whole streams, and the parts of a journal's text.
//! There is nothing here to call.
//!
//! Each call under test stands in a function without clauses, which gives plain data or a line of text. So what is proved
//! of a test carries no clause of the call, and a row of a table costs next to nothing.
#![tactic(auto)]

#[cfg(test)]
mod cut_source;
#[cfg(test)]
mod journals;
#[cfg(test)]
mod lines;
#[cfg(test)]
mod pieces;
#[cfg(test)]
mod stream_contract;
#[cfg(test)]
mod streams;
