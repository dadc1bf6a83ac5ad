//! Tests of schedules: events, in whatever pieces they come, and the lines of replies. There is nothing here to call.
//!
//! Each call under test stands in a function without clauses, which gives a line of text.
#![tactic(auto)]

#[cfg(test)]
mod events;
#[cfg(test)]
mod repeated_source;
#[cfg(test)]
mod replies;
