//! Tests of the host and of its edge, over objects in memory, with ample memory. There is nothing here to call.
//!
//! Each call under test stands in a function without clauses, which gives plain data or a line of text. So what is proved
//! of a test carries no clause of the host or the edge, and a row of a table costs next to nothing.
#![tactic(auto)]

#[cfg(test)]
mod calls;
#[cfg(test)]
mod faults;
#[cfg(test)]
mod gates;
#[cfg(test)]
mod helpers;
#[cfg(test)]
mod journals;
#[cfg(test)]
mod refusals;
#[cfg(test)]
mod rounds;
#[cfg(test)]
mod shelves;
#[cfg(test)]
mod shows;
#[cfg(test)]
mod sinks;
#[cfg(test)]
mod sources;
