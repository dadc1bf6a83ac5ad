//! Tests of the stores: heaps, overlays, first stores, versions and snapshots.
//! There is nothing here to call.
//!
//! Each call under test stands in a function without clauses, which gives plain data or a line of text. So what is proved
//! of a test carries no clause of the call, and a row of a table costs next to nothing.
#![tactic(auto)]

#[cfg(test)]
mod heaps;
#[cfg(test)]
mod initial;
#[cfg(test)]
mod overlays;
#[cfg(test)]
mod versions;
