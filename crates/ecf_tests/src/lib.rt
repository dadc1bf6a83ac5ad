//! Tests of the language: texts to trees, names and types, and runs of whole contracts; and of what stands low, which in the crate itself
//! would have it proved once more.
//! There is nothing here to call.
//!
//! Each call under test stands in a function without clauses, which gives plain data or a line of text. So what is proved
//! of a test carries no clause of the call, and a row of a table costs next to nothing.
#![tactic(auto)]

#[cfg(test)]
mod alone;
#[cfg(test)]
mod charges;
#[cfg(test)]
mod fits;
#[cfg(test)]
mod frames;
#[cfg(test)]
mod numerals;
#[cfg(test)]
mod reports;
#[cfg(test)]
mod runs;
#[cfg(test)]
mod stored;
#[cfg(test)]
mod texts;
#[cfg(test)]
mod tokens;
#[cfg(test)]
mod trees;
#[cfg(test)]
mod tries;
#[cfg(test)]
mod types;
