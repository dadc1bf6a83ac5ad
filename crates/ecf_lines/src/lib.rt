//! What the lines of a stream and whole streams say, as definitions in `specs/` that contracts cite, laws about them, and
//! streams worked out.
#![tactic(auto)]

pub mod cases;
pub mod laws;
pub mod saying;
