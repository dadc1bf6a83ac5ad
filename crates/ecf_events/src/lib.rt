//! What the lines of a schedule and whole schedules say, as definitions in `specs/` that contracts cite, laws about them, and
//! schedules worked out.
#![tactic(auto)]

pub mod cases;
pub mod laws;
