//! The text of a journal, as definitions in `specs/` that contracts cite.
#![tactic(auto)]
