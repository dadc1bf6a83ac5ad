//! Which texts are journals of transactions, as definitions in `specs/` that contracts cite.
#![tactic(auto)]
