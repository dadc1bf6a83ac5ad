//! Relations between numbers below 65,536: rows of bits, and the members put in an order that a relation allows.
#![tactic(auto)]

mod checks;
mod edges;
mod placement;
mod row;
mod rows;

pub use checks::{check_cycle, check_order};
pub use edges::{Edges, least_order};
pub use placement::{Ordered, order_rows};
pub use row::Row;
pub use rows::{extend_rows, list_below, row_contains, row_of};
