//! The numbers of the queue.

/// How many items the queue holds at most.
pub const PLACES: usize = 32;

/// The share of the first pass, which all passes of one queue have together.
pub const WHOLE_SHARE: u64 = 4_294_967_296;
