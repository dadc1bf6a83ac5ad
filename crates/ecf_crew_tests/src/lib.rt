//! The first crew: threads that hand numbers to one another through a queue and add them to one sum in turns. It is the
//! common test of the turn and the queue, and the example of docs/threads.md.
#![tactic(auto)]

#[cfg(test)]
mod queue_tests;
mod rounds;
mod sum;
#[cfg(test)]
mod tests;
mod threads;
mod tools;

pub use rounds::{AfterRound, round, run};
pub use sum::{Entry, Sum};
pub use threads::crew;
pub use tools::{Desk, Queue, Seated, SmallNumbers, Tools, add};
