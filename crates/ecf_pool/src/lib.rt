//! The threads over the commit book. Workers run transactions and monitors judge them; all of them make their calls on one
//! book, each call in a turn of its own. It is told in pictures in docs/threads.md.
#![tactic(auto)]

mod crew;
mod crews;
mod desk;
mod drafts;
mod rounds;
mod threads;
mod tools;
mod turn_desk;
mod workplace;

pub use crews::{Crew, Threads};
pub use desk::Desk;
pub use drafts::{DraftJob, DraftsOf, Queue};
pub use rounds::{run_round, run_round_with};
pub use threads::{monitor, worker};
pub use turn_desk::{BookSeat, TurnDesk};
