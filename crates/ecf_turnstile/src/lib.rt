//! A turn that threads take one after the other, round a value with a history. The value lies in a slot; whoever draws
//! a ticket and is served has it alone, and puts it back with one entry more at most. A thread owns a seat, which knows
//! how far it has seen the history, and which entries are its own. It is told in pictures in docs/threads.md.
#![tactic(auto)]

mod history;
mod turnstile;
mod view;

pub use history::History;
pub use turnstile::{Turn, Turnstile};
pub use view::{Phase, Seat, TurnRule, View};
