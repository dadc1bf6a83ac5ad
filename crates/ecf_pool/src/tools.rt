//! What a thread owns, and what it does next.

use ecf_draft::{Draft, Work};
use ecf_handoff::Pass;

/// What a thread owns: a seat at the desk, and a pass of the queue.
#[derive(Drop)]
pub(crate) struct Tools<S> {
    pub seat: S,
    pub pass: Pass<Draft>,
}

/// What a thread does when it finds both a row and a draft.
#[derive(Clone, Copy, Debug, PartialEq, Eq)]
pub(crate) enum Role {
    /// It claims the row.
    Worker,
    /// It takes the draft.
    Monitor,
}

/// What a thread is to do.
#[derive(Drop)]
pub(crate) enum Todo {
    /// To find a row or a draft.
    Find,
    /// To run the row that it has claimed.
    Run(Work),
    /// To judge the draft that it has taken.
    Judge(Draft),
}

/// How it goes on.
#[derive(Drop)]
pub(crate) enum Step {
    /// With this.
    Go(Todo),
    /// It found nothing, and tries again a little later.
    Rest,
    /// Not at all.
    End {
        /// Because it was told to quit.
        gave_up: bool,
    },
}

/// What is left of a thread that has ended.
#[derive(Drop)]
pub(crate) struct Ended<S> {
    pub tools: Tools<S>,
    /// It was told to quit.
    pub gave_up: bool,
}
