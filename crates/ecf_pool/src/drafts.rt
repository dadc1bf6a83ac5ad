//! The queue between workers and monitors: which drafts it is for.
ghost use Rattle.ecf_book.specs.declared.setup.Setup.{Setup};

use ecf_draft::Draft;
use ecf_handoff::{Handoff, Job};
use std::marker::PhantomData;

/// Which contract and transactions the drafts of a queue are of. It has no calls: contracts alone name it.
pub trait DraftJob {
    /// The contract and the transactions.
    ghost setup: { Setup };
}

/// The drafts of a contract and transactions.
pub struct DraftsOf<J> {
    job: PhantomData<J>,
}

impl<J: DraftJob> Job<Draft> for DraftsOf<J> {
    ghost use Rattle.ecf_pool.specs.Works.{IsDraftOf};

    ghost fits = { IsDraftOf J.setup };
}

/// The queue between workers and monitors.
pub type Queue<J> = Handoff<Draft, DraftsOf<J>>;
