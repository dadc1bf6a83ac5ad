//! What a thread of the crew owns, and one call under the turn.
ghost use Rattle.std.specs.Prelude.{◌≡◌, ◌+◌, ◌<◌, List, [], ◌∷◌, ◌++◌, length, IfSome, IfNone};
ghost use mathlib.Core.List.{IsPrefix};
ghost use Rattle.ecf_turnstile.specs.Seats.{seen_by, own_of};
ghost use Rattle.ecf_turnstile.specs.Turnstiles.{IsSeatOf};
ghost use Rattle.ecf_crew_tests.specs.Sums.{entry, sum_of};

use crate::sum::Sum;
use ecf_handoff::{Handoff, Job, Pass};
use ecf_turnstile::{Seat, Turnstile};
use std::sync::Wait;
use std::sync::ledger::{Ledger, Share};

/// The sum, with a turn for each thread that waits for it.
pub type Desk<L> = Turnstile<Sum<L>>;

/// A seat at the desk.
pub type Seated<L> = Seat<Sum<L>>;

/// The job of the queue: numbers below 1,000.
pub struct SmallNumbers;

impl Job<u64> for SmallNumbers {
    ghost use Rattle.std.specs.Prelude.{◌<◌};

    ghost fits = { λ n. n < 1000 };
}

/// The queue between the threads.
pub type Queue = Handoff<u64, SmallNumbers>;

/// What one thread owns. Its share of the ledger counts the entries of its seat.
#[derive(Drop)]
pub struct Tools<L: Ledger> {
    pub seat: Seated<L>,
    pub pass: Pass<u64>,
    pub share: Share<L>,
}

/// Adds an amount in a turn. The reply is that of one thread alone, after the history which the seat has seen then.
pub fn add<L: Ledger, R: Wait>(
    rt: &R,
    desk: &Desk<L>,
    seat: Seated<L>,
    share: &mut Share<L>,
    amount: u64,
) -> (Seated<L>, Option<u64>)
    requires seat { IsSeatOf (λ s. s.limit) desk.now seat }
    requires share { 0 < share.old.parts }
    ensures seat { IsSeatOf (λ s. s.limit) desk.now result.0 }
    ensures seen { IsPrefix (seen_by seat) (seen_by result.0) }
    ensures added { IfSome result.1 (λ reply. (before : List _) × IsPrefix (seen_by seat) before × (reply ≡ sum_of before + amount)
        × (seen_by result.0 ≡ before ++ entry amount reply ∷ []) × (own_of result.0 ≡ own_of seat ++ (length before, entry amount reply) ∷ [])) }
    ensures refused { IfNone result.1 (own_of result.0 ≡ own_of seat) }
    ensures share { (share.new.parts ≡ share.old.parts) × (length (own_of result.0) + share.old.amount ≡ length (own_of seat) + share.new.amount) }
{
    let mut turn = desk.enter(rt, seat);
    let reply = turn.value.add(amount, share);
    (turn.leave(), reply)
}
