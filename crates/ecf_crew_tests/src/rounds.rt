//! One round: desk and queue are made, the threads run, and all is taken apart again.
ghost use Rattle.std.specs.Prelude.{◌≡◌, ◌+◌, ◌<◌, ◌≤◌, ◌++◌, true, length, IfOk, IfErr, IsPermutation};
ghost use mathlib.Core.List.{IsPrefix};
ghost use Rattle.ecf_turnstile.specs.Histories.{StandIn, AreApart};
ghost use Rattle.ecf_turnstile.specs.Seats.{own_of};
ghost use Rattle.ecf_handoff.specs.Accounts.{items_of};
ghost use Rattle.ecf_handoff.specs.Content.{IsContent};
ghost use Rattle.ecf_handoff.specs.Handoffs.{account_of};
ghost use Rattle.ecf_crew_tests.specs.Sums.{is_legal};

use crate::sum::{Entry, Sum};
use crate::threads::crew;
use crate::tools::{Desk, Queue, Seated, Tools};
use ecf_handoff::{Pass, WHOLE_SHARE};
use std::alloc::{AllocError, Global};
use std::marker::Brand;
use std::snapshot::Snapshot;
use std::sync::Wait;
use std::sync::ledger::{Blank, Ledger, Share};
use std::thread::Threads;

/// What is there after a round.
#[derive(Drop)]
pub struct AfterRound<L: Ledger> {
    /// The sum, with its history.
    pub sum: Sum<L>,
    /// The last seat, which has the entries of all.
    pub seat: Seated<L>,
    /// The numbers that were left in the queue.
    pub left: Vec<u64>,
    /// The pass that closed the queue, for contracts alone.
    pub closing: Snapshot<Pass<u64>>,
}

/// As many threads put numbers through a queue and add them to the sum in turns. The share has every part of the ledger.
pub fn round<L: Ledger + Send + Sync, R: Threads + Wait + Sync>(
    rt: &R,
    alloc: Global,
    sum: Sum<L>,
    share: Share<L>,
    threads: u64,
    items: u64,
) -> Result<AfterRound<L>, (Sum<L>, AllocError)>
    requires whole { share.parts ≡ L.parts }
    requires threads { (0 < threads) × (threads < share.parts) × (threads ≤ WHOLE_SHARE) }

    // The history begins with the one that was handed in, and is legal.
    ensures limit { IfOk result (λ done. done.sum.limit ≡ sum.limit) }
    ensures begins { IfOk result (λ done. IsPrefix sum.entries.items done.sum.entries.items) }
    ensures legal { IfOk result (λ done. is_legal done.sum.limit 0 done.sum.entries.items ≡ true) }

    // Each entry of a seat stands at its place, no two at one, and each new entry is some seat's.
    ensures places { IfOk result (λ done. StandIn done.sum.entries.items (own_of done.seat) × AreApart (own_of done.seat)) }
    ensures counts { IfOk result (λ done. length done.sum.entries.items ≡ length sum.entries.items + length (own_of done.seat)) }

    // Each number that was handed in was taken once, or is left, and what is left is in the queue's order.
    ensures each_once { IfOk result (λ done. let account = account_of done.closing.value in
        IsPermutation (items_of account.handed) (items_of account.taken ++ done.left.items)) }
    ensures in_order { IfOk result (λ done. IsContent (account_of done.closing.value) done.left.items) }
    ensures no_memory { IfErr result (λ refused. (refused.0.limit ≡ sum.limit) × IsPrefix sum.entries.items refused.0.entries.items) }
{
    let mut sum = sum;
    let mut share = share;
    sum.count(&mut share);
    let Ok((queue, pass)) = Queue::new(alloc) else {
        return Err((sum, AllocError));
    };
    let (desk, seat) = Desk::<L>::new(alloc, sum)?;
    let parts = share.split_off(threads, 0);
    let tools = Tools {
        seat,
        pass,
        share: parts,
    };
    let Tools {
        seat,
        pass,
        share: parts,
    } = crew(rt, &desk, &queue, tools, threads, items);
    share.merge(parts);
    let (mut sum, seat) = desk.close(rt, seat);
    sum.count(&mut share);
    let closing = Snapshot::of(&pass);
    match queue.close(rt, alloc, pass) {
        Ok(left) => Ok(AfterRound {
            sum,
            seat,
            left,
            closing,
        }),
        Err((_queue, _pass, refused)) => Err((sum, refused)),
    }
}

/// A round with a ledger of its own, on a sum to which one amount was added before.
fn round_from<L: Ledger + Send + Sync, R: Threads + Wait + Sync>(
    rt: &R,
    alloc: Global,
    blank: Blank,
    limit: u64,
    first: u64,
    threads: u64,
    items: u64,
) -> Result<(Vec<Entry>, Vec<u64>), AllocError>
    requires blank { (blank.name ≡ L.name) × (blank.parts ≡ L.parts) }
    requires threads { (0 < threads) × (threads < blank.parts) × (threads ≤ WHOLE_SHARE) }
    ensures { IfOk result (λ done. is_legal limit 0 done.0.items ≡ true) }
{
    let (calls, mut share) = blank.open::<L>();
    let mut sum = Sum::<L>::new(alloc, limit, calls);
    let _reply = sum.add(first, &mut share);
    match round(rt, alloc, sum, share, threads, items) {
        Ok(
            AfterRound {
                sum,
                seat: _,
                left,
                closing: _,
            },
        ) => Ok((sum.into_entries(), left)),
        Err((_sum, refused)) => Err(refused),
    }
}

/// The history of a sum with this limit to which one amount was added, and then, by as many threads, all numbers that they
/// took from their queue and that it had room for; and the numbers that were left in the queue. Each thread hands in as
/// many numbers: 0, 1, 2 and so on, and 0 again after 999.
pub fn run<R: Threads + Wait + Sync>(
    rt: &R,
    alloc: Global,
    limit: u64,
    first: u64,
    threads: u64,
    items: u64,
) -> Result<(Vec<Entry>, Vec<u64>), AllocError>
    requires { (0 < threads) × (threads ≤ WHOLE_SHARE) }
    ensures { IfOk result (λ done. is_legal limit 0 done.0.items ≡ true) }
{
    round_from::<Brand, R>(
        rt,
        alloc,
        Blank::new(threads + 1),
        limit,
        first,
        threads,
        items,
    )
}
