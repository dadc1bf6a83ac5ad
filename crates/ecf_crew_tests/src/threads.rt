//! The threads.
ghost use Rattle.std.specs.Prelude.{◌≡◌, ◌+◌, ◌-◌, ◌/◌, ◌<◌, ◌≤◌, IfSome};
ghost use mathlib.Core.List.{IsPrefix};
ghost use Rattle.std.specs.Thread.{IsSync};
ghost use Rattle.ecf_turnstile.specs.Seats.{seen_by};
ghost use Rattle.ecf_handoff.specs.Handoffs.{IsPass, account_of};
ghost use Rattle.ecf_crew_tests.specs.Crews.{AreTools};

use crate::tools::{Desk, Queue, Tools, add};
use ecf_handoff::Pass;
use std::sync::Wait;
use std::sync::ledger::Ledger;
use std::thread;
use std::thread::Threads;

/// Hands a number in and takes one. Where the queue is full the number itself comes back.
fn exchange<R: Wait>(
    rt: &R,
    queue: &Queue,
    pass: Pass<u64>,
    number: u64,
) -> (Pass<u64>, Option<u64>)
    requires pass { IsPass queue.now pass }
    requires number { number < 1000 }
    ensures pass { IsPass queue.now result.0 × ((account_of result.0).share ≡ (account_of pass).share) }
    ensures number { IfSome result.1 (λ n. n < 1000) }
{
    match queue.hand(rt, pass, number) {
        Ok(pass) => queue.take(rt, pass),
        Err((pass, number)) => (pass, Some(number)),
    }
}

/// Puts this many numbers through the queue, and adds each that it takes.
fn work<L: Ledger, R: Wait>(
    rt: &R,
    desk: &Desk<L>,
    queue: &Queue,
    tools: Tools<L>,
    items: u64,
) -> Tools<L>
    requires { AreTools desk.now queue.now tools }
    ensures tools { AreTools desk.now queue.now result }
    ensures seen { IsPrefix (seen_by tools.seat) (seen_by result.seat) }
    ensures shares { ((account_of result.pass).share ≡ (account_of tools.pass).share) × (result.share.parts ≡ tools.share.parts) }
{
    let Tools {
        mut seat,
        mut pass,
        mut share,
    } = tools;
    for i in 0..items {
        let (after, taken) = exchange(rt, queue, pass, i % 1000);
        pass = after;
        if let Some(number) = taken {
            (seat, _) = add(rt, desk, seat, &mut share, number);
        }
    }
    Tools { seat, pass, share }
}

/// This many threads, each with tools made of these, put as many numbers each through the queue. Theirs come back as one.
pub fn crew<L: Ledger + Send + Sync, R: Threads + Wait + Sync>(
    rt: &R,
    desk: &Desk<L>,
    queue: &Queue,
    tools: Tools<L>,
    threads: u64,
    items: u64,
) -> Tools<L>
    requires tools { AreTools desk.now queue.now tools }
    requires parts { (threads ≤ (account_of tools.pass).share) × (threads ≤ tools.share.parts) }
    ensures tools { AreTools desk.entry.now queue.entry.now result }
    ensures seen { IsPrefix (seen_by tools.seat) (seen_by result.seat) }
    ensures shares { ((account_of result.pass).share ≡ (account_of tools.pass).share) × (result.share.parts ≡ tools.share.parts) }
{
    if threads < 2 {
        return work(rt, desk, queue, tools, items);
    }
    let fewer = threads / 2;
    let more = threads - fewer;
    let (ours, theirs) = halve(desk, queue, tools, fewer);
    let (ours, theirs) = thread::join(
        rt,
        move || -> Tools<L>
            requires { IsSync R.row × AreTools desk.now queue.now ours × (more ≤ (account_of ours.pass).share) × (more ≤ ours.share.parts) }
            ensures { AreTools desk.entry.now queue.entry.now result × IsPrefix (seen_by ours.seat) (seen_by result.seat)
                × ((account_of result.pass).share ≡ (account_of ours.pass).share) × (result.share.parts ≡ ours.share.parts) }
        { crew(rt, desk, queue, ours, more, items) },
        move || -> Tools<L>
            requires { IsSync R.row × AreTools desk.now queue.now theirs × (fewer ≤ (account_of theirs.pass).share) × (fewer ≤ theirs.share.parts) }
            ensures { AreTools desk.entry.now queue.entry.now result × IsPrefix (seen_by theirs.seat) (seen_by result.seat)
                × ((account_of result.pass).share ≡ (account_of theirs.pass).share) × (result.share.parts ≡ theirs.share.parts) }
        { crew(rt, desk, queue, theirs, fewer, items) },
    );
    unite(desk, queue, ours, theirs)
}

/// Tools for two: the second get this many parts of the ledger, and half of the pass's share.
fn halve<L: Ledger>(
    desk: &Desk<L>,
    queue: &Queue,
    tools: Tools<L>,
    parts: u64,
) -> (Tools<L>, Tools<L>)
    requires tools { AreTools desk.now queue.now tools }
    requires parts { (0 < parts) × (parts < tools.share.parts) × (2 ≤ (account_of tools.pass).share) }
    ensures tools { AreTools desk.now queue.now result.0 × AreTools desk.now queue.now result.1 }
    ensures seen { (seen_by result.0.seat ≡ seen_by tools.seat) × (seen_by result.1.seat ≡ seen_by tools.seat) }
    ensures parts { (result.0.share.parts + parts ≡ tools.share.parts) × (result.1.share.parts ≡ parts) }
    ensures shares { let share = (account_of tools.pass).share in
        ((account_of result.0.pass).share ≡ share - share / 2) × ((account_of result.1.pass).share ≡ share / 2) }
{
    let Tools {
        seat,
        pass,
        mut share,
    } = tools;
    let (seat, second_seat) = desk.split(seat);
    let (pass, second_pass) = queue.split(pass);
    let second_share = share.split_off(parts, 0);
    let ours = Tools { seat, pass, share };
    let theirs = Tools {
        seat: second_seat,
        pass: second_pass,
        share: second_share,
    };
    (ours, theirs)
}

/// One thread's tools in place of two's.
fn unite<L: Ledger>(desk: &Desk<L>, queue: &Queue, ours: Tools<L>, theirs: Tools<L>) -> Tools<L>
    requires tools { AreTools desk.now queue.now ours × AreTools desk.now queue.now theirs }
    ensures tools { AreTools desk.now queue.now result }
    ensures seen { IsPrefix (seen_by ours.seat) (seen_by result.seat) × IsPrefix (seen_by theirs.seat) (seen_by result.seat) }
    ensures shares { ((account_of result.pass).share ≡ (account_of ours.pass).share + (account_of theirs.pass).share)
        × (result.share.parts ≡ ours.share.parts + theirs.share.parts) }
{
    let Tools {
        seat,
        pass,
        mut share,
    } = ours;
    share.merge(theirs.share);
    Tools {
        seat: desk.join(seat, theirs.seat),
        pass: queue.join(pass, theirs.pass),
        share,
    }
}
