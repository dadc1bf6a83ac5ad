//! What no clause of the queue says where several passes are out: that it has 32 places by whichever pass, and that
//! calls far from full and empty aren't refused.
ghost use Rattle.std.specs.Prelude.{◌≡◌, ◌≤◌, IfOk};
ghost use Rattle.std.specs.Thread.{IsSync};
ghost use Rattle.ecf_handoff.specs.Handoffs.{IsPass, account_of};

use crate::tools::Queue;
use ecf_handoff::{PLACES, Pass};
use std::alloc::{AllocError, Global};
use std::sync::Wait;
use std::test::*;
use std::thread;
use std::thread::Threads;

/// Hands in 0, 1, 2 and so on until one is refused, this many at most. Gives what was refused.
fn fill<R: Wait>(rt: &R, queue: &Queue, pass: Pass<u64>, most: u64) -> (Pass<u64>, Option<u64>)
    requires pass { IsPass queue.now pass }
    requires most { most ≤ 1000 }
    ensures pass { IsPass queue.now result.0 }
    ensures share { (account_of result.0).share ≡ (account_of pass).share }
{
    let mut pass = pass;
    for number in 0..most {
        match queue.hand(rt, pass, number) {
            Ok(after) => pass = after,
            Err((after, refused)) => return (after, Some(refused)),
        }
    }
    (pass, None)
}

/// Takes until there is none, 100 at most. Gives what was taken.
fn drain<R: Wait>(
    rt: &R,
    alloc: Global,
    queue: &Queue,
    pass: Pass<u64>,
) -> Result<(Pass<u64>, Vec<u64>), AllocError>
    requires { IsPass queue.now pass }
    ensures { IfOk result (λ after. IsPass queue.now after.0) }
{
    let mut pass = pass;
    let mut taken = Vec::new(alloc);
    for _ in 0..100 {
        let (after, number) = queue.take(rt, pass);
        pass = after;
        let Some(number) = number else { break };
        taken.push(number)?;
    }
    Ok((pass, taken))
}

/// The numbers below this one.
fn numbers(alloc: Global, count: u64) -> Result<Vec<u64>, AllocError> {
    let mut all = Vec::new(alloc);
    for number in 0..count {
        all.push(number)?;
    }
    Ok(all)
}

#[test]
fn a_split_pass_finds_32_places_and_the_other_their_items(rt: HostRuntime) -> Result<(), Fail> {
    let alloc = rt.alloc();
    let (queue, pass) = Queue::new(alloc)?;
    let (first, second) = queue.split(pass);
    let (second, refused) = fill(&rt, &queue, second, 100);
    assert_eq!(rt; refused, Some(PLACES as u64));
    let (first, taken) = drain(&rt, alloc, &queue, first)?;
    assert_eq!(rt; taken.as_slice(), numbers(alloc, PLACES as u64)?.as_slice());
    let (_second, refused) = fill(&rt, &queue, second, 5);
    assert_eq!(rt; refused, None);
    let left = queue.close(&rt, alloc, first).map_err(|_| AllocError)?;
    assert_eq!(rt; left.as_slice(), numbers(alloc, 5)?.as_slice());
    Ok(())
}

/// Hands a number in and takes one, this many times. How many of the calls were refused or found nothing.
fn failures_of<R: Wait>(rt: &R, queue: &Queue, pass: Pass<u64>, times: u64) -> u64
    requires { IsPass queue.now pass }
{
    let mut pass = pass;
    let mut failures = 0u64;
    for i in 0..times {
        match queue.hand(rt, pass, i % 1000) {
            Ok(after) => pass = after,
            Err((after, _refused)) => {
                pass = after;
                failures = failures.saturating_add(1);
            }
        }
        let (after, number) = queue.take(rt, pass);
        pass = after;
        if number.is_none() {
            failures = failures.saturating_add(1);
        }
    }
    failures
}

/// Two threads with a queue of 8 numbers, each of which hands in before it takes: at any moment there are 8 to 10.
fn failures_of_two<R: Threads + Wait + Sync>(
    rt: &R,
    alloc: Global,
    times: u64,
) -> Result<u64, AllocError> {
    let (queue, pass) = Queue::new(alloc)?;
    let (pass, _none) = fill(rt, &queue, pass, 8);
    let (first, second) = queue.split(pass);
    let queue = &queue;
    let (ours, theirs) = thread::join(
        rt,
        move || -> u64
            requires { IsSync R.row × IsPass queue.now first }
        { failures_of(rt, queue, first, times) },
        move || -> u64
            requires { IsSync R.row × IsPass queue.now second }
        { failures_of(rt, queue, second, times) },
    );
    Ok(ours.saturating_add(theirs))
}

#[test]
fn far_from_full_and_empty_no_call_fails(rt: HostRuntime) -> Result<(), Fail> {
    assert_eq!(rt; failures_of_two(&rt, rt.alloc(), 10_000)?, 0);
    Ok(())
}
