ghost use Rattle.std.specs.Prelude.{◌<◌};

use super::*;
use std::alloc::{AllocError, Global};
use std::sync::Wait;
use std::test::*;
use std::thread::Threads;

/// How many numbers were added or are left, the sum of all of them, and whether the last reply is the sum of what was
/// added.
fn totals<R: Threads + Wait + Sync>(
    rt: &R,
    alloc: Global,
    limit: u64,
    threads: u32,
    items: u64,
) -> Result<(usize, u64, bool), AllocError>
    requires { 0 < threads }
{
    let (entries, left) = run(rt, alloc, limit, 7, threads as u64, items)?;
    let added = entries
        .iter()
        .fold(0u64, |sum, e| sum.wrapping_add(e.amount));
    let rest = left.iter().fold(0u64, |sum, n| sum.wrapping_add(*n));
    let fits = entries.last().is_some_and(|e| e.reply == added);
    Ok((
        entries.len().wrapping_add(left.len()),
        added.wrapping_add(rest),
        fits,
    ))
}

#[test]
fn one_thread(rt: HostRuntime) -> Result<(), Fail> {
    let found = totals(&rt, rt.alloc(), u64::MAX, 1, 10_000)?;
    assert_eq!(rt; found, (10_001, 4_995_007, true));
    Ok(())
}

#[test]
fn two_threads(rt: HostRuntime) -> Result<(), Fail> {
    let found = totals(&rt, rt.alloc(), u64::MAX, 2, 5_000)?;
    assert_eq!(rt; found, (10_001, 4_995_007, true));
    Ok(())
}

#[test]
fn four_threads(rt: HostRuntime) -> Result<(), Fail> {
    let found = totals(&rt, rt.alloc(), u64::MAX, 4, 2_500)?;
    assert_eq!(rt; found, (10_001, 4_495_007, true));
    Ok(())
}

#[test]
fn sixteen_threads(rt: HostRuntime) -> Result<(), Fail> {
    let found = totals(&rt, rt.alloc(), u64::MAX, 16, 625)?;
    assert_eq!(rt; found, (10_001, 3_120_007, true));
    Ok(())
}

// The sums 7, 7, 8, 10 and so on up to 472 are within 500, and 503 is not: 31 numbers are added, and each later turn adds none.
#[test]
fn turns_that_add_nothing(rt: HostRuntime) -> Result<(), Fail> {
    let found = totals(&rt, rt.alloc(), 500, 1, 1_000)?;
    assert_eq!(rt; found, (32, 472, true));
    Ok(())
}
