//! A crew: workers and monitors that work side by side.
ghost use Rattle.std.specs.Prelude.{◌≡◌, ◌+◌, ◌-◌, ◌/◌, ◌<◌, ◌≤◌, All, IfOk, IsTrue, true};
ghost use Rattle.ecf_handoff.specs.declared.limits.TheConstants.{WHOLE_SHARE};
ghost use Rattle.ecf_lang.specs.declared.limits.TheConstants.{MAX_MONITORS, MAX_WORKERS};
ghost use Rattle.ecf_pool.specs.Members.{IsMember};
ghost use Rattle.ecf_pool.specs.Places.{AreToolsAt, IsPlace, share_of};
ghost use Rattle.ecf_pool.specs.TurnDesks.{setup_of, IsSeatAt};

use crate::drafts::DraftJob;
use crate::tools::{Role, Tools};
use crate::turn_desk::{BookSeat, TurnDesk};
use crate::workplace::Workplace;
use ecf_edge::{Gate, Quit};
use std::alloc::{AllocError, Global};
use std::sync::Wait;
use std::thread;
use std::thread::Threads;

/// A thread of a crew, with its tools until it starts.
#[derive(Drop)]
pub(crate) struct Member {
    pub role: Role,
    pub tools: Option<Tools<BookSeat>>,
    /// It was told to quit.
    pub gave_up: bool,
}

/// So many workers and monitors work side by side until all have ended. Whether one of them was told to quit.
pub(crate) fn crew<
    'a,
    J: DraftJob + Send + Sync,
    G: Gate + Sync,
    Q: Quit + Sync,
    R: Threads + Wait + Sync,
>(
    rt: &R,
    place: &Workplace<'a, TurnDesk, J, G, Q>,
    tools: Tools<BookSeat>,
    workers: usize,
    monitors: usize,
) -> Result<bool, AllocError>
    requires place { IsPlace setup_of J.setup place.now }
    requires tools { AreToolsAt IsSeatAt place.now tools }
    requires share { share_of tools ≡ WHOLE_SHARE }
    requires few { (workers ≤ MAX_WORKERS) × (monitors ≤ MAX_MONITORS) }
    ensures { IfOk result (λ gave_up. gave_up ≡ true → Q.may place.now.quit.now) }
{
    let mut members = hire(place, tools, workers, workers + monitors)?;
    employ(rt, place, members.as_mut_slice());
    Ok(some_gave_up(place, members.as_slice()))
}

// A member for each thread, with a seat and a part of the share. The first are workers, the others monitors.
fn hire<'a, J: DraftJob, G, Q: Quit>(
    place: &Workplace<'a, TurnDesk, J, G, Q>,
    tools: Tools<BookSeat>,
    workers: usize,
    threads: usize,
) -> Result<Vec<Member>, AllocError>
    requires tools { AreToolsAt IsSeatAt place.now tools }
    requires share { share_of tools ≡ WHOLE_SHARE }
    requires few { threads ≤ MAX_WORKERS + MAX_MONITORS }
    ensures { IfOk result (λ members. All (IsMember Q.may place.now) members.items) }
{
    let mut members = Vec::with_capacity(place.alloc, threads)?;
    let mut tools = tools;
    for thread in 0..threads {
        let (rest, own) = halve(place, tools);
        tools = rest;
        members.push_reserved(Member {
            role: role_of(thread, workers),
            tools: Some(own),
            gave_up: false,
        });
    }
    Ok(members)
}

// What the thread with this number does first.
fn role_of(thread: usize, workers: usize) -> Role {
    if thread < workers {
        Role::Worker
    } else {
        Role::Monitor
    }
}

// Tools for two: the second get half of the share, rounded down.
fn halve<'a, J: DraftJob, G, Q>(
    place: &Workplace<'a, TurnDesk, J, G, Q>,
    tools: Tools<BookSeat>,
) -> (Tools<BookSeat>, Tools<BookSeat>)
    requires tools { AreToolsAt IsSeatAt place.now tools }
    requires share { 2 ≤ share_of tools }
    ensures tools { AreToolsAt IsSeatAt place.now result.0 × AreToolsAt IsSeatAt place.now result.1 }
    ensures first { share_of result.0 ≡ share_of tools - share_of tools / 2 }
{
    let Tools { seat, pass } = tools;
    let (seat, second_seat) = place.desk.split(seat);
    let (pass, second_pass) = place.queue.split(pass);
    let ours = Tools { seat, pass };
    let theirs = Tools {
        seat: second_seat,
        pass: second_pass,
    };
    (ours, theirs)
}

// Each member works in a thread of its own, until all have ended.
fn employ<'a, J: DraftJob + Send + Sync, G: Gate + Sync, Q: Quit + Sync, R: Threads + Wait + Sync>(
    rt: &R,
    place: &Workplace<'a, TurnDesk, J, G, Q>,
    members: &mut [Member],
)
    requires place { IsPlace setup_of J.setup place.now }
    requires members { All (IsMember Q.may place.now) members.old }
    ensures { All (IsMember Q.may place.now) members.new }
{
    let threads = members.len();
    if threads > 0 {
        thread::for_each_mut(
            rt,
            members,
            threads,
            &|_, member| { take_part(rt, place, member) },
        );
    }
}

// A member works to its end.
fn take_part<'a, J: DraftJob, G: Gate, Q: Quit, R: Wait>(
    rt: &R,
    place: &Workplace<'a, TurnDesk, J, G, Q>,
    member: &mut Member,
)
    requires place { IsPlace setup_of J.setup place.now }
    requires member { IsMember Q.may place.now member.old }
    ensures { IsMember Q.may place.now member.new }
{
    if let Some(tools) = member.tools.take() {
        member.gave_up = place.work(rt, member.role, tools).gave_up;
    }
}

// Whether a member was told to quit.
fn some_gave_up<'a, J: DraftJob, G, Q: Quit>(
    place: &Workplace<'a, TurnDesk, J, G, Q>,
    members: &[Member],
) -> bool
    requires { All (IsMember Q.may place.now) members.now }
    ensures { IsTrue result → Q.may place.now.quit.now }
{
    for member in members {
        if member.gave_up {
            return true;
        }
    }
    false
}
