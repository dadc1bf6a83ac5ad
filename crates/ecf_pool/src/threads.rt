//! The threads: each does its steps until there is nothing more to do.
ghost use Rattle.std.specs.Prelude.{◌≡◌, ◌≤◌, length};
ghost use Rattle.ecf_handoff.specs.Handoffs.{IsPass, account_of};
ghost use Rattle.ecf_lang.specs.declared.limits.TheConstants.{MAX_OBJECTS};
ghost use Rattle.ecf_pool.specs.Ends.{HasEnded};
ghost use Rattle.ecf_pool.specs.Places.{AreToolsAt, IsPlace};

use crate::desk::Desk;
use crate::drafts::{DraftJob, Queue};
use crate::tools::{Ended, Role, Step, Todo, Tools};
use crate::workplace::Workplace;
use crossbeam_utils::Backoff;
use ecf_draft::Draft;
use ecf_edge::{Gate, NeverQuit, Quit};
use ecf_handoff::Pass;
use ecf_lang::typed::Typed;
use std::alloc::Global;
use std::sync::Wait;
use std::thread;

impl<'a, D: Desk, J: DraftJob, G: Gate, Q: Quit> Workplace<'a, D, J, G, Q> {
    /// Does the thread's steps to the last. A thread that found nothing lets others go first for a little while.
    pub fn work<R: Wait>(&self, rt: &R, role: Role, tools: Tools<D::Seat>) -> Ended<D::Seat>
        requires place { IsPlace D.setup J.setup self.now }
        requires tools { AreToolsAt D.is_seat self.now tools }
        ensures { HasEnded D.is_seat Q.may self.entry.now tools result }
    {
        let backoff = Backoff::new();
        let mut tools = tools;
        let mut todo = Todo::Find;
        for _ in rt.forever() {
            let (after, step) = self.step(rt, role, tools, todo);
            tools = after;
            match step {
                Step::Go(next) => {
                    backoff.reset();
                    todo = next;
                }
                Step::Rest => {
                    backoff.snooze();
                    thread::yield_now();
                    todo = Todo::Find;
                }
                Step::End { gave_up } => return Ended { tools, gave_up },
            }
        }
        unreachable!()
    }
}

/// Claims rows, runs them and hands the drafts over; where there is no row to claim, takes a draft, judges and commits it. Ends
/// where there is neither any more, or where memory is wanting.
pub fn worker<D: Desk, J: DraftJob, G: Gate, R: Wait>(
    rt: &R,
    alloc: Global,
    typed: &Typed,
    desk: &D,
    seat: D::Seat,
    queue: &Queue<J>,
    pass: Pass<Draft>,
    gate: &G,
) -> (D::Seat, Pass<Draft>)
    requires limits { length typed.now.objects ≤ MAX_OBJECTS }
    requires contract { (D.setup desk.now).typed ≡ typed.now }
    requires drafts { J.setup ≡ D.setup desk.now }
    requires seat { D.is_seat desk.now seat }
    requires pass { IsPass queue.now pass }
    ensures seat { D.is_seat desk.entry.now result.0 }
    ensures pass { IsPass queue.entry.now result.1 }
    ensures share { (account_of result.1).share ≡ (account_of pass).share }
{
    let place = Workplace {
        alloc,
        typed,
        desk,
        queue,
        gate,
        quit: &NeverQuit,
    };
    let ended = place.work(rt, Role::Worker, Tools { seat, pass });
    (ended.tools.seat, ended.tools.pass)
}

/// Takes drafts, judges and commits them; where there is none, claims a row as a worker does. Ends where there is neither any
/// more, or where memory is wanting.
pub fn monitor<D: Desk, J: DraftJob, G: Gate, R: Wait>(
    rt: &R,
    alloc: Global,
    typed: &Typed,
    desk: &D,
    seat: D::Seat,
    queue: &Queue<J>,
    pass: Pass<Draft>,
    gate: &G,
) -> (D::Seat, Pass<Draft>)
    requires limits { length typed.now.objects ≤ MAX_OBJECTS }
    requires contract { (D.setup desk.now).typed ≡ typed.now }
    requires drafts { J.setup ≡ D.setup desk.now }
    requires seat { D.is_seat desk.now seat }
    requires pass { IsPass queue.now pass }
    ensures seat { D.is_seat desk.entry.now result.0 }
    ensures pass { IsPass queue.entry.now result.1 }
    ensures share { (account_of result.1).share ≡ (account_of pass).share }
{
    let place = Workplace {
        alloc,
        typed,
        desk,
        queue,
        gate,
        quit: &NeverQuit,
    };
    let ended = place.work(rt, Role::Monitor, Tools { seat, pass });
    (ended.tools.seat, ended.tools.pass)
}
