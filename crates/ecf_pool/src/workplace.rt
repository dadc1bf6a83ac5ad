//! What a thread does, step by step: it claims or takes, runs, hands over, judges and commits.
ghost use Rattle.std.specs.Prelude.{◌≡◌, ◌<◌, length, true, IsTrue, IfSome};
ghost use Rattle.ecf_handoff.specs.Handoffs.{IsPass, account_of};
ghost use Rattle.ecf_pool.specs.Works.{IsDraftOf, IsJudgedOf, IsWorkFor};
ghost use Rattle.ecf_pool.specs.Places.{AreToolsAt, IsPlace, IsStep, IsTodo, MayFollow};

use crate::desk::Desk;
use crate::drafts::{DraftJob, Queue};
use crate::tools::{Role, Step, Todo, Tools};
use ecf_book::{Claim, Commit, Here};
use ecf_draft::{Draft, Judged, Work, decide};
use ecf_edge::{Gate, Point, Quit};
use ecf_lang::typed::Typed;
use std::alloc::{AllocError, Global};
use std::sync::Wait;

/// What the threads of a round share.
#[derive(Drop)]
pub(crate) struct Workplace<'a, D, J: DraftJob, G, Q> {
    pub alloc: Global,
    pub typed: &'a Typed,
    pub desk: &'a D,
    pub queue: &'a Queue<J>,
    pub gate: &'a G,
    pub quit: &'a Q,
}

impl<'a, D: Desk, J: DraftJob, G: Gate, Q: Quit> Workplace<'a, D, J, G, Q> {
    // Comes to a point, where the gate may hold the thread. Whether the thread is to give up there.
    fn gives_up_at(&self, point: Point) -> bool
        ensures { IsTrue result → Q.may self.entry.now.quit.now }
    {
        self.gate.at(point);
        self.quit.quits(point)
    }

    /// The thread's next step.
    pub fn step<R: Wait>(
        &self,
        rt: &R,
        role: Role,
        tools: Tools<D::Seat>,
        todo: Todo,
    ) -> (Tools<D::Seat>, Step)
        requires place { IsPlace D.setup J.setup self.now }
        requires tools { AreToolsAt D.is_seat self.now tools }
        requires todo { IsTodo (D.setup self.now.desk.now) todo }
        ensures { IsStep D.is_seat D.setup Q.may self.entry.now tools result }
    {
        match todo {
            Todo::Find => self.find(rt, role, tools),
            Todo::Run(work) => self.run(rt, tools, work),
            Todo::Judge(draft) => self.judge(rt, tools, draft),
        }
    }

    // Claims a row and takes a draft, in the order of the role, until it has one.
    fn find<R: Wait>(&self, rt: &R, role: Role, tools: Tools<D::Seat>) -> (Tools<D::Seat>, Step)
        requires place { IsPlace D.setup J.setup self.now }
        requires tools { AreToolsAt D.is_seat self.now tools }
        ensures { IsStep D.is_seat D.setup Q.may self.entry.now tools result }
    {
        match role {
            Role::Worker => self.claim_first(rt, tools),
            Role::Monitor => self.take_first(rt, tools),
        }
    }

    // Claims a row, or else takes a draft.
    fn claim_first<R: Wait>(&self, rt: &R, tools: Tools<D::Seat>) -> (Tools<D::Seat>, Step)
        requires place { IsPlace D.setup J.setup self.now }
        requires tools { AreToolsAt D.is_seat self.now tools }
        ensures { IsStep D.is_seat D.setup Q.may self.entry.now tools result }
    {
        let Tools { seat, pass } = tools;
        let (seat, claim) = self.desk.claim(rt, seat);
        let tools = Tools { seat, pass };
        match claim {
            Claim::Work(work) => (tools, Step::Go(Todo::Run(work))),
            Claim::Later => self.take_or(rt, tools, Step::Rest),
            Claim::Over => self.take_or(rt, tools, Step::End { gave_up: false }),
            Claim::NoMemory => (tools, Step::End { gave_up: false }),
        }
    }

    // Takes a draft. Where there is none it goes on otherwise.
    fn take_or<R: Wait>(
        &self,
        rt: &R,
        tools: Tools<D::Seat>,
        otherwise: Step,
    ) -> (Tools<D::Seat>, Step)
        requires place { IsPlace D.setup J.setup self.now }
        requires tools { AreToolsAt D.is_seat self.now tools }
        requires otherwise { MayFollow (D.setup self.now.desk.now) (Q.may self.now.quit.now) otherwise }
        ensures { IsStep D.is_seat D.setup Q.may self.entry.now tools result }
    {
        let Tools { seat, pass } = tools;
        let (pass, draft) = self.queue.take(rt, pass);
        let tools = Tools { seat, pass };
        match draft {
            Some(draft) => (tools, Step::Go(Todo::Judge(draft))),
            None => (tools, otherwise),
        }
    }

    // Takes a draft, or else claims a row.
    fn take_first<R: Wait>(&self, rt: &R, tools: Tools<D::Seat>) -> (Tools<D::Seat>, Step)
        requires place { IsPlace D.setup J.setup self.now }
        requires tools { AreToolsAt D.is_seat self.now tools }
        ensures { IsStep D.is_seat D.setup Q.may self.entry.now tools result }
    {
        let Tools { seat, pass } = tools;
        let (pass, draft) = self.queue.take(rt, pass);
        let tools = Tools { seat, pass };
        match draft {
            Some(draft) => (tools, Step::Go(Todo::Judge(draft))),
            None => self.claim(rt, tools),
        }
    }

    // Claims a row. There may be none now, and none any more.
    fn claim<R: Wait>(&self, rt: &R, tools: Tools<D::Seat>) -> (Tools<D::Seat>, Step)
        requires place { IsPlace D.setup J.setup self.now }
        requires tools { AreToolsAt D.is_seat self.now tools }
        ensures { IsStep D.is_seat D.setup Q.may self.entry.now tools result }
    {
        let Tools { seat, pass } = tools;
        let (seat, claim) = self.desk.claim(rt, seat);
        let tools = Tools { seat, pass };
        match claim {
            Claim::Work(work) => (tools, Step::Go(Todo::Run(work))),
            Claim::Later => (tools, Step::Rest),
            Claim::Over | Claim::NoMemory => (tools, Step::End { gave_up: false }),
        }
    }

    // Runs a row that it has claimed, and hands the draft over.
    fn run<R: Wait>(&self, rt: &R, tools: Tools<D::Seat>, work: Work) -> (Tools<D::Seat>, Step)
        requires place { IsPlace D.setup J.setup self.now }
        requires tools { AreToolsAt D.is_seat self.now tools }
        requires work { IsWorkFor (D.setup self.now.desk.now) work }
        ensures { IsStep D.is_seat D.setup Q.may self.entry.now tools result }
    {
        let (row, ticket) = (work.row, work.ticket);
        if self.gives_up_at(Point::BeforeRun(row)) {
            return self.give_back(rt, tools, row, ticket, true);
        }
        match ecf_draft::draft(self.alloc, self.typed, work) {
            Ok(draft) => self.hand(rt, tools, draft),
            Err((_work, AllocError)) => self.give_back(rt, tools, row, ticket, false),
        }
    }

    // Hands a draft over. One that the queue refuses is judged on the spot.
    fn hand<R: Wait>(&self, rt: &R, tools: Tools<D::Seat>, draft: Draft) -> (Tools<D::Seat>, Step)
        requires place { IsPlace D.setup J.setup self.now }
        requires tools { AreToolsAt D.is_seat self.now tools }
        requires draft { IsDraftOf (D.setup self.now.desk.now) draft }
        ensures { IsStep D.is_seat D.setup Q.may self.entry.now tools result }
    {
        let Tools { seat, pass } = tools;
        match self.queue.hand(rt, pass, draft) {
            Ok(pass) => (Tools { seat, pass }, Step::Go(Todo::Find)),
            Err((pass, draft)) => self.judge(rt, Tools { seat, pass }, draft),
        }
    }

    // Judges a draft and commits it.
    fn judge<R: Wait>(&self, rt: &R, tools: Tools<D::Seat>, draft: Draft) -> (Tools<D::Seat>, Step)
        requires place { IsPlace D.setup J.setup self.now }
        requires tools { AreToolsAt D.is_seat self.now tools }
        requires draft { IsDraftOf (D.setup self.now.desk.now) draft }
        ensures { IsStep D.is_seat D.setup Q.may self.entry.now tools result }
    {
        let (row, ticket) = (draft.work().row, draft.work().ticket);
        if self.gives_up_at(Point::BeforeJudge(row)) {
            return self.give_back(rt, tools, row, ticket, true);
        }
        match decide(self.alloc, draft) {
            Ok(judged) => self.commit(rt, tools, judged),
            Err((_draft, AllocError)) => self.give_back(rt, tools, row, ticket, false),
        }
    }

    // Commits what was judged.
    fn commit<R: Wait>(
        &self,
        rt: &R,
        tools: Tools<D::Seat>,
        judged: Judged,
    ) -> (Tools<D::Seat>, Step)
        requires place { IsPlace D.setup J.setup self.now }
        requires tools { AreToolsAt D.is_seat self.now tools }
        requires judged { IsJudgedOf (D.setup self.now.desk.now) judged }
        ensures { IsStep D.is_seat D.setup Q.may self.entry.now tools result }
    {
        let (row, ticket) = (judged.row(), judged.ticket());
        if self.gives_up_at(Point::BeforeCommit(row)) {
            return self.give_back(rt, tools, row, ticket, true);
        }
        let Tools { seat, pass } = tools;
        let (seat, commit) = self.desk.commit(rt, seat, judged);
        let tools = Tools { seat, pass };
        match commit {
            Commit::Placed { .. } => self.placed(tools, row),
            Commit::Stale { work, .. } => (tools, Step::Go(Todo::Run(work))),
            Commit::LastStale { .. } => self.run_here(rt, tools, row, ticket),
            Commit::Gone { .. } => (tools, Step::Go(Todo::Find)),
            Commit::NoMemory(_judged) => self.give_back(rt, tools, row, ticket, false),
        }
    }

    // Has a row run in the turn, after the last of its stale commits.
    fn run_here<R: Wait>(
        &self,
        rt: &R,
        tools: Tools<D::Seat>,
        row: u32,
        ticket: u32,
    ) -> (Tools<D::Seat>, Step)
        requires place { IsPlace D.setup J.setup self.now }
        requires tools { AreToolsAt D.is_seat self.now tools }
        requires row { row < length (D.setup self.now.desk.now).txs }
        ensures { IsStep D.is_seat D.setup Q.may self.entry.now tools result }
    {
        if self.gives_up_at(Point::BeforeRun(row)) {
            return self.give_back(rt, tools, row, ticket, true);
        }
        let Tools { seat, pass } = tools;
        let (seat, here) = self.desk.commit_here(rt, self.alloc, seat, row, ticket);
        let tools = Tools { seat, pass };
        match here {
            Here::Placed { .. } => self.placed(tools, row),
            Here::Gone { .. } => (tools, Step::Go(Todo::Find)),
            Here::NoMemory => self.give_back(rt, tools, row, ticket, false),
        }
    }

    // The row was placed.
    fn placed(&self, tools: Tools<D::Seat>, row: u32) -> (Tools<D::Seat>, Step)
        requires tools { AreToolsAt D.is_seat self.now tools }
        ensures { IsStep D.is_seat D.setup Q.may self.entry.now tools result }
    {
        if self.gives_up_at(Point::AfterPlaced(row)) {
            return (tools, Step::End { gave_up: true });
        }
        (tools, Step::Go(Todo::Find))
    }

    // Gives the row back that it holds, and ends.
    fn give_back<R: Wait>(
        &self,
        rt: &R,
        tools: Tools<D::Seat>,
        row: u32,
        ticket: u32,
        gave_up: bool,
    ) -> (Tools<D::Seat>, Step)
        requires place { IsPlace D.setup J.setup self.now }
        requires tools { AreToolsAt D.is_seat self.now tools }
        requires row { row < length (D.setup self.now.desk.now).txs }
        requires cause { gave_up ≡ true → Q.may self.now.quit.now }
        ensures { IsStep D.is_seat D.setup Q.may self.entry.now tools result }
    {
        let Tools { seat, pass } = tools;
        let (seat, _freed) = self.desk.release(rt, seat, row, ticket);
        (Tools { seat, pass }, Step::End { gave_up })
    }
}
