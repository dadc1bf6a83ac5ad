//! The desk over a turnstile: each call has the book in a turn of its own, which lasts for that call alone.
ghost use Rattle.std.specs.Prelude.{◌≡◌, ◌<◌, length, slice_get, Some, IfOk, IfErr};
ghost use Rattle.std.specs.Arc.{arc_value};
ghost use mathlib.Core.List.{IsPrefix};
ghost use Rattle.ecf_book.specs.Answering.{said_by_claim, said_by_commit, said_by_here, said_by_release};
ghost use Rattle.ecf_book.specs.Recorded.{opening_of};
ghost use Rattle.ecf_book.specs.Works.{GivesWork, GivesBack};
ghost use Rattle.ecf_book.specs.declared.setup.Setup.{Setup};
ghost use Rattle.ecf_core.specs.Calls.{claim, commit, commit_here, release};
ghost use Rattle.ecf_core.specs.Seats.{HasCalled, join_seats, split_seat};
ghost use Rattle.ecf_draft.specs.Drafts.{IsJudgedUnder};
ghost use Rattle.ecf_turnstile.specs.Histories.{StandIn, AreApart};
ghost use Rattle.ecf_turnstile.specs.Seats.{seen_by, own_of};
ghost use Rattle.ecf_turnstile.specs.Turnstiles.{first_value, IsSeatOf};
ghost use Rattle.ecf_pool.specs.Turns.{as_seat, seen_book, Answers};
ghost use Rattle.ecf_pool.specs.Works.{IsClaimFor, IsCommitFor};

use crate::desk::Desk;
use ecf_book::{Book, Claim, Commit, Here, Release};
use ecf_core::each_call_adds_one;
use ecf_draft::Judged;
use ecf_turnstile::{Seat, Turnstile};
use std::alloc::{AllocError, Global};
use std::sync::Wait;

/// A thread's part in the desk. It has no bytes.
pub type BookSeat = Seat<Book>;

/// A book, with a turn for each thread that waits for it.
#[derive(Drop)]
pub struct TurnDesk {
    turnstile: Turnstile<Book>,
}

impl TurnDesk {
    ghost use Rattle.ecf_pool.specs.TurnDesks.{setup_of, IsSeatAt};

    /// A desk over the book, and its first seat. Where memory is wanting the book comes back.
    pub fn new(alloc: Global, book: Book) -> Result<(TurnDesk, BookSeat), (Book, AllocError)>
        ensures setup { IfOk result (λ made. setup_of made.0 ≡ book.setup) }
        ensures seat { IfOk result (λ made. IsSeatAt made.0 made.1) }
        ensures seen { IfOk result (λ made. seen_by made.1 ≡ book.entries) }
        ensures no_memory { IfErr result (λ refused. refused.0 ≡ book) }
    {
        let (turnstile, seat) = Turnstile::new(alloc, book)?;
        Ok((TurnDesk { turnstile }, seat))
    }

    /// A second seat, which has seen as much. The entries of its own calls stay with the first.
    pub fn split(&self, seat: BookSeat) -> (BookSeat, BookSeat)
        requires { IsSeatAt self.now seat }
        ensures seats { IsSeatAt self.now result.0 × IsSeatAt self.now result.1 }
        ensures split { (as_seat result.0, as_seat result.1) ≡ split_seat (as_seat seat) }
    {
        self.turnstile.split(seat)
    }

    /// One seat in place of two. Of what the two have seen it has the longer, and it has the entries of both.
    pub fn join(&self, seat: BookSeat, other: BookSeat) -> BookSeat
        requires seats { IsSeatAt self.now seat × IsSeatAt self.now other }
        ensures seat { IsSeatAt self.now result }
        ensures joined { as_seat result ≡ join_seats (as_seat seat) (as_seat other) }
        ensures begins { IsPrefix (seen_by seat) (seen_by result) × IsPrefix (seen_by other) (seen_by result) }
    {
        self.turnstile.join(seat, other)
    }

    /// Waits for the turn, and takes the book out for good. The seat that comes back tells which entries were its own.
    pub fn close<R: Wait>(self, rt: &R, seat: BookSeat) -> (Book, BookSeat)
        requires { IsSeatAt self seat }
        ensures setup { result.0.setup ≡ setup_of self }
        ensures history { IsPrefix (seen_by seat) result.0.entries }
        ensures seen { seen_by result.1 ≡ result.0.entries }
        ensures own { own_of result.1 ≡ own_of seat }
        ensures places { StandIn result.0.entries (own_of seat) × AreApart (own_of seat) }
    {
        let TurnDesk { turnstile } = self;
        turnstile.close(rt, seat)
    }
}

impl Desk for TurnDesk {
    ghost use Rattle.ecf_pool.specs.TurnDesks.{setup_of, IsSeatAt};

    type Seat = BookSeat;

    ghost setup = { setup_of };

    ghost is_seat = { IsSeatAt };

    fn claim<R: Wait>(&self, rt: &R, seat: BookSeat) -> (BookSeat, Claim)
        requires { IsSeatAt self.now seat }
        ensures seat { IsSeatAt self.entry.now result.0 }
        ensures answer { let o = opening_of (setup_of self.entry.now) in
            Answers o (claim o) (said_by_claim result.1) (as_seat seat) (as_seat result.0) }
        ensures work { GivesWork (seen_book (setup_of self.entry.now) (as_seat result.0)) result.1 }
        ensures of_row { IsClaimFor (setup_of self.entry.now) result.1 }
    {
        each_call_adds_one();
        let mut turn = self.turnstile.enter(rt, seat);
        let claim = turn.value.claim();
        turn.value.know_history();
        (turn.leave(), claim)
    }

    fn commit<R: Wait>(&self, rt: &R, seat: BookSeat, judged: Judged) -> (BookSeat, Commit)
        requires seat { IsSeatAt self.now seat }
        requires tx { slice_get (setup_of self.now).txs judged.row ≡ Some (arc_value judged.tx) }
        requires under_contract { IsJudgedUnder (setup_of self.now).typed judged }
        ensures seat { IsSeatAt self.entry.now result.0 }
        ensures answer { let o = opening_of (setup_of self.entry.now) in
            Answers o (λ b. commit b judged.row judged.ticket judged.reads) (said_by_commit result.1) (as_seat seat) (as_seat result.0) }
        ensures gives_back { GivesBack (seen_book (setup_of self.entry.now) (as_seat result.0)) judged result.1 }
        ensures back { IsCommitFor (setup_of self.entry.now) judged result.1 }
    {
        each_call_adds_one();
        let mut turn = self.turnstile.enter(rt, seat);
        let commit = turn.value.commit(judged);
        (turn.leave(), commit)
    }

    fn commit_here<R: Wait>(
        &self,
        rt: &R,
        alloc: Global,
        seat: BookSeat,
        row: u32,
        ticket: u32,
    ) -> (BookSeat, Here)
        requires seat { IsSeatAt self.now seat }
        requires row { row < length (setup_of self.now).txs }
        ensures seat { IsSeatAt self.entry.now result.0 }
        ensures answer { let o = opening_of (setup_of self.entry.now) in
            Answers o (λ b. commit_here b row ticket) (said_by_here result.1) (as_seat seat) (as_seat result.0) }
    {
        each_call_adds_one();
        let mut turn = self.turnstile.enter(rt, seat);
        let here = turn.value.commit_here(alloc, row, ticket);
        (turn.leave(), here)
    }

    fn release<R: Wait>(&self, rt: &R, seat: BookSeat, row: u32, ticket: u32) -> (BookSeat, Release)
        requires seat { IsSeatAt self.now seat }
        requires row { row < length (setup_of self.now).txs }
        ensures seat { IsSeatAt self.entry.now result.0 }
        ensures answer { let o = opening_of (setup_of self.entry.now) in
            HasCalled o (λ b. release b row ticket) (said_by_release result.1) (as_seat seat) (as_seat result.0) }
    {
        each_call_adds_one();
        let mut turn = self.turnstile.enter(rt, seat);
        let release = turn.value.release(row, ticket);
        (turn.leave(), release)
    }
}
