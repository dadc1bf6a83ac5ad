//! A desk: where threads call a book that they share.
ghost use Rattle.std.specs.Prelude.{◌≡◌, ◌<◌, length, slice_get, Some};
ghost use Rattle.std.specs.Arc.{arc_value};
ghost use Rattle.ecf_book.specs.declared.setup.Setup.{Setup};
ghost use Rattle.ecf_draft.specs.Drafts.{IsJudgedUnder};
ghost use Rattle.ecf_pool.specs.Works.{IsClaimFor, IsCommitFor};

use ecf_book::{Claim, Commit, Here, Release};
use ecf_draft::Judged;
use std::alloc::Global;
use std::sync::Wait;

/// A book that threads share: what they may call, each with a seat of its own. The calls are those of the book, and may wait
/// for other threads.
pub trait Desk {
    /// A thread's part in the desk.
    type Seat;

    /// The contract and the transactions of the book. They never change.
    ghost setup: { Self → Setup };

    /// The seat is one of this desk's.
    ghost is_seat: { Self → Self.Seat → Type 0 };

    /// Claims the least row that may be claimed.
    fn claim<R: Wait>(&self, rt: &R, seat: Self::Seat) -> (Self::Seat, Claim)
        requires { is_seat self.now seat }
        ensures seat { is_seat self.entry.now result.0 }
        ensures work { IsClaimFor (setup self.entry.now) result.1 };

    /// Commits what was judged of a row.
    fn commit<R: Wait>(&self, rt: &R, seat: Self::Seat, judged: Judged) -> (Self::Seat, Commit)
        requires seat { is_seat self.now seat }
        requires tx { slice_get (setup self.now).txs judged.row ≡ Some (arc_value judged.tx) }
        requires under_contract { IsJudgedUnder (setup self.now).typed judged }
        ensures seat { is_seat self.entry.now result.0 }
        ensures back { IsCommitFor (setup self.entry.now) judged result.1 };

    /// Runs and judges a row while nobody else has the book, and places it.
    fn commit_here<R: Wait>(
        &self,
        rt: &R,
        alloc: Global,
        seat: Self::Seat,
        row: u32,
        ticket: u32,
    ) -> (Self::Seat, Here)
        requires seat { is_seat self.now seat }
        requires row { row < length (setup self.now).txs }
        ensures { is_seat self.entry.now result.0 };

    /// Gives a row back.
    fn release<R: Wait>(
        &self,
        rt: &R,
        seat: Self::Seat,
        row: u32,
        ticket: u32,
    ) -> (Self::Seat, Release)
        requires seat { is_seat self.now seat }
        requires row { row < length (setup self.now).txs }
        ensures { is_seat self.entry.now result.0 };
}
