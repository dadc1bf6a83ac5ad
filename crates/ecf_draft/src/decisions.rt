//! Judging a draft: what is handed to the book.

ghost use Rattle.std.specs.Prelude.{◌≡◌, [], IfErr, IfOk};
ghost use Rattle.ecf_draft.specs.Drafts.{IsDraftedUnder, IsJudgedUnder, decision_of, judged};
ghost use Rattle.ecf_lang.specs.declared.typed.Typed.{Typed};
ghost use Rattle.ecf_verdicts.specs.SerialLaws.{IsCommitted};

use crate::drafts::{Draft, Work};
use crate::judging::{Decision, decided, receipt_of};
use ecf_core::draft_is_judged;
use ecf_lang::cell::Cell;
use ecf_lang::receipt::Receipt;
use ecf_lang::tx::TxRef;
use std::alloc::{AllocError, Global};
use std::marker::Model;

/// What was judged of a work, for the book to commit. To a contract: what its calls give.
#[derive(Drop)]
pub struct Judged {
    row: u32,
    ticket: u32,
    tries: u8,
    tx: TxRef,
    decision: Decision,
}

impl Model for Judged {
    ghost use Rattle.std.specs.Prelude.{◌≡◌};
    ghost use Rattle.ecf_core.specs.Drafted.{committed_writes};
    ghost use Rattle.ecf_draft.specs.Drafts.{JudgedWork};

    ghost Value = { JudgedWork };

    ghost view = { λ j. record {
      row = j.row;
      ticket = j.ticket;
      tries = j.tries;
      tx = j.tx;
      receipt = j.decision.receipt;
      reads = j.decision.reads;
      writes = j.decision.writes;
    } };

    ghost invariant = { λ j. j.decision.writes ≡ committed_writes j.decision.receipt j.decision.writes };
}

impl Judged {
    /// The place of the transaction among all, from 0.
    pub fn row(&self) -> u32
        ensures { result ≡ self.now.row }
    {
        self.row
    }

    /// The number under which the row was claimed.
    pub fn ticket(&self) -> u32
        ensures { result ≡ self.now.ticket }
    {
        self.ticket
    }

    /// How many stale commits there were under this ticket when the work was given.
    pub fn tries(&self) -> u8
        ensures { result ≡ self.now.tries }
    {
        self.tries
    }

    pub fn tx(&self) -> &TxRef
        ensures { result.now ≡ self.now.tx }
    {
        &self.tx
    }

    pub fn receipt(&self) -> &Receipt
        ensures { result.now ≡ self.now.receipt }
    {
        &self.decision.receipt
    }

    /// The cells that the run read from its snapshot with their values, in the order of first read.
    pub fn reads(&self) -> &[(Cell, u128)]
        ensures { result.now ≡ self.now.reads }
    {
        self.decision.reads.as_slice()
    }

    /// The cells to be written with their values; none unless the receipt is that of a commit.
    pub fn writes(&self) -> &[(Cell, u128)]
        ensures writes { result.now ≡ self.now.writes }
        ensures none { (IsCommitted self.now.receipt → ⊥) → result.now ≡ [] }
    {
        self.decision.writes.as_slice()
    }

    /// The receipt, to be kept. Takes no memory.
    pub fn into_receipt(self) -> Receipt
        ensures { result ≡ self.receipt }
    {
        let decision = self.decision;
        decision.receipt
    }

    /// The transaction, to be worked on once more. Takes no memory.
    pub fn into_tx(self) -> TxRef
        ensures { result ≡ self.tx }
    {
        self.tx
    }
}

/// Judges a draft. At `Err`, for want of memory, the draft comes back as it was.
pub fn decide(alloc: Global, draft: Draft) -> Result<Judged, (Draft, AllocError)>
    ensures judged { IfOk result (λ j. j ≡ judged draft) }
    ensures under_each_contract { IfOk result (λ j. (typed : Typed) → IsDraftedUnder typed draft → IsJudgedUnder typed j) }
    ensures kept { IfErr result (λ e. e.0 ≡ draft) }
{
    draft_is_judged();
    match receipt_of(alloc, draft.run()) {
        Ok(receipt) => Ok(judged_of(alloc, draft, receipt)),
        Err(error) => Err((draft, error)),
    }
}

// What was judged of a draft whose run has this receipt.
fn judged_of(alloc: Global, draft: Draft, receipt: Receipt) -> Judged
    requires { receipt ≡ (decision_of draft.run).receipt }
    ensures { result ≡ judged draft }
{
    let (work, run) = draft.into_parts();
    let decision = decided(alloc, run, receipt);
    let Work {
        row,
        ticket,
        tries,
        tx,
        snapshot: _,
    } = work;
    Judged {
        row,
        ticket,
        tries,
        tx,
        decision,
    }
}
