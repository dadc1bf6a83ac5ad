//! A sum up to a limit, with a history of its additions, each of which is counted on a share of a ledger.
ghost use Rattle.std.specs.Prelude.{◌≡◌, ◌+◌, ◌<◌, ◌≤◌, ◌^◌, [], ◌∷◌, ◌++◌, true, length, IfSome, IfNone, vec_len};
ghost use Rattle.ecf_crew_tests.specs.Sums.{entry, is_legal, sum_of};

use ecf_turnstile::History;
use std::alloc::Global;
use std::sync::ledger::{Book, Ledger, Share};

/// An addition: the amount, and the sum after it.
#[derive(Clone, Copy, Debug, PartialEq, Eq)]
pub struct Entry {
    pub amount: u64,
    pub reply: u64,
}

/// A sum that stays within its limit.
#[derive(Drop)]
pub struct Sum<L: Ledger> {
    pub limit: u64,
    sum: u64,
    pub entries: Vec<Entry>,
    calls: Book<L>,
    ghost kept: { sum ≡ sum_of entries.items },
    ghost legal: { is_legal limit 0 entries.items ≡ true },
    ghost within: { sum ≤ limit },
    ghost counted: { vec_len entries ≡ calls.total },
    ghost small: { vec_len entries < 2 ^ 62 },
}

impl<L: Ledger> History for Sum<L> {
    type Opening = u64;

    type Entry = Entry;

    ghost opening = { λ s. s.limit };

    ghost entries = { λ s. s.entries.items };

    fn history_len(&self) -> u64 {
        self.entries.len() as u64
    }
}

impl<L: Ledger> Sum<L> {
    /// Nothing, up to this limit.
    pub fn new(alloc: Global, limit: u64, calls: Book<L>) -> Sum<L>
        requires { calls.total ≡ 0 }
        ensures { (result.limit ≡ limit) × (result.entries.items ≡ []) }
    {
        Sum {
            limit,
            sum: 0,
            entries: Vec::new(alloc),
            calls,
        }
    }

    /// Adds an amount and answers the new sum, and counts that on the share. At none the amount goes over the limit, or
    /// memory is wanting.
    pub fn add(&mut self, amount: u64, share: &mut Share<L>) -> Option<u64>
        requires { 0 < share.old.parts }
        ensures same { (self.new.limit ≡ self.old.limit) × (share.new.parts ≡ share.old.parts) }
        ensures added { IfSome result (λ reply. (reply ≡ sum_of self.old.entries.items + amount)
            × (self.new.entries.items ≡ self.old.entries.items ++ entry amount reply ∷ [])) }
        ensures counted { IfSome result (λ _. share.new.amount ≡ share.old.amount + 1) }
        ensures refused { IfNone result ((self.new.entries.items ≡ self.old.entries.items) × (share.new.amount ≡ share.old.amount)) }
    {
        if self.entries.len() >= (1 << 62) - 1 || amount > self.limit - self.sum {
            return None;
        }
        let reply = self.sum + amount;
        if self.entries.reserve(1).is_err() {
            return None;
        }
        let Sum {
            entries,
            sum,
            calls,
            ..
        } = self;
        entries.push_reserved(Entry { amount, reply });
        *sum = reply;
        calls.add(share, 1);
        Some(reply)
    }

    /// Who has every part of the ledger has counted every entry.
    pub fn count(&mut self, all: &mut Share<L>)
        requires { all.old.parts ≡ L.parts }
        ensures same { (self.new.limit ≡ self.old.limit) × (self.new.entries.items ≡ self.old.entries.items) }
        ensures share { (all.new.parts ≡ all.old.parts) × (all.new.amount ≡ all.old.amount) }
        ensures counted { length self.old.entries.items ≡ all.old.amount }
    {
        self.calls.audit(all);
    }

    /// The history alone.
    pub fn into_entries(self) -> Vec<Entry>
        ensures history { result.items ≡ self.entries.items }
        ensures legal { is_legal self.limit 0 result.items ≡ true }
    {
        let Sum { entries, .. } = self;
        entries
    }
}
