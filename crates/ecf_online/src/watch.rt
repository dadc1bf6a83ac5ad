//! What is kept of a cell: its last writer, and the reads since then, which stand in one log for all cells.

ghost use Rattle.std.specs.Prelude.{◌≡◌, ◌≤◌, ◌<◌, ◌+◌, ◌^◌, ℕ, length, max, slice_index_or, vec_len, vec_capacity};
ghost use Rattle.std.specs.List.{sum_by};
ghost use Rattle.ecf_online.specs.Reads.{blank, reads_after, watch_after};

/// A read in the log.
#[derive(Clone, Copy, Debug)]
pub struct Read {
    /// The invocation that read.
    pub inv: u16,
    /// The place of the read before it on its cell; of no meaning where it is the first since a write.
    pub earlier: u32,
}

/// What is kept of a cell.
#[derive(Clone, Copy, Debug)]
pub struct Watch {
    /// The invocation that wrote last.
    pub writer: Option<u16>,
    /// How many reads came since then.
    pub readers: u32,
    /// The place of the newest of them; of no meaning where there is none.
    pub last: u32,
}

/// Makes it at least so many, the new ones of cells without steps. There is room for them.
pub fn extend_watches(watches: &mut Vec<Watch>, most: usize)
    requires { most ≤ vec_capacity watches.old }
    ensures same { (k : ℕ) → slice_index_or watches.new.items k blank ≡ slice_index_or watches.old.items k blank }
    ensures readers { sum_by (λ w. w.readers) watches.new.items ≡ sum_by (λ w. w.readers) watches.old.items }
    ensures long { vec_len watches.new ≡ max most (vec_len watches.old) }
    ensures room { vec_capacity watches.new ≡ vec_capacity watches.old }
{
    'watches: while watches.len() < most {
        watches.push_reserved(Watch {
            writer: None,
            readers: 0,
            last: 0,
        });
    }
}

/// Marks a step at its cell. There is room in the log.
pub fn mark_step(watch: &mut Watch, reads: &mut Vec<Read>, inv: u16, write: bool)
    requires room { vec_len reads.old < vec_capacity reads.old }
    requires places { vec_len reads.old < 2 ^ 32 }
    requires count { watch.old.readers + 1 < 2 ^ 32 }
    ensures watch { watch.new ≡ watch_after watch.old (length reads.old.items) inv write }
    ensures reads { reads.new.items ≡ reads_after reads.old.items watch.old inv write }
    ensures long { vec_len reads.new ≤ vec_len reads.old + 1 }
    ensures room { vec_capacity reads.new ≡ vec_capacity reads.old }
{
    if write {
        *watch = Watch {
            writer: Some(inv),
            readers: 0,
            last: 0,
        };
    } else {
        let place = reads.len() as u32;
        reads.push_reserved(Read {
            inv,
            earlier: watch.last,
        });
        watch.readers += 1;
        watch.last = place;
    }
}
