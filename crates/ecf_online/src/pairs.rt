//! The pairs that a step adds: from its cell's last writer and, where it writes, from the readers since. There is room
//! for them in the list.

ghost use Rattle.std.specs.Prelude.{◌≡◌, ◌≤◌, ◌<◌, ◌+◌, true, [], ◌∷◌, ◌++◌, option_to_list, vec_len, vec_capacity, if◌then◌else◌};
ghost use Rattle.ecf_online.specs.Pairs.{pairs_to, step_pairs};
ghost use Rattle.ecf_online.specs.Reads.{reads_back, readers_of, stand_in};

use crate::watch::{Read, Watch};

/// Adds the pair of i and j, where they differ.
fn push_pair(pairs: &mut Vec<(u16, u16)>, i: u16, j: u16)
    requires { vec_len pairs.old < vec_capacity pairs.old }
    ensures pairs { pairs.new.items ≡ pairs.old.items ++ pairs_to j (i ∷ []) }
    ensures long { vec_len pairs.new ≤ vec_len pairs.old + 1 }
    ensures room { vec_capacity pairs.new ≡ vec_capacity pairs.old }
{
    if i != j {
        pairs.push_reserved((i, j));
    }
}

/// Adds the pair of the last writer and j.
fn push_writer(pairs: &mut Vec<(u16, u16)>, writer: Option<u16>, j: u16)
    requires { vec_len pairs.old < vec_capacity pairs.old }
    ensures pairs { pairs.new.items ≡ pairs.old.items ++ pairs_to j (option_to_list writer) }
    ensures long { vec_len pairs.new ≤ vec_len pairs.old + 1 }
    ensures room { vec_capacity pairs.new ≡ vec_capacity pairs.old }
{
    match writer {
        Some(i) => push_pair(pairs, i, j),
        None => {}
    }
}

/// Adds the pairs of so many readers and j, from the read at a place back.
fn push_readers(pairs: &mut Vec<(u16, u16)>, reads: &[Read], count: u32, last: u32, j: u16)
    requires reads { stand_in reads.now count last ≡ true }
    requires room { vec_len pairs.old + count ≤ vec_capacity pairs.old }
    ensures pairs { pairs.new.items ≡ pairs.old.items ++ pairs_to j (reads_back reads.now count last) }
    ensures long { vec_len pairs.new ≤ vec_len pairs.old + count }
    ensures room { vec_capacity pairs.new ≡ vec_capacity pairs.old }
{
    let mut at = last;
    for k in 0..count {
        let read = reads[at as usize];
        push_pair(pairs, read.inv, j);
        at = read.earlier;
    }
}

/// Adds the pairs of a step of j at a cell.
pub fn push_step(pairs: &mut Vec<(u16, u16)>, watch: &Watch, reads: &[Read], j: u16, write: bool)
    requires reads { stand_in reads.now watch.now.readers watch.now.last ≡ true }
    requires room { vec_len pairs.old + (1 + watch.now.readers) ≤ vec_capacity pairs.old }
    ensures pairs { pairs.new.items ≡ pairs.old.items ++ step_pairs watch.now.writer (readers_of reads.now watch.now) j write }
    ensures long { vec_len pairs.new ≤ vec_len pairs.old + 1 + (if write then watch.now.readers else 0) }
    ensures room { vec_capacity pairs.new ≡ vec_capacity pairs.old }
{
    push_writer(pairs, watch.writer, j);
    if write {
        push_readers(pairs, reads, watch.readers, watch.last, j);
    }
}
