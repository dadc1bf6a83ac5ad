//! Sets of rows, of which the least is found by three look-ups.

ghost use Rattle.std.specs.Prelude.{◌≡◌, ◌≤◌, ◌<◌, ◌*◌, ◌==◌, ◌||◌, ◌&&◌, not, ℕ, false, [], length, OnOk};
ghost use Rattle.ecf_rows.specs.declared.words.TheConstants.{MOST_NUMBERS};
ghost use Rattle.ecf_rows.specs.RowSet.{is_member, IsLeast};

use crate::words::{first_in, put, take_out, widen};
use std::alloc::{AllocError, Global};
use std::marker::Model;

/// The words of the middle level: a bit for each word of the lowest one. The highest one has a single word.
const WORDS_ABOVE: usize = 64;

/// A set of numbers below [`MOST_NUMBERS`](crate::words::MOST_NUMBERS). Contracts see its lowest level, which has a bit for each number.
#[derive(Drop)]
pub struct RowSet {
    words: Vec<u64>,
    above: Vec<u64>,
    top: Vec<u64>,
}

impl Model for RowSet {
    ghost use Rattle.std.specs.Prelude.{ℕ, List};
    ghost use Rattle.ecf_rows.specs.RowSet.{AreLevels};

    ghost Value = { List ℕ };

    ghost view = { λ s. s.words.items };

    ghost invariant = { λ s. AreLevels s.words.items s.above.items s.top.items };
}

impl RowSet {
    /// The empty set; it takes no memory.
    pub fn new(alloc: Global) -> RowSet
        ensures { result ≡ [] }
    {
        RowSet {
            words: Vec::new(alloc),
            above: Vec::new(alloc),
            top: Vec::new(alloc),
        }
    }

    /// Makes room for the numbers below `count`.
    pub fn make_room(&mut self, count: usize) -> Result<(), AllocError>
        requires { count ≤ MOST_NUMBERS }
        ensures members { (k : ℕ) → is_member self.new k ≡ is_member self.old k }
        ensures longer { length self.old ≤ length self.new }
        ensures room { OnOk result (count ≤ 64 * length self.new) }
    {
        widen(&mut self.top, 1)?;
        widen(&mut self.above, WORDS_ABOVE)?;
        widen(&mut self.words, count.div_ceil(64))?;
        Ok(())
    }

    /// Puts in a number for which there is room.
    pub fn insert(&mut self, i: usize)
        requires { i < 64 * length self.old }
        ensures members { (k : ℕ) → is_member self.new k ≡ (is_member self.old k || (k == i)) }
        ensures words { length self.new ≡ length self.old }
    {
        put(&mut self.words, i);
        put(&mut self.above, i / 64);
        put(&mut self.top, i / 64 / 64);
    }

    /// Takes the number out.
    pub fn remove(&mut self, i: usize)
        ensures members { (k : ℕ) → is_member self.new k ≡ (is_member self.old k && not (k == i)) }
        ensures words { length self.new ≡ length self.old }
    {
        let emptied = take_out(&mut self.words, i, true);
        let emptied = take_out(&mut self.above, i / 64, emptied);
        take_out(&mut self.top, i / 64 / 64, emptied);
    }

    /// The least number.
    pub fn least(&self) -> Option<usize>
        ensures { IsLeast self.now result }
    {
        let place = first_in(self.top.as_slice(), 0)?;
        let place = first_in(self.above.as_slice(), place)?;
        first_in(self.words.as_slice(), place)
    }
}
