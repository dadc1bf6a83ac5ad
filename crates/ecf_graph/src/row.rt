//! Sets of numbers as rows of bits.

ghost use Rattle.std.specs.Prelude.{◌≡◌, ◌==◌, ◌<◌, ◌/◌, ◌||◌, ◌&&◌, not, true, false, max, ℕ, List, length, IfOk, OnOk, OnErr, is_ok, if◌then◌else◌};
ghost use Rattle.ecf_graph.specs.Rows.{is_member};

use std::alloc::{AllocError, Global};
use std::marker::Model;

/// A set of numbers below 65,536, one bit for each. It is as long as its greatest member needs.
#[derive(Debug, Drop)]
pub struct Row {
    words: Vec<u64>,
}

impl Model for Row {
    ghost Value = { List ℕ };

    ghost view = { λ r. r.words.items };
}

impl Row {
    /// The empty set; it takes no memory.
    pub fn new(alloc: Global) -> Row
        ensures none { (i : ℕ) → is_member result i ≡ false }
        ensures words { length result ≡ 0 }
    {
        Row {
            words: Vec::new(alloc),
        }
    }

    /// A copy.
    pub fn copy(&self, alloc: Global) -> Result<Row, AllocError>
        ensures { IfOk result (λ r. r ≡ self.now) }
    {
        let words = Vec::from_slice(alloc, self.words.as_slice())?;
        Ok(Row { words })
    }

    /// Whether the number is a member.
    pub fn contains(&self, i: u16) -> bool
        ensures { result ≡ is_member self.now i }
    {
        let at = (i / 64) as usize;
        at < self.words.len() && (self.words[at] >> (i % 64)) & 1 == 1
    }

    /// How many words it has. There is room for each number below 64 times as many.
    pub fn word_count(&self) -> usize
        ensures { result ≡ length self.now }
    {
        self.words.len()
    }

    /// Makes it at least so many words. Its members stay, and for want of memory it has as many words as before.
    pub fn widen(&mut self, most: usize) -> Result<(), AllocError>
        ensures same { (k : ℕ) → is_member self.new k ≡ is_member self.old k }
        ensures words { length self.new ≡ (if is_ok result then max most (length self.old) else length self.old) }
    {
        if self.words.len() < most {
            self.words.resize(most, 0)?;
        }
        Ok(())
    }

    /// Puts in a number for which there is room.
    pub fn put(&mut self, i: u16)
        requires { i / 64 < length self.old }
        ensures put { (k : ℕ) → is_member self.new k ≡ (is_member self.old k || (k == i)) }
        ensures words { length self.new ≡ length self.old }
    {
        self.words[(i / 64) as usize] |= 1u64 << (i % 64);
    }

    /// Puts in all members of the other, for which there is room.
    pub fn absorb(&mut self, other: &Row)
        requires { (k : ℕ) → is_member other.now k ≡ true → k / 64 < length self.old }
        ensures joined { (k : ℕ) → is_member self.new k ≡ (is_member self.old k || is_member other.now k) }
        ensures words { length self.new ≡ length self.old }
    {
        let count = self.words.len().min(other.words.len());
        for k in 0..count {
            self.words[k] |= other.words[k];
        }
    }

    /// Puts the number in.
    pub fn insert(&mut self, i: u16) -> Result<(), AllocError>
        ensures done { OnOk result ((k : ℕ) → is_member self.new k ≡ (is_member self.old k || (k == i))) }
        ensures kept { OnErr result ((k : ℕ) → is_member self.new k ≡ is_member self.old k) }
    {
        self.widen((i / 64) as usize + 1)?;
        self.put(i);
        Ok(())
    }

    /// Puts in all members of the other.
    pub fn union_with(&mut self, other: &Row) -> Result<(), AllocError>
        ensures done { OnOk result ((k : ℕ) → is_member self.new k ≡ (is_member self.old k || is_member other.now k)) }
        ensures kept { OnErr result ((k : ℕ) → is_member self.new k ≡ is_member self.old k) }
    {
        self.widen(other.word_count())?;
        self.absorb(other);
        Ok(())
    }

    /// Takes the number out.
    pub fn remove(&mut self, i: u16)
        ensures { (k : ℕ) → is_member self.new k ≡ (is_member self.old k && not (k == i)) }
    {
        let at = (i / 64) as usize;
        if at < self.words.len() {
            self.words[at] &= !(1u64 << (i % 64));
        }
    }

    /// Whether the two have a member in common.
    pub fn intersects(&self, other: &Row) -> bool
        ensures yes { result ≡ true → (i : ℕ) × (is_member self.now i ≡ true) × (is_member other.now i ≡ true) }
        ensures no { result ≡ false → (i : ℕ) → is_member self.now i ≡ true → is_member other.now i ≡ true → ⊥ }
    {
        let count = if self.words.len() < other.words.len() {
            self.words.len()
        } else {
            other.words.len()
        };
        for k in 0..count {
            if self.words[k] & other.words[k] != 0 {
                return true;
            }
        }
        false
    }
}
