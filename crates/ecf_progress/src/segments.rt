//! Lists of numbers on one stack, which contracts see as these lists.

ghost use Rattle.std.specs.Prelude.{◌≡◌, [], ◌∷◌, ◌++◌, ◌+◌, ◌-◌, ◌≤◌, OnOk, length, replicate, slice_index, slice_set};
ghost use Rattle.ecf_progress.specs.Segments.{popped, pushed, with_top};

use std::alloc::{AllocError, Global};
use std::marker::Model;

/// Numbers, with the places where each list but the lowest begins.
#[derive(Drop)]
pub struct Segments {
    items: Vec<u128>,
    starts: Vec<usize>,
}

impl Model for Segments {
    ghost use Rattle.std.specs.Prelude.{reverse, length};
    ghost use Rattle.ecf_progress.specs.Segments.{Lists, top_of, below_of, IsParted};

    ghost Value = { Lists };

    ghost view = { λ s. record { top = top_of (reverse s.starts.items) s.items.items; below = below_of (reverse s.starts.items) s.items.items } };

    ghost invariant = { λ s. IsParted (reverse s.starts.items) (length s.items.items) };
}

impl Segments {
    /// One list, which is empty.
    pub fn new(alloc: Global) -> Segments
        ensures { result ≡ record { top = []; below = [] } }
    {
        Segments {
            items: Vec::new(alloc),
            starts: Vec::new(alloc),
        }
    }

    /// Begins a list.
    pub fn open(&mut self) -> Result<(), AllocError>
        ensures { OnOk result (self.new ≡ pushed [] self.old) }
    {
        self.starts.push(self.items.len())?;
        Ok(())
    }

    /// Begins a list as a copy of these numbers.
    pub fn open_with(&mut self, values: &[u128]) -> Result<(), AllocError>
        ensures { OnOk result (self.new ≡ pushed values.now self.old) }
    {
        self.starts.push(self.items.len())?;
        self.items.extend_from_slice(values)?;
        Ok(())
    }

    /// Ends the topmost list.
    pub fn close(&mut self)
        ensures { self.new ≡ popped self.old }
    {
        match self.starts.pop() {
            Some(start) => self.items.truncate(start),
            None => self.items.clear(),
        }
    }

    /// Puts a number at the end of the topmost list.
    pub fn push(&mut self, value: u128) -> Result<(), AllocError>
        ensures { OnOk result (self.new ≡ with_top self.old (self.old.top ++ value ∷ [])) }
    {
        self.items.push(value)?;
        Ok(())
    }

    /// The topmost list.
    pub fn top(&self) -> &[u128]
        ensures { result.now ≡ self.now.top }
    {
        match self.starts.last() {
            Some(start) => &self.items[*start..],
            None => self.items.as_slice(),
        }
    }

    /// A number of the topmost list; 0 where there is none.
    pub fn get(&self, n: u8) -> u128
        ensures { result ≡ slice_index self.now.top n }
    {
        match self.top().get(usize::from(n)) {
            Some(value) => *value,
            None => 0,
        }
    }

    /// Changes a number of the topmost list, if it is there.
    pub fn set(&mut self, n: u8, value: u128)
        ensures { self.new ≡ with_top self.old (slice_set self.old.top n value) }
    {
        match self.starts.last() {
            Some(start) => set_from(&mut self.items, *start, n, value),
            None => set_from(&mut self.items, 0, n, value),
        }
    }

    /// Fills the topmost list up with zeros to that length.
    pub fn fill(&mut self, len: u8) -> Result<(), AllocError>
        ensures { OnOk result (self.new ≡ with_top self.old (self.old.top ++ replicate (len - length self.old.top) 0)) }
    {
        let missing = usize::from(len).saturating_sub(self.top().len());
        for _ in 0..missing {
            self.push(0)?;
        }
        Ok(())
    }
}

/// Changes the number so many places behind that start, if it is there.
fn set_from(items: &mut Vec<u128>, start: usize, n: u8, value: u128)
    requires { start ≤ length items.old.items }
    ensures { items.new.items ≡ slice_set items.old.items (start + n) value }
{
    if usize::from(n) < items.len() - start {
        items[start + usize::from(n)] = value;
    }
}
