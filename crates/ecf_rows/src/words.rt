//! Sets of numbers as words of 64 bits, the levels of a set of rows.

ghost use Rattle.std.specs.Prelude.{◌≡◌, ◌≤◌, ◌<◌, ◌/◌, ◌%◌, max, length, OnOk, is_ok, if◌then◌else◌};
ghost use Rattle.ecf_rows.specs.declared.words.TheConstants.{MOST_WORDS};
ghost use Rattle.ecf_rows.specs.RowSet.{IsFirstIn, PutIn, TookOut, Widened};

use std::alloc::AllocError;

/// The most words of a level; each of the highest level's 64 bits is for 64 of them.
pub const MOST_WORDS: usize = 64 * 64;

/// The most numbers of a set are those below this one.
pub const MOST_NUMBERS: usize = 64 * MOST_WORDS;

/// Makes it at least so many words, the further ones empty. For want of memory it stays as it was.
pub fn widen(words: &mut Vec<u64>, most: usize) -> Result<(), AllocError>
    ensures widened { Widened words.old.items words.new.items }
    ensures words { length words.new.items ≡ (if is_ok result then max most (length words.old.items) else length words.old.items) }
{
    if words.len() < most {
        words.resize(most, 0)?;
    }
    Ok(())
}

/// Puts in a number for which there is room.
pub fn put(words: &mut Vec<u64>, i: usize)
    requires { i / 64 < length words.old.items }
    ensures { PutIn words.old.items words.new.items i }
{
    words[i / 64] |= 1u64 << (i % 64);
}

/// Takes a number out, if it is to go. Whether its word has no member then.
pub fn take_out(words: &mut Vec<u64>, i: usize, goes: bool) -> bool
    ensures { TookOut words.old.items words.new.items i goes result }
{
    let at = i / 64;
    if !goes || words.len() <= at {
        return false;
    }
    words[at] &= !(1u64 << (i % 64));
    words[at] == 0
}

/// The least member of a word.
pub fn first_in(words: &[u64], k: usize) -> Option<usize>
    requires { length words.now ≤ MOST_WORDS }
    ensures { IsFirstIn words.now k result }
{
    if k < words.len() && words[k] != 0 {
        Some(64 * k + words[k].trailing_zeros() as usize)
    } else {
        None
    }
}
