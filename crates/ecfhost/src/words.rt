//! The words of the program, from its arguments.

ghost use Rattle.std.specs.Prelude.{◌≡◌, IfOk, drop};
ghost use Rattle.std.specs.Vec.Iter.{into_iter_items};
ghost use Rattle.ecfhost.specs.Program.{IsWordsOf};

use std::alloc::{AllocError, Global};
use std::env::Args;
use std::io::{self, ErrorKind};

/// The arguments behind the first, which is the program's name; none where an argument isn't text.
pub fn words_of(alloc: Global, args: io::Result<Args>) -> Result<Vec<String>, AllocError>
    ensures { IsWordsOf args result }
{
    match args {
        Ok(args) => behind_the_first(alloc, args),
        Err(error) => match error.kind() {
            ErrorKind::OutOfMemory => Err(AllocError),
            _ => Ok(Vec::new(alloc)),
        },
    }
}

// All arguments but the first.
fn behind_the_first(alloc: Global, args: Args) -> Result<Vec<String>, AllocError>
    ensures { IfOk result (λ words. words.items ≡ drop 1 (into_iter_items args)) }
{
    args.skip(1).collect(alloc)
}
