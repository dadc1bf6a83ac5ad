//! The canonical text of a contract: one layout for each tree, from which the same tree is read again.
#![tactic(auto)]

ghost use Rattle.std.specs.Prelude.{◌≡◌, IfOk};
ghost use Rattle.ecf_show.specs.Files.{tree_text};

pub mod cases;
mod expressions;
mod files;
mod levels;
mod marks;
mod statements;

use crate::files::write_file;
use ecf_lang::tree::Tree;
use std::alloc::{AllocError, Global};

/// The canonical text of a tree, which docs/language.md describes. It takes room for the text alone, which
/// grows as it is written.
pub fn show(alloc: Global, tree: &Tree) -> Result<Vec<u8>, AllocError>
    ensures { IfOk result (λ text. text.items ≡ tree_text tree.now) }
{
    let mut text = Vec::new(alloc);
    write_file(&mut text, tree)?;
    Ok(text)
}
