//! `show FILE`: reports the canonical text of a contract.

ghost use Rattle.std.specs.Prelude.{Some};
ghost use Rattle.ecf_host.specs.Due.{Comes};
ghost use Rattle.ecf_host.specs.Words.{Command};
ghost use Rattle.ecf_host.specs.World.{SourceState, shelf_state};

use crate::contract::{fetch_contract, spelled_tree};
use crate::failure::{Failure, Report};
use ecf_edge::Shelf;
use std::alloc::Global;

/// The canonical text of the contract in a file, whose names and types aren't looked at.
pub fn show<F: Shelf>(alloc: Global, file: &str, shelf: &mut F) -> Result<Report, Failure>
    ensures { (source : SourceState) → Comes (Some (Command.Show file.now))
        (record { shelf = shelf_state F.Shelf shelf.old; source = source }) (record { shelf = shelf_state F.Shelf shelf.new; source = source }) result }
{
    let text = fetch_contract(alloc, file, shelf)?;
    let tree = spelled_tree(alloc, text.as_slice())?;
    let shown = ecf_show::show(alloc, &tree)?;
    Ok(Report {
        status: 0,
        text: shown,
    })
}
