//! What is kept of a trace while it is read: for each cell who touched it and who wrote it, and for each invocation those
//! before it. A step costs as much as a few rows of bits.

ghost use Rattle.std.specs.Prelude.{◌≡◌, ◌≤◌, ◌<◌, ◌+◌, ◌==◌, ◌&&◌, not, ℕ, List, [], ◌∷◌, ◌++◌, length, max, IfOk, OnOk, vec_len};
ghost use Rattle.std.specs.List.{list_any};
ghost use Rattle.ecf_conflict.specs.Seen.{IsSeen, PutsStep};
ghost use Rattle.ecf_graph.specs.Rows.{is_in_row, is_member};
ghost use Rattle.ecf_lang.specs.declared.run.Step.{Step};
ghost use Rattle.ecf_verdicts.specs.Before.{before};

use crate::numbering::number_cell;
use ecf_graph::{Row, extend_rows};
use ecf_lang::cell::Cell;
use ecf_lang::run::Step;
use ecf_precedence::one_step_more;
use indexmap::IndexSet;
use std::alloc::{AllocError, Global};

/// What is kept of the steps that were read.
#[derive(Drop)]
struct Seen {
    alloc: Global,
    /// The cells, in the order of first steps.
    cells: IndexSet<Cell>,
    /// For each cell the invocations that touched it.
    touched: Vec<Row>,
    /// For each cell the invocations that wrote it.
    written: Vec<Row>,
    /// For each invocation those before it.
    earlier: Vec<Row>,
}

/// Puts one step into the rows of its invocation and of its cell: those whose earlier steps conflict are before the
/// invocation, which then has touched the cell, and written it if the step writes.
fn put_step(
    earlier: &mut Row,
    touched: &mut Row,
    written: &mut Row,
    inv: u16,
    write: bool,
) -> Result<(), AllocError>
    ensures { OnOk result (PutsStep inv write earlier.old touched.old written.old earlier.new touched.new written.new) }
{
    if write {
        earlier.union_with(touched)?;
        written.insert(inv)?;
    } else {
        earlier.union_with(written)?;
    }
    earlier.remove(inv);
    touched.insert(inv)?;
    Ok(())
}

impl Seen {
    /// Reads one step more.
    fn read(&mut self, step: &Step) -> Result<(), AllocError>
        ensures { (t : List Step) → IsSeen t self.old.cells.keys self.old.touched.items self.old.written.items self.old.earlier.items →
            OnOk result (IsSeen (t ++ step.now ∷ []) self.new.cells.keys self.new.touched.items self.new.written.items self.new.earlier.items) }
    {
        one_step_more();
        let inv = step.inv as usize;
        let cell = number_cell(&mut self.cells, step.cell)?;
        let count = self.cells.len();
        extend_rows(self.alloc, &mut self.touched, count)?;
        extend_rows(self.alloc, &mut self.written, count)?;
        extend_rows(self.alloc, &mut self.earlier, inv + 1)?;
        put_step(
            &mut self.earlier[inv],
            &mut self.touched[cell],
            &mut self.written[cell],
            step.inv,
            step.write,
        )?;
        Ok(())
    }
}

/// For each invocation those before it: i is before j where i is in the row of j.
pub fn rows_before(alloc: Global, steps: &[Step]) -> Result<Vec<Row>, AllocError>
    ensures { IfOk result (λ rows. (i j : ℕ) → is_in_row rows.items j i ≡ before steps.now i j) }
{
    let mut seen = Seen {
        alloc,
        cells: IndexSet::new(alloc),
        touched: Vec::new(alloc),
        written: Vec::new(alloc),
        earlier: Vec::new(alloc),
    };
    for step in steps {
        seen.read(step)?;
    }
    Ok(seen.earlier)
}
