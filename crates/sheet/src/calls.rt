//! Declare, state and ask.
ghost use Rattle.std.specs.Prelude.{◌≡◌, ◌<◌, ◌≤◌, [], ◌∷◌, ◌++◌, length, IfOk};
ghost use Rattle.history.specs.Told.{fresh, with_cell};
ghost use Rattle.sheet.specs.Sheets.{told_of, bounds_of};
ghost use Rattle.sheet.specs.Calls.{Declared, Asked};

use super::checks::{check_ask, check_declare};
use super::sheet::{CELLS, Sheet};
use domain::Domain;
use engine::Propagator;
use fault::Fault;
use history::Entered;
use rules::Rules;
use std::alloc::{AllocError, Global};

impl<C: Domain, B: Drop, R: Propagator<C, B>> Sheet<C, B, R> {
    /// A sheet with no cell and no statement, and with room for all; it fails only for want of memory.
    pub fn new(heap: Global, book: B) -> Result<Sheet<C, B, R>, AllocError>
        ensures { IfOk result (λ sheet. (told_of sheet ≡ fresh book) × (bounds_of sheet ≡ [])) }
    {
        let declared = Vec::with_capacity(heap, CELLS)?;
        let cells = Vec::with_capacity(heap, CELLS)?;
        let saved = Vec::with_capacity(heap, CELLS)?;
        let rules = Rules::new(heap)?;
        Ok(Sheet {
            book,
            declared,
            cells,
            saved,
            rules,
        })
    }

    /// How many cells are declared.
    pub fn count(&self) -> usize
        ensures { result ≡ length (bounds_of self.now) }
    {
        self.cells.len()
    }

    // Puts a cell behind the others.
    fn add(&mut self, cell: C)
        requires { length (bounds_of self.old) < CELLS }
        ensures told { told_of self.new ≡ with_cell (told_of self.old) cell }
        ensures bounds { bounds_of self.new ≡ bounds_of self.old ++ (cell ∷ []) }
    {
        self.declared.push_reserved(cell);
        self.cells.push_reserved(cell);
        self.saved.push_reserved(cell);
    }

    /// Declares the next cell, numbered from 1, with bounds as entered; refused by 4, 9, 8, 11 or 12.
    pub fn declare<E: Entered<C, B>>(
        &mut self,
        line: u32,
        cell: u32,
        bounds: E,
    ) -> Result<(), Fault>
        ensures { Declared E.Entered (told_of self.old) (bounds_of self.old) line cell bounds result (told_of self.new) (bounds_of self.new) }
    {
        let admitted = bounds.admit(&self.book);
        let made = check_declare(self.count(), line, cell, bounds.find_unranged(), admitted)?;
        self.add(made);
        Ok(())
    }

    /// The standing bounds of a cell; refused by 4 or 13.
    pub fn ask(&self, cell: u32) -> Result<C, Fault>
        ensures { Asked (bounds_of self.now) cell result }
    {
        check_ask(self.count(), cell)?;
        Ok(self.cells[cell as usize - 1])
    }
}
