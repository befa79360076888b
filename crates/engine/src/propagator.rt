//! Propagators, with the laws that each shows.
ghost use Rattle.std.specs.Prelude.{◌≡◌, ℕ, Bool, List, Option};
ghost use Rattle.engine.specs.declared.field.Field.{Field};
ghost use Rattle.engine.specs.Laws.{NarrowingLaws, RelationLaws};
ghost use Rattle.engine.specs.Fires.{Fires};
ghost use Rattle.engine.specs.Fits.{FitLaws, first_misfit};

use super::contradiction::Contradiction;
use super::field::Misfit;
use domain::Domain;

/// A propagator names cells of a row, has a relation over the row's values, and narrows the cells for it.
/// It serves rows of cells of the kind `C`, and its narrowing may read the book `B` besides the cells that it names.
pub trait Propagator<C: Domain, B>: Copy {
    // The cells that it names, counted from 0.
    ghost names: { Self → ℕ → Bool };

    // Its relation over the values of a row.
    ghost holds: { B → Self → List C.Value → Type 0 };

    // What it makes of a row: narrower bounds, or nothing where it meets a contradiction.
    ghost narrowed: { B → Self → List C → Option (List C) };

    // Its fields as they stand to a row: it fits where none is at fault.
    ghost fields: { B → Self → List C → List Field };

    /// Does it name this cell, counted from 0?
    fn names_cell(&self, cell: usize) -> bool
        ensures { result ≡ names self.now cell };

    /// Narrows the row, and tells whether that changed it. Where it meets a contradiction the row is left as it was.
    fn narrow(&self, book: &B, row: &mut [C]) -> Result<bool, Contradiction>
        ensures { Fires (narrowed book.now self.now row.old) row.old row.new result };

    /// What is first at fault where it does not fit the row, or nothing where it fits.
    fn find_misfit(&self, book: &B, row: &[C]) -> Option<Misfit>
        ensures { result ≡ first_misfit (fields book.now self.now row.now) };

    ghost narrowing: { (b : B) (r : Self) → NarrowingLaws C.Domain.allows (names r) (narrowed b r) };

    ghost relation: { (b : B) (r : Self) → RelationLaws C.Domain.allows C.Domain.height (names r) (holds b r) (narrowed b r) };

    ghost fitting: { (b : B) (r : Self) → FitLaws C.Domain.allows (names r) (fields b r) };
}
