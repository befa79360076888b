//! Telling cells of a row what was worked out for them.
ghost use Rattle.std.specs.Prelude.{◌≡◌, [], ◌∷◌, Ok, Some, map, slice_set};
ghost use Rattle.engine.specs.Rows.{item};
ghost use Rattle.engine.specs.Telling.{told_all, TogetherLaws};
ghost use Rattle.engine.specs.Fires.{Fires, both_fired, restored, after_both};

use super::contradiction::Contradiction;
use domain::Domain;

/// The bounds of a cell of the row, or nothing where the row ends before it.
pub fn cell_at<D: Domain>(row: &[D], cell: usize) -> Option<D>
    ensures { result ≡ item row.now cell }
{
    row.get(cell).copied()
}

// Puts new bounds in the place of the old, unless they are the same.
#[inline(always)]
fn replace<D: Domain>(row: &mut [D], cell: usize, old: D, new: D) -> bool
    requires { item row.old cell ≡ Some old }
    ensures { Fires (Some (slice_set row.old cell new)) row.old row.new (Ok result) }
{
    if old.same(new) {
        return false;
    }
    if cell < row.len() {
        row[cell] = new;
    }
    true
}

/// Tells one cell of the row. A cell past the end is let be, and a contradiction leaves the row as it was.
#[inline]
pub fn tell_one<D: Domain>(row: &mut [D], cell: usize, tell: D::Tell) -> Result<bool, Contradiction>
    ensures { Fires (told_all D.Domain.meet (cell ∷ []) (tell ∷ []) row.old) row.old row.new result }
{
    let Some(old) = cell_at(row, cell) else {
        return Ok(false);
    };
    let new = old.told(tell).ok_or(Contradiction)?;
    Ok(replace(row, cell, old, new))
}

// Gives a cell its old bounds again, if there is such a cell.
#[inline(always)]
fn restore<D: Domain>(row: &mut [D], cell: usize, old: Option<D>)
    ensures { row.new ≡ restored row.old cell old }
{
    if let Some(bounds) = old {
        if cell < row.len() {
            row[cell] = bounds;
        }
    }
}

// What comes of telling a cell, which did not contradict, and then others: where these contradict, the cell has its old bounds again.
#[inline(always)]
fn joined<D: Domain>(
    row: &mut [D],
    cell: usize,
    old: Option<D>,
    changed: bool,
    others: Result<bool, Contradiction>,
) -> Result<bool, Contradiction>
    ensures answer { result ≡ both_fired (Ok changed) others }
    ensures row { row.new ≡ after_both others row.old cell old }
{
    match others {
        Ok(more) => Ok(changed | more),
        Err(contradiction) => {
            restore(row, cell, old);
            Err(contradiction)
        }
    }
}

/// Tells two cells of the row, each what is for it; a cell named twice is told both. A cell past the end is let be, and a contradiction leaves
/// the row as it was. `tell_all` does the same for any number of cells; this is what a word over two operands costs, so it takes no slice and calls
/// nothing anew.
#[inline]
pub fn tell_two<D: Domain>(
    row: &mut [D],
    a: usize,
    x: D::Tell,
    b: usize,
    y: D::Tell,
) -> Result<bool, Contradiction>
    ensures { Fires (told_all D.Domain.meet (a ∷ (b ∷ [])) (x ∷ (y ∷ [])) row.old) row.old row.new result }
{
    let old = cell_at(row, a);
    match tell_one(row, a, x) {
        Ok(changed) => {
            let more = tell_one(row, b, y);
            joined(row, a, old, changed, more)
        }
        Err(contradiction) => Err(contradiction),
    }
}

/// Tells three cells of the row, as `tell_two` does two.
#[inline]
pub fn tell_three<D: Domain>(
    row: &mut [D],
    a: usize,
    x: D::Tell,
    b: usize,
    y: D::Tell,
    c: usize,
    z: D::Tell,
) -> Result<bool, Contradiction>
    ensures { Fires (told_all D.Domain.meet (a ∷ (b ∷ (c ∷ []))) (x ∷ (y ∷ (z ∷ []))) row.old) row.old row.new result }
{
    let old = cell_at(row, a);
    match tell_one(row, a, x) {
        Ok(changed) => {
            let others = tell_two(row, b, y, c, z);
            joined(row, a, old, changed, others)
        }
        Err(Contradiction) => Err(Contradiction),
    }
}

/// Tells cells of the row, each what is for it; a cell named more than once is told all that is for it. A cell past the end is let be, and a
/// contradiction leaves the row as it was.
pub fn tell_all<D: Domain>(
    row: &mut [D],
    tells: &[(usize, &D::Tell)],
) -> Result<bool, Contradiction>
    ensures { Fires (told_all D.Domain.meet (map (λ t. t.0) tells.now) (map (λ t. t.1.now) tells.now) row.old) row.old row.new result }
{
    let Some((first, others)) = tells.split_first() else {
        return Ok(false);
    };
    let (cell, tell) = *first;
    if others.is_empty() {
        return tell_one(row, cell, *tell);
    }
    let old = cell_at(row, cell);
    let changed = tell_one(row, cell, *tell)?;
    let more = tell_all(row, others);
    joined(row, cell, old, changed, more)
}

/// Of every kind of cell: it does not matter in which order cells are told what is for them, and telling a cell the same twice is telling
/// it once.
pub fn told_together<D: Domain>()
    ensures { TogetherLaws D.Domain.meet }
{}
