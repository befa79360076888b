//! Cells of the match sheet, and what a group in one is told.
ghost use Rattle.std.specs.Prelude.{◌≡◌};
ghost use Rattle.words.specs.GroupFields.{group_field, GroupMisfits};
ghost use Rattle.words.specs.Tells.{told};

use super::part::part_at;
use domain::{BaleSet, Either, Group, GroupTell, Mixed, Number};
use engine::Field;
use places::PlaceSet;

/// A cell of the match sheet: a group of bales or a number.
pub type Cell = Mixed<Group, Number>;

/// What a cell holds once it is decided: a set of bales or a number.
pub type Value = Either<BaleSet, u32>;

/// A group is told to gain the bales of one set, and to keep only those of another.
pub fn told(gain: PlaceSet, keep: PlaceSet) -> GroupTell
    ensures { result ≡ told gain.bits keep.bits }
{
    GroupTell { gain, keep }
}

/// A field that names a cell of the row, counted from 0, which must hold a group: a cell past the end of the row holds none.
pub fn group_field(number: usize, cell: usize, row: &[Cell]) -> Field
    ensures { result ≡ group_field number cell row.now }
{
    Field {
        number,
        ranged: cell < 99,
        declared: cell < row.len(),
        suited: part_at::<Group, Cell>(row, cell).is_some(),
        listed: true,
    }
}

/// Of the words over groups, and over a group and a number: what is first at fault in their fields is what is first at fault where a cell past
/// the end of the row holds no group, and a fit of such fields lasts.
pub fn group_misfits()
    ensures { GroupMisfits }
{}
