//! Words over a group and a place.
ghost use Rattle.std.specs.Prelude.{◌≡◌, ℕ, [], ◌∷◌, length};
ghost use Rattle.bales.specs.Lists.{closed_weights};
ghost use Rattle.domain.specs.declared.bounds.BaleSet.{BaleSet};
ghost use Rattle.domain.specs.declared.bounds.Group.{Group};
ghost use Rattle.domain.specs.declared.bounds.GroupTell.{GroupTell};
ghost use Rattle.domain.specs.Groups.{GroupAllows, group_height, GroupPasses};
ghost use Rattle.engine.specs.Telling.{named};
ghost use Rattle.engine.specs.Arity.{one_narrowed, OneHolds, OneLaws};
ghost use Rattle.engine.specs.Fits.{cell_fields};
ghost use Rattle.engine.proofs.Lifted.{one-narrowing, one-relation};
ghost use Rattle.words.specs.Fields.{field_at, place_field};
ghost use Rattle.words.specs.Fitting.{one-fits};

use super::part::{Holds, field_of, part_at};
use bales::ClosedList;
use domain::{Group, GroupTell};
use engine::{Contradiction, Field, Misfit, Propagator, first_misfit, tell_one};

/// A word over a group and a place: its relation, and what it tells the group.
pub trait Membership: Copy {
    ghost holds: { ℕ → BaleSet → Type 0 };

    ghost tells: { ℕ → Group → GroupTell };

    /// What the group is told.
    fn tells(place: u32, group: Group) -> GroupTell
        ensures { result ≡ tells place group };

    ghost laws: { (place : ℕ) → OneLaws GroupAllows group_height GroupPasses (tells place) (holds place) };
}

/// A word stated of a cell, counted from 0, and a place, counted from 1. Not one type with `Pair`: a place is no cell.
#[derive(Clone, Copy)]
pub struct Member<W> {
    pub word: W,
    pub cell: usize,
    pub place: u32,
}

// How many bales the list has.
fn bale_count(list: &ClosedList) -> usize
    ensures { result ≡ length (closed_weights list.now) }
{
    list.bales().len()
}

// A field that is a place, counted from 1.
fn place_field(number: usize, place: u32, list: &ClosedList) -> Field
    ensures { result ≡ place_field number place list.now }
{
    Field {
        number,
        ranged: 1 <= place && place <= 99,
        declared: true,
        suited: true,
        listed: place as usize <= bale_count(list),
    }
}

impl<W: Membership, C: Holds<Group>> Propagator<C, ClosedList> for Member<W> {
    ghost names = { λ m. named (m.cell ∷ []) };

    ghost holds = { λ b m. OneHolds C.Holds.kin (W.holds m.place) m.cell };

    ghost narrowed = { λ b m. one_narrowed C.Domain.meet C.Holds.part C.Holds.tell (W.tells m.place) m.cell };

    ghost fields = { λ b m. cell_fields (field_at C.Holds.part 3 m.cell ∷ []) (place_field 4 m.place b ∷ []) };

    ghost narrowing = { λ b m. one-narrowing C.Domain.bounds C.Domain.heights C.Domain.tells C.Holds.sits (W.laws m.place) m.cell };

    ghost relation = { λ b m. one-relation C.Domain.bounds C.Domain.heights C.Domain.tells C.Holds.sits (W.laws m.place) m.cell };

    ghost fitting = { λ b m. one-fits C.Domain.bounds C.Holds.sits m.cell (place_field 4 m.place b ∷ []) };

    fn names_cell(&self, cell: usize) -> bool {
        self.cell == cell
    }

    fn narrow(&self, _book: &ClosedList, row: &mut [C]) -> Result<bool, Contradiction> {
        let Some(group) = part_at(row, self.cell) else {
            return Ok(false);
        };
        let tell = W::tells(self.place, group);
        tell_one(row, self.cell, C::tell(tell))
    }

    fn find_misfit(&self, book: &ClosedList, row: &[C]) -> Option<Misfit> {
        first_misfit(&[
            field_of(3, self.cell, row),
            place_field(4, self.place, book),
        ])
    }
}
