//! Kinds of cell in which another kind sits, and how a word reads operands of that kind from a row.
ghost use Rattle.std.specs.Prelude.{◌≡◌, Some, Option, nat_lt};
ghost use Rattle.domain.specs.declared.mixed.Either.TheVariants.{Left, Right};
ghost use Rattle.domain.specs.Groups.{GroupAllows, group_height, GroupPasses};
ghost use Rattle.domain.specs.Numbers.{NumberAllows, number_height, NumberPasses};
ghost use Rattle.engine.specs.Fits.{cell_field};
ghost use Rattle.engine.specs.Arity.{all_two, all_three};
ghost use Rattle.engine.specs.Parts.{PartLaws, operand, of_kind, first_of, second_of, left_of, right_of};
ghost use Rattle.engine.proofs.Sorts.{whole-part};
ghost use Rattle.words.specs.CellsLemmas.{groups, numbers};

use domain::{Domain, Either, Group, GroupTell, Mixed, Number, NumberTell};
use engine::{Field, cell_at};

/// A kind of cell some of which are of the kind `P`.
pub trait Holds<P: Domain>: Domain {
    // The bounds of the kind in a cell, if it is of that kind.
    ghost part: { Self → Option P };

    // What a value is as one of the kind, if it is one.
    ghost kin: { Self.Value → Option P.Value };

    // A value of the kind as one of a cell.
    ghost value: { P.Value → Self.Value };

    // What the kind is told, as what a cell is told.
    ghost tell: { P.Tell → Self.Tell };

    /// The bounds in the cell, or nothing where it is of another kind.
    fn part(self) -> Option<P>
        ensures { result ≡ part self };

    /// What the kind is told, as what a cell is told.
    fn tell(told: P::Tell) -> Self::Tell
        ensures { result ≡ tell told };

    ghost sits: { PartLaws Self.Domain.allows Self.Domain.height Self.Domain.passes P.Domain.allows P.Domain.height P.Domain.passes part kin value tell };
}

impl Holds<Group> for Mixed<Group, Number> {
    ghost part = { first_of };

    ghost kin = { left_of };

    ghost value = { Left };

    ghost tell = { Left };

    ghost sits = { groups };

    fn part(self) -> Option<Group> {
        match self {
            Mixed::First(group) => Some(group),
            Mixed::Second(_) => None,
        }
    }

    fn tell(told: GroupTell) -> Either<GroupTell, NumberTell> {
        Either::Left(told)
    }
}

impl Holds<Number> for Mixed<Group, Number> {
    ghost part = { second_of };

    ghost kin = { right_of };

    ghost value = { Right };

    ghost tell = { Right };

    ghost sits = { numbers };

    fn part(self) -> Option<Number> {
        match self {
            Mixed::First(_) => None,
            Mixed::Second(number) => Some(number),
        }
    }

    fn tell(told: NumberTell) -> Either<GroupTell, NumberTell> {
        Either::Right(told)
    }
}

impl Holds<Number> for Number {
    ghost part = { Some };

    ghost kin = { Some };

    ghost value = { λ n. n };

    ghost tell = { λ t. t };

    ghost sits = { whole-part NumberAllows number_height NumberPasses };

    fn part(self) -> Option<Number> {
        Some(self)
    }

    fn tell(told: NumberTell) -> NumberTell {
        told
    }
}

/// The bounds in a cell of the row, or nothing where the row ends before it or it is of another kind.
#[inline]
pub fn part_at<P: Domain, C: Holds<P>>(row: &[C], cell: usize) -> Option<P>
    ensures { result ≡ operand C.Holds.part row.now cell }
{
    cell_at(row, cell)?.part()
}

/// The bounds in two cells of the row, each of its kind, if there are both.
#[inline]
pub fn two_at<P: Domain, Q: Domain, C: Holds<P> + Holds<Q>>(
    row: &[C],
    first: usize,
    second: usize,
) -> Option<(P, Q)>
    ensures { result ≡ all_two (operand C.Holds-1.part row.now first) (operand C.Holds-2.part row.now second) }
{
    let one = part_at::<P, C>(row, first)?;
    let other = part_at::<Q, C>(row, second)?;
    Some((one, other))
}

/// The bounds in three cells of the row, all of one kind, if there are all.
#[inline]
pub fn three_at<P: Domain, C: Holds<P>>(
    row: &[C],
    first: usize,
    second: usize,
    third: usize,
) -> Option<(P, P, P)>
    ensures { result ≡ all_three (operand C.Holds.part row.now first) (operand C.Holds.part row.now second) (operand C.Holds.part row.now third) }
{
    let first = part_at(row, first)?;
    let second = part_at(row, second)?;
    let third = part_at(row, third)?;
    Some((first, second, third))
}

/// A field that names a cell of the row, counted from 0, which must be of the kind `P`.
pub fn field_of<P: Domain, C: Holds<P>>(number: usize, cell: usize, row: &[C]) -> Field
    ensures { result ≡ cell_field number (nat_lt cell 99) (of_kind C.Holds.part) cell row.now }
{
    // `is_none_or` with a closure was tried: the borrow checker does not cover it
    let (declared, suited) = match cell_at(row, cell) {
        None => (false, true),
        Some(found) => (true, found.part().is_some()),
    };
    Field {
        number,
        ranged: cell < 99,
        declared,
        suited,
        listed: true,
    }
}
