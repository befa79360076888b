//! Words over three operands of one kind.
ghost use Rattle.std.specs.Prelude.{◌≡◌, [], ◌∷◌};
ghost use Rattle.engine.specs.Telling.{named};
ghost use Rattle.engine.specs.Arity.{three_narrowed, ThreeHold, ThreeLaws};
ghost use Rattle.engine.proofs.Lifted.{three-narrowing, three-relation};
ghost use Rattle.words.specs.Fields.{three_fields};
ghost use Rattle.words.specs.Fitting.{three-fit};

use super::part::{Holds, field_of, three_at};
use domain::Domain;
use engine::{Contradiction, Misfit, Propagator, first_misfit, tell_three};

/// A word over three operands: its relation, and what it tells each operand from the bounds of all. It may read the book `B` besides.
pub trait Ternary<B>: Copy {
    type Kind: Domain;

    ghost holds: { B → Self.Kind.Value → Self.Kind.Value → Self.Kind.Value → Type 0 };

    ghost tells: { B → Self.Kind → Self.Kind → Self.Kind → Self.Kind.Tell × Self.Kind.Tell × Self.Kind.Tell };

    /// What each operand is told.
    fn tells(
        book: &B,
        first: Self::Kind,
        second: Self::Kind,
        third: Self::Kind,
    ) -> (
        <Self::Kind as Domain>::Tell,
        <Self::Kind as Domain>::Tell,
        <Self::Kind as Domain>::Tell,
    )
        ensures { result ≡ tells book.now first second third };

    ghost laws: { (b : B) → ThreeLaws Self.Kind.allows Self.Kind.height Self.Kind.passes (tells b) (holds b) };
}

/// A word stated of three cells, counted from 0. Not one type with `Pair` over an array: a pair's operands may be of two kinds.
#[derive(Clone, Copy)]
pub struct Triple<W> {
    pub word: W,
    pub first: usize,
    pub second: usize,
    pub third: usize,
}

impl<B, W: Ternary<B>, C: Holds<W::Kind>> Propagator<C, B> for Triple<W> {
    ghost names = { λ t. named (t.first ∷ (t.second ∷ (t.third ∷ []))) };

    ghost holds = { λ b t. ThreeHold C.Holds.kin (W.holds b) t.first t.second t.third };

    ghost narrowed = { λ b t. three_narrowed C.Domain.meet C.Holds.part C.Holds.tell (W.tells b) t.first t.second t.third };

    ghost fields = { λ b t. three_fields C.Holds.part t.first t.second t.third };

    ghost narrowing = { λ b t. three-narrowing C.Domain.bounds C.Domain.heights C.Domain.tells C.Holds.sits (W.laws b) t.first t.second t.third };

    ghost relation = { λ b t. three-relation C.Domain.bounds C.Domain.heights C.Domain.tells C.Holds.sits (W.laws b) t.first t.second t.third };

    ghost fitting = { λ b t. three-fit C.Domain.bounds C.Holds.sits t.first t.second t.third };

    fn names_cell(&self, cell: usize) -> bool {
        self.first == cell || self.second == cell || self.third == cell
    }

    fn narrow(&self, book: &B, row: &mut [C]) -> Result<bool, Contradiction> {
        let Some((first, second, third)) = three_at(row, self.first, self.second, self.third) else {
            return Ok(false);
        };
        let (x, y, z) = W::tells(book, first, second, third);
        tell_three(
            row,
            self.first,
            C::tell(x),
            self.second,
            C::tell(y),
            self.third,
            C::tell(z),
        )
    }

    fn find_misfit(&self, _book: &B, row: &[C]) -> Option<Misfit> {
        first_misfit(&[
            field_of(3, self.first, row),
            field_of(4, self.second, row),
            field_of(5, self.third, row),
        ])
    }
}
