//! Words over two operands, each of a kind of its own.
ghost use Rattle.std.specs.Prelude.{◌≡◌, [], ◌∷◌};
ghost use Rattle.engine.specs.Telling.{named};
ghost use Rattle.engine.specs.Arity.{two_narrowed, TwoHold, TwoLaws};
ghost use Rattle.engine.proofs.Lifted.{two-narrowing, two-relation};
ghost use Rattle.words.specs.Fields.{two_fields};
ghost use Rattle.words.specs.Fitting.{two-fit};

use super::part::{Holds, field_of, two_at};
use domain::Domain;
use engine::{Contradiction, Misfit, Propagator, first_misfit, tell_two};

/// A word over two operands: its relation, and what it tells each operand from the bounds of both. It may read the book `B` besides.
pub trait Binary<B>: Copy {
    type First: Domain;

    type Second: Domain;

    ghost holds: { B → Self.First.Value → Self.Second.Value → Type 0 };

    ghost tells: { B → Self.First → Self.Second → Self.First.Tell × Self.Second.Tell };

    /// What each operand is told.
    fn tells(
        book: &B,
        first: Self::First,
        second: Self::Second,
    ) -> (
        <Self::First as Domain>::Tell,
        <Self::Second as Domain>::Tell,
    )
        ensures { result ≡ tells book.now first second };

    ghost laws: { (b : B) → TwoLaws Self.First.allows Self.First.height Self.First.passes Self.Second.allows Self.Second.height Self.Second.passes (tells b) (holds b) };
}

/// A word stated of two cells, counted from 0.
#[derive(Clone, Copy)]
pub struct Pair<W> {
    pub word: W,
    pub first: usize,
    pub second: usize,
}

impl<B, W: Binary<B>, C: Holds<W::First> + Holds<W::Second>> Propagator<C, B> for Pair<W> {
    ghost names = { λ p. named (p.first ∷ (p.second ∷ [])) };

    ghost holds = { λ b p. TwoHold C.Holds-1.kin C.Holds-2.kin (W.holds b) p.first p.second };

    ghost narrowed = { λ b p. two_narrowed C.Domain.meet C.Holds-1.part C.Holds-2.part C.Holds-1.tell C.Holds-2.tell (W.tells b) p.first p.second };

    ghost fields = { λ b p. two_fields C.Holds-1.part C.Holds-2.part p.first p.second };

    ghost narrowing = { λ b p. two-narrowing C.Domain.bounds C.Domain.heights C.Domain.tells C.Holds-1.sits C.Holds-2.sits (W.laws b) p.first p.second };

    ghost relation = { λ b p. two-relation C.Domain.bounds C.Domain.heights C.Domain.tells C.Holds-1.sits C.Holds-2.sits (W.laws b) p.first p.second };

    ghost fitting = { λ b p. two-fit C.Domain.bounds C.Holds-1.sits C.Holds-2.sits p.first p.second };

    fn names_cell(&self, cell: usize) -> bool {
        self.first == cell || self.second == cell
    }

    fn narrow(&self, book: &B, row: &mut [C]) -> Result<bool, Contradiction> {
        let Some((first, second)) = two_at::<W::First, W::Second, C>(row, self.first, self.second)
        else {
            return Ok(false);
        };
        let (x, y) = W::tells(book, first, second);
        tell_two(
            row,
            self.first,
            <C as Holds<W::First>>::tell(x),
            self.second,
            <C as Holds<W::Second>>::tell(y),
        )
    }

    fn find_misfit(&self, _book: &B, row: &[C]) -> Option<Misfit> {
        first_misfit(&[
            field_of::<W::First, C>(3, self.first, row),
            field_of::<W::Second, C>(4, self.second, row),
        ])
    }
}
