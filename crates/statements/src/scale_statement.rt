//! The statements of the scale sheet, whose cells are numbers alone.
ghost use Rattle.engine.specs.Telling.{named};
ghost use Rattle.engine.proofs.Lifted.{two-narrowing, three-narrowing, two-relation, three-relation};
ghost use Rattle.domain.specs.NumbersLemmas.{number-bounds, number-heights, number-tells};
ghost use Rattle.words.specs.Fitting.{two-fit, three-fit};
ghost use Rattle.amounts.specs.NumberLaws.{sum-laws, most-laws};
ghost use Rattle.statements.specs.ScaleStatementLaws.{alone};
ghost use Rattle.statements.specs.ScaleStatements.{cells_of, RelationOf, narrowing_of, fields_of};
ghost use Rattle.statements.specs.declared.scale_statement.ScaleStatement.TheVariants.{Sum, Most};

use amounts::numbers;
use domain::Number;
use engine::{Contradiction, Misfit, Propagator};
use words::{Pair, Triple};

/// A statement of the scale sheet.
#[derive(Clone, Copy)]
pub enum ScaleStatement {
    Sum(Triple<numbers::Sum>),
    Most(Pair<numbers::Most>),
}

impl<B> Propagator<Number, B> for ScaleStatement {
    ghost names = { λ s. named (cells_of s) };

    ghost holds = { λ b s. RelationOf s };

    ghost narrowed = { λ b s. narrowing_of s };

    ghost fields = { λ b s. fields_of s };

    ghost narrowing = { λ b.
        elim [
          | Sum w ↦ three-narrowing number-bounds number-heights number-tells alone sum-laws w.first w.second w.third
          | Most w ↦ two-narrowing number-bounds number-heights number-tells alone alone most-laws w.first w.second
        ] };

    ghost relation = { λ b.
        elim [
          | Sum w ↦ three-relation number-bounds number-heights number-tells alone sum-laws w.first w.second w.third
          | Most w ↦ two-relation number-bounds number-heights number-tells alone alone most-laws w.first w.second
        ] };

    ghost fitting = { λ b.
        elim [
          | Sum w ↦ three-fit number-bounds alone w.first w.second w.third
          | Most w ↦ two-fit number-bounds alone alone w.first w.second
        ] };

    // two arms each: a macro as for `Statement` is no plainer
    fn names_cell(&self, cell: usize) -> bool {
        match *self {
            ScaleStatement::Sum(word) => Propagator::<Number, B>::names_cell(&word, cell),
            ScaleStatement::Most(word) => Propagator::<Number, B>::names_cell(&word, cell),
        }
    }

    fn narrow(&self, book: &B, row: &mut [Number]) -> Result<bool, Contradiction> {
        match *self {
            ScaleStatement::Sum(word) => word.narrow(book, row),
            ScaleStatement::Most(word) => word.narrow(book, row),
        }
    }

    fn find_misfit(&self, book: &B, row: &[Number]) -> Option<Misfit> {
        match *self {
            ScaleStatement::Sum(word) => word.find_misfit(book, row),
            ScaleStatement::Most(word) => word.find_misfit(book, row),
        }
    }
}
