//! The statements of the match sheet: each is one of the words with its operands, and does what the word does.
ghost use Rattle.std.specs.Prelude.{◌≡◌, [], ◌∷◌};
ghost use Rattle.bales.specs.Lists.{closed_weights};
ghost use Rattle.engine.specs.Fits.{first_misfit};
ghost use Rattle.engine.specs.Telling.{named};
ghost use Rattle.engine.proofs.Lifted.{one-narrowing, one-relation, two-narrowing, two-relation, three-narrowing, three-relation};
ghost use Rattle.words.specs.CellsLemmas.{cell-bounds, cell-heights, cell-tells, groups, numbers};
ghost use Rattle.words.specs.Fields.{place_field};
ghost use Rattle.words.specs.Fitting.{two-fit, three-fit};
ghost use Rattle.words.specs.GroupFields.{fit-laws, group-and-number-fit};
ghost use Rattle.words.specs.MemberLaws.{has-laws, lacks-laws};
ghost use Rattle.words.specs.PairLaws.{sub-laws, same-laws, apart-laws};
ghost use Rattle.words.specs.TripleLaws.{union-laws, both-laws, less-laws};
ghost use Rattle.amounts.specs.NumberLaws.{sum-laws, most-laws};
ghost use Rattle.amounts.specs.ScaleLaws.{count-laws, weigh-laws};
ghost use Rattle.statements.specs.Statements.{cells_of, RelationOf, narrowing_of, fields_of, word_fields};
ghost use Rattle.statements.specs.declared.statement.Statement.TheVariants.{Sub, Same, Apart, Union, Both, Less, Has, Lacks, Count, Weigh, Sum, Most};

use amounts::{numbers, scales};
use bales::ClosedList;
use engine::{Contradiction, Misfit, Propagator};
use words::{Cell, Member, Pair, Triple, members, pairs, triples};

/// A statement of the match sheet.
#[derive(Clone, Copy)]
pub enum Statement {
    Sub(Pair<pairs::Sub>),
    Same(Pair<pairs::Same>),
    Apart(Pair<pairs::Apart>),
    Union(Triple<triples::Union>),
    Both(Triple<triples::Both>),
    Less(Triple<triples::Less>),
    Has(Member<members::Has>),
    Lacks(Member<members::Lacks>),
    Count(Pair<scales::Count>),
    Weigh(Pair<scales::Weigh>),
    Sum(Triple<numbers::Sum>),
    Most(Pair<numbers::Most>),
}

// The same of each word, as a propagator over the cells of the match sheet.
macro_rules! each_word {
    ($statement:expr, $word:ident => $answer:expr) => {
        match $statement {
            Statement::Sub($word) => $answer,
            Statement::Same($word) => $answer,
            Statement::Apart($word) => $answer,
            Statement::Union($word) => $answer,
            Statement::Both($word) => $answer,
            Statement::Less($word) => $answer,
            Statement::Has($word) => $answer,
            Statement::Lacks($word) => $answer,
            Statement::Count($word) => $answer,
            Statement::Weigh($word) => $answer,
            Statement::Sum($word) => $answer,
            Statement::Most($word) => $answer,
        }
    };
}

impl Statement {
    // What is first at fault in the fields as the word has them.
    fn find_fault(&self, book: &ClosedList, row: &[Cell]) -> Option<Misfit>
        ensures { result ≡ first_misfit (word_fields book.now self.now row.now) }
    {
        each_word!(*self, word => word.find_misfit(book, row))
    }
}

impl Propagator<Cell, ClosedList> for Statement {
    ghost names = { λ s. named (cells_of s) };

    ghost holds = { RelationOf };

    ghost narrowed = { narrowing_of };

    ghost fields = { fields_of };

    ghost narrowing = { λ b.
        elim [
          | Sub w ↦ two-narrowing cell-bounds cell-heights cell-tells groups groups sub-laws w.first w.second
          | Same w ↦ two-narrowing cell-bounds cell-heights cell-tells groups groups same-laws w.first w.second
          | Apart w ↦ two-narrowing cell-bounds cell-heights cell-tells groups groups apart-laws w.first w.second
          | Union w ↦ three-narrowing cell-bounds cell-heights cell-tells groups union-laws w.first w.second w.third
          | Both w ↦ three-narrowing cell-bounds cell-heights cell-tells groups both-laws w.first w.second w.third
          | Less w ↦ three-narrowing cell-bounds cell-heights cell-tells groups less-laws w.first w.second w.third
          | Has w ↦ one-narrowing cell-bounds cell-heights cell-tells groups (has-laws w.place) w.cell
          | Lacks w ↦ one-narrowing cell-bounds cell-heights cell-tells groups (lacks-laws w.place) w.cell
          | Count w ↦ two-narrowing cell-bounds cell-heights cell-tells groups numbers count-laws w.first w.second
          | Weigh w ↦ two-narrowing cell-bounds cell-heights cell-tells groups numbers (weigh-laws (closed_weights b)) w.first w.second
          | Sum w ↦ three-narrowing cell-bounds cell-heights cell-tells numbers sum-laws w.first w.second w.third
          | Most w ↦ two-narrowing cell-bounds cell-heights cell-tells numbers numbers most-laws w.first w.second
        ] };

    ghost relation = { λ b.
        elim [
          | Sub w ↦ two-relation cell-bounds cell-heights cell-tells groups groups sub-laws w.first w.second
          | Same w ↦ two-relation cell-bounds cell-heights cell-tells groups groups same-laws w.first w.second
          | Apart w ↦ two-relation cell-bounds cell-heights cell-tells groups groups apart-laws w.first w.second
          | Union w ↦ three-relation cell-bounds cell-heights cell-tells groups union-laws w.first w.second w.third
          | Both w ↦ three-relation cell-bounds cell-heights cell-tells groups both-laws w.first w.second w.third
          | Less w ↦ three-relation cell-bounds cell-heights cell-tells groups less-laws w.first w.second w.third
          | Has w ↦ one-relation cell-bounds cell-heights cell-tells groups (has-laws w.place) w.cell
          | Lacks w ↦ one-relation cell-bounds cell-heights cell-tells groups (lacks-laws w.place) w.cell
          | Count w ↦ two-relation cell-bounds cell-heights cell-tells groups numbers count-laws w.first w.second
          | Weigh w ↦ two-relation cell-bounds cell-heights cell-tells groups numbers (weigh-laws (closed_weights b)) w.first w.second
          | Sum w ↦ three-relation cell-bounds cell-heights cell-tells numbers sum-laws w.first w.second w.third
          | Most w ↦ two-relation cell-bounds cell-heights cell-tells numbers numbers most-laws w.first w.second
        ] };

    ghost fitting = { λ b.
        elim [
          | Sub w ↦ fit-laws [] 3 (w.first ∷ (w.second ∷ []))
          | Same w ↦ fit-laws [] 3 (w.first ∷ (w.second ∷ []))
          | Apart w ↦ fit-laws [] 3 (w.first ∷ (w.second ∷ []))
          | Union w ↦ fit-laws [] 3 (w.first ∷ (w.second ∷ (w.third ∷ [])))
          | Both w ↦ fit-laws [] 3 (w.first ∷ (w.second ∷ (w.third ∷ [])))
          | Less w ↦ fit-laws [] 3 (w.first ∷ (w.second ∷ (w.third ∷ [])))
          | Has w ↦ fit-laws (place_field 4 w.place b ∷ []) 3 (w.cell ∷ [])
          | Lacks w ↦ fit-laws (place_field 4 w.place b ∷ []) 3 (w.cell ∷ [])
          | Count w ↦ group-and-number-fit w.first w.second
          | Weigh w ↦ group-and-number-fit w.first w.second
          | Sum w ↦ three-fit cell-bounds numbers w.first w.second w.third
          | Most w ↦ two-fit cell-bounds numbers numbers w.first w.second
        ] };

    fn names_cell(&self, cell: usize) -> bool {
        each_word!(*self, word => Propagator::<Cell, ClosedList>::names_cell(&word, cell))
    }

    fn narrow(&self, book: &ClosedList, row: &mut [Cell]) -> Result<bool, Contradiction> {
        each_word!(*self, word => word.narrow(book, row))
    }

    fn find_misfit(&self, book: &ClosedList, row: &[Cell]) -> Option<Misfit> {
        self.find_fault(book, row)
    }
}
