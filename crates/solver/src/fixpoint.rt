//! The fixpoint: rules are fired until none narrows the row any more, or one contradicts.
ghost use Rattle.std.specs.Prelude.{◌≡◌, ◌≤◌, length};
ghost use Rattle.places.specs.Members.{none, one, up_to};
ghost use Rattle.meaning.specs.Resting.{Rests};
ghost use Rattle.rules.specs.Listed.{listed, but_newest};
ghost use Rattle.solver.specs.Fixpoint.{OthersRest, Fixpoint};

use super::network::Network;
use domain::Domain;
use engine::{Contradiction, Propagator};
use places::PlaceSet;
use rules::Rules;

impl<C: Domain, B, R: Propagator<C, B>> Network<'_, C, B, R> {
    // Fires the rules that wait, the lowest first. Every rule that does not wait rests; one that narrows the row wakes those that share a
    // cell with it.
    pub(super) fn rest(&self, waits: PlaceSet, row: &mut [C]) -> Result<(), Contradiction>
        requires { length row.old ≡ self.now.naming.cells }
        ensures { OthersRest C.Domain R.Propagator self.now.book.now (listed self.now.naming.rules.now) waits.bits row.old → Fixpoint C.Domain R.Propagator self.now.book.now (listed self.now.naming.rules.now) row.old row.new result }
    {
        let rules = self.naming.rules.as_slice();
        // a place past the rules is none of theirs
        let mut waiting = waits.intersection(all(rules.len()));
        while let Some(place) = waiting.first() {
            let k = place as usize - 1;
            waiting = waiting.without(waiting.lowest());
            if rules[k].narrow(self.book, row)? {
                waiting = self.woken(waiting, k);
            }
        }
        Ok(())
    }
}

// All of so many rules.
fn all(count: usize) -> PlaceSet
    requires { count ≤ 64 }
    ensures { result.bits ≡ up_to count }
{
    PlaceSet::up_to(count as u32).unwrap()
}

// The newest of so many rules.
fn newest(count: usize) -> PlaceSet
    requires { count ≤ 64 }
    ensures some { 1 ≤ count → result.bits ≡ one count }
    ensures none { count ≡ 0 → result.bits ≡ none }
{
    PlaceSet::only(count as u32).unwrap_or(PlaceSet::empty())
}

/// Brings the row to the widest bounds that rest under all the rules, or answers that no bounds within it rest. Book and rules come apart, as a
/// sheet keeps them; `Network` binds them to rows of a length.
pub fn rest<C: Domain, B, R: Propagator<C, B>>(
    book: &B,
    rules: &Rules<R>,
    row: &mut [C],
) -> Result<(), Contradiction>
    ensures { Fixpoint C.Domain R.Propagator book.now (listed rules.now) row.old row.new result }
{
    Network::new(book, rules, row.len()).rest(all(rules.len()), row)
}

/// The same of a row that rests under all rules but the newest: the newest alone waits at first. Only of such a row is anything promised, so
/// that it is a call of its own.
pub fn rest_newest<C: Domain, B, R: Propagator<C, B>>(
    book: &B,
    rules: &Rules<R>,
    row: &mut [C],
) -> Result<(), Contradiction>
    ensures { Rests C.Domain R.Propagator book.now (but_newest (listed rules.now)) row.old → Fixpoint C.Domain R.Propagator book.now (listed rules.now) row.old row.new result }
{
    Network::new(book, rules, row.len()).rest(newest(rules.len()), row)
}
