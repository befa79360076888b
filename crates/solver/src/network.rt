//! The rules over rows of so many cells, and which of them wait when a cell or a rule has changed something.
ghost use Rattle.std.specs.Prelude.{◌≡◌, ◌<◌};
ghost use Rattle.places.specs.Members.{union};
ghost use Rattle.rules.specs.Listed.{listed};
ghost use Rattle.solver.specs.Waking.{set_at, Namers, RuleTable};

use super::naming::Naming;
use domain::Domain;
use engine::Propagator;
use places::PlaceSet;
use rules::Rules;

/// The rules with the book that they read, and for each rule those that share a cell with it, in fixed memory.
#[derive(Drop)]
pub struct Network<'a, C: Domain, B, R: Propagator<C, B>> {
    pub(super) book: &'a B,
    pub(super) naming: Naming<'a, C, B, R>,
    by_rule: [PlaceSet; 64],
    ghost wired: { RuleTable R.Propagator.names (listed naming.rules.now) naming.cells by_rule },
}

// The table of rules.
fn table_of_rules<C: Domain, B, R: Propagator<C, B>>(naming: &Naming<'_, C, B, R>) -> [PlaceSet; 64]
    ensures { RuleTable R.Propagator.names (listed naming.now.rules.now) naming.now.cells result }
{
    let mut table = [PlaceSet::empty(); 64];
    for (k, rule) in naming.rules.as_slice().iter().enumerate() {
        table[k] = naming.sharers(*rule);
    }
    table
}

impl<'a, C: Domain, B, R: Propagator<C, B>> Network<'a, C, B, R> {
    /// Of these rules, over rows of so many cells.
    pub(super) fn new(book: &'a B, rules: &'a Rules<R>, cells: usize) -> Self
        ensures book { result.book.now ≡ book.now }
        ensures rules { listed result.naming.rules.now ≡ listed rules.now }
        ensures cells { result.naming.cells ≡ cells }
    {
        let naming = Naming::new(rules, cells);
        let by_rule = table_of_rules(&naming);
        Network {
            book,
            naming,
            by_rule,
        }
    }

    /// The rules that wait after this one has narrowed the row.
    pub(super) fn woken(&self, waiting: PlaceSet, rule: usize) -> PlaceSet
        requires { rule < 64 }
        ensures { result.bits ≡ union waiting.bits (set_at self.now.by_rule rule) }
    {
        waiting.union(self.by_rule[rule])
    }
}
