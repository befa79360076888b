//! The rules that name a cell, and those that share a cell with a rule. Rule number k, counted from 0, is place k + 1 of a set.
ghost use Rattle.std.specs.Prelude.{◌≡◌, ◌^◌, ◌<◌, ◌≤◌};
ghost use Rattle.rules.specs.Listed.{listed};
ghost use Rattle.solver.specs.Waking.{Namers, Sharers, CellTable};

use domain::Domain;
use engine::Propagator;
use places::PlaceSet;
use rules::Rules;
use std::marker::PhantomData;

/// The rules over rows of so many cells, and for each of the first 64 cells the rules that name it, in fixed memory.
#[derive(Drop)]
pub struct Naming<'a, C: Domain, B, R: Propagator<C, B>> {
    pub(super) rules: &'a Rules<R>,
    pub(super) cells: usize,
    by_cell: [PlaceSet; 64],
    of: PhantomData<(C, B)>,
    ghost right: { CellTable R.Propagator.names (listed rules.now) cells by_cell },
}

// The set of one rule.
fn alone(rule: usize) -> PlaceSet
    requires { rule < 64 }
    ensures { result.bits ≡ 2 ^ rule }
{
    PlaceSet::only(rule as u32 + 1).unwrap()
}

// The rules that name the cell.
fn find_namers<C: Domain, B, R: Propagator<C, B>>(rules: &Rules<R>, cell: usize) -> PlaceSet
    ensures { Namers R.Propagator.names (listed rules.now) cell result.bits }
{
    let mut set = PlaceSet::empty();
    for (k, rule) in rules.as_slice().iter().enumerate() {
        if rule.names_cell(cell) {
            set = set.union(alone(k));
        }
    }
    set
}

// The table of cells.
fn table_of_cells<C: Domain, B, R: Propagator<C, B>>(
    rules: &Rules<R>,
    cells: usize,
) -> [PlaceSet; 64]
    ensures { CellTable R.Propagator.names (listed rules.now) cells result }
{
    let mut table = [PlaceSet::empty(); 64];
    // a loop: the goal on what `array::from_fn` makes was tried, and stayed open
    for cell in 0..cells.min(64) {
        table[cell] = find_namers::<C, B, R>(rules, cell);
    }
    table
}

impl<'a, C: Domain, B, R: Propagator<C, B>> Naming<'a, C, B, R> {
    /// Of these rules.
    pub(super) fn new(rules: &'a Rules<R>, cells: usize) -> Self
        ensures rules { listed result.rules.now ≡ listed rules.now }
        ensures cells { result.cells ≡ cells }
    {
        let by_cell = table_of_cells::<C, B, R>(rules, cells);
        Naming {
            rules,
            cells,
            by_cell,
            of: PhantomData,
        }
    }

    /// The rules that name the cell, from the table, or found anew where the cell is past it.
    pub(super) fn namers(&self, cell: usize) -> PlaceSet
        requires { cell < self.now.cells }
        ensures { Namers R.Propagator.names (listed self.now.rules.now) cell result.bits }
    {
        if cell < 64 {
            self.by_cell[cell]
        } else {
            find_namers::<C, B, R>(self.rules, cell)
        }
    }

    /// The rules that share a cell with this one.
    pub(super) fn sharers(&self, rule: R) -> PlaceSet
        ensures { Sharers R.Propagator.names (listed self.now.rules.now) self.now.cells rule result.bits }
    {
        let mut set = PlaceSet::empty();
        // over numbers: there are no cells here, and a fold's closure would have to say that each is within
        for cell in 0..self.cells {
            if rule.names_cell(cell) {
                set = set.union(self.namers(cell));
            }
        }
        set
    }
}
