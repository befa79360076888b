//! The search over the caller's stack.
ghost use Rattle.std.specs.Prelude.{◌≡◌, ◌+◌, ◌-◌, ◌*◌, ◌≤◌, length, take, drop, ◌≢◌};
ghost use Rattle.rules.specs.Listed.{listed};
ghost use Rattle.solver.specs.Fixpoint.{OthersRest, Fixpoint};
ghost use Rattle.solver.specs.Endings.{Sought};
ghost use Rattle.solver.specs.Settling.{rows_above, SearchedOn, Settles};
ghost use Rattle.solver.specs.declared.search.End.TheVariants.{Found};

use super::network::Network;
use super::node::{Budget, Limits};
use super::stack::put_cell;
use domain::{Domain, Halves};
use engine::{Contradiction, Propagator};
use places::PlaceSet;
use rules::Rules;

/// How a search ended: with a row of single cells, with no child left, at the cut limit, or at the row limit.
#[derive(Clone, Copy, PartialEq, Eq)]
pub enum End {
    Found,
    None,
    Spent,
    Deep,
}

/// How a search ended, and the cuts that it made.
#[derive(Clone, Copy)]
pub struct Settled {
    pub end: End,
    pub cuts: usize,
}

// The half of a cell that is searched first.
fn first_branch<C: Halves>(cell: C) -> C
    ensures { result ≡ C.Halves.first cell }
{
    cell.first_half()
}

// The half that is searched where the first holds nothing, and made only then.
fn second_branch<C: Halves>(cell: C) -> C
    ensures { result ≡ C.Halves.second cell }
{
    cell.second_half()
}

// Brings the next row to the first where it is what was found.
fn lift<C: Copy>(stack: &mut [C], n: usize, end: End)
    requires { n + n ≤ length stack.old }
    ensures found { end ≡ Found → take n stack.new ≡ take n (drop n stack.old) }
    ensures other { (end ≢ Found) → take n stack.new ≡ take n stack.old }
{
    if end == End::Found {
        stack.copy_within(n..n + n, 0);
    }
}

impl<C: Halves, B, R: Propagator<C, B>> Network<'_, C, B, R> {
    // Brings the first row of the stack to rest.
    fn rest_row(&self, waits: PlaceSet, stack: &mut [C]) -> Result<(), Contradiction>
        requires { self.now.naming.cells ≤ length stack.old }
        ensures { OthersRest C.Domain R.Propagator self.now.book.now (listed self.now.naming.rules.now) waits.bits (take self.now.naming.cells stack.old) → Fixpoint C.Domain R.Propagator self.now.book.now (listed self.now.naming.rules.now) (take self.now.naming.cells stack.old) (take self.now.naming.cells stack.new) result }
    {
        self.rest(waits, &mut stack[..self.naming.cells])
    }

    // Searches from the first row of the stack, a half that is not yet at rest; the rows behind it are free.
    fn seek(&self, waits: PlaceSet, budget: Budget, stack: &mut [C]) -> Settled
        requires { (budget.limits.rows - budget.at.depth + 1) * self.now.naming.cells ≤ length stack.old }
        ensures { Sought C.Domain C.Halves.own R.Propagator self.now.book.now (listed self.now.naming.rules.now) budget.limits budget.at waits.bits (take self.now.naming.cells stack.old) (take self.now.naming.cells stack.new) result }
    {
        let n = self.naming.cells;
        let cuts = budget.at.cuts;
        let Ok(()) = self.rest_row(waits, stack) else {
            return Settled {
                end: End::None,
                cuts,
            };
        };
        let i = match budget.look(&stack[..n]) {
            Ok(i) => i,
            Err(end) => return Settled { end, cuts },
        };
        let woken = self.naming.namers(i);
        let cell = stack[i];
        put_cell(stack, n, i, first_branch(cell));
        let one = self.seek(woken, budget.cut(), &mut stack[n..]);
        if one.end != End::None {
            lift(stack, n, one.end);
            return one;
        }
        put_cell(stack, n, i, second_branch(cell));
        let two = self.seek(woken, budget.deeper(one.cuts), &mut stack[n..]);
        lift(stack, n, two.end);
        two
    }
}

// How many rows there are above the first, on a stack of so many cells.
fn rows_above(long: usize, n: usize) -> usize
    requires some { 1 ≤ n }
    requires room { n ≤ long }
    ensures { result ≡ rows_above long n }
{
    long / n - 1
}

// Lays the cells in the first row of a stack that has room for one, and searches from there.
fn search_from<C: Halves, B, R: Propagator<C, B>>(
    book: &B,
    rules: &Rules<R>,
    cells: &[C],
    cut_limit: usize,
    stack: &mut [C],
) -> Settled
    requires some { 1 ≤ length cells.now }
    requires room { length cells.now ≤ length stack.old }
    ensures { SearchedOn C.Domain C.Halves.own R.Propagator book.now (listed rules.now) cells.now cut_limit stack.old stack.new result }
{
    let n = cells.len();
    let limits = Limits {
        cuts: cut_limit,
        rows: rows_above(stack.len(), n),
    };
    stack[..n].copy_from_slice(cells);
    Network::new(book, rules, n).seek(PlaceSet::empty(), Budget::new(limits), stack)
}

/// Searches for single cells within these, by cutting cells in halves. The stack gives a row to each depth: the cells are laid in the first,
/// and what is found stands there. `None` where the stack is shorter than one row.
pub fn settle<C: Halves, B, R: Propagator<C, B>>(
    book: &B,
    rules: &Rules<R>,
    cells: &[C],
    cut_limit: usize,
    stack: &mut [C],
) -> Option<Settled>
    ensures { Settles C.Domain C.Halves.own R.Propagator book.now (listed rules.now) cells.now cut_limit stack.old stack.new result }
{
    let n = cells.len();
    if stack.len() < n {
        return None;
    }
    if n == 0 {
        return Some(Settled {
            end: End::Found,
            cuts: 0,
        });
    }
    Some(search_from(book, rules, cells, cut_limit, stack))
}
