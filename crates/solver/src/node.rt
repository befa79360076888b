//! One node of the search tree: how far the search has come there, and what is to be made of it.
ghost use Rattle.std.specs.Prelude.{◌≡◌, ◌+◌, ◌<◌, ◌≤◌, ◌==◌, not};
ghost use Rattle.std.specs.List.{position};
ghost use Rattle.solver.specs.Nodes.{Looks};

use super::search::End;
use domain::Domain;

/// How many cuts, and how many rows above the first, a search may use.
#[derive(Clone, Copy)]
pub struct Limits {
    pub cuts: usize,
    pub rows: usize,
}

/// The cuts made so far, and the depth.
#[derive(Clone, Copy)]
pub struct Progress {
    pub cuts: usize,
    pub depth: usize,
}

/// How far a search has come within its limits.
#[derive(Clone, Copy)]
pub struct Budget {
    pub limits: Limits,
    pub at: Progress,
    ghost cuts: { at.cuts ≤ limits.cuts },
    ghost depth: { at.depth ≤ limits.rows },
}

// The first cell that is not single.
fn first_open<C: Domain>(row: &[C]) -> Option<usize>
    ensures { result ≡ position (λ cell. not (C.Domain.height cell == 0)) row.now }
{
    row.iter().position(|cell| !cell.is_single())
}

impl Budget {
    /// At the root.
    pub(super) fn new(limits: Limits) -> Budget
        ensures limits { result.limits ≡ limits }
        ensures cuts { result.at.cuts ≡ 0 }
        ensures depth { result.at.depth ≡ 0 }
    {
        Budget {
            limits,
            at: Progress { cuts: 0, depth: 0 },
        }
    }

    /// One row deeper, when so many cuts are made.
    pub(super) fn deeper(self, cuts: usize) -> Budget
        requires cuts { cuts ≤ self.limits.cuts }
        requires depth { self.at.depth < self.limits.rows }
        ensures limits { result.limits ≡ self.limits }
        ensures cuts { result.at.cuts ≡ cuts }
        ensures depth { result.at.depth ≡ self.at.depth + 1 }
    {
        Budget {
            limits: self.limits,
            at: Progress {
                cuts,
                depth: self.at.depth + 1,
            },
        }
    }

    /// One row deeper, with one cut more.
    pub(super) fn cut(self) -> Budget
        requires cuts { self.at.cuts < self.limits.cuts }
        requires depth { self.at.depth < self.limits.rows }
        ensures limits { result.limits ≡ self.limits }
        ensures cuts { result.at.cuts ≡ self.at.cuts + 1 }
        ensures depth { result.at.depth ≡ self.at.depth + 1 }
    {
        self.deeper(self.at.cuts + 1)
    }

    // Is no cut left?
    fn is_spent(self) -> bool
        ensures { result ≡ (self.at.cuts == self.limits.cuts) }
    {
        self.limits.cuts == self.at.cuts
    }

    // Is no row left?
    fn is_deep(self) -> bool
        ensures { result ≡ (self.at.depth == self.limits.rows) }
    {
        self.limits.rows == self.at.depth
    }

    /// The cell to cut in a row at rest, or how the search ends there.
    pub(super) fn look<C: Domain>(self, row: &[C]) -> Result<usize, End>
        ensures { Looks C.Domain.height self.limits self.at row.now result }
    {
        let Some(i) = first_open(row) else {
            return Err(End::Found);
        };
        if self.is_spent() {
            return Err(End::Spent);
        }
        if self.is_deep() {
            return Err(End::Deep);
        }
        Ok(i)
    }
}
