//! Settle: the first whole match is searched for on the caller's stack.
ghost use Rattle.sheet.specs.Sheets.{told_of, bounds_of};
ghost use Rattle.sheet.specs.Calls.{Settling};

use super::sheet::{CUTS, Sheet};
use domain::Halves;
use engine::Propagator;
use fault::{Fault, Refusal};
use solver::{Settled, settle};

impl<C: Halves, B: Drop, R: Propagator<C, B>> Sheet<C, B, R> {
    /// Searches for the first whole match, and leaves the sheet as it was; refused by 4 or 16. The stack is the caller's: its first row holds
    /// what is found, and else the standing bounds.
    pub fn settle(&self, line: u32, limit: u32, stack: &mut [C]) -> Result<Settled, Fault>
        ensures { Settling C.Domain C.Halves.own R.Propagator (told_of self.now) (bounds_of self.now) line limit stack.old result stack.new }
    {
        if CUTS < limit {
            return Err(Fault::new(Refusal::BadNumber, line, 2));
        }
        let short = Fault::new(Refusal::ShortMemory, line, 0);
        settle(&self.book, &self.rules, &self.cells, limit as usize, stack).ok_or(short)
    }
}
