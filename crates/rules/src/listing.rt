//! Taking rules, giving up the newest, and showing them all.
ghost use Rattle.std.specs.Prelude.{◌≡◌, ◌≤◌, [], length, IfOk, ◌==◌};
ghost use Rattle.rules.specs.Listed.{listed, Pushed, but_newest};

use super::{CAPACITY, Rules};
use std::alloc::{AllocError, Global};

impl<R: Copy> Rules<R> {
    /// No rule yet, and room for 64; it fails only for want of memory.
    pub fn new(heap: Global) -> Result<Rules<R>, AllocError>
        ensures { IfOk result (λ rules. listed rules ≡ []) }
    {
        let items = Vec::with_capacity(heap, CAPACITY)?;
        Ok(Rules { items })
    }

    /// How many there are.
    pub fn len(&self) -> usize
        ensures { result ≡ length (listed self.now) }
    {
        self.items.len()
    }

    /// Are there 64?
    pub fn is_full(&self) -> bool
        ensures { result ≡ (length (listed self.now) == 64) }
    {
        self.len() == CAPACITY
    }

    /// All of them, the oldest first.
    pub fn as_slice(&self) -> &[R]
        ensures listed { result.now ≡ listed self.now }
        ensures few { length result.now ≤ 64 }
    {
        self.items.as_slice()
    }

    /// Takes a rule as the newest, or gives it back where there are 64.
    pub fn push(&mut self, rule: R) -> Result<(), R>
        ensures { Pushed (listed self.old) rule (listed self.new) result }
    {
        if self.is_full() {
            return Err(rule);
        }
        self.items.push_reserved(rule);
        Ok(())
    }

    /// Gives up the newest rule, if there is one.
    pub fn pop(&mut self)
        ensures { listed self.new ≡ but_newest (listed self.old) }
    {
        self.items.pop();
    }
}
