//! An open bale list: taking bales in turn, and closing.

ghost use Rattle.std.specs.Prelude.{◌≡◌, ◌<◌, ◌≤◌, false, [], ◌∷◌, ◌++◌, length, is_ok, IfOk, if◌then◌else◌, slice_set};
ghost use Rattle.bales.specs.Tables.{weights, table_of};
ghost use Rattle.bales.specs.Lists.{open_weights, closed_weights, entering, closing};

use super::super::bale::{Place, Weight};
use super::{Bale, ClosedList, OpenList};
use fault::{Fault, Refusal};
use std::alloc::{AllocError, Global};

impl OpenList {
    /// A list with no bale yet and with room for all; it fails only for want of memory.
    pub fn open(heap: Global) -> Result<OpenList, AllocError>
        ensures { IfOk result (λ list. open_weights list ≡ []) }
    {
        let bales = Vec::with_capacity(heap, 64)?;
        Ok(OpenList { bales })
    }

    fn count(&self) -> usize
        ensures { result ≡ length (open_weights self.now) }
    {
        self.bales.len()
    }

    /// Puts a bale behind the others.
    fn put(&mut self, weight: Weight)
        requires { length (open_weights self.old) < 64 }
        ensures { open_weights self.new ≡ open_weights self.old ++ (weight.number ∷ []) }
    {
        self.bales.push_reserved(Bale { weight });
    }

    /// Takes a bale at the next place; refuses a 65th bale, then a place that is not the next.
    pub fn enter(&mut self, line: u32, place: Place, weight: Weight) -> Result<(), Fault>
        ensures answer { result ≡ entering (open_weights self.old) line place.number }
        ensures after { open_weights self.new ≡ (if is_ok result then open_weights self.old ++ (weight.number ∷ []) else open_weights self.old) }
        ensures same { is_ok result ≡ false → self.new ≡ self.old }
    {
        if self.count() >= 64 {
            return Err(Fault::new(Refusal::Full, line, 0));
        }
        if place.number() as usize != self.count() + 1 {
            return Err(Fault::new(Refusal::NotNext, line, 2));
        }
        self.put(weight);
        Ok(())
    }

    /// May the list be closed? One without bales may not.
    pub fn can_close(&self, line: u32) -> Result<(), Fault>
        ensures { result ≡ closing (open_weights self.now) line }
    {
        if self.count() == 0 {
            return Err(Fault::new(Refusal::NoBales, line, 0));
        }
        Ok(())
    }

    /// The list closed, with the same bales. It cannot fail: `can_close` is what may refuse.
    pub fn close(self) -> ClosedList
        ensures { closed_weights result ≡ open_weights self }
    {
        let OpenList { bales } = self;
        let table = table_of(bales.as_slice());
        ClosedList { bales, table }
    }
}

// The weight of each bale in turn, and 0 past the last.
fn table_of(bales: &[Bale]) -> [u16; 64]
    requires { length bales.now ≤ 64 }
    ensures { result ≡ table_of (weights bales.now) }
{
    let mut table = [0u16; 64];
    for (i, bale) in bales.iter().enumerate() {
        put_weight(&mut table, i, bale.weight);
    }
    table
}

// Puts a weight where it belongs in a table.
fn put_weight(table: &mut [u16; 64], i: usize, weight: Weight)
    requires { i < 64 }
    ensures { table.new ≡ slice_set table.old i weight.number }
{
    table[i] = weight.pounds();
}

#[cfg(test)]
mod tests {
    use super::super::super::ranged::Ranged;
    use super::*;
    use std::test::Fail;

    #[test]
    fn takes_places_in_turn(rt: HostRuntime) -> Result<(), Fail> {
        let mut list = OpenList::open(rt.alloc())?;
        assert_eq!(rt; list.can_close(1), Err(Fault::new(Refusal::NoBales, 1, 0)));
        let Some(first) = Place::from_number(1) else {
            return Err(Fail::new("no place"));
        };
        let Some(second) = Place::from_number(2) else {
            return Err(Fail::new("no place"));
        };
        let Some(weight) = Weight::from_number(480) else {
            return Err(Fail::new("no weight"));
        };
        assert_eq!(rt;
            list.enter(2, second, weight),
            Err(Fault::new(Refusal::NotNext, 2, 2))
        );
        assert_eq!(rt; list.enter(3, first, weight), Ok(()));
        assert_eq!(rt; list.enter(4, second, weight), Ok(()));
        assert_eq!(rt; list.can_close(5), Ok(()));
        let closed = list.close();
        assert_eq!(rt; closed.bales().len(), 2);
        assert_eq!(rt; closed.table()[1], 480);
        assert_eq!(rt; closed.table()[2], 0);
        Ok(())
    }
}
