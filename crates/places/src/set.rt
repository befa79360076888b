//! A set of places: who is in it, and the sets made from others.
ghost use Rattle.std.specs.Prelude.{◌≡◌, ◌-◌, ◌<◌, ◌≤◌, Some, None, ◌==◌};
ghost use Rattle.places.specs.Members.{holds, none, one, up_to, union, intersection, minus, subset, count};
ghost use Rattle.places.specs.Lowest.{First, lowest};
ghost use Rattle.places.specs.Laws.{SetLaws};

use super::PlaceSet;

impl PlaceSet {
    /// The set with no place.
    pub fn empty() -> PlaceSet
        ensures { result.bits ≡ none }
    {
        PlaceSet { bits: 0 }
    }

    /// The set of this one place, or nothing where there is no such place.
    pub fn only(place: u32) -> Option<PlaceSet>
        ensures { elim result [ Some s ↦ (1 ≤ place) × (place ≤ 64) × (s.bits ≡ one place) | None ↦ (1 ≤ place → place ≤ 64 → ⊥) ] }
    {
        if 1 <= place && place <= 64 {
            Some(PlaceSet {
                bits: 1 << (place - 1),
            })
        } else {
            None
        }
    }

    /// The places from 1 to `count`, or nothing where there are not so many.
    pub fn up_to(count: u32) -> Option<PlaceSet>
        ensures { elim result [ Some s ↦ (count ≤ 64) × (s.bits ≡ up_to count) | None ↦ (count ≤ 64 → ⊥) ] }
    {
        if count < 64 {
            Some(PlaceSet {
                bits: (1 << count) - 1,
            })
        } else if count == 64 {
            Some(PlaceSet { bits: u64::MAX })
        } else {
            None
        }
    }

    /// Is the place in the set? No set has a place below 1 or above 64.
    pub fn contains(self, place: u32) -> bool
        ensures { result ≡ holds place self.bits }
    {
        if place < 1 || 64 < place {
            return false;
        }
        (self.bits >> (place - 1)) % 2 == 1
    }

    /// The places of either set.
    pub fn union(self, other: PlaceSet) -> PlaceSet
        ensures { result.bits ≡ union self.bits other.bits }
    {
        PlaceSet {
            bits: self.bits | other.bits,
        }
    }

    /// The places of both sets.
    pub fn intersection(self, other: PlaceSet) -> PlaceSet
        ensures { result.bits ≡ intersection self.bits other.bits }
    {
        PlaceSet {
            bits: self.bits & other.bits,
        }
    }

    /// The places that the other set has not.
    pub fn without(self, other: PlaceSet) -> PlaceSet
        ensures { result.bits ≡ minus self.bits other.bits }
    {
        PlaceSet {
            bits: self.bits ^ (self.bits & other.bits),
        }
    }

    /// Is each place of the set a place of the other?
    pub fn is_subset(self, other: PlaceSet) -> bool
        ensures { result ≡ subset self.bits other.bits }
    {
        self.bits & other.bits == self.bits
    }

    /// Has the set no place?
    pub fn is_empty(self) -> bool
        ensures { result ≡ (self.bits == none) }
    {
        self.bits == 0
    }

    /// How many places the set has.
    pub fn count(self) -> u32
        ensures number { result ≡ count self.bits }
        ensures small { result ≤ 64 }
    {
        self.bits.count_ones()
    }

    /// The lowest place, or nothing where the set is empty.
    pub fn first(self) -> Option<u32>
        ensures { elim result [ Some p ↦ (1 ≤ p) × First (p - 1) self.bits | None ↦ (self.bits ≡ none) ] }
    {
        if self.bits == 0 {
            None
        } else {
            Some(first_of(self.bits))
        }
    }

    /// The lowest place alone; no place where the set has none.
    pub fn lowest(self) -> PlaceSet
        ensures { result.bits ≡ lowest self.bits }
    {
        if self.bits == 0 {
            self
        } else {
            PlaceSet {
                bits: self.bits ^ (self.bits & (self.bits - 1)),
            }
        }
    }
}

// The lowest place of a set that is not empty.
fn first_of(set: u64) -> u32
    requires { 0 < set }
    ensures { (1 ≤ result) × First (result - 1) set }
{
    set.trailing_zeros() + 1
}

/// Who is in each of the sets that a program can make.
pub fn set_laws()
    ensures { SetLaws }
{}
