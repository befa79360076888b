//! Groups of bales as a kind of cell.
ghost use Rattle.std.specs.Prelude.{◌≡◌, Some, None};
ghost use Rattle.places.specs.Members.{Sub};
ghost use Rattle.places.specs.Lowest.{lowest};
ghost use Rattle.domain.specs.Groups.{GroupAllows, group_sample, group_inside, undecided, group_height, GroupPasses, group_of, group_meet, GroupBefore, group_first, group_second};
ghost use Rattle.domain.specs.GroupsLemmas.{group-bounds, group-heights, group-tells, group-halves};

use super::bounds::{BaleSet, Group, GroupTell};
use super::kind::{Domain, Halves};
use places::PlaceSet;

impl Group {
    /// The sets that have all of `sure` and none but `possible`; nothing where a sure bale is not possible.
    pub fn new(sure: PlaceSet, possible: PlaceSet) -> Option<Group>
        ensures cases { elim result [ Some g ↦ (g.sure ≡ sure) × (g.possible ≡ possible) | None ↦ (Sub sure.bits possible.bits → ⊥) ] }
        ensures named { result ≡ group_of sure.bits possible.bits }
    {
        if sure.is_subset(possible) {
            Some(Group { sure, possible })
        } else {
            None
        }
    }

    /// The bales that are possible and not sure.
    pub fn undecided(self) -> PlaceSet
        ensures { result.bits ≡ undecided self }
    {
        self.possible.without(self.sure)
    }

    // The sets that have this bale, the lowest undecided one.
    fn with_lowest(self, bale: PlaceSet) -> Group
        requires { bale.bits ≡ lowest (undecided self) }
        ensures { result ≡ group_first self }
    {
        Group {
            sure: self.sure.union(bale),
            possible: self.possible,
        }
    }

    // The sets that lack it.
    fn without_lowest(self, bale: PlaceSet) -> Group
        requires { bale.bits ≡ lowest (undecided self) }
        ensures { result ≡ group_second self }
    {
        Group {
            sure: self.sure,
            possible: self.possible.without(bale),
        }
    }
}

impl Domain for Group {
    type Value = BaleSet;

    type Tell = GroupTell;

    ghost allows = { GroupAllows };

    ghost sample = { group_sample };

    ghost inside = { group_inside };

    ghost height = { group_height };

    ghost passes = { GroupPasses };

    ghost meet = { group_meet };

    ghost bounds = { group-bounds };

    ghost heights = { group-heights };

    ghost tells = { group-tells };

    fn is_single(self) -> bool {
        self.undecided().count() == 0
    }

    fn is_inside(self, other: Self) -> bool {
        other.sure.is_subset(self.sure) && self.possible.is_subset(other.possible)
    }

    fn told(self, tell: GroupTell) -> Option<Self> {
        Group::new(
            self.sure.union(tell.gain),
            self.possible.intersection(tell.keep),
        )
    }
}

impl Halves for Group {
    ghost before = { GroupBefore };

    ghost first = { group_first };

    ghost second = { group_second };

    ghost halves = { group-halves };

    fn first_half(self) -> Self {
        self.with_lowest(self.undecided().lowest())
    }

    fn second_half(self) -> Self {
        self.without_lowest(self.undecided().lowest())
    }
}
