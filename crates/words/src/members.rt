//! The words over a group and a place: has and lacks.
ghost use Rattle.std.specs.Prelude.{◌≡◌};
ghost use Rattle.words.specs.Members.{bale_at, has_tells, HasHolds, lacks_tells, LacksHolds};
ghost use Rattle.words.specs.MemberLaws.{has-laws, lacks-laws};

use super::cell::told;
use super::member::Membership;
use domain::{Group, GroupTell};
use places::PlaceSet;

/// The bale at the place is in the group.
#[derive(Clone, Copy)]
pub struct Has;

/// The bale at the place is not in the group.
#[derive(Clone, Copy)]
pub struct Lacks;

// The bale at the place alone; no bale where no list has the place.
fn bale_at(place: u32) -> PlaceSet
    ensures { result.bits ≡ bale_at place }
{
    PlaceSet::only(place).unwrap_or(PlaceSet::empty())
}

impl Membership for Has {
    ghost holds = { HasHolds };

    ghost tells = { has_tells };

    ghost laws = { has-laws };

    fn tells(place: u32, group: Group) -> GroupTell {
        told(bale_at(place), group.possible)
    }
}

impl Membership for Lacks {
    ghost holds = { LacksHolds };

    ghost tells = { lacks_tells };

    ghost laws = { lacks-laws };

    fn tells(place: u32, group: Group) -> GroupTell {
        told(PlaceSet::empty(), group.possible.without(bale_at(place)))
    }
}
