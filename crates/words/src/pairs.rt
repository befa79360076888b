//! The words over two groups: sub, same and apart.
ghost use Rattle.words.specs.Pairs.{sub_tells, SubHolds, same_tells, SameHolds, apart_tells, ApartHolds};
ghost use Rattle.words.specs.PairLaws.{sub-laws, same-laws, apart-laws};

use super::cell::told;
use super::pair::Binary;
use domain::{Group, GroupTell};
use places::PlaceSet;

/// The first group lies within the second.
#[derive(Clone, Copy)]
pub struct Sub;

/// Both groups are the same.
#[derive(Clone, Copy)]
pub struct Same;

/// No bale is in both groups.
#[derive(Clone, Copy)]
pub struct Apart;

impl<B> Binary<B> for Sub {
    type First = Group;

    type Second = Group;

    ghost holds = { λ b. SubHolds };

    ghost tells = { λ b. sub_tells };

    ghost laws = { λ b. sub-laws };

    fn tells(_: &B, inner: Group, outer: Group) -> (GroupTell, GroupTell) {
        (
            told(PlaceSet::empty(), outer.possible),
            told(inner.sure, outer.possible),
        )
    }
}

impl<B> Binary<B> for Same {
    type First = Group;

    type Second = Group;

    ghost holds = { λ b. SameHolds };

    ghost tells = { λ b. same_tells };

    ghost laws = { λ b. same-laws };

    fn tells(_: &B, one: Group, other: Group) -> (GroupTell, GroupTell) {
        (
            told(other.sure, other.possible),
            told(one.sure, one.possible),
        )
    }
}

impl<B> Binary<B> for Apart {
    type First = Group;

    type Second = Group;

    ghost holds = { λ b. ApartHolds };

    ghost tells = { λ b. apart_tells };

    ghost laws = { λ b. apart-laws };

    fn tells(_: &B, a: Group, b: Group) -> (GroupTell, GroupTell) {
        (
            told(PlaceSet::empty(), a.possible.without(b.sure)),
            told(PlaceSet::empty(), b.possible.without(a.sure)),
        )
    }
}
