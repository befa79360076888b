//! The words over three groups: union, both and less.
ghost use Rattle.words.specs.Triples.{union_tells, UnionHolds, both_tells, BothHold, less_tells, LessHolds};
ghost use Rattle.words.specs.TripleLaws.{union-laws, both-laws, less-laws};

use super::cell::told;
use super::triple::Ternary;
use domain::{Group, GroupTell};

/// The third group is all of the first and the second.
#[derive(Clone, Copy)]
pub struct Union;

/// The third group is what the first and the second share.
#[derive(Clone, Copy)]
pub struct Both;

/// The third group is the first without the second.
#[derive(Clone, Copy)]
pub struct Less;

impl<B> Ternary<B> for Union {
    type Kind = Group;

    ghost holds = { λ b. UnionHolds };

    ghost tells = { λ b. union_tells };

    ghost laws = { λ b. union-laws };

    fn tells(_: &B, a: Group, b: Group, all: Group) -> (GroupTell, GroupTell, GroupTell) {
        (
            told(all.sure.without(b.possible), all.possible),
            told(all.sure.without(a.possible), all.possible),
            told(a.sure.union(b.sure), a.possible.union(b.possible)),
        )
    }
}

impl<B> Ternary<B> for Both {
    type Kind = Group;

    ghost holds = { λ b. BothHold };

    ghost tells = { λ b. both_tells };

    ghost laws = { λ b. both-laws };

    fn tells(_: &B, a: Group, b: Group, shared: Group) -> (GroupTell, GroupTell, GroupTell) {
        (
            told(
                shared.sure,
                a.possible.without(b.sure.without(shared.possible)),
            ),
            told(
                shared.sure,
                b.possible.without(a.sure.without(shared.possible)),
            ),
            told(
                a.sure.intersection(b.sure),
                a.possible.intersection(b.possible),
            ),
        )
    }
}

impl<B> Ternary<B> for Less {
    type Kind = Group;

    ghost holds = { λ b. LessHolds };

    ghost tells = { λ b. less_tells };

    ghost laws = { λ b. less-laws };

    fn tells(_: &B, a: Group, b: Group, rest: Group) -> (GroupTell, GroupTell, GroupTell) {
        (
            told(rest.sure, b.possible.union(rest.possible)),
            told(a.sure.without(rest.possible), b.possible.without(rest.sure)),
            told(a.sure.without(b.possible), a.possible.without(b.sure)),
        )
    }
}
