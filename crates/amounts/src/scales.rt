//! The words over a group and a number: count and weigh.
ghost use Rattle.std.specs.Prelude.{◌≡◌, ◌+◌, ◌*◌, ◌≤◌, nat_lt};
ghost use Rattle.places.specs.Sums.{weigh, sieve};
ghost use Rattle.bales.specs.Lists.{closed_weights};
ghost use Rattle.amounts.specs.Scales.{between, count_tells, CountHolds, needed, excess, weigh_tells, WeighHolds};
ghost use Rattle.amounts.specs.ScaleLaws.{count-laws, weigh-laws};

use bales::ClosedList;
use domain::{Group, GroupTell, Number, NumberTell};
use places::PlaceSet;
use words::Binary;
use words::cell::told;

/// So many bales are in the group.
#[derive(Clone, Copy)]
pub struct Count;

/// The group weighs so much.
#[derive(Clone, Copy)]
pub struct Weigh;

// A number is raised to the first figure and lowered to the second, which is a count or a weight of a set: a type for their bound is no plainer.
fn between(least: u32, most: u32) -> NumberTell
    requires { most ≤ 64 * 65535 }
    ensures { result ≡ between least most }
{
    NumberTell {
        raise: least,
        below: most + 1,
    }
}

impl<B> Binary<B> for Count {
    type First = Group;

    type Second = Number;

    ghost holds = { λ b. CountHolds };

    ghost tells = { λ b. count_tells };

    ghost laws = { λ b. count-laws };

    fn tells(_: &B, group: Group, number: Number) -> (GroupTell, NumberTell) {
        let least = group.sure.count();
        let most = group.possible.count();
        let gain = if number.low == most {
            group.possible
        } else {
            PlaceSet::empty()
        };
        let keep = if number.high == least {
            group.sure
        } else {
            group.possible
        };
        (told(gain, keep), between(least, most))
    }
}

// What the bales of a set weigh.
fn weight_of(list: &ClosedList, set: PlaceSet) -> u32
    ensures sum { result ≡ weigh (closed_weights list.now) set.bits }
    ensures small { result ≤ 64 * 65535 }
{
    set.weight(list.table())
}

// The bales of a set whose weight, added to `sure`, is above `high`.
fn too_heavy(list: &ClosedList, set: PlaceSet, sure: u32, high: u32) -> PlaceSet
    ensures { result.bits ≡ sieve (λ w. nat_lt high (sure + w)) (closed_weights list.now) set.bits }
{
    set.too_heavy(list.table(), sure, high)
}

// The undecided bales without which the possible weight, `most`, is below `low`.
fn needed(list: &ClosedList, a: Group, most: u32, low: u32) -> PlaceSet
    requires { most ≡ weigh (closed_weights list.now) a.possible.bits }
    ensures { result.bits ≡ needed (closed_weights list.now) a low }
{
    too_heavy(list, a.undecided(), low, most)
}

// The undecided bales with which the sure weight, `least`, is above `high`.
fn excess(list: &ClosedList, a: Group, least: u32, high: u32) -> PlaceSet
    requires { least ≡ weigh (closed_weights list.now) a.sure.bits }
    ensures { result.bits ≡ excess (closed_weights list.now) a high }
{
    too_heavy(list, a.undecided(), least, high)
}

impl Binary<ClosedList> for Weigh {
    type First = Group;

    type Second = Number;

    ghost holds = { λ b. WeighHolds (closed_weights b) };

    ghost tells = { λ b. weigh_tells (closed_weights b) };

    ghost laws = { λ b. weigh-laws (closed_weights b) };

    fn tells(list: &ClosedList, group: Group, number: Number) -> (GroupTell, NumberTell) {
        let least = weight_of(list, group.sure);
        let most = weight_of(list, group.possible);
        let gain = needed(list, group, most, number.low);
        let keep = group
            .possible
            .without(excess(list, group, least, number.high));
        (told(gain, keep), between(least, most))
    }
}
