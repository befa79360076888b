//! What the places of a set weigh, by a table of the weight of each place.
ghost use Rattle.std.specs.Prelude.{◌≡◌, ◌+◌, ◌*◌, ◌≤◌, nat_lt};
ghost use Rattle.places.specs.Sums.{weigh, sieve};

use super::PlaceSet;

impl PlaceSet {
    /// The weights of the set's places, added up; the weight of place 1 stands first in the table.
    pub fn weight(self, weights: &[u16; 64]) -> u32
        ensures sum { result ≡ weigh weights.now self.bits }
        ensures small { result ≤ 64 * 65535 }
    {
        weight_of(self.bits, weights)
    }

    /// The set's places whose weight, added to `sure`, is above `high`.
    pub fn too_heavy(self, weights: &[u16; 64], sure: u32, high: u32) -> PlaceSet
        ensures { result.bits ≡ sieve (λ w. nat_lt high (sure + w)) weights.now self.bits }
    {
        PlaceSet {
            bits: heavy_of(self.bits, weights, sure, high),
        }
    }
}

// Takes the lowest place off until none is left.
fn weight_of(set: u64, weights: &[u16; 64]) -> u32
    ensures sum { result ≡ weigh weights.now set }
    ensures small { result ≤ 64 * 65535 }
{
    let mut sum: u32 = 0;
    let mut rest = set;
    while rest != 0 {
        sum += weights[rest.trailing_zeros() as usize] as u32;
        rest &= rest - 1;
    }
    sum
}

// Takes the lowest place off until none is left, and keeps those that weigh too much.
fn heavy_of(set: u64, weights: &[u16; 64], sure: u32, high: u32) -> u64
    ensures { result ≡ sieve (λ w. nat_lt high (sure + w)) weights.now set }
{
    let mut found: u64 = 0;
    let mut rest = set;
    while rest != 0 {
        let after = rest & (rest - 1);
        let weight = weights[rest.trailing_zeros() as usize];
        if (high as u64) < sure as u64 + weight as u64 {
            found |= rest ^ after;
        }
        rest = after;
    }
    found
}
