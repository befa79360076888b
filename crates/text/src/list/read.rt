//! Lists of places read.

ghost use Rattle.std.specs.Prelude.{◌≡◌, []};
ghost use Rattle.std.specs.Option.{option_map};
ghost use Rattle.text.specs.Answers.{Gives};
ghost use Rattle.text.specs.Lists.{listed, rising, list_at};
ghost use Rattle.text.specs.Parts.{parts_of};

use super::super::numbers::parse_ranged;
use super::PlaceList;
use bales::Place;
use fault::{Fault, Refusal, Spot};

fn empty_list() -> PlaceList
    ensures { listed result ≡ [] }
{
    PlaceList { bits: 0 }
}

/// The places of a list that is not `-`, if they rise.
fn parse_places(text: &[u8]) -> Option<PlaceList>
    ensures { option_map listed result ≡ rising 0 (parts_of 43 text.now) }
{
    let mut bits: u128 = 0;
    let mut last: u8 = 0;
    for part in text.split(|byte| *byte == b'+') {
        let place = parse_ranged::<Place>(part)?.number();
        if place <= last {
            return None;
        }
        bits += 1u128 << (place - 1);
        last = place;
    }
    Some(PlaceList { bits })
}

/// A list of rising places joined by `+`, or `-` for the empty list; anything else is refused as
/// a bad list at this spot.
pub fn read_list(text: &[u8], spot: Spot) -> Result<PlaceList, Fault>
    ensures { Gives listed result (list_at spot.line spot.field text.now) }
{
    match text {
        [b'-'] => Ok(empty_list()),
        _ => parse_places(text).ok_or(spot.refuse(Refusal::BadList)),
    }
}
