//! Numbers as a ticket writes them.

ghost use Rattle.std.specs.Prelude.{◌≡◌};
ghost use Rattle.std.specs.Option.{option_map};
ghost use Rattle.text.specs.Answers.{Gives};
ghost use Rattle.text.specs.Numbers.{digits_on, number_of, within, number_at};

use bales::FromNumber;
use fault::{Fault, Refusal, Spot};

/// No number of a ticket is above this.
const LARGEST: u32 = 1_000_000;

/// The number that digits alone write, if it is at most `LARGEST`.
fn digits(text: &[u8]) -> Option<u32>
    ensures { result ≡ within 0 1000000 (digits_on 0 text.now) }
{
    let mut number: u32 = 0;
    for byte in text {
        if !byte.is_ascii_digit() {
            return None;
        }
        number = number * 10 + u32::from(*byte - b'0');
        if number > LARGEST {
            return None;
        }
    }
    Some(number)
}

/// A number with no zero in front, if it is at most `LARGEST`.
fn parse_number(text: &[u8]) -> Option<u32>
    ensures { result ≡ within 0 1000000 (number_of text.now) }
{
    match text {
        [] | [b'0', _, ..] => None,
        _ => digits(text),
    }
}

/// A number of a type with a range, if the text is one.
pub fn parse_ranged<T: FromNumber>(text: &[u8]) -> Option<T>
    ensures { option_map T.FromNumber.figure result ≡ within T.FromNumber.low T.FromNumber.high (number_of text.now) }
{
    T::from_number(parse_number(text)?)
}

/// A number of a type with a range; anything else is refused as a bad number at this spot.
pub fn read_ranged<T: FromNumber>(text: &[u8], spot: Spot) -> Result<T, Fault>
    ensures { Gives T.FromNumber.figure result (number_at T.FromNumber.low T.FromNumber.high spot.line spot.field text.now) }
{
    parse_ranged(text).ok_or(spot.refuse(Refusal::BadNumber))
}
