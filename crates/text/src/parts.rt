//! A text cut at its separators: fields at commas, places at plus signs.

ghost use Rattle.std.specs.Prelude.{◌≡◌, ◌<◌, ◌==◌, [], ◌∷◌, ◌++◌, length, MatchOption};
ghost use Rattle.std.specs.List.{position};
ghost use Rattle.text.specs.Parts.{parts_of, Lacks};

/// Where the first separator of a text stands.
fn position(text: &[u8], separator: u8) -> Option<usize>
    ensures { result ≡ position (λ b. b == separator) text.now }
{
    text.iter().position(|byte| *byte == separator)
}

/// The first part of a text, and what follows its separator, if there is one.
pub fn cut(text: &[u8], separator: u8) -> (&[u8], Option<&[u8]>)
    ensures plain { Lacks separator result.0.now }
    ensures whole { MatchOption result.1 (text.now ≡ result.0.now) (λ rest. text.now ≡ result.0.now ++ (separator ∷ rest.now)) }
    ensures parts { MatchOption result.1 (parts_of separator text.now ≡ result.0.now ∷ []) (λ rest. (parts_of separator text.now ≡ result.0.now ∷ parts_of separator rest.now) × (length rest.now < length text.now)) }
{
    match position(text, separator) {
        Some(i) => (&text[..i], Some(&text[i + 1..])),
        None => (text, None),
    }
}

/// How many parts a text has.
pub fn count_parts(text: &[u8], separator: u8) -> usize
    ensures { result ≡ length (parts_of separator text.now) }
{
    // a loop: the library's count of a filter takes twice the time, and a sum's goal stayed open
    let mut count = 1;
    for byte in text {
        if *byte == separator {
            count += 1;
        }
    }
    count
}
