//! Letters and words read from a line.

ghost use Rattle.std.specs.Prelude.{◌≡◌};
ghost use Rattle.std.specs.Option.{ok_or};
ghost use Rattle.fault.specs.declared.Refusal.TheVariants.{UnknownLetter};
ghost use Rattle.ticket.specs.Words.{name_of, words_of, word_at, letter_of, knows_letter, letter_at, field_count, named};

use super::word::{Dialect, Letter, MemberWord, PairWord, TripleWord, Word};
use fault::{Fault, Refusal};

impl Word {
    /// The word as a ticket writes it.
    pub fn name(self) -> &'static [u8]
        ensures { result.now ≡ name_of self }
    {
        match self {
            Word::Pair(PairWord::Sub) => b"sub",
            Word::Pair(PairWord::Same) => b"same",
            Word::Pair(PairWord::Apart) => b"apart",
            Word::Pair(PairWord::Count) => b"count",
            Word::Pair(PairWord::Weigh) => b"weigh",
            Word::Pair(PairWord::Most) => b"most",
            Word::Triple(TripleWord::Union) => b"union",
            Word::Triple(TripleWord::Both) => b"both",
            Word::Triple(TripleWord::Less) => b"less",
            Word::Triple(TripleWord::Sum) => b"sum",
            Word::Member(MemberWord::Has) => b"has",
            Word::Member(MemberWord::Lacks) => b"lacks",
        }
    }
}

const MATCH_WORDS: [Word; 12] = [
    Word::Pair(PairWord::Sub),
    Word::Pair(PairWord::Same),
    Word::Pair(PairWord::Apart),
    Word::Triple(TripleWord::Union),
    Word::Triple(TripleWord::Both),
    Word::Triple(TripleWord::Less),
    Word::Member(MemberWord::Has),
    Word::Member(MemberWord::Lacks),
    Word::Pair(PairWord::Count),
    Word::Pair(PairWord::Weigh),
    Word::Triple(TripleWord::Sum),
    Word::Pair(PairWord::Most),
];

const SCALE_WORDS: [Word; 2] = [Word::Triple(TripleWord::Sum), Word::Pair(PairWord::Most)];

impl Dialect {
    /// The words that the dialect knows.
    pub fn words(self) -> &'static [Word]
        ensures { result.now ≡ words_of self }
    {
        match self {
            Dialect::Match => &MATCH_WORDS,
            Dialect::Scale => &SCALE_WORDS,
        }
    }

    /// Does the dialect know the letter?
    fn knows(self, letter: Letter) -> bool
        ensures { result ≡ knows_letter self letter }
    {
        match (self, letter) {
            (Dialect::Match, _) => true,
            (Dialect::Scale, Letter::Number | Letter::State | Letter::Settle) => true,
            (Dialect::Scale, Letter::Bale | Letter::Close | Letter::Group) => false,
        }
    }
}

impl TryFrom<u8> for Letter {
    type Error = Refusal;

    ghost try_from_gives = { λ byte r. r ≡ ok_or (letter_of byte) UnknownLetter };

    fn try_from(byte: u8) -> Result<Letter, Refusal> {
        match byte {
            b'B' => Ok(Letter::Bale),
            b'C' => Ok(Letter::Close),
            b'G' => Ok(Letter::Group),
            b'N' => Ok(Letter::Number),
            b'S' => Ok(Letter::State),
            b'W' => Ok(Letter::Settle),
            _ => Err(Refusal::UnknownLetter),
        }
    }
}

impl Letter {
    /// How many fields a line of this letter has, the letter among them.
    pub fn field_count(self) -> usize
        ensures { result ≡ field_count self }
    {
        match self {
            Letter::Bale => 3,
            Letter::Close => 1,
            Letter::Group => 4,
            Letter::Number => 4,
            Letter::State => 5,
            Letter::Settle => 2,
        }
    }
}

/// The letter that begins a line; its field is exactly one letter that the dialect knows.
pub fn read_letter(dialect: Dialect, text: &[u8], line: u32) -> Result<Letter, Fault>
    ensures { result ≡ letter_at dialect line text.now }
{
    let unknown = Fault::new(Refusal::UnknownLetter, line, 1);
    match text {
        [byte] => Letter::try_from(*byte)
            .ok()
            .filter(|letter| dialect.knows(*letter))
            .ok_or(unknown),
        _ => Err(unknown),
    }
}

/// The word of that name among these.
fn find_word(words: &[Word], text: &[u8]) -> Option<Word>
    ensures { result ≡ named words.now text.now }
{
    words.iter().copied().find(|word| word.name() == text)
}

/// The word of a statement.
pub fn read_word(dialect: Dialect, text: &[u8], line: u32) -> Result<Word, Fault>
    ensures { result ≡ word_at dialect line text.now }
{
    find_word(dialect.words(), text).ok_or(Fault::new(Refusal::UnknownWord, line, 2))
}
