//! The fields of a line, taken one after another.

ghost use Rattle.std.specs.Prelude.{◌≡◌, [], slice_index_or};
ghost use Rattle.text.specs.Answers.{Gives};
ghost use Rattle.text.specs.Lists.{listed, list_at};
ghost use Rattle.text.specs.Numbers.{number_at};
ghost use Rattle.ticket.specs.Lines.{dash_at};
ghost use Rattle.ticket.specs.Fields.{ahead, Took};

use bales::{Range, Ranged};
use fault::{Fault, Refusal, Spot};
use text::PlaceList;
use text::list::read::read_list;
use text::numbers::read_ranged;
use text::parts::cut;

/// The fields of a line that are still to be read.
#[derive(Clone, Copy)]
pub struct Fields<'a> {
    pub line: u32,
    pub rest: Option<&'a [u8]>,
}

// The clauses name the next field by `slice_index_or (ahead self.old) 0 []` each: a word of our own for it would only have to be looked up.
impl<'a> Fields<'a> {
    /// The next field; past the last, an empty one.
    #[inline(always)]
    pub fn take(&mut self) -> &'a [u8]
        ensures field { result.now ≡ slice_index_or (ahead self.old) 0 [] }
        ensures after { Took self.old self.new }
    {
        let Some(text) = self.rest else {
            return &[];
        };
        let (field, rest) = cut(text, b',');
        self.rest = rest;
        field
    }

    /// The next field, which has this number, as a number of a range.
    #[inline(always)]
    pub fn number<R: Range>(&mut self, field: u8) -> Result<Ranged<R>, Fault>
        ensures read { Gives (λ x. x.number) result (number_at R.Range.LOW R.Range.HIGH self.old.line field (slice_index_or (ahead self.old) 0 [])) }
        ensures after { Took self.old self.new }
    {
        let line = self.line;
        read_ranged(self.take(), Spot { line, field })
    }

    /// The next field, which has this number, as a list of places.
    #[inline(always)]
    pub fn places(&mut self, field: u8) -> Result<PlaceList, Fault>
        ensures read { Gives listed result (list_at self.old.line field (slice_index_or (ahead self.old) 0 [])) }
        ensures after { Took self.old self.new }
    {
        let line = self.line;
        read_list(self.take(), Spot { line, field })
    }

    /// The next field, which has this number, of an operand that the word does not take.
    #[inline(always)]
    pub fn unused(&mut self, field: u8) -> Result<(), Fault>
        ensures read { result ≡ dash_at self.old.line field (slice_index_or (ahead self.old) 0 []) }
        ensures after { Took self.old self.new }
    {
        let line = self.line;
        match self.take() {
            [b'-'] => Ok(()),
            _ => Err(Fault::new(Refusal::BadNumber, line, field)),
        }
    }
}
