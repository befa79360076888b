//! One line of a ticket read as an entry.

ghost use Rattle.std.specs.Prelude.{ℕ, ◌≤◌, List, length};
ghost use Rattle.text.specs.Answers.{Gives};
ghost use Rattle.ticket.specs.Entries.{said};
ghost use Rattle.ticket.specs.Fields.{After, ahead};
ghost use Rattle.ticket.specs.Lines.{bale_at, group_at, range_at, two_at, pair_at, triple_at, member_at, statement_at, settle_at, body_at, line_at};

use super::entry::{CellNumber, Entry, Row, Statement};
use super::fields::Fields;
use super::vocabulary::{read_letter, read_word};
use super::word::{Dialect, Letter, MemberWord, PairWord, TripleWord, Word};
use bales::{Range, Ranged};
use fault::{Fault, Refusal};
use text::parts::{count_parts, cut};

/// A line has at most this many bytes, its final byte 10 not counted.
const LONGEST: usize = 400;

/// `B,place,weight`, after its letter.
fn read_bale(mut fields: Fields) -> Result<Entry, Fault>
    ensures { Gives said result (bale_at fields.entry.line (ahead fields.entry)) }
{
    Ok(Entry::Bale(fields.number(2)?, fields.number(3)?))
}

/// `G,cell,sure,possible`, after its letter.
fn read_group(mut fields: Fields) -> Result<Entry, Fault>
    ensures { Gives said result (group_at fields.entry.line (ahead fields.entry)) }
{
    Ok(Entry::Declare(Row::Group {
        cell: fields.number(2)?,
        sure: fields.places(3)?,
        possible: fields.places(4)?,
    }))
}

/// `N,cell,low,high`, after its letter.
fn read_range(mut fields: Fields) -> Result<Entry, Fault>
    ensures { Gives said result (range_at fields.entry.line (ahead fields.entry)) }
{
    Ok(Entry::Declare(Row::Number {
        cell: fields.number(2)?,
        low: fields.number(3)?,
        high: fields.number(4)?,
    }))
}

/// `first,second,-`, after a word over a cell and what `R` counts.
fn read_two<R: Range>(mut fields: Fields) -> Result<(CellNumber, Ranged<R>), Fault>
    ensures { (fs : List (List ℕ)) → After fs (ahead fields.entry) → Gives (λ x. (x.0.number, x.1.number)) result (two_at R.Range.LOW R.Range.HIGH fields.entry.line fs) }
{
    let first = fields.number(3)?;
    let second = fields.number(4)?;
    fields.unused(5)?;
    Ok((first, second))
}

/// `first,second,-`, after a word over two cells.
fn read_pair(word: PairWord, fields: Fields) -> Result<Entry, Fault>
    ensures { (fs : List (List ℕ)) → After fs (ahead fields.entry) → Gives said result (pair_at fields.entry.line word fs) }
{
    let (first, second) = read_two(fields)?;
    Ok(Entry::State(Statement::Pair(word, first, second)))
}

/// `first,second,third`, after a word over three cells.
fn read_triple(word: TripleWord, mut fields: Fields) -> Result<Entry, Fault>
    ensures { (fs : List (List ℕ)) → After fs (ahead fields.entry) → Gives said result (triple_at fields.entry.line word fs) }
{
    Ok(Entry::State(Statement::Triple(
        word,
        fields.number(3)?,
        fields.number(4)?,
        fields.number(5)?,
    )))
}

/// `first,place,-`, after a word over a cell and a place.
fn read_member(word: MemberWord, fields: Fields) -> Result<Entry, Fault>
    ensures { (fs : List (List ℕ)) → After fs (ahead fields.entry) → Gives said result (member_at fields.entry.line word fs) }
{
    let (first, place) = read_two(fields)?;
    Ok(Entry::State(Statement::Member(word, first, place)))
}

/// `S,word,first,second,third`, after its letter.
fn read_statement(dialect: Dialect, mut fields: Fields) -> Result<Entry, Fault>
    ensures { Gives said result (statement_at dialect fields.entry.line (ahead fields.entry)) }
{
    let line = fields.line;
    match read_word(dialect, fields.take(), line)? {
        Word::Pair(word) => read_pair(word, fields),
        Word::Triple(word) => read_triple(word, fields),
        Word::Member(word) => read_member(word, fields),
    }
}

/// `W,cutlimit`, after its letter.
fn read_settle(mut fields: Fields) -> Result<Entry, Fault>
    ensures { Gives said result (settle_at fields.entry.line (ahead fields.entry)) }
{
    Ok(Entry::Settle(fields.number(2)?))
}

/// The fields after the letter. The dialect goes beside them: only words and letters are of a dialect, fields are not.
fn read_body(dialect: Dialect, letter: Letter, fields: Fields) -> Result<Entry, Fault>
    ensures { Gives said result (body_at dialect fields.entry.line (ahead fields.entry) letter) }
{
    match letter {
        Letter::Bale => read_bale(fields),
        Letter::Close => Ok(Entry::Close),
        Letter::Group => read_group(fields),
        Letter::Number => read_range(fields),
        Letter::State => read_statement(dialect, fields),
        Letter::Settle => read_settle(fields),
    }
}

/// A line that is not too long.
fn read_fields(dialect: Dialect, text: &[u8], line: u32) -> Result<Entry, Fault>
    requires { length text.now ≤ 400 }
    ensures { Gives said result (line_at dialect line text.now) }
{
    let (head, rest) = cut(text, b',');
    let letter = read_letter(dialect, head, line)?;
    if count_parts(text, b',') != letter.field_count() {
        return Err(Fault::new(Refusal::FieldCount, line, 0));
    }
    read_body(dialect, letter, Fields { line, rest })
}

/// What a line says, or the one fault that refuses it: too long, then its letter, then its count
/// of fields, then the first field at fault.
pub fn read_line(dialect: Dialect, text: &[u8], line: u32) -> Result<Entry, Fault>
    ensures { Gives said result (line_at dialect line text.now) }
{
    if text.len() > LONGEST {
        return Err(Fault::new(Refusal::LineTooLong, line, 0));
    }
    read_fields(dialect, text, line)
}

#[cfg(test)]
mod tests {
    use super::*;
    use std::test::Fail;

    fn refusal(text: &[u8]) -> Option<Fault> {
        read_line(Dialect::Scale, text, 7).err()
    }

    #[test]
    fn a_scale_ticket_knows_numbers_alone(rt: HostRuntime) {
        assert_eq!(rt;
            refusal(b"G,1,-,-"),
            Some(Fault::new(Refusal::UnknownLetter, 7, 1))
        );
        assert_eq!(rt;
            refusal(b"S,sub,1,2,-"),
            Some(Fault::new(Refusal::UnknownWord, 7, 2))
        );
        assert_eq!(rt; refusal(b"S,sum,1,2,3"), None);
    }

    #[test]
    fn a_row_is_written_as_it_was_read(rt: HostRuntime) -> Result<(), Fail> {
        let text = b"G,2,1+3,1+3+12";
        let Ok(entry) = read_line(Dialect::Match, text, 1) else {
            return Err(Fail::new("refused"));
        };
        let Entry::Declare(row) = entry else {
            return Err(Fail::new("no row"));
        };
        let written = format!(in rt.alloc(); "{row}")?;
        assert!(rt; written.as_bytes() == text.as_slice());
        Ok(())
    }
}
