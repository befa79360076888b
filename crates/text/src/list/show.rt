//! Lists of places as text.

ghost use Rattle.std.specs.Prelude.{◌++◌, Some, decimal};
ghost use Rattle.std.specs.Fmt.{WritesOnOk};
ghost use Rattle.text.specs.Lists.{listed, list_text};

use super::PlaceList;
use std::fmt;

// A place, and before it what is due there: an empty text is not written.
fn write_place<W: fmt::Write>(f: &mut fmt::Formatter<W>, before: &str, place: u8) -> fmt::Result
    ensures { WritesOnOk W.Write.write_str_gives f.old result (before.now ++ decimal place) f.new }
{
    if !before.is_empty() {
        f.write_str(before)?;
    }
    write!(f, "{place}")
}

/// The places joined by `+`, or `-` where there is none.
impl fmt::Display for PlaceList {
    ghost output = { λ l. Some (list_text (listed l)) };

    fn fmt<W: fmt::Write>(&self, f: &mut fmt::Formatter<W>) -> fmt::Result {
        let mut rest = self.bits;
        // what stands before the next place; to join the places first would take memory
        let mut before = "";
        for place in 1..100u8 {
            if rest % 2 == 1 {
                write_place(f, before, place)?;
                before = "+";
            }
            rest /= 2;
        }
        if before.is_empty() {
            write!(f, "-")
        } else {
            Ok(())
        }
    }
}

#[cfg(test)]
mod tests {
    use super::super::read::read_list;
    use fault::Spot;
    use std::fmt;
    use std::fmt::Write;
    use std::test::Fail;

    /// Counts what it is given to write, and how often.
    #[derive(Drop)]
    struct Counter {
        calls: usize,
        bytes: usize,
    }

    impl fmt::Write for Counter {
        fn write_str(&mut self, text: &str) -> fmt::Result {
            self.calls = self.calls.wrapping_add(1);
            self.bytes = self.bytes.wrapping_add(text.len());
            Ok(())
        }
    }

    #[test]
    fn writes_no_empty_text(rt: HostRuntime) -> Result<(), Fail> {
        let Ok(list) = read_list(b"2+31", Spot { line: 1, field: 3 }) else {
            return Err(Fail::new("no list"));
        };
        let mut counter = Counter { calls: 0, bytes: 0 };
        write!(counter, "{list}")?;
        assert_eq!(rt; counter.calls, 3);
        assert_eq!(rt; counter.bytes, 4);
        Ok(())
    }
}
