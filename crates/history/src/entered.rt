//! Bounds as a call enters them.
ghost use Rattle.std.specs.Prelude.{◌≡◌, ℕ, Option, Result};
ghost use Rattle.history.specs.declared.entered.Barred.{Barred};

use domain::Domain;

/// Why bounds are not taken as a cell.
#[derive(Clone, Copy)]
pub enum Barred {
    /// A place of the list in this field is not on the ticket.
    NotListed(u8),
    /// A sure bale is not possible, or the low end is above the high end.
    Crossed,
}

/// Bounds as they are entered: they become a cell, or they are barred.
pub trait Entered<C: Domain, B>: Copy {
    // The first field whose number is out of its range.
    ghost unranged: { Self → Option ℕ };

    // The cell that they become in view of the book.
    ghost admitted: { B → Self → Result C Barred };

    /// The first field whose number is out of its range, if any.
    fn find_unranged(&self) -> Option<u8>
        ensures { result ≡ unranged self.now };

    /// The cell that they become, or why not.
    fn admit(&self, book: &B) -> Result<C, Barred>
        ensures { result ≡ admitted book.now self.now };
}
