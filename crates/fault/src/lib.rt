//! A refusal: its number, the line and field it was found at, and the layer that found it.
#![tactic(auto)]

ghost use Rattle.std.specs.Prelude.{◌≡◌, Some};
ghost use Rattle.fault.specs.Text.{layer_text, fault_text};
ghost use Rattle.fault.specs.Refusals.{number_of, layer_of, names_field, fault_of};

pub mod failure;

pub use failure::Failure;
use std::fmt;

/// The part of the reading that refuses: the text as bytes, the form of a line, or the sheet.
#[derive(Clone, Copy, PartialEq, Eq, Debug)]
pub enum Layer {
    Text,
    Line,
    Sheet,
}

/// Why a line or a call is refused, each with its published number.
#[derive(Clone, Copy, PartialEq, Eq, Debug)]
pub enum Refusal {
    LineTooLong = 1,
    UnknownLetter = 2,
    FieldCount = 3,
    BadNumber = 4,
    BadList = 5,
    UnknownWord = 6,
    WrongPart = 7,
    NotNext = 8,
    Full = 9,
    NoBales = 10,
    NotOnTicket = 11,
    Crossed = 12,
    NotDeclared = 13,
    WrongKind = 14,
    Contradiction = 15,
    ShortMemory = 16,
    TicketTooLong = 17,
}

/// A refusal with its place. It is complete where it is made, and passes upwards unchanged.
#[derive(Clone, Copy, PartialEq, Eq, Debug)]
pub struct Fault {
    pub refusal: Refusal,
    /// Counts from 1; a call that no ticket line made has 0.
    pub line: u32,
    /// Counts from 1 and is the first at fault; 0 where the refusal is of no one field.
    pub field: u8,
    pub layer: Layer,
}

/// Where in a ticket a refusal is found: a line, and a field of it.
#[derive(Clone, Copy)]
pub struct Spot {
    pub line: u32,
    pub field: u8,
}

impl Refusal {
    /// The published number.
    pub fn number(self) -> u8
        ensures { result ≡ number_of self }
    {
        self as u8
    }

    /// The layer that gives this refusal.
    pub fn layer(self) -> Layer
        ensures { result ≡ layer_of self }
    {
        match self {
            Refusal::LineTooLong | Refusal::TicketTooLong => Layer::Text,
            Refusal::UnknownLetter
            | Refusal::FieldCount
            | Refusal::BadNumber
            | Refusal::BadList
            | Refusal::UnknownWord => Layer::Line,
            _ => Layer::Sheet,
        }
    }

    /// Is this a refusal of one field, and not of the whole line or call?
    pub fn names_field(self) -> bool
        ensures { result ≡ names_field self }
    {
        matches!(
            self,
            Refusal::UnknownLetter
                | Refusal::BadNumber
                | Refusal::BadList
                | Refusal::UnknownWord
                | Refusal::NotNext
                | Refusal::NotOnTicket
                | Refusal::NotDeclared
                | Refusal::WrongKind
        )
    }
}

impl Fault {
    /// The refusal at a line and a field; the field is 0 where the refusal is of no one field.
    pub fn new(refusal: Refusal, line: u32, field: u8) -> Fault
        ensures { result ≡ fault_of refusal line field }
    {
        Fault {
            refusal,
            line,
            field: if refusal.names_field() { field } else { 0 },
            layer: refusal.layer(),
        }
    }
}

impl Spot {
    /// The refusal at this spot.
    pub fn refuse(self, refusal: Refusal) -> Fault
        ensures { result ≡ fault_of refusal self.line self.field }
    {
        Fault::new(refusal, self.line, self.field)
    }
}

impl fmt::Display for Layer {
    ghost output = { λ x. Some (layer_text x) };

    fn fmt<W: fmt::Write>(&self, f: &mut fmt::Formatter<W>) -> fmt::Result {
        f.write_str(match self {
            Layer::Text => "text",
            Layer::Line => "line",
            Layer::Sheet => "sheet",
        })
    }
}

/// The line of a listing that shows the fault: `F,line,field,layer,number`.
impl fmt::Display for Fault {
    ghost output = { λ x. Some (fault_text x) };

    fn fmt<W: fmt::Write>(&self, f: &mut fmt::Formatter<W>) -> fmt::Result {
        let Fault {
            refusal,
            line,
            field,
            layer,
        } = self;
        write!(f, "F,{line},{field},{layer},{}", refusal.number())
    }
}
