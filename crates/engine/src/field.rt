//! The fields of a propagator as they stand to a row, and what may be at fault in them.

/// Why a field does not fit.
#[derive(Clone, Copy, PartialEq, Eq)]
pub enum Reason {
    /// A number is out of its range.
    OutOfRange,
    /// A cell is not declared.
    NotDeclared,
    /// A cell is of a kind that the propagator does not serve.
    WrongKind,
    /// A place is not on the list.
    NotListed,
}

/// What is at fault in a propagator that does not fit: why, and the number of the field.
#[derive(Clone, Copy, PartialEq, Eq)]
pub struct Misfit {
    pub reason: Reason,
    pub field: usize,
}

/// One field of a propagator as it stands to a row: its number, and which faults it is free of, each a flag, since one fault is looked for in
/// all fields before the next. A fault that a field of its sort cannot have, as a place that it is not declared, it is free of.
#[derive(Clone, Copy)]
pub struct Field {
    pub number: usize,
    /// Its number is in range.
    pub ranged: bool,
    /// Its cell is declared.
    pub declared: bool,
    /// Its cell is of the right kind.
    pub suited: bool,
    /// Its place is listed.
    pub listed: bool,
}
