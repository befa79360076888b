//! The twelve words of statements, and the two dialects of tickets.

/// A word over two cells.
#[derive(Clone, Copy)]
pub enum PairWord {
    Sub,
    Same,
    Apart,
    Count,
    Weigh,
    Most,
}

/// A word over three cells.
#[derive(Clone, Copy)]
pub enum TripleWord {
    Union,
    Both,
    Less,
    Sum,
}

/// A word over a cell and a place.
#[derive(Clone, Copy)]
pub enum MemberWord {
    Has,
    Lacks,
}

/// A word, by the operands that it takes.
#[derive(Clone, Copy)]
pub enum Word {
    Pair(PairWord),
    Triple(TripleWord),
    Member(MemberWord),
}

/// What begins a line.
#[derive(Clone, Copy)]
pub enum Letter {
    Bale,
    Close,
    Group,
    Number,
    State,
    Settle,
}

/// The letters and words that a program knows: those of bale matching, or those of numbers alone.
#[derive(Clone, Copy)]
pub enum Dialect {
    Match,
    Scale,
}
