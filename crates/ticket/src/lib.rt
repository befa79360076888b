//! A ticket read: its lines, the fields of a line, and what each line says; rows both ways.
#![tactic(auto)]

pub mod entry;
mod fields;
pub mod line;
pub mod lines;
pub mod row;
pub mod vocabulary;
pub mod word;

pub use entry::{CellNumber, CellNumbers, CutLimit, CutLimits, End, Ends, Entry, Row, Statement};
pub use lines::{Reading, read_ticket};
pub use word::{Dialect, MemberWord, PairWord, TripleWord};
