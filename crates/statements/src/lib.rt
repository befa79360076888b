//! The statements of both sheets, each one of the words with its operands, and worked cases of narrowing.
#![tactic(auto)]

pub mod cases;
pub mod scale_statement;
pub mod statement;

pub use cases::worked_cases;
pub use scale_statement::ScaleStatement;
pub use statement::Statement;
