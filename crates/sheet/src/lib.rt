//! The sheet, for every kind of cell and every propagator: declare, state, ask and settle.
#![tactic(auto)]

pub mod calls;
pub mod checks;
pub mod settling;
pub mod sheet;
pub mod stating;

pub use sheet::Sheet;
