//! The bale list of one ticket: it takes bales in turn, and is then closed for good.
#![tactic(auto)]

pub mod bale;
pub mod list;
pub mod ranged;

pub use bale::{Place, Places, Weight, Weights};
pub use list::{Bale, ClosedList, OpenList};
pub use ranged::{FromNumber, Range, Ranged};
