//! One ticket run from its first line to its last, and the listing of what was done.
#![tactic(auto)]

pub mod listing;
pub mod part;
pub mod totals;

pub use listing::list_ticket;
