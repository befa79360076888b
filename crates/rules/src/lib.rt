//! The propagators of a sheet, in the order in which they were stated.
#![tactic(auto)]

ghost use Rattle.std.specs.Prelude.{◌≤◌, vec_len, vec_capacity};
ghost use Rattle.rules.specs.declared.TheConstants.{CAPACITY};

pub mod listing;

/// The most rules that a list holds.
pub const CAPACITY: usize = 64;

/// At most 64 rules. Room for all is reserved at the start, so that taking one cannot fail for want of memory; each table of a sheet is such a
/// `Vec` of its own.
#[derive(Drop)]
pub struct Rules<R> {
    items: Vec<R>,
    ghost roomy: { CAPACITY ≤ vec_capacity items },
    ghost few: { vec_len items ≤ CAPACITY },
}
