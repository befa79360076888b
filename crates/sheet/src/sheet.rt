//! A sheet: what it has been told, and the standing bounds.
ghost use Rattle.std.specs.Prelude.{◌≡◌, ◌≤◌, vec_len, vec_capacity};
ghost use Rattle.sheet.specs.declared.sheet.TheConstants.{CELLS};

use rules::Rules;

/// The most cells of a sheet.
pub const CELLS: usize = 24;

/// The most statements of a sheet.
pub const RULES: usize = rules::CAPACITY;

/// The highest cut limit.
pub const CUTS: u32 = 1_000_000;

/// The book, the bounds as declared, the standing bounds, and the statements accepted. There is room for 24 cells and 64 statements from the
/// start, so that no later call can fail for want of memory.
#[derive(Drop)]
pub struct Sheet<C, B, R> {
    pub(super) book: B,
    // three lists and not one of three: each goes out as a slice of cells
    pub(super) declared: Vec<C>,
    pub(super) cells: Vec<C>,
    // what the caller's spare row held, while a statement is tried there
    pub(super) saved: Vec<C>,
    pub(super) rules: Rules<R>,
    ghost roomy: { (CELLS ≤ vec_capacity declared) × (CELLS ≤ vec_capacity cells) × (CELLS ≤ vec_capacity saved) },
    ghost even: { (vec_len cells ≡ vec_len declared) × (vec_len saved ≡ vec_len declared) },
}
