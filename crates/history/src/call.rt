//! The calls to a sheet.

/// A call to a sheet. Those that a ticket makes carry its line, which is 0 where no ticket made them.
#[derive(Clone, Copy)]
pub enum Call<E, R> {
    /// The cell's number, and its bounds as entered.
    Declare { line: u32, cell: u32, bounds: E },
    /// The statement, and the length of the spare row.
    State { line: u32, rule: R, spare: usize },
    /// The cell's number.
    Ask { cell: u32 },
    /// The cut limit, and the length of the stack.
    Settle { line: u32, limit: u32, stack: usize },
}
