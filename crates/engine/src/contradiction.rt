//! What a narrowing answers that leaves no choice.

/// No choice is left: what cells are told contradicts their bounds.
#[derive(Clone, Copy, PartialEq, Eq, Debug)]
pub struct Contradiction;
