//! Worked cases of narrowing.
ghost use Rattle.statements.specs.Cases.{WorkedCases};

/// Six worked cases, as one statement about the definitions of the words.
pub fn worked_cases()
    ensures { WorkedCases }
{}
