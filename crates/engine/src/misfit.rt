//! What may keep a propagator from fitting a row.
ghost use Rattle.std.specs.Prelude.{◌≡◌, None, not};
ghost use Rattle.std.specs.List.{find};
ghost use Rattle.std.specs.Option.{option_map};
ghost use Rattle.engine.specs.Fits.{stands, first_at_fault, first_misfit};

use super::field::{Field, Misfit, Reason};

impl Field {
    // Is the field free of this fault?
    fn stands(self, reason: Reason) -> bool
        ensures { result ≡ stands reason self }
    {
        match reason {
            Reason::OutOfRange => self.ranged,
            Reason::NotDeclared => self.declared,
            Reason::WrongKind => self.suited,
            Reason::NotListed => self.listed,
        }
    }
}

// The first field that is not free of this fault.
fn find_fault(fields: &[Field], reason: Reason) -> Option<&Field>
    ensures { option_map (λ f. f.now) result ≡ find (λ f. not (stands reason f)) fields.now }
{
    fields.iter().find(|field| !field.stands(reason))
}

// What is at fault in the first field that is not free of this fault.
fn first_at_fault(fields: &[Field], reason: Reason) -> Option<Misfit>
    ensures { result ≡ first_at_fault reason fields.now None }
{
    let field = find_fault(fields, reason)?.number;
    Some(Misfit { reason, field })
}

/// What is first at fault: numbers out of range before cells not declared, these before cells of the wrong kind, and those before places
/// not listed, each over all fields. Nothing where no field is at fault.
pub fn first_misfit(fields: &[Field]) -> Option<Misfit>
    ensures { result ≡ first_misfit fields.now }
{
    first_at_fault(fields, Reason::OutOfRange)
        .or_else(|| first_at_fault(fields, Reason::NotDeclared))
        .or_else(|| first_at_fault(fields, Reason::WrongKind))
        .or_else(|| first_at_fault(fields, Reason::NotListed))
}
