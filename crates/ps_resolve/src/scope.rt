//! What names stand for.

ghost use Rattle.std.specs.Prelude.{◌≡◌, slice_get, Some};
ghost use Rattle.ps_plain.specs.Forms.{word_part, with_arity, called};
ghost use Rattle.ps_resolve.specs.InsideValues.{scope_of};

use crate::words::text;
use ps_base::{Name, Names, Place};
use ps_plain::Expr;

// Where an expression stands: the names in the data, the parameters of the procedure around it, and the program's procedures
// with their numbers of parameters.
#[derive(Drop)]
pub(crate) struct Scope<'a> {
    pub names: &'a Names,
    pub parameters: &'a Names,
    pub procedures: &'a Names,
    pub arities: &'a [u32],
}

// The parameter that a name is which stands alone at a place.
pub(crate) fn parameter(scope: &Scope<'_>, place: Place, name: Name) -> Option<Expr>
    ensures { result ≡ (word_part place name (slice_get scope.now.names.now name.0)).expr (scope_of scope.now) }
{
    match scope.parameters.find(text(scope.names, name)?) {
        Some(Name(number)) => Some(Expr::Parameter(place, number)),
        None => None,
    }
}

// The procedure with this number of parameters.
fn with_arity(arities: &[u32], operands: usize, procedure: u32) -> Option<u32>
    ensures { result ≡ with_arity arities.now operands (Some procedure) }
{
    match arities.get(procedure as usize) {
        Some(arity) => {
            if *arity as usize == operands {
                Some(procedure)
            } else {
                None
            }
        }
        None => None,
    }
}

// The procedure that is called by a name with so many operands.
pub(crate) fn called(scope: &Scope<'_>, name: &[u8], operands: usize) -> Option<u32>
    ensures { result ≡ called (scope_of scope.now) name.now operands }
{
    if scope.parameters.find(name).is_some() {
        return None;
    }
    match scope.procedures.find(name) {
        Some(Name(procedure)) => with_arity(scope.arities, operands, procedure),
        None => None,
    }
}
