//! Variables that stand in evaluated places.

ghost use Rattle.std.specs.Prelude.{◌≡◌, ◌==◌, ◌||◌, Some};
ghost use Rattle.cti_terms.specs.Spell.{tree_of, trees_of};
ghost use Rattle.number_columns.specs.Numeric.{all_evaluated, is_evaluated, some_operand};

use cti_terms::{Arith, Name, Term};

/// Whether a variable is evaluated in the two arguments of a name, if it is that of an operation.
fn is_operation(arith: Arith, name: Name) -> bool
    ensures { result ≡ ((name.0 == arith.plus.0) || ((name.0 == arith.minus.0) || (name.0 == arith.times.0))) }
{
    name == arith.plus || name == arith.minus || name == arith.times
}

/// Whether a variable is evaluated in one of these arguments of a name.
#[cycle(evaluating)]
fn is_operand(arith: Arith, name: Name, args: &[Term], variable: u32) -> bool
    ensures { result ≡ some_operand arith name.0
        (all_evaluated (Some arith) variable (trees_of args.now)) }
{
    match args {
        [first] => name == arith.minus && is_evaluated(Some(arith), first, variable),
        [first, second] => {
            is_operation(arith, name)
                && (is_evaluated(Some(arith), first, variable)
                    || is_evaluated(Some(arith), second, variable))
        }
        _ => false,
    }
}

/// Whether a variable stands in an evaluated place of a term: the term itself, and the arguments of an operation.
#[cycle(evaluating)]
pub(crate) fn is_evaluated(arith: Option<Arith>, t: &Term, variable: u32) -> bool
    ensures { result ≡ is_evaluated arith variable (tree_of t.now) }
{
    match t {
        Term::Var(x) => variable == *x,
        Term::Int(_) => false,
        Term::Fun(name, args) => match arith {
            Some(arith) => is_operand(arith, *name, args, variable),
            None => false,
        },
    }
}
