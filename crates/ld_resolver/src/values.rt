//! Values of terms under the bindings.
//!
//! A term may be deep, and a chain of bindings makes it deeper. So its operators are listed first, root first, and the
//! values are then calculated from the end of the list. A term without a value is found by the first pass.

ghost use Rattle.std.specs.Prelude.{◌≡◌, [], IfOk, option_map};
ghost use Rattle.cti_terms.specs.Spell.{tree_of};
ghost use Rattle.cti_terms.specs.Tree.{Integer};
ghost use Rattle.unifier.specs.Raised.{raised_tree};
ghost use Rattle.unifier.specs.Store.{full};
ghost use Rattle.ld_resolver.specs.Values.{IsSplit, HasOperators, IsCalculated, IsValue, stack_by};

use crate::operators::{Operator, last, operator_of, take};
use bumpalo::Bump;
use cti_terms::{Arith, Term};
use std::alloc::{AllocError, Global};
use unifier::bindings::Bindings;
use unifier::occurs_check::push_arguments;
use unifier::raised_term::{RaisedTerm, Shape};

/// The most operators and numbers of an expression that is evaluated, which take 128 MB. Variables may share subterms,
/// so that a short text stands for any number of them. With more, it is out of memory.
const MOST_OPERATORS: usize = 4_000_000;

/// The value of a term: it has none, or it or a subterm has one that does not fit, or it is a number.
#[derive(Clone, Copy, Drop)]
pub enum Value {
    Missing,
    Wide,
    Known(i128),
}

/// What is used again from one value to the next, and an arena for values that stay.
pub struct Calculator<'p> {
    arena: &'p Bump,
    terms: Vec<RaisedTerm<'p>>,
    operators: Vec<Operator>,
    numbers: Vec<i128>,
}

impl Drop for Calculator<'_> {
    fn drop(self) {
        let Calculator {
            arena: _,
            terms: _,
            operators: _,
            numbers: _,
        } = self;
    }
}

/// The operator of a term of this kind, with its operands, if it has one.
fn split<'p>(names: Option<Arith>, shape: Shape<'p>) -> Option<(Operator, &'p [Term])>
    ensures { IsSplit names shape.entry (option_map (λ r. (r.0, r.1.now)) result) }
{
    match shape {
        Shape::Variable(_) => None,
        Shape::Integer(number) => Some((Operator::Number(*number), &[])),
        Shape::Compound(name, args) => Some((operator_of(names?, name, args.len())?, args)),
    }
}

/// The number that the operators make, of which the last one is the first to be taken, where all numbers fit.
fn calculate(
    operators: &mut Vec<Operator>,
    values: &mut Vec<i128>,
) -> Result<Option<i128>, AllocError>
    ensures { IfOk result (IsCalculated (stack_by operators.old.items [])) }
{
    values.clear();
    while let Some(operator) = operators.pop() {
        match take(operator, values) {
            Some(number) => values.push(number)?,
            None => return Ok(None),
        }
    }
    Ok(Some(last(values)))
}

/// Lists the operators of a term under the bindings, root first, and says whether it has a value. Out of memory at more
/// than `MOST_OPERATORS` of them.
fn list_operators<'p>(
    bindings: &Bindings<'p>,
    names: Option<Arith>,
    term: RaisedTerm<'p>,
    stack: &mut Vec<RaisedTerm<'p>>,
    operators: &mut Vec<Operator>,
) -> Result<bool, AllocError>
    ensures { IfOk result (λ found. HasOperators names
        (full bindings.now (raised_tree term.entry)) found operators.new.items) }
{
    stack.clear();
    operators.clear();
    stack.push(term)?;
    while let Some(next) = stack.pop() {
        let met = bindings.met(next);
        match split(names, met.shape) {
            Some((operator, operands)) => {
                if operators.len() == MOST_OPERATORS {
                    return Err(AllocError);
                }
                operators.push(operator)?;
                push_arguments(stack, operands, met.term.base)?;
            }
            None => return Ok(false),
        }
    }
    Ok(true)
}

impl<'p> Calculator<'p> {
    /// Empty lists. It takes no memory.
    pub fn new(alloc: Global, arena: &'p Bump) -> Calculator<'p> {
        Calculator {
            arena,
            terms: Vec::new(alloc),
            operators: Vec::new(alloc),
            numbers: Vec::new(alloc),
        }
    }

    /// The value of a term under the bindings.
    pub fn value(
        &mut self,
        bindings: &Bindings<'p>,
        names: Option<Arith>,
        term: RaisedTerm<'p>,
    ) -> Result<Value, AllocError>
        ensures { IfOk result (IsValue names (full bindings.now (raised_tree term.entry))) }
    {
        if !list_operators(bindings, names, term, &mut self.terms, &mut self.operators)? {
            return Ok(Value::Missing);
        }
        match calculate(&mut self.operators, &mut self.numbers)? {
            Some(number) => Ok(Value::Known(number)),
            None => Ok(Value::Wide),
        }
    }

    /// An integer as a term that stays as long as the arena.
    pub fn keep(&self, number: i128) -> Result<&'p Term, AllocError>
        ensures { IfOk result (λ t. tree_of t.now ≡ Integer number) }
    {
        let term = self.arena.try_alloc(Term::Int(number))?;
        Ok(term)
    }
}
