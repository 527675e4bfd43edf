//! The operators of an expression, and what each makes of values.

ghost use Rattle.std.specs.Prelude.{◌≡◌, List, drop, false};
ghost use Rattle.ld_resolver.specs.Values.{IsOperation, IsOperator, IsNumber, IsTakenTo, known, result_by, top};

use cti_terms::{Arith, Name};
use exact128::{fits, minus, plus, times};

/// An operation on two values.
#[derive(Clone, Copy, Drop)]
pub enum Operation {
    Add,
    Subtract,
    Multiply,
}

/// What an expression begins with: a number, or an operation on the value of one operand or of two.
#[derive(Clone, Copy, Drop)]
pub enum Operator {
    Number(i128),
    Negate,
    Pair(Operation),
}

/// The operation on two values that a name has, if it has one.
fn operation_of(names: Arith, name: Name) -> Option<Operation>
    ensures { IsOperation names name.0 result }
{
    if name == names.plus {
        return Some(Operation::Add);
    }
    if name == names.minus {
        return Some(Operation::Subtract);
    }
    if name == names.times {
        return Some(Operation::Multiply);
    }
    None
}

/// The operator that a name has with this many operands, if it has one.
pub fn operator_of(names: Arith, name: Name, count: usize) -> Option<Operator>
    ensures { IsOperator names name.0 count result }
{
    match count {
        1 if name == names.minus => Some(Operator::Negate),
        2 => Some(Operator::Pair(operation_of(names, name)?)),
        _ => None,
    }
}

/// The result of an operation, where it fits.
fn result_of(operation: Operation, left: i128, right: i128) -> Option<i128>
    ensures { IsNumber (result_by operation left right) result }
{
    match operation {
        Operation::Add => plus(left, right),
        Operation::Subtract => minus(left, right),
        Operation::Multiply => times(left, right),
    }
}

/// Takes the last value away. There is one wherever the operators are those of a term.
pub fn last(values: &mut Vec<i128>) -> i128
    ensures top { top (known values.old.items) ≡ (result, false) }
    ensures rest { known values.new.items ≡ drop 1 (known values.old.items) }
{
    values.pop().unwrap_or(0)
}

/// Takes the operands of an operator away, and gives its result, where it fits.
pub fn take(operator: Operator, values: &mut Vec<i128>) -> Option<i128>
    ensures { IsTakenTo operator values.old.items result values.new.items }
{
    match operator {
        Operator::Number(number) => {
            if fits(number) {
                return Some(number);
            }
            None
        }
        Operator::Negate => minus(0, last(values)),
        Operator::Pair(operation) => {
            let right = last(values);
            let left = last(values);
            result_of(operation, left, right)
        }
    }
}
