//! Expressions that have no value, whatever their variables are.

use crate::calls::is_connective;
use crate::parts::{pred_of, text_of};
use crate::warning::Warning;
use cti_terms::Names;
use prolog_reader::{ReadShape, ReadTerm};
use std::alloc::AllocError;

/// The goals that compare integers.
const COMPARISONS: [&[u8]; 6] = [b"=:=", b"=\\=", b"<", b"=<", b">", b">="];

/// Whether a name of the given arity is that of an operation on integers.
fn is_operation(text: &[u8], arity: usize) -> bool {
    matches!((text, arity), ([b'+' | b'-' | b'*'], 2) | ([b'-'], 1))
}

/// The arguments of a goal that are expressions.
fn expressions_of<'a>(text: &[u8], args: &'a [ReadTerm]) -> &'a [ReadTerm] {
    match args {
        [_, _] if text == b"is".as_slice() => args.get(1..).unwrap_or(&[]),
        [_, _] if COMPARISONS.iter().any(|name| *name == text) => args,
        _ => &[],
    }
}

/// The first part of an expression that is no integer, no variable and no operation on such. A text nests at most 1,000
/// of them.
fn valueless_in(names: &Names, term: &ReadTerm) -> Option<Warning> {
    let ReadShape::Fun(name, args) = &term.shape else {
        return None;
    };
    if !is_operation(text_of(names, *name), args.len()) {
        return Some(Warning::NoValue {
            at: term.at,
            pred: pred_of(*name, args),
        });
    }
    for arg in args {
        if let Some(warning) = valueless_in(names, arg) {
            return Some(warning);
        }
    }
    None
}

/// Adds a warning for each expression of a body's goals that never has a value.
pub(crate) fn push_valueless(
    body: &ReadTerm,
    names: &Names,
    warnings: &mut Vec<Warning>,
) -> Result<(), AllocError> {
    let ReadShape::Fun(name, args) = &body.shape else {
        return Ok(());
    };
    let text = text_of(names, *name);
    if is_connective(text, args.len()) {
        for part in args {
            push_valueless(part, names, warnings)?;
        }
        return Ok(());
    }
    push_each(expressions_of(text, args), names, warnings)
}

/// Adds a warning for each of these expressions that never has a value.
fn push_each(
    expressions: &[ReadTerm],
    names: &Names,
    warnings: &mut Vec<Warning>,
) -> Result<(), AllocError> {
    for expression in expressions {
        if let Some(warning) = valueless_in(names, expression) {
            warnings.push(warning)?;
        }
    }
    Ok(())
}
