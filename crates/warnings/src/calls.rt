//! The calls of a body.

use crate::parts::{pred_of, text_of};
use cti_terms::{Names, Pred};
use prolog_reader::{ReadShape, ReadTerm};
use std::alloc::AllocError;

/// A call, and the place of its first byte.
#[derive(Clone, Copy)]
pub(crate) struct Call {
    pub(crate) at: u32,
    pub(crate) pred: Pred,
    /// The predicate whose clause it stands in.
    pub(crate) caller: Option<Pred>,
}

/// The goals without arguments that need no clause.
const CONSTANTS: [&[u8]; 3] = [b"true", b"fail", b"false"];

/// The goals of two arguments that need no clause.
const RELATIONS: [&[u8]; 8] = [b"=", b"is", b"=:=", b"=\\=", b"<", b"=<", b">", b">="];

/// Whether a name of the given arity joins two bodies.
pub(crate) fn is_connective(text: &[u8], arity: usize) -> bool {
    arity == 2 && matches!(text, [b',' | b';'])
}

/// Whether a name of the given arity is always known, and needs no clause.
fn is_known(text: &[u8], arity: usize) -> bool {
    match arity {
        0 => CONSTANTS.iter().any(|name| *name == text),
        2 => RELATIONS.iter().any(|name| *name == text),
        _ => false,
    }
}

/// Adds the calls of a body of this predicate's, in the order of the text.
pub(crate) fn push_calls(
    body: &ReadTerm,
    names: &Names,
    caller: Option<Pred>,
    calls: &mut Vec<Call>,
) -> Result<(), AllocError> {
    match &body.shape {
        ReadShape::Fun(name, args) if is_connective(text_of(names, *name), args.len()) => {
            for part in args {
                push_calls(part, names, caller, calls)?;
            }
        }
        ReadShape::Fun(name, args) if !is_known(text_of(names, *name), args.len()) => {
            let pred = pred_of(*name, args);
            let at = body.at;
            calls.push(Call { at, pred, caller })?;
        }
        _ => {}
    }
    Ok(())
}
