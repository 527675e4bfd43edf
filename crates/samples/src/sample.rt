//! A program and its names.

ghost use Rattle.std.specs.Prelude.{◌<◌, length, IfSome};
ghost use Rattle.std.specs.List.{AllByRecursion};
ghost use Rattle.cti_terms.specs.Listing.{IsProgram};
ghost use Rattle.cti_terms.specs.declared.predicates.Pred.{Pred as ThePred};

use clause_normal::normal;
use cti_terms::{Names, Program};
use prolog_reader::read_text;
use std::alloc::Global;

/// A program with the names that its text leaves.
pub struct Sample {
    pub names: Names,
    pub program: Program,
}

impl Drop for Sample {
    fn drop(self) {
        let Sample {
            names: _,
            program: _,
        } = self;
    }
}

/// The program of a text; none where the text is not a program, or out of memory.
pub fn program_of(alloc: Global, text: &str) -> Option<Sample>
    ensures named { IfSome result
        (λ s. AllByRecursion (λ (q : ThePred). q.name.0 < length s.names) s.program.preds) }
    ensures program { IfSome result (λ s. IsProgram s.program) }
{
    let mut names = Names::new(alloc);
    let text = read_text(alloc, text.as_bytes(), &mut names).ok()?;
    if names.count() > 1_000_000 {
        return None;
    }
    let Ok(program) = normal(alloc, &text, &mut names) else {
        return None;
    };
    Some(Sample { names, program })
}
