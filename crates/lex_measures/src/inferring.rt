//! The certificate of a program by lists of level mappings.

ghost use Rattle.std.specs.Prelude.{IfOk};
ghost use Rattle.cert_structure.specs.Structure.{AreNamed};
ghost use Rattle.lex_checker.specs.Bounding.{ModesAreBounded};
ghost use Rattle.lex_checker.specs.Valid.{IsValid};
ghost use Rattle.lex_measures.specs.Exact.{IsExact};

use crate::assembling::assemble;
use call_components::components;
use cti_terms::{Names, Program};
use lex_certificate::LexCertificate;
use lex_checker::valid_lists_bound_their_modes;
use std::alloc::{AllocError, Global};

/// The certificate of a program by lists of level mappings, with the notes of how its size rows came about.
///
/// The names are those of the program's predicates. `check` of `lex_checker` is true of it.
pub fn infer(alloc: Global, p: &Program, names: &Names) -> Result<LexCertificate, AllocError>
    requires { AreNamed names.now p.now.preds }

    // What the certificate claims holds.
    ensures valid { IfOk result (λ c. IsValid p.now names.now c.facts) }

    // It claims the most that its method may: exactly the minimal modes for its size rows, ground rows and lists, and
    // these are all that the search gives.
    ensures exact { IfOk result (λ c. IsExact p.now names.now c.facts) }

    // So each query that meets one of its modes has bounded derivations.
    ensures bounded { IfOk result (λ c. ModesAreBounded p.now names.now c.facts) }
{
    valid_lists_bound_their_modes();
    let _program = p.preds();
    let _names = names.count();
    let comps = components(alloc, p)?;
    let assembled = assemble(alloc, p, names, &comps)?;
    assembled.certificate(alloc, p, names)
}
