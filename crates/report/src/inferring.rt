//! The certificate of a program.

ghost use Rattle.std.specs.Prelude.{IfOk};
ghost use Rattle.cert_checker.specs.Bounding.{ModesAreBounded};
ghost use Rattle.cert_checker.specs.Valid.{IsValid};
ghost use Rattle.cert_structure.specs.Structure.{AreNamed};
ghost use Rattle.report.specs.Exact.{IsExact};
ghost use Rattle.report.specs.InferredText.{IsInferredText};
ghost use Rattle.report.specs.OfNorm.{IsOfNorm};

use crate::assembling::assemble;
use crate::support_notes::Described;
use call_components::components;
use cert_checker::valid_certificates_bound_their_modes;
use certificate::Certificate;
use cti_terms::{Names, Program};
use std::alloc::{AllocError, Global};
use term_size::NormName;

/// The certificate of a program, with the notes of how its size rows came about.
///
/// The names are those of the program's predicates. `check` answers yes to it.
pub fn infer(
    alloc: Global,
    p: &Program,
    names: &Names,
    norm: NormName,
) -> Result<Certificate, AllocError>
    requires { AreNamed names.now p.now.preds }

    // What the certificate claims holds.
    ensures valid { IfOk result (λ c. IsValid p.now names.now c.facts) }

    // It claims the most that its method may: exactly the minimal modes for its size rows, ground rows and mappings,
    // and these are all that there are.
    ensures exact { IfOk result (λ c. IsExact p.now names.now c.facts) }

    // So each query that meets one of its modes has bounded derivations.
    ensures bounded { IfOk result (λ c. ModesAreBounded p.now names.now c.facts) }

    // It is of the norm that was asked for: version 1 is of term size, and version 2 names list size.
    ensures norm { IfOk result (λ c. IsOfNorm norm c.facts) }
{
    valid_certificates_bound_their_modes();
    let _program = p.preds();
    let _names = names.count();
    let comps = components(alloc, p)?;
    let assembled = assemble(alloc, p, names, &comps, norm)?;
    assembled.certificate(
        alloc,
        &Described {
            p,
            names,
            comps: &comps,
        },
    )
}

/// The text of the certificate that [`infer`] gives. It holds neither the certificate nor its notes, which take more
/// than the text.
pub fn infer_text(
    alloc: Global,
    p: &Program,
    names: &Names,
    norm: NormName,
) -> Result<Vec<u8>, AllocError>
    requires { AreNamed names.now p.now.preds }
    ensures { IfOk result (λ text. IsInferredText p.now names.now norm text.items) }
{
    valid_certificates_bound_their_modes();
    let _program = p.preds();
    let _names = names.count();
    let comps = components(alloc, p)?;
    let assembled = assemble(alloc, p, names, &comps, norm)?;
    assembled.text(
        alloc,
        &Described {
            p,
            names,
            comps: &comps,
        },
    )
}
