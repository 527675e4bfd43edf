//! The facts of all parts.

ghost use Rattle.std.specs.Prelude.{◌≡◌, ◌++◌, IfOk, OnOk};
ghost use Rattle.cert_structure.specs.Order.{head_facts, listed};
ghost use Rattle.cert_writing.specs.Written.{mapping_facts};

use crate::mappings::{Falls, Levels};
use crate::model::WrittenModel;
use crate::preconditions::WrittenPreconditions;
use crate::refutations::{Points, WrittenRefutations};
use crate::writer::{append, write_each};
use cert_structure::Parts;
use certificate::{CertNorm, Certificate, Fact};
use cti_terms::{Names, Program};
use sequences::Sequence;
use std::alloc::{AllocError, Global};

/// Puts the version, and the norm that is named, after other facts: version 1 names none.
fn write_head(norm: Option<CertNorm>, out: &mut Sequence<Fact>) -> Result<(), AllocError>
    ensures { OnOk result (out.new ≡ out.old ++ head_facts norm) }
{
    match norm {
        None => out.push(Fact::Cti { version: 1 }),
        Some(norm) => {
            out.push(Fact::Cti { version: 2 })?;
            out.push(Fact::Norm { norm })
        }
    }
}

/// Puts the facts of mappings, their falls and preconditions, and refutations after others.
fn write_mappings(
    alloc: Global,
    p: &Program,
    names: &Names,
    parts: &Parts,
    out: &mut Sequence<Fact>,
) -> Result<(), AllocError>
    ensures { OnOk result (out.new ≡ out.old ++ mapping_facts p.now names.now parts.now) }
{
    write_each(alloc, &Levels { p, names }, parts.levels.as_slice(), out)?;
    write_each(alloc, &Falls {}, parts.falls.as_slice(), out)?;
    write_each(
        alloc,
        &WrittenPreconditions { p, names },
        parts.preconditions.as_slice(),
        out,
    )?;
    write_each(
        alloc,
        &WrittenRefutations {
            p,
            names,
            points: Points {},
        },
        parts.refutations.as_slice(),
        out,
    )
}

/// The certificate of parts, with notes after their facts: `parts_of` finds these parts in it, where they have the
/// shape of the program.
pub fn facts_of(
    alloc: Global,
    p: &Program,
    names: &Names,
    parts: &Parts,
    notes: Vec<Fact>,
) -> Result<Certificate, AllocError>
    ensures { IfOk result (λ c. c.facts ≡ listed p.now names.now parts.now notes.items) }
{
    let mut facts = Sequence::new(alloc);
    write_head(parts.norm, &mut facts)?;
    let model = WrittenModel {
        modes: parts.modes.as_slice(),
        rows: parts.rows.as_slice(),
        row_proofs: parts.row_proofs.as_slice(),
        grounds: parts.grounds.as_slice(),
    };
    model.write(alloc, p, names, &mut facts)?;
    write_mappings(alloc, p, names, parts, &mut facts)?;
    append(notes, &mut facts)?;
    Ok(Certificate { facts })
}
