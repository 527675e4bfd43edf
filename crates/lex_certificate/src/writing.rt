//! The facts of all parts.

ghost use Rattle.std.specs.Prelude.{◌≡◌, ◌++◌, IfOk, OnOk};
ghost use Rattle.lex_certificate.specs.Order.{listed};
ghost use Rattle.lex_certificate.specs.Written.{list_facts};

use crate::fact::LexFact;
use crate::list_certificate::LexCertificate;
use crate::parts::LexParts;
use crate::written_lists::{Points, WrittenDrops, WrittenLists};
use cert_writing::{WrittenModel, WrittenPreconditions, WrittenRefutations, append, write_each};
use cti_terms::{Names, Program};
use sequences::Sequence;
use std::alloc::{AllocError, Global};

/// Puts the facts of lists, their drops and preconditions, and stuck sets after others.
fn write_lists(
    alloc: Global,
    p: &Program,
    names: &Names,
    parts: &LexParts,
    out: &mut Sequence<LexFact>,
) -> Result<(), AllocError>
    ensures { OnOk result (out.new ≡ out.old ++ list_facts p.now names.now parts.now) }
{
    write_each(
        alloc,
        &WrittenLists { p, names },
        parts.lists.as_slice(),
        out,
    )?;
    write_each(alloc, &WrittenDrops {}, parts.drops.as_slice(), out)?;
    write_each(
        alloc,
        &WrittenPreconditions { p, names },
        parts.preconditions.as_slice(),
        out,
    )?;
    write_each(
        alloc,
        &WrittenRefutations {
            p,
            names,
            points: Points {},
        },
        parts.stuck.as_slice(),
        out,
    )
}

/// The certificate of parts, with notes after their facts: `parts_of` finds these parts in it, where they have the
/// shape of the program.
pub fn facts_of(
    alloc: Global,
    p: &Program,
    names: &Names,
    parts: &LexParts,
    notes: Vec<LexFact>,
) -> Result<LexCertificate, AllocError>
    ensures { IfOk result (λ c. c.facts ≡ listed p.now names.now parts.now notes.items) }
{
    let mut facts = Sequence::new(alloc);
    facts.push(LexFact::Ctilex { version: 1 })?;
    let model = WrittenModel {
        modes: parts.modes.as_slice(),
        rows: parts.rows.as_slice(),
        row_proofs: parts.row_proofs.as_slice(),
        grounds: parts.grounds.as_slice(),
    };
    model.write(alloc, p, names, &mut facts)?;
    write_lists(alloc, p, names, parts, &mut facts)?;
    append(notes, &mut facts)?;
    Ok(LexCertificate { facts })
}
