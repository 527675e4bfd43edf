//! The kinds of a program's argument positions.

ghost use Rattle.std.specs.Prelude.{◌≡◌, ◌≤◌, ◌<◌, ◌+◌, ◌*◌, ℕ, Some, IfOk, OnOk, length, slice_get};
ghost use Rattle.number_columns.specs.Links.{AreFalling, LinksMore, NoPair, node_of};
ghost use Rattle.number_columns.specs.Meeting.{AreKindsOf, IsKindOf, IsLinkedUp, RowsKnown};
ghost use Rattle.number_columns.specs.Numeric.{AreKinds};

use crate::kind::{Kind, Kinds};
use crate::links::Links;
use crate::numeric::{NUMBERS, link_builtins, link_clauses, node_of};
use cti_terms::{Pred, PredId, Program};
use sequences::Sequence;
use std::alloc::{AllocError, Global};

/// The links of a program's positions.
fn links_of(alloc: Global, p: &Program) -> Result<Links, AllocError>
    ensures { IfOk result (λ links. IsLinkedUp p.now links.parents.items) }
{
    let mut links = Links::new(alloc, p.preds() as usize * 12 + 1)?;
    link_builtins(&mut links, p);
    link_clauses(alloc, &mut links, p)?;
    Ok(links)
}

/// The kind of a position: that of a number where its node is linked to numbers.
fn kind_of(links: &mut Links, node: usize) -> Kind
    requires known { node < length links.old.parents.items }
    requires falling { AreFalling links.old.parents.items }
    ensures links { LinksMore NoPair links.old.parents.items links.new.parents.items }
    ensures kind { IsKindOf links.old.parents.items node result }
{
    if links.find(node) == NUMBERS {
        Kind::Number
    } else {
        Kind::Size
    }
}

/// The kinds of a predicate's positions.
fn kinds_of(
    alloc: Global,
    links: &mut Links,
    pred: PredId,
    arity: u32,
) -> Result<Sequence<Kind>, AllocError>
    requires few { arity ≤ 12 }
    requires room { pred.0 * 12 + 12 < length links.old.parents.items }
    requires falling { AreFalling links.old.parents.items }
    ensures links { OnOk result (LinksMore NoPair links.old.parents.items links.new.parents.items) }
    ensures length { IfOk result (λ kinds. length kinds ≡ arity) }
    ensures each { IfOk result (AreKindsOf links.old.parents.items pred.0) }
{
    let mut kinds = Sequence::new(alloc);
    for i in 0..arity {
        kinds.push(kind_of(links, node_of(pred, i as usize)))?;
    }
    Ok(kinds)
}

/// The kind of each argument position of a program: `Number` exactly where it is numeric.
///
/// It takes about the time of reading the program once.
pub fn program_kinds(alloc: Global, p: &Program) -> Result<Kinds, AllocError>
    ensures { IfOk result (AreKinds p.now) }
{
    let mut links = links_of(alloc, p)?;
    let mut all = Kinds::new(alloc);
    for q in 0..p.preds() {
        let arity = p.pred(PredId(q)).arity;
        all.push(kinds_of(alloc, &mut links, PredId(q), arity)?)?;
    }
    Ok(all)
}
