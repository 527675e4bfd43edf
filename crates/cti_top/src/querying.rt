//! The goal that a query is of a program.

ghost use Rattle.std.specs.Prelude.{◌≡◌, ◌<◌, ◌≤◌, ℕ, None, length, position, IfOk, IfErr};
ghost use Rattle.std.specs.List.{AllByRecursion};
ghost use Rattle.cti_terms.specs.declared.predicates.Pred.{Pred as ThePred};
ghost use Rattle.cti_terms.specs.Lifts.{IsGoalOf};
ghost use Rattle.clause_normal.specs.Numbering.{is_equality};
ghost use Rattle.cti_top.specs.Queries.{IsQueryOf};
ghost use Rattle.cti_top.specs.Known.{known_of, NamesBuiltins};
ghost use Rattle.cti_top.specs.Faults.{IsQueryFault};

use crate::source::{Source, SourceFault, TOO_LONG};
use clause_normal::normal_query;
use cti_terms::Goal;
use prolog_reader::{MOST_BYTES, read_query};
use std::alloc::Global;

/// The most names and the most predicates that leave room for those of a query. More do not fit into memory.
const MOST_KNOWN: u32 = 4_290_000_000;

/// Reads a query of a program, and adds what it needs to the program and its names.
pub fn query_in(alloc: Global, source: &mut Source, query: &[u8]) -> Result<Goal, SourceFault>
    requires known { AllByRecursion
        (λ (q : ThePred). q.name.0 < length source.old.names) source.old.program.preds }
    requires room { position (is_equality source.old.names) source.old.program.preds ≡ None
        → length source.old.program.clauses < 16385 }
    requires arithmetic { NamesBuiltins source.old.names source.old.program }
    ensures query { IfOk result
        (λ g. IsQueryOf (known_of source.old) query.now source.new.names source.new.program g) }
    ensures goal { IfOk result (λ g. IsGoalOf source.new.program g) }
    ensures refused { IfErr result (λ fault. IsQueryFault (known_of source.old) query.now fault) }
{
    if query.len() > MOST_BYTES {
        return Err(SourceFault::Refused {
            kind: TOO_LONG,
            at: 0,
        });
    }
    if source.names.count() > MOST_KNOWN || source.program.preds() > MOST_KNOWN {
        return Err(SourceFault::Memory);
    }
    let clause = read_query(alloc, query, &mut source.names, &source.ops)?;
    let goal = normal_query(alloc, &clause, &mut source.names, &mut source.program);
    // No two names have the same text, so that the texts tell the names apart.
    source.names.count();
    Ok(goal?)
}
