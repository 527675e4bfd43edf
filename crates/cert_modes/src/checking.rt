//! The test of the modes of a certificate.

ghost use Rattle.std.specs.Prelude.{◌≡◌, ◌↔◌, ℕ, None, IfOk, IfSome, length};
ghost use Rattle.call_components.specs.Partition.{AreComponents};
ghost use Rattle.cert_modes.specs.Failing.{IsFirstPred};
ghost use Rattle.cert_modes.specs.Marks.{MarkTells, mark_at};
ghost use Rattle.cert_modes.specs.Modes.{ModesHold};
ghost use Rattle.cert_modes.specs.Sets.{AreReady, SpellParts};
ghost use Rattle.cert_modes.specs.Shaped.{HaveSets};

use crate::admitting::mark_refused;
use crate::closing::mark_open;
use crate::covering::mark_uncovered;
use crate::fault::ModeFault;
use crate::marks::Marks;
use crate::ranks::component_numbers;
use crate::rules::PreconditionRule;
use crate::sets::Sets;
use bool_diagrams::Table;
use call_components::Components;
use cert_structure::Parts;
use cti_terms::Program;
use std::alloc::{AllocError, Global};
use term_size::Norm;

/// The first fault of a certificate's modes: nothing, exactly where they hold.
///
/// `line` is the line of the first predicate's modes, and each predicate has one line. A fault names the lowest line,
/// and at that line the first reason in the order of `ModeReason`. Each set is one diagram of one table, and a clause
/// is tested once for each mapping of its head.
pub fn mode_fault<N: Norm>(
    alloc: Global,
    p: &Program,
    norm: &N,
    comps: &Components,
    parts: &Parts,
    line: u64,
) -> Result<Option<ModeFault>, AllocError>
    requires components { AreComponents p.now comps.now }
    requires shape { HaveSets p.now parts.now }
    ensures hold { IfOk result
        (λ fault. (fault ≡ None) ↔ ModesHold (N.truth norm.now) p.now comps.now parts.now) }
    ensures first { IfOk result
        (λ fault. IfSome fault (IsFirstPred (N.truth norm.now) p.now comps.now parts.now line)) }
{
    let mut table = Table::new(alloc)?;
    let sets = Sets::new(alloc, &mut table, p, parts)?;
    let marks = marks_of(alloc, norm, &mut table, p, comps, parts, &sets)?;
    Ok(marks.first(line))
}

/// The first reason why the modes of each predicate fail, where they do.
fn marks_of<N: Norm>(
    alloc: Global,
    norm: &N,
    table: &mut Table,
    p: &Program,
    comps: &Components,
    parts: &Parts,
    sets: &Sets,
) -> Result<Marks, AllocError>
    requires components { AreComponents p.now comps.now }
    requires shape { HaveSets p.now parts.now }
    requires ready { AreReady p.now table.old sets.now }
    requires spell { SpellParts p.now parts.now table.old sets.now }
    ensures each { IfOk result (λ marks. length marks ≡ length p.now.preds) }
    ensures told { IfOk result (λ marks. (q : ℕ)
        → MarkTells (N.truth norm.now) p.now comps.now parts.now q (mark_at marks q)) }
{
    let ranks = component_numbers(alloc, p, comps)?;
    let mut marks = Marks::new(alloc, p.preds() as usize)?;
    let levels = parts.levels.as_slice();
    let preconditions = sets.preconditions.as_slice();
    mark_open(norm, table, p, sets.grounds.as_slice(), &mut marks)?;
    mark_uncovered(alloc, table, p, levels, preconditions, &mut marks)?;
    let rule = PreconditionRule {
        norm,
        program: p,
        ranks: ranks.as_slice(),
        sets,
    };
    rule.mark_broken(alloc, table, &mut marks)?;
    mark_refused(
        table,
        p,
        parts.modes.as_slice(),
        sets.allowed.as_slice(),
        &mut marks,
    );
    Ok(marks)
}
