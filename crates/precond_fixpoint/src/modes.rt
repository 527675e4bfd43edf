//! The minimal modes of sets of truth rows.

ghost use Rattle.std.specs.Prelude.{◌≡◌, ◌≤◌, ◌<◌, ◌&&◌, ◌++◌, ◌∷◌, [], not, nat_lt, IfOk, OnOk, filter, length, map};
ghost use Rattle.std.specs.List.{list_any};
ghost use Rattle.bool_diagrams.specs.Cubes.{truth_rows};
ghost use Rattle.bool_diagrams.specs.Rows.{IsDiagram, ReadsBelow};
ghost use Rattle.cti_terms.specs.Listing.{IsProgram};
ghost use Rattle.precond_fixpoint.specs.Solving.{AreModes, arguments_of};
ghost use Rattle.precond_fixpoint.specs.Tables.{AreTables};
ghost use Rattle.termination_model.specs.claims.Descent.{mode_row};
ghost use Rattle.termination_model.specs.grounds.Modes.{chosen_up_to, is_part, modes};
ghost use Rattle.truth_rows.specs.Sets.{AreSets, family_of};

use crate::mode::Mode;
use bool_diagrams::{Diagram, Table};
use cti_terms::{MOST_ARGUMENTS, PredId, Program};
use sequences::Sequence;
use std::alloc::{AllocError, Global};
use termination_model::{is_part, number_sets};
use truth_rows::admits;

/// The minimal modes of each predicate, in order, where these are the sets of its rows.
pub fn all_modes(
    alloc: Global,
    table: &Table,
    p: &Program,
    sets: &[Diagram],
) -> Result<Sequence<Sequence<Mode>>, AllocError>
    requires program { IsProgram p.now }
    requires sets { AreSets p.now.preds table.now sets.now }
    ensures { IfOk result (AreModes p.now.preds (family_of p.now.preds table.now sets.now)) }
{
    let mut list = Sequence::new(alloc);
    let mut tables = Vec::new(alloc);
    for q in 0..p.preds() {
        let arity = p.pred(PredId(q)).arity;
        add_tables(alloc, &mut tables, arity)?;
        let lists = tables[arity as usize].as_slice();
        let own = modes_among(alloc, table, sets[q as usize], arity, lists)?;
        list.push(own)?;
    }
    Ok(list)
}

/// Adds tables of lists of arguments, until there is one for this number of arguments.
fn add_tables(
    alloc: Global,
    tables: &mut Vec<Sequence<Sequence<u32>>>,
    arity: u32,
) -> Result<(), AllocError>
    requires tables { AreTables tables.old.items }
    requires narrow { arity ≤ MOST_ARGUMENTS }
    ensures tables { OnOk result (AreTables tables.new.items) }
    ensures there { OnOk result (arity < length tables.new.items) }
{
    for count in tables.len()..arity as usize + 1 {
        tables.push(number_sets(alloc, count as u32)?)?;
    }
    Ok(())
}

/// The mode without arguments, by itself.
fn empty_mode(alloc: Global) -> Result<Sequence<Mode>, AllocError>
    ensures { IfOk result (λ list. map arguments_of list ≡ [] ∷ []) }
{
    let mut list = Sequence::new(alloc);
    add_mode(alloc, &mut list, &[])?;
    Ok(list)
}

/// The minimal modes of a set, by length and then in lexicographic order.
pub fn minimal_modes(
    alloc: Global,
    table: &Table,
    set: Diagram,
    arity: u32,
) -> Result<Sequence<Mode>, AllocError>
    requires known { IsDiagram table.now set }
    requires reads { ReadsBelow table.now set arity }
    requires narrow { arity ≤ MOST_ARGUMENTS }
    ensures { IfOk result (λ list. map arguments_of list ≡ modes arity (truth_rows table.now set)) }
{
    let lists = number_sets(alloc, arity)?;
    let own = modes_among(alloc, table, set, arity, lists.as_slice())?;
    Ok(own)
}

/// The modes of a set, found among all lists of arguments up to the arity, which are given.
fn modes_among(
    alloc: Global,
    table: &Table,
    set: Diagram,
    arity: u32,
    lists: &[Sequence<u32>],
) -> Result<Sequence<Mode>, AllocError>
    requires known { IsDiagram table.now set }
    requires reads { ReadsBelow table.now set arity }
    requires narrow { arity ≤ MOST_ARGUMENTS }
    requires lists { lists.now ≡ chosen_up_to arity arity }
    ensures { IfOk result (λ list. map arguments_of list ≡ modes arity (truth_rows table.now set)) }
{
    // The mode without arguments is part of each other one.
    if admits(table, set, &[], arity) {
        return empty_mode(alloc);
    }
    let admitted = admitted_lists(alloc, table, set, arity, lists)?;
    minimal_lists(alloc, admitted.as_slice())
}

/// The lists whose rows a set has.
fn admitted_lists(
    alloc: Global,
    table: &Table,
    set: Diagram,
    arity: u32,
    lists: &[Sequence<u32>],
) -> Result<Vec<Sequence<u32>>, AllocError>
    requires known { IsDiagram table.now set }
    requires reads { ReadsBelow table.now set arity }
    requires narrow { arity ≤ MOST_ARGUMENTS }
    ensures { IfOk result (λ admitted. admitted.items ≡ filter
        (λ args. truth_rows table.now set (mode_row args 1 arity)) lists.now) }
{
    let mut admitted = Vec::new(alloc);
    for args in lists {
        if admits(table, set, args.as_slice(), arity) {
            admitted.push(args.copy(alloc)?)?;
        }
    }
    Ok(admitted)
}

/// The lists of which no shorter one is part.
fn minimal_lists(alloc: Global, lists: &[Sequence<u32>]) -> Result<Sequence<Mode>, AllocError>
    ensures { IfOk result (λ list. map arguments_of list
        ≡ filter (λ args. not (list_any (λ less. nat_lt (length less) (length args)
        && is_part less args) lists.now)) lists.now) }
{
    let mut minimal = Sequence::new(alloc);
    for args in lists {
        if has_less(lists, args.as_slice()) {
            continue;
        }
        add_mode(alloc, &mut minimal, args.as_slice())?;
    }
    Ok(minimal)
}

/// Adds the mode of these arguments.
fn add_mode(alloc: Global, list: &mut Sequence<Mode>, args: &[u32]) -> Result<(), AllocError>
    ensures { OnOk result (map arguments_of list.new ≡ map arguments_of list.old ++ args.now ∷ []) }
{
    let items = Vec::from_slice(alloc, args)?;
    list.push(Mode {
        args: Sequence::from_vec(items),
    })
}

/// Whether a shorter one of the lists is part of this one.
fn has_less(lists: &[Sequence<u32>], args: &[u32]) -> bool
    ensures { result ≡ list_any (λ less. nat_lt (length less) (length args.now)
        && is_part less args.now) lists.now }
{
    for less in lists {
        if less.len() < args.len() && is_part(less.as_slice(), args) {
            return true;
        }
    }
    false
}
