//! The links between the argument positions of a clause.

ghost use Rattle.std.specs.Prelude.{◌≡◌, ◌≤◌, ◌<◌, ◌+◌, ◌*◌, ◌∷◌, ℕ, List, Some, None, IsTrue, IfOk, OnOk, replicate, true, false, length, map, slice_get};
ghost use Rattle.std.specs.List.{AllByRecursion};
ghost use Rattle.cti_terms.specs.Arithmetic.{Arithmetic, kind_of};
ghost use Rattle.cti_terms.specs.Spell.{tree_of};
ghost use Rattle.cti_terms.specs.Tree.{Tree, Variable, is_below};
ghost use Rattle.cti_terms.specs.declared.builtins.Builtin.{Builtin};
ghost use Rattle.cti_terms.specs.Listing.{IsClause, IsProgram};
ghost use Rattle.cti_terms.specs.declared.atom_list.Atom.{Atom as TheAtom};
ghost use Rattle.cti_terms.specs.declared.clauses.Clause.{Clause};
ghost use Rattle.number_columns.specs.Links.{AreFalling, AreLinked, LinksMore, node_of, numbers_node};
ghost use Rattle.number_columns.specs.Meeting.{BuiltinPairs, BuiltinsLinked, ClausesLinked, ProgramPairs, AllEvaluated, AllMet, AreEvaluated, AreMet, ClausePairs, HasLinks, IsRoomy, KeepsLinks, NumberPair, IsMeeting, IsMet, IsReady, KeepsMet, StandsAt};
ghost use Rattle.number_columns.specs.Numeric.{is_evaluated};

use crate::evaluated::is_evaluated;
use crate::links::Links;
use cti_terms::{Arith, Atom, Clause, MOST_VARIABLES, PredId, Program, Term};
use std::alloc::{AllocError, Global};

/// The node of all numbers.
pub(crate) const NUMBERS: usize = 0;

/// The node of an argument position, which counts from 0.
pub(crate) fn node_of(pred: PredId, place: usize) -> usize
    requires { place < 12 }
    ensures { result ≡ node_of pred.0 place }
{
    pred.0 as usize * 12 + place + 1
}

/// Links a position to the first one at which its variable stands, or makes it the first one.
fn meet_variable(links: &mut Links, first: &mut [Option<usize>], variable: usize, node: usize)
    requires known { node < length links.old.parents.items }
    requires ready { IsReady links.old.parents.items first.old }
    requires variable { variable < length first.old }
    ensures ready { IsReady links.new.parents.items first.new }
    ensures count { length links.new.parents.items ≡ length links.old.parents.items }
    ensures variables { length first.new ≡ length first.old }
    ensures meeting { (ar : Arithmetic) (c : Clause) (start : List ℕ)
        → IsMeeting ar c start links.old.parents.items first.old → StandsAt c variable node
        → IsMeeting ar c start links.new.parents.items first.new }
    ensures keeps { KeepsMet links.old.parents.items first.old links.new.parents.items first.new }
    ensures met { IsMet links.new.parents.items first.new variable node }
{
    match first[variable] {
        Some(other) => links.link(other, node),
        None => first[variable] = Some(node),
    }
}

/// Links the position of an argument, if it is a variable.
fn meet(links: &mut Links, first: &mut [Option<usize>], t: &Term, node: usize)
    requires known { node < length links.old.parents.items }
    requires ready { IsReady links.old.parents.items first.old }
    requires below { IsTrue (is_below (length first.old) (tree_of t.now)) }
    ensures ready { IsReady links.new.parents.items first.new }
    ensures count { length links.new.parents.items ≡ length links.old.parents.items }
    ensures variables { length first.new ≡ length first.old }
    ensures meeting { (ar : Arithmetic) (c : Clause) (start : List ℕ)
        → IsMeeting ar c start links.old.parents.items first.old
        → ((x : ℕ) → tree_of t.now ≡ Variable x → StandsAt c x node)
        → IsMeeting ar c start links.new.parents.items first.new }
    ensures keeps { KeepsMet links.old.parents.items first.old links.new.parents.items first.new }
    ensures met { (x : ℕ) → tree_of t.now ≡ Variable x
        → IsMet links.new.parents.items first.new x node }
{
    match t {
        Term::Var(x) => meet_variable(links, first, *x as usize, node),
        Term::Int(_) => {}
        Term::Fun(_, _) => {}
    }
}

/// Links the position of each argument of an atom, if it is a variable.
fn meet_atom(links: &mut Links, first: &mut [Option<usize>], atom: &Atom)
    requires room { atom.now.pred.0 * 12 + 12 < length links.old.parents.items }
    requires few { length atom.now.args ≤ 12 }
    requires ready { IsReady links.old.parents.items first.old }
    requires below { AllByRecursion (λ t. IsTrue (is_below (length first.old) t)) atom.now.args }
    ensures ready { IsReady links.new.parents.items first.new }
    ensures count { length links.new.parents.items ≡ length links.old.parents.items }
    ensures variables { length first.new ≡ length first.old }
    ensures meeting { (ar : Arithmetic) (c : Clause) (start : List ℕ) (place : ℕ)
        → slice_get (c.head ∷ c.body) place ≡ Some atom.now
        → IsMeeting ar c start links.old.parents.items first.old
        → IsMeeting ar c start links.new.parents.items first.new }
    ensures keeps { KeepsMet links.old.parents.items first.old links.new.parents.items first.new }
    ensures met { AreMet links.new.parents.items first.new atom.now.pred.0 (length atom.now.args)
        atom.now.args }
{
    let args = atom.args.as_slice();
    for i in 0..args.len() {
        meet(links, first, &args[i], node_of(atom.pred, i));
    }
}

/// Whether a variable is evaluated in one of an atom's arguments.
fn has_evaluated(arith: Option<Arith>, args: &[Term], variable: u32) -> bool
    ensures some { result ≡ true → (argument : ℕ) × (term : Tree)
        × (slice_get (map tree_of args.now) argument ≡ Some term) × (is_evaluated arith variable term ≡ true) }
    ensures none { result ≡ false → (argument : ℕ) (term : Tree)
        → slice_get (map tree_of args.now) argument ≡ Some term → is_evaluated arith variable term ≡ false }
{
    for t in args {
        if is_evaluated(arith, t, variable) {
            return true;
        }
    }
    false
}

/// Links the first position of a variable, if it has one, to numbers, where it is evaluated in one of these arguments.
fn evaluate_variable(
    links: &mut Links,
    arith: Option<Arith>,
    args: &[Term],
    variable: u32,
    first: Option<usize>,
)
    requires known { (n : ℕ) → first ≡ Some n → n < length links.old.parents.items }
    requires falling { AreFalling links.old.parents.items }
    ensures links { LinksMore (NumberPair arith (map tree_of args.now) variable first)
        links.old.parents.items links.new.parents.items }
    ensures evaluated { (n argument : ℕ) (term : Tree) → first ≡ Some n
        → slice_get (map tree_of args.now) argument ≡ Some term
        → is_evaluated arith variable term ≡ true → AreLinked links.new.parents.items numbers_node n }
{
    let Some(node) = first else {
        return;
    };
    if has_evaluated(arith, args, variable) {
        links.link(NUMBERS, node);
    }
}

/// Links the first position of each variable that is evaluated in a built-in atom to numbers.
fn evaluate_atom(links: &mut Links, arith: Option<Arith>, first: &[Option<usize>], atom: &Atom)
    requires ready { IsReady links.old.parents.items first.now }
    requires few { length first.now ≤ MOST_VARIABLES }
    ensures ready { IsReady links.new.parents.items first.now }
    ensures count { length links.new.parents.items ≡ length links.old.parents.items }
    ensures keeps { KeepsLinks links.old.parents.items links.new.parents.items }
    ensures meeting { (ar : Arithmetic) (c : Clause) (start : List ℕ) (place : ℕ) (kind : Builtin)
        → slice_get c.body place ≡ Some atom.now → kind_of ar atom.now.pred.0 ≡ Some kind → ar.names ≡ arith
        → IsMeeting ar c start links.old.parents.items first.now
        → IsMeeting ar c start links.new.parents.items first.now }
    ensures evaluated { AreEvaluated arith links.new.parents.items first.now (length first.now) atom.now.args }
{
    for x in 0..first.len() {
        evaluate_variable(links, arith, atom.args.as_slice(), x as u32, first[x]);
    }
}

/// Links the positions of a clause that share a variable, each to the first one.
fn meet_clause(links: &mut Links, first: &mut [Option<usize>], clause: &Clause)
    requires head { IsRoomy (length links.old.parents.items) (length first.old) clause.now.head }
    requires body { AllByRecursion (IsRoomy (length links.old.parents.items) (length first.old))
        clause.now.body }
    requires ready { IsReady links.old.parents.items first.old }
    ensures ready { IsReady links.new.parents.items first.new }
    ensures count { length links.new.parents.items ≡ length links.old.parents.items }
    ensures meeting { (ar : Arithmetic) (start : List ℕ)
        → IsMeeting ar clause.now start links.old.parents.items first.old
        → IsMeeting ar clause.now start links.new.parents.items first.new }
    ensures met { AllMet links.new.parents.items first.new (length clause.now.body + 1)
        (clause.now.head ∷ clause.now.body) }
{
    meet_atom(links, first, &clause.head);
    let body = clause.body.as_slice();
    for i in 0..body.len() {
        meet_atom(links, first, &body[i]);
    }
}

/// Links the variables that are evaluated in an atom to numbers, if it is built in.
fn evaluate_if_builtin(links: &mut Links, p: &Program, first: &[Option<usize>], atom: &Atom)
    requires known { atom.now.pred.0 < length p.now.preds }
    requires ready { IsReady links.old.parents.items first.now }
    requires few { length first.now ≤ MOST_VARIABLES }
    ensures ready { IsReady links.new.parents.items first.now }
    ensures count { length links.new.parents.items ≡ length links.old.parents.items }
    ensures keeps { KeepsLinks links.old.parents.items links.new.parents.items }
    ensures meeting { (c : Clause) (start : List ℕ) (place : ℕ) → slice_get c.body place ≡ Some atom.now
        → IsMeeting p.now.arithmetic c start links.old.parents.items first.now
        → IsMeeting p.now.arithmetic c start links.new.parents.items first.now }
    ensures evaluated { (kind : Builtin) → kind_of p.now.arithmetic atom.now.pred.0 ≡ Some kind
        → AreEvaluated p.now.arithmetic.names links.new.parents.items first.now (length first.now)
        atom.now.args }
{
    match p.builtin(atom.pred) {
        Some(_) => evaluate_atom(links, p.arith(), first, atom),
        None => {}
    }
}

/// Links the variables that are evaluated in a clause to numbers.
fn evaluate_clause(links: &mut Links, p: &Program, first: &[Option<usize>], clause: &Clause)
    requires known { AllByRecursion (λ (a : TheAtom). a.pred.0 < length p.now.preds) clause.now.body }
    requires ready { IsReady links.old.parents.items first.now }
    requires few { length first.now ≤ MOST_VARIABLES }
    ensures ready { IsReady links.new.parents.items first.now }
    ensures count { length links.new.parents.items ≡ length links.old.parents.items }
    ensures keeps { KeepsLinks links.old.parents.items links.new.parents.items }
    ensures meeting { (start : List ℕ)
        → IsMeeting p.now.arithmetic clause.now start links.old.parents.items first.now
        → IsMeeting p.now.arithmetic clause.now start links.new.parents.items first.now }
    ensures evaluated { AllEvaluated p.now.arithmetic links.new.parents.items first.now
        (length clause.now.body) clause.now.body }
{
    let body = clause.body.as_slice();
    for i in 0..body.len() {
        evaluate_if_builtin(links, p, first, &body[i]);
    }
}

/// Links the positions of a clause that share a variable, and those of evaluated variables to numbers, where no
/// variable has a first position yet.
fn link_variables(links: &mut Links, p: &Program, first: &mut [Option<usize>], clause: &Clause)
    requires clause { IsClause p.now.preds clause.now }
    requires sound { IsProgram p.now }
    requires count { length links.old.parents.items ≡ length p.now.preds * 12 + 1 }
    requires falling { AreFalling links.old.parents.items }
    requires variables { length first.old ≡ clause.now.vars }
    requires none { (x n : ℕ) → slice_get first.old x ≡ Some (Some n) → ⊥ }
    ensures links { LinksMore (ClausePairs p.now.arithmetic clause.now)
        links.old.parents.items links.new.parents.items }
    ensures closed { HasLinks p.now.arithmetic clause.now links.new.parents.items }
{
    meet_clause(links, first, clause);
    evaluate_clause(links, p, first, clause);
}

/// No first position for each of so many variables.
fn no_firsts(alloc: Global, vars: u32) -> Result<Vec<Option<usize>>, AllocError>
    ensures { IfOk result (λ first. first.items ≡ replicate vars None) }
{
    let mut first = Vec::new(alloc);
    for _i in 0..vars {
        first.push(None)?;
    }
    Ok(first)
}

/// Links the positions of a clause that share a variable, and those of evaluated variables to numbers.
fn link_clause(
    alloc: Global,
    links: &mut Links,
    p: &Program,
    clause: &Clause,
) -> Result<(), AllocError>
    requires clause { IsClause p.now.preds clause.now }
    requires sound { IsProgram p.now }
    requires count { length links.old.parents.items ≡ length p.now.preds * 12 + 1 }
    requires falling { AreFalling links.old.parents.items }
    ensures links { OnOk result (LinksMore (ClausePairs p.now.arithmetic clause.now)
        links.old.parents.items links.new.parents.items) }
    ensures closed { OnOk result (HasLinks p.now.arithmetic clause.now links.new.parents.items) }
{
    let mut first = no_firsts(alloc, clause.vars)?;
    link_variables(links, p, &mut first, clause);
    Ok(())
}

/// Links the two positions of a predicate to numbers, if it is built in.
fn link_if_builtin(links: &mut Links, p: &Program, pred: PredId)
    requires known { pred.0 < length p.now.preds }
    requires count { length links.old.parents.items ≡ length p.now.preds * 12 + 1 }
    requires falling { AreFalling links.old.parents.items }
    ensures links { LinksMore (BuiltinPairs p.now.arithmetic)
        links.old.parents.items links.new.parents.items }
    ensures closed { (kind : Builtin) → kind_of p.now.arithmetic pred.0 ≡ Some kind → (i : ℕ) → i < 2
        → AreLinked links.new.parents.items numbers_node (node_of pred.0 i) }
{
    match p.builtin(pred) {
        Some(_) => {
            links.link(NUMBERS, node_of(pred, 0));
            links.link(NUMBERS, node_of(pred, 1));
        }
        None => {}
    }
}

/// Links the positions of all built-in predicates to numbers.
pub(crate) fn link_builtins(links: &mut Links, p: &Program)
    requires count { length links.old.parents.items ≡ length p.now.preds * 12 + 1 }
    requires falling { AreFalling links.old.parents.items }
    ensures links { LinksMore (BuiltinPairs p.now.arithmetic)
        links.old.parents.items links.new.parents.items }
    ensures closed { BuiltinsLinked p.now.arithmetic links.new.parents.items (length p.now.preds) }
{
    for q in 0..p.preds() {
        link_if_builtin(links, p, PredId(q));
    }
}

/// Links the positions that share a variable in a clause, and those of evaluated variables to numbers.
pub(crate) fn link_clauses(alloc: Global, links: &mut Links, p: &Program) -> Result<(), AllocError>
    requires count { length links.old.parents.items ≡ length p.now.preds * 12 + 1 }
    requires falling { AreFalling links.old.parents.items }
    ensures links { OnOk result (LinksMore (ProgramPairs p.now) links.old.parents.items links.new.parents.items) }
    ensures closed { OnOk result (ClausesLinked p.now links.new.parents.items (length p.now.clauses)) }
{
    for k in 0..p.clauses() {
        link_clause(alloc, links, p, p.clause(k + 1))?;
    }
    Ok(())
}
