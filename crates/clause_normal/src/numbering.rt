//! Clauses as clauses of a program: predicates and variables get their numbers.

ghost use Rattle.std.specs.Prelude.{◌≡◌, ◌<◌, ◌≤◌, ◌+◌, ◌-◌, ◌^◌, ◌++◌, ◌∷◌, ℕ, List, Some, None, length, map, slice_get, sum_by, IfOk, OnOk, OnErr, IsSomeAnd};
ghost use Rattle.std.specs.List.{AllByRecursion, position_or_len};
ghost use Rattle.cti_terms.specs.Listing.{is_pred, with_pred, atom_nodes};
ghost use Rattle.cti_terms.specs.declared.predicates.Pred.{Pred as ThePred};
ghost use Rattle.prolog_reader.specs.Names.{Extends, name_text};
ghost use Rattle.prolog_reader.specs.Naming.{with_names};
ghost use Rattle.clause_normal.specs.ChoiceNames.{functor_texts, call_texts};
ghost use Rattle.clause_normal.specs.Numbering.{name_number, pred_of, kind_of_pred, arithmetic_of, atom_after, atoms_after, with_calls, call_variables, with_rule, HasArity};
ghost use Rattle.clause_normal.specs.Kinds.{functor_text, with_kind, IsOrdinaryCall, HasOrdinary};
ghost use Rattle.clause_variables.specs.TermViews.{args_of};
ghost use Rattle.clause_normal.specs.RuleViews.{functor_of, call_of, rule_of, IsNamed, RuleIsNamed, CallIsFit, FunctorIsFit, RuleIsFit};
ghost use Rattle.clause_normal.specs.declared.rule.Call.{Call as TheCall};
ghost use Rattle.clause_variables.specs.Terms.{list_variables};

use crate::rule::{Call, Functor, Rule};
use crate::words::{builtin_of, text_of};
use clause_variables::{Args, add_variables, copied_args, firsts};
use cti_terms::{
    Atom, Atoms, Builtin, Clause, MOST_ATOMS, MOST_CLAUSES, MOST_NODES, MOST_VARIABLES, Name,
    Names, PredId, Program,
};
use std::alloc::{AllocError, Global};

/// The name of what is called. More names than have numbers do not fit into memory.
fn functor_name(alloc: Global, names: &mut Names, functor: Functor) -> Result<Name, AllocError>
    ensures kept { Extends names.old names.new }
    ensures number { IfOk result (λ n. (later : List (List ℕ)) → Extends names.new later
        → name_number later (functor_of functor) ≡ n.0) }
    ensures known { IfOk result (λ n. FunctorIsFit (length names.old) functor
        → n.0 < length names.new) }
    ensures text { IfOk result (λ n. FunctorIsFit (length names.old) functor
        → name_text names.new n.0 ≡ functor_text names.old (functor_of functor)) }
    ensures named { IsNamed functor → names.new ≡ names.old }
    ensures added { OnOk result
        (names.new ≡ with_names names.old (functor_texts (functor_of functor))) }
{
    match functor {
        Functor::Named(name) => Ok(name),
        Functor::Chosen(number) => {
            if names.count() == u32::MAX {
                return Err(AllocError);
            }
            let text = format!(in alloc; "$or{number}")?;
            let name = names.intern(text.as_bytes())?;
            Ok(name)
        }
    }
}

/// The predicate of a name with two arguments, which is in the program then, built in with this kind.
fn add_builtin(program: &mut Program, name: Name, kind: Builtin) -> Result<PredId, AllocError>
    requires room { length program.old.preds < 2 ^ 32 - 1 }
    ensures number { IfOk result (λ p. p.0 ≡ position_or_len (is_pred name.0 2) program.old.preds) }
    ensures preds { OnOk result
        (program.new.preds ≡ with_pred program.old.preds (record { name = name; arity = 2 })) }
    ensures found { IfOk result
        (λ p. slice_get program.new.preds p.0 ≡ Some (record { name = name; arity = 2 })) }
    ensures clauses { program.new.clauses ≡ program.old.clauses }
    ensures arithmetic { OnOk result
        (program.new.arithmetic ≡ with_kind program.old.arithmetic program.old.preds
        (record { name = name; arity = 2 }) (Some kind)) }
    ensures err { OnErr result (program.new ≡ program.old) }
{
    match program.find(name, 2) {
        Some(pred) => Ok(pred),
        None => {
            let pred = program.add_builtin(name, kind)?;
            Ok(pred)
        }
    }
}

/// The predicate of a name and arity, which is in the program then, built in where they say so.
fn add_pred(
    program: &mut Program,
    names: &Names,
    name: Name,
    arity: u32,
) -> Result<PredId, AllocError>
    requires name { name.0 < length names.now }
    requires small { arity ≤ 12 }
    requires room { length program.old.preds < 2 ^ 32 - 1 }
    ensures number { IfOk result
        (λ p. p.0 ≡ position_or_len (is_pred name.0 arity) program.old.preds) }
    ensures preds { OnOk result
        (program.new.preds ≡ with_pred program.old.preds (record { name = name; arity = arity })) }
    ensures found { IfOk result
        (λ p. slice_get program.new.preds p.0 ≡ Some (record { name = name; arity = arity })) }
    ensures clauses { program.new.clauses ≡ program.old.clauses }
    ensures arithmetic { OnOk result
        (program.new.arithmetic ≡ with_kind program.old.arithmetic program.old.preds
        (record { name = name; arity = arity })
        (kind_of_pred names.now (record { name = name; arity = arity }))) }
    ensures err { OnErr result (program.new ≡ program.old) }
{
    match builtin_of(text_of(names, name), arity as usize) {
        Some(kind) => add_builtin(program, name, kind),
        None => program.add_pred(name, arity),
    }
}

/// How many arguments there are.
fn arity_of(args: &Args) -> usize
    ensures { result ≡ length (args_of args.now) }
{
    match args {
        Args::Terms(terms) => terms.len(),
        Args::Variables(variables) => variables.len(),
    }
}

/// The atom of a call, whose predicate is in the program then. More predicates than have numbers do not fit into
/// memory.
fn add_atom(
    alloc: Global,
    program: &mut Program,
    names: &mut Names,
    call: &Call,
    order: &[u32],
    left: &mut u32,
) -> Result<Atom, AllocError>
    requires order { length order.now ≤ 48 }
    requires fit { CallIsFit (length names.old) call.now }
    ensures kept { Extends names.old names.new }
    ensures atom { IfOk result (λ a. (later : List (List ℕ)) → Extends names.new later
        → a ≡ atom_after later order.now program.old.preds (call_of call.now)) }
    ensures preds { OnOk result ((later : List (List ℕ)) → Extends names.new later
        → program.new.preds ≡ with_pred program.old.preds (pred_of later (call_of call.now))) }
    ensures clauses { program.new.clauses ≡ program.old.clauses }
    ensures arithmetic { (later : List (List ℕ)) → Extends names.new later
        → program.old.arithmetic ≡ arithmetic_of later program.old.preds
        → program.new.arithmetic ≡ arithmetic_of later program.new.preds }
    ensures nodes { IfOk result (λ a. left.old ≡ left.new + atom_nodes a) }

    // Earlier predicates keep their places, and the atom has as many arguments as its predicate.
    ensures still { (i : ℕ) → i < length program.old.preds
        → slice_get program.new.preds i ≡ slice_get program.old.preds i }
    ensures more { length program.old.preds ≤ length program.new.preds }
    ensures arity { IfOk result (HasArity program.new.preds) }
    ensures ordinary { IfOk result (λ a. IsOrdinaryCall names.old (call_of call.now)
        → HasOrdinary names.new program.new.preds a) }
    ensures known { AllByRecursion (λ (p : ThePred). p.name.0 < length names.old) program.old.preds
        → AllByRecursion (λ (p : ThePred). p.name.0 < length names.new) program.new.preds }
    ensures named { IsNamed call.now.functor → names.new ≡ names.old }
    ensures added { OnOk result
        (names.new ≡ with_names names.old (functor_texts (call_of call.now).functor)) }
{
    let name = functor_name(alloc, names, call.functor)?;
    if program.preds() == u32::MAX {
        return Err(AllocError);
    }
    let pred = add_pred(program, names, name, arity_of(&call.args) as u32)?;
    let args = copied_args(alloc, &call.args, order, left)?;
    Ok(Atom { pred, args })
}

/// Adds the variables of arguments from left to right, with repetitions.
#[tactic(auto, using(crate::proofs::NumberingLemmas::variables_of_variables))]
pub(crate) fn add_arg_variables(
    alloc: Global,
    variables: &mut Vec<u32>,
    args: &Args,
) -> Result<(), AllocError>
    ensures { OnOk result (variables.new.items ≡ variables.old.items ++ list_variables
        (args_of args.now)) }
{
    match args {
        Args::Terms(terms) => {
            add_variables(alloc, variables, terms)?;
            Ok(())
        }
        Args::Variables(more) => {
            variables.extend_from_slice(more)?;
            Ok(())
        }
    }
}

/// The variables of a clause from left to right, with repetitions.
fn rule_variables(alloc: Global, rule: &Rule) -> Result<Vec<u32>, AllocError>
    ensures { IfOk result (λ v. v.items
        ≡ call_variables ((rule_of rule.now).head ∷ (rule_of rule.now).body)) }
{
    let mut variables = Vec::new(alloc);
    add_arg_variables(alloc, &mut variables, &rule.head.args)?;
    'calls: for call in &rule.body {
        add_arg_variables(alloc, &mut variables, &call.args)?;
    }
    Ok(variables)
}

/// The atoms of calls, whose predicates are in the program then.
pub(crate) fn add_atoms(
    alloc: Global,
    program: &mut Program,
    names: &mut Names,
    calls: &[Call],
    order: &[u32],
    left: &mut u32,
) -> Result<Atoms, AllocError>
    requires order { length order.now ≤ 48 }
    requires fit { AllByRecursion (CallIsFit (length names.old)) calls.now }
    ensures kept { Extends names.old names.new }
    ensures atoms { IfOk result (λ xs. (later : List (List ℕ)) → Extends names.new later
        → xs ≡ atoms_after later order.now program.old.preds (map call_of calls.now)) }
    ensures preds { OnOk result ((later : List (List ℕ)) → Extends names.new later
        → program.new.preds ≡ with_calls later program.old.preds (map call_of calls.now)) }
    ensures clauses { program.new.clauses ≡ program.old.clauses }
    ensures arithmetic { (later : List (List ℕ)) → Extends names.new later
        → program.old.arithmetic ≡ arithmetic_of later program.old.preds
        → program.new.arithmetic ≡ arithmetic_of later program.new.preds }
    ensures nodes { IfOk result (λ xs. left.old ≡ left.new + sum_by atom_nodes xs) }
    ensures count { IfOk result (λ xs. length xs ≡ length calls.now) }

    // Earlier predicates keep their places, and atoms have as many arguments as their predicates.
    ensures more { length program.old.preds ≤ length program.new.preds }
    ensures still { (i : ℕ) → i < length program.old.preds
        → slice_get program.new.preds i ≡ slice_get program.old.preds i }
    ensures arity { IfOk result (λ xs. AllByRecursion (HasArity program.new.preds) xs) }
    ensures known { AllByRecursion (λ (p : ThePred). p.name.0 < length names.old) program.old.preds
        → AllByRecursion (λ (p : ThePred). p.name.0 < length names.new) program.new.preds }
    ensures named { AllByRecursion (λ (c : TheCall). IsNamed c.functor) calls.now
        → names.new ≡ names.old }
    ensures added { OnOk result
        (names.new ≡ with_names names.old (call_texts (map call_of calls.now))) }
{
    let mut atoms = Atoms::new(alloc);
    'calls: for call in calls {
        let atom = add_atom(alloc, program, names, call, order, left)?;
        atoms.push(atom)?;
    }
    Ok(atoms)
}

/// Adds a clause to a program. More than its clauses hold does not fit into memory.
pub(crate) fn add_rule(
    alloc: Global,
    program: &mut Program,
    names: &mut Names,
    rule: &Rule,
) -> Result<(), AllocError>
    requires room { length program.old.clauses < MOST_CLAUSES }
    requires fit { RuleIsFit (length names.old) rule.now }
    requires arithmetic { (later : List (List ℕ)) → Extends names.old later
        → program.old.arithmetic ≡ arithmetic_of later program.old.preds }
    requires ordinary { IsOrdinaryCall names.old (call_of rule.now.head) }
    ensures kept { Extends names.old names.new }
    ensures arithmetic { OnOk result ((later : List (List ℕ)) → Extends names.new later
        → program.new.arithmetic ≡ arithmetic_of later program.new.preds) }
    ensures count { OnOk result (length program.new.clauses ≡ length program.old.clauses + 1) }
    ensures program { OnOk result ((later : List (List ℕ)) → Extends names.new later
        → program.new ≡ with_rule later program.old (rule_of rule.now)) }
    ensures added { OnOk result
        (names.new ≡ with_names names.old
        (call_texts ((rule_of rule.now).head ∷ (rule_of rule.now).body))) }
    ensures named { RuleIsNamed rule.now → names.new ≡ names.old }
    ensures known { OnOk result
        (AllByRecursion (λ (p : ThePred). p.name.0 < length names.old) program.old.preds
        → AllByRecursion (λ (p : ThePred). p.name.0 < length names.new) program.new.preds) }
{
    let variables = rule_variables(alloc, rule)?;
    let Some(order) = firsts(alloc, &variables, MOST_VARIABLES as usize)? else {
        return Err(AllocError);
    };
    if rule.body.len() > MOST_ATOMS as usize {
        return Err(AllocError);
    }
    let mut left = MOST_NODES;
    let head = add_atom(alloc, program, names, &rule.head, &order, &mut left)?;
    let body = add_atoms(alloc, program, names, &rule.body, &order, &mut left)?;
    program.add_clause(Clause {
        head,
        body,
        vars: order.len() as u32,
    })?;
    Ok(())
}
