//! What the term of a clause is.

ghost use Rattle.std.specs.Prelude.{◌≡◌, ◌≤◌, ◌∷◌, [], ℕ, IsTrue, IfNone, length, option_map};
ghost use Rattle.prolog_terms.specs.Clauses.{is_below, is_known};
ghost use Rattle.prolog_terms.specs.Terms.{tree_of};
ghost use Rattle.clause_normal.specs.DefiniteViews.{IsParted};
ghost use Rattle.clause_normal.specs.FormViews.{IsForm, FormIsFit, IsHead};
ghost use Rattle.clause_normal.specs.NormalForm.{is_silent_goal, named_head_fault};

use crate::fault::NormKind;
use crate::part::sides;
use crate::rule::{Call, Functor};
use crate::words::{Neck, is_reserved, is_silent, neck_of, text_of};
use clause_variables::Args;
use cti_terms::{MOST_ARGUMENTS, Names};
use prolog_reader::{ReadShape, ReadTerm};

/// What the term of a clause is.
#[derive(Drop)]
pub(crate) enum Form<'a> {
    /// A directive that asks for nothing here.
    Skipped,
    /// What is not a clause.
    Refused(NormKind),
    /// A head alone.
    Fact(&'a ReadTerm),
    /// A head with a body.
    Rule(&'a ReadTerm, &'a ReadTerm),
}

/// Whether a directive with this goal is skipped: it only declares operators, or that clauses of a predicate stand
/// apart.
pub fn is_silent_goal(names: &Names, term: &ReadTerm) -> bool
    requires { IsTrue (is_known (length names.now) (tree_of term.now)) }
    ensures { result ≡ is_silent_goal names.now (tree_of term.now) }
{
    match &term.shape {
        ReadShape::Var(_) | ReadShape::Int(_) => false,
        ReadShape::Fun(name, args) => is_silent(text_of(names, *name), args.len()),
    }
}

/// The argument of a term with one.
fn only(args: &[ReadTerm]) -> &ReadTerm
    requires { length args.now ≡ 1 }
    ensures { args.now ≡ result.now ∷ [] }
{
    &args[0]
}

/// What the term of a clause is.
pub(crate) fn form_of<'a>(names: &Names, term: &'a ReadTerm) -> Form<'a>
    requires { IsTrue (is_known (length names.now) (tree_of term.now)) }
    ensures form { IsForm names.now term.now result }
    ensures parted { IsParted names.now term.now result }
    ensures fit { (vars : ℕ) → IsTrue (is_below vars (tree_of term.now))
        → FormIsFit (length names.now) vars result }
{
    match &term.shape {
        ReadShape::Var(_) | ReadShape::Int(_) => Form::Fact(term),
        ReadShape::Fun(name, args) => match neck_of(text_of(names, *name), args.len()) {
            Neck::Directive => {
                let goal = only(args);
                if is_silent_goal(names, goal) {
                    Form::Skipped
                } else {
                    Form::Refused(NormKind::Directive)
                }
            }
            Neck::Query => Form::Refused(NormKind::Directive),
            Neck::Implies => {
                let (head, body) = sides(args);
                Form::Rule(head, body)
            }
            Neck::Grammar => Form::Refused(NormKind::NotPure),
            Neck::Fact => Form::Fact(term),
        },
    }
}

/// What is wrong with a head whose name has this text and the given number of arguments.
fn head_kind(text: &[u8], arity: usize) -> Option<NormKind>
    ensures fault { (at : ℕ) → named_head_fault text.now arity at ≡ option_map
        (λ k. (k, at)) result }
    ensures few { IfNone result (arity ≤ 12) }
{
    if is_reserved(text, arity) {
        Some(NormKind::BadHead)
    } else if arity > MOST_ARGUMENTS as usize {
        Some(NormKind::Arity)
    } else {
        None
    }
}

/// The head of a clause, or what is wrong with it.
pub(crate) fn head_of<'a>(names: &Names, term: &'a ReadTerm) -> Result<Call<'a>, NormKind>
    requires { IsTrue (is_known (length names.now) (tree_of term.now)) }
    ensures { IsHead names.now term.now result }
{
    match &term.shape {
        ReadShape::Var(_) | ReadShape::Int(_) => Err(NormKind::BadHead),
        ReadShape::Fun(name, args) => {
            match head_kind(text_of(names, *name), args.len()) {
                Some(kind) => Err(kind),
                None => Ok(Call {
                    functor: Functor::Named(*name),
                    args: Args::Terms(args),
                }),
            }
        }
    }
}
