//! What a term is in a clause's body.

ghost use Rattle.std.specs.Prelude.{◌≡◌, ◌<◌, ℕ, IsTrue, [], ◌∷◌, length, map};
ghost use Rattle.prolog_terms.specs.Clauses.{is_known};
ghost use Rattle.prolog_terms.specs.Terms.{tree_of};
ghost use Rattle.clause_normal.specs.Bodies.{atom_goal, named_goal};
ghost use Rattle.clause_variables.specs.TermViews.{plain_of};
ghost use Rattle.clause_normal.specs.Views.{item_goal, IsPart, IsQueryPart, ItemIsFit, PartHasOwn, PartIsFit, PartIsSmaller};

use crate::fault::NormKind;
use crate::words::{Connective, connective_of, is_choice_name, is_impure, text_of};
use cti_terms::{MOST_ARGUMENTS, Name, Names};
use prolog_reader::{ReadShape, ReadTerm};

/// A goal of a body that is not a disjunction.
#[derive(Clone, Copy)]
pub(crate) enum Item<'a> {
    /// A call of a name with these arguments.
    Call(Name, &'a [ReadTerm]),
    /// What may not stand there, with its place.
    Bad(NormKind, u32),
}

/// What a term is in a body.
#[derive(Clone, Copy)]
pub(crate) enum Part<'a> {
    /// A conjunction of two bodies.
    Both(&'a ReadTerm, &'a ReadTerm),
    /// A disjunction of two bodies.
    Either(&'a ReadTerm, &'a ReadTerm),
    /// The goal `true`.
    Nothing,
    /// Another goal.
    Goal(Item<'a>),
}

/// The call of a name with this text as a goal.
fn named_item<'a>(text: &[u8], name: Name, args: &'a [ReadTerm], at: u32) -> Item<'a>
    ensures goal { item_goal result ≡ named_goal text.now name.0 (map plain_of args.now) at }
    ensures fit { (names : ℕ) → name.0 < names → ItemIsFit names result }
{
    if is_impure(text, args.len()) || is_choice_name(text) {
        Item::Bad(NormKind::NotPure, at)
    } else if args.len() > MOST_ARGUMENTS as usize {
        Item::Bad(NormKind::Arity, at)
    } else {
        Item::Call(name, args)
    }
}

/// An atom as a goal.
pub(crate) fn atom_item<'a>(names: &Names, term: &'a ReadTerm) -> Item<'a>
    requires { IsTrue (is_known (length names.now) (tree_of term.now)) }
    ensures goal { item_goal result ≡ atom_goal names.now (tree_of term.now) }
    ensures fit { ItemIsFit (length names.now) result }
{
    match &term.shape {
        ReadShape::Fun(name, args) => named_item(text_of(names, *name), *name, args, term.at),
        _ => Item::Bad(NormKind::NotPure, term.at),
    }
}

/// The two sides of a term with two arguments.
pub(crate) fn sides(args: &[ReadTerm]) -> (&ReadTerm, &ReadTerm)
    requires { length args.now ≡ 2 }
    ensures { args.now ≡ result.0.now ∷ result.1.now ∷ [] }
{
    (&args[0], &args[1])
}

/// What a term is in a body.
pub(crate) fn part_of<'a>(names: &Names, term: &'a ReadTerm) -> Part<'a>
    requires { IsTrue (is_known (length names.now) (tree_of term.now)) }
    ensures part { IsPart names.now term.now result }
    ensures query { IsQueryPart names.now term.now result }
    ensures smaller { PartIsSmaller term.now result }
    ensures own { PartHasOwn term.now result }
    ensures fit { PartIsFit (length names.now) result }
{
    match &term.shape {
        ReadShape::Var(_) | ReadShape::Int(_) => {
            Part::Goal(Item::Bad(NormKind::NotPure, term.at))
        }
        ReadShape::Fun(name, args) => match connective_of(text_of(names, *name), args.len()) {
            Connective::And => {
                let (left, right) = sides(args);
                Part::Both(left, right)
            }
            Connective::Or => {
                let (left, right) = sides(args);
                Part::Either(left, right)
            }
            Connective::Truth => Part::Nothing,
            Connective::Other => Part::Goal(atom_item(names, term)),
        },
    }
}
