//! Goals that are not read.

use crate::goal_look::GoalLook;
use mistake_sentences::{GoalMistake, Mistake, QueryMistake};
use prolog_tokens::TokenKind;
use token_search::value_of;

/// Goals with arguments that are not read, by name.
const CALLS: [(&str, GoalMistake); 50] = [
    ("findall", GoalMistake::AllSolutions),
    ("bagof", GoalMistake::AllSolutions),
    ("setof", GoalMistake::AllSolutions),
    ("call", GoalMistake::Call),
    ("once", GoalMistake::Call),
    ("asserta", GoalMistake::Assert),
    ("assertz", GoalMistake::Assert),
    ("retract", GoalMistake::Assert),
    ("abolish", GoalMistake::Assert),
    ("var", GoalMistake::Test),
    ("nonvar", GoalMistake::Test),
    ("atom", GoalMistake::Test),
    ("integer", GoalMistake::Test),
    ("float", GoalMistake::Test),
    ("number", GoalMistake::Test),
    ("atomic", GoalMistake::Test),
    ("compound", GoalMistake::Test),
    ("op", GoalMistake::Test),
    ("set_prolog_flag", GoalMistake::Test),
    ("close", GoalMistake::Test),
    ("write", GoalMistake::Output),
    ("writeq", GoalMistake::Output),
    ("write_canonical", GoalMistake::Output),
    ("write_term", GoalMistake::Output),
    ("nl", GoalMistake::Output),
    ("put_char", GoalMistake::Output),
    ("catch", GoalMistake::Catch),
    ("throw", GoalMistake::Exit),
    ("halt", GoalMistake::Exit),
    ("unify_with_occurs_check", GoalMistake::Unify),
    ("functor", GoalMistake::Unknown),
    ("arg", GoalMistake::Unknown),
    ("copy_term", GoalMistake::Unknown),
    ("=..", GoalMistake::Unknown),
    ("clause", GoalMistake::Unknown),
    ("current_predicate", GoalMistake::Unknown),
    ("current_op", GoalMistake::Unknown),
    ("current_prolog_flag", GoalMistake::Unknown),
    ("open", GoalMistake::Unknown),
    ("read", GoalMistake::Unknown),
    ("read_term", GoalMistake::Unknown),
    ("get_char", GoalMistake::Unknown),
    ("atom_length", GoalMistake::Unknown),
    ("atom_concat", GoalMistake::Unknown),
    ("sub_atom", GoalMistake::Unknown),
    ("atom_chars", GoalMistake::Unknown),
    ("atom_codes", GoalMistake::Unknown),
    ("char_code", GoalMistake::Unknown),
    ("number_chars", GoalMistake::Unknown),
    ("number_codes", GoalMistake::Unknown),
];

/// Goals without arguments that are not read, by name.
const ATOMS: [(&str, GoalMistake); 4] = [
    ("!", GoalMistake::Cut),
    ("nl", GoalMistake::Output),
    ("halt", GoalMistake::Exit),
    ("repeat", GoalMistake::Repeat),
];

/// What a goal that begins with this name shows.
fn named_mistake(name: &[u8], has_arguments: bool) -> Option<GoalMistake> {
    if name == b"\\+".as_slice() {
        Some(GoalMistake::Negation)
    } else if has_arguments {
        value_of(&CALLS, name)
    } else {
        value_of(&ATOMS, name)
    }
}

/// What a goal shows by its first token.
fn first_mistake(look: &GoalLook<'_>) -> Option<GoalMistake> {
    let first = look.first?;
    match first.kind {
        TokenKind::Var if look.is_alone() => Some(GoalMistake::Variable),
        TokenKind::Int(_) if look.is_alone() => Some(GoalMistake::Number),
        TokenKind::Name => named_mistake(first.text, look.has_arguments()),
        _ => None,
    }
}

/// What a goal of a clause shows.
fn clause_mistake(look: &GoalLook<'_>) -> Option<GoalMistake> {
    if look.has_arrow {
        Some(GoalMistake::IfThenElse)
    } else if look.has_test {
        Some(GoalMistake::Test)
    } else if look.has_univ {
        Some(GoalMistake::Unknown)
    } else {
        first_mistake(look)
    }
}

/// What a goal of a query shows by its first token, which cannot have branches in place of it.
fn named_in_query(mistake: GoalMistake) -> Mistake<'static> {
    match mistake {
        GoalMistake::Variable | GoalMistake::Number | GoalMistake::Call | GoalMistake::Unify => {
            Mistake::Goal(mistake)
        }
        GoalMistake::Catch => Mistake::Goal(GoalMistake::Call),
        GoalMistake::Negation | GoalMistake::AllSolutions => {
            Mistake::Query(QueryMistake::GoalAlone)
        }
        _ => Mistake::Query(QueryMistake::Goal),
    }
}

/// What a goal of a query shows outside its first token.
fn joined_in_query(look: &GoalLook<'_>) -> Option<QueryMistake> {
    if look.begins_with_prompt() {
        Some(QueryMistake::Prompt)
    } else if look.has_neck {
        Some(QueryMistake::Clause)
    } else if look.has_arrow || look.has_branch {
        Some(QueryMistake::Branches)
    } else if look.has_test || look.has_univ {
        Some(QueryMistake::Goal)
    } else {
        None
    }
}

/// What a goal of a query shows.
fn query_mistake<'a>(look: &GoalLook<'_>) -> Option<Mistake<'a>> {
    match joined_in_query(look) {
        Some(mistake) => Some(Mistake::Query(mistake)),
        None => first_mistake(look).map(named_in_query),
    }
}

/// What the goal at a place of a text shows, which is not one of a pure program.
pub fn goal_mistake<'a>(text: &[u8], at: usize, is_query: bool) -> Option<Mistake<'a>> {
    let look = GoalLook::of(text, at);
    if look.has_grammar_arrow {
        return Some(Mistake::Goal(GoalMistake::GrammarRule));
    }
    if is_query {
        return query_mistake(&look);
    }
    Some(Mistake::Goal(clause_mistake(&look)?))
}
