//! Texts and queries, and what is wrong with them.

use cti_terms::Names;
use prolog_reader::{OpFault, OpKind, Ops, ReadFault, ReadKind, read_query, read_text};
use prolog_tokens::LexKind;
use std::alloc::{AllocError, Global};
use std::test::Fail;

/// What is wrong with a text.
fn refusal(alloc: Global, text: &str) -> Option<ReadFault> {
    let mut names = Names::new(alloc);
    read_text(alloc, text.as_bytes(), &mut names).err()
}

/// What is wrong with a query, by the standard operators.
fn query_refusal(alloc: Global, text: &str) -> Option<ReadFault> {
    let mut names = Names::new(alloc);
    match Ops::standard(alloc, &mut names) {
        Ok(ops) => read_query(alloc, text.as_bytes(), &mut names, &ops).err(),
        Err(_) => Some(ReadFault::Memory),
    }
}

/// Whether a fault has this kind and place; it is none where these are.
fn is_fault(found: Option<ReadFault>, want: Option<(ReadKind, u32)>) -> bool {
    match found {
        Some(ReadFault::Fault { kind, at }) => want == Some((kind, at)),
        Some(ReadFault::Memory) => false,
        None => want.is_none(),
    }
}

/// A text with a number of copies of one part between two others.
pub fn repeated(
    alloc: Global,
    before: &str,
    part: &str,
    count: u32,
    after: &str,
) -> Result<String, AllocError> {
    let mut text = String::new(alloc);
    text.push_str(before)?;
    for _ in 0..count {
        text.push_str(part)?;
    }
    text.push_str(after)?;
    Ok(text)
}

/// Texts that are read.
const READ: [&str; 20] = [
    "",
    " % nothing\n",
    "app([],L,L).\napp([H|T],L,[H|R]) :- app(T,L,R).",
    "p(-1,- 1,-(1),0'a,0x1F,\"ab\").",
    ":- op(700,xfx,===).\nX === X.",
    ":- op(a,b).",
    ":-(op(700,xfx,===)). X === X.",
    "(:- op(700,xfx,[===,'=/='])). X === X. a =/= b.",
    ":- op(200,xfy,[]).",
    ":- op(200,xfy,\"\").",
    "p([ ],{ },[](a),{}(b),{c,d}).",
    "p(+,-,*,(:-),[-]).",
    ":- .",
    "?-(a,b).",
    "- (1).",
    "- - .",
    "a - -1. a -1. a- 1.",
    "p('a\\\nb').",
    "a --> b.",
    "\\+ a, b ; c -> d.",
];

#[test]
fn texts_are_read(rt: HostRuntime) {
    for text in &READ {
        assert!(rt; refusal(rt.alloc(), text).is_none(), "{text}");
    }
}

/// Texts with a token that is not expected, and its places.
const UNEXPECTED: [(&str, u32); 19] = [
    ("a = b = c.", 6),
    (":- :- --> a.", 6),
    ("f(- --> a).", 8),
    ("[a|b,c].", 4),
    ("p(a b).", 4),
    ("p :- .", 5),
    ("p(,).", 2),
    ("a :- b :- c.", 7),
    ("f(:- a).", 5),
    ("a", 1),
    ("a\n", 2),
    ("p(a", 3),
    ("a. b", 4),
    ("a).", 1),
    (":- op(0,xfx,=). a = b.", 18),
    ("a === b. :- op(700,xfx,===).", 2),
    ("X(a).", 1),
    ("a b 1.5", 2),
    (". a.", 0),
];

/// Texts that have no tokens, why, and where.
const NO_TOKENS: [(&str, LexKind, u32); 6] = [
    ("p(1.5).", LexKind::Float, 2),
    ("p('ab", LexKind::Unclosed, 2),
    ("p(\u{e9}).", LexKind::BadByte, 2),
    ("p('\\q').", LexKind::BadEscape, 2),
    (
        "p(170141183460469231731687303715884105728).",
        LexKind::WideNumber,
        2,
    ),
    ("a - 1.5", LexKind::Float, 4),
];

#[test]
fn first_faults_have_their_kinds_and_places(rt: HostRuntime) {
    for (text, at) in &UNEXPECTED {
        assert!(rt;
            is_fault(refusal(rt.alloc(), text), Some((ReadKind::Unexpected, *at))),
            "{text}"
        );
    }
    for (text, kind, at) in &NO_TOKENS {
        assert!(rt;
            is_fault(refusal(rt.alloc(), text), Some((ReadKind::Lex(*kind), *at))),
            "{text}"
        );
    }
}

/// Texts that set no operator, and where.
const BAD_OPS: [(&str, u32); 11] = [
    (":- op(1201,xfx,foo).", 0),
    (":- op(-1,xfx,foo).", 0),
    (":- op(a,b,[]).", 0),
    (":- op(700,xfx,[a|b]).", 0),
    (":- op(700,xfx,[a,[]]).", 0),
    (":- op(700,xfx,',').", 0),
    (":- op(700,xfx,'|').", 0),
    (":- op(700,xfx,{}).", 0),
    (":- op(700,xfx,X).", 0),
    (":- op(700,xfx,f(a)).", 0),
    ("a. (:- op(700,yfy,b)).", 3),
];

#[test]
fn op_clauses_are_refused_where_they_set_nothing(rt: HostRuntime) {
    for (text, at) in &BAD_OPS {
        assert!(rt;
            is_fault(refusal(rt.alloc(), text), Some((ReadKind::BadOp, *at))),
            "{text}"
        );
    }
}

/// What is wrong with a text with a number of copies of one part between two others.
fn refusal_of_copies(
    alloc: Global,
    before: &str,
    part: &str,
    count: u32,
    after: &str,
) -> Option<ReadFault> {
    match repeated(alloc, before, part, count, after) {
        Ok(text) => refusal(alloc, &text),
        Err(_) => Some(ReadFault::Memory),
    }
}

/// Texts with a number of copies of one part between two others, and their faults.
const COPIES: [(&str, &str, u32, &str, Option<(ReadKind, u32)>); 12] = [
    ("", "(", 1_001, "", Some((ReadKind::Unexpected, 1_001))),
    ("", "(", 1_002, "", Some((ReadKind::Deep, 1_001))),
    ("p([a", ",a", 998, "]).", None),
    ("p([a", ",a", 999, "]).", Some((ReadKind::Deep, 2_001))),
    ("a", "+a", 999, ".", None),
    ("a", "+a", 1_000, ".", Some((ReadKind::Deep, 1_999))),
    ("", "- ", 1_000, "a.", None),
    ("", "- ", 1_001, "a.", Some((ReadKind::Deep, 2_002))),
    ("\"", "a", 1_000, "\".", None),
    ("\"", "a", 1_001, "\".", Some((ReadKind::Deep, 0))),
    ("", " ", 1_048_576, "", None),
    ("", " ", 1_048_577, "", Some((ReadKind::Long, 0))),
];

#[test]
fn deep_and_long_texts_are_refused(rt: HostRuntime) {
    for (before, part, count, after, found) in &COPIES {
        assert!(rt;
            is_fault(
                refusal_of_copies(rt.alloc(), before, part, *count, after),
                *found
            ),
            "{before}{part}{after} {count}"
        );
    }
}

/// Queries, and their faults.
const QUERIES: [(&str, Option<(ReadKind, u32)>); 9] = [
    ("app(X,Y,[a])", None),
    ("app(X,Y,[a]).", None),
    ("-", None),
    ("app(X", Some((ReadKind::Unexpected, 5))),
    ("", Some((ReadKind::Unexpected, 0))),
    ("a. b", Some((ReadKind::Unexpected, 3))),
    ("a. 'b", Some((ReadKind::Lex(LexKind::Unclosed), 3))),
    ("a 'b", Some((ReadKind::Lex(LexKind::Unclosed), 2))),
    (":- op(1201,xfx,foo)", None),
];

#[test]
fn queries_are_read_with_an_optional_end(rt: HostRuntime) {
    for (text, found) in &QUERIES {
        assert!(rt; is_fault(query_refusal(rt.alloc(), text), *found), "{text}");
    }
}

/// What is wrong with an operator of that name.
fn setting(alloc: Global, priority: i128, name: &str) -> Option<OpFault> {
    let mut names = Names::new(alloc);
    let mut ops = match Ops::standard(alloc, &mut names) {
        Ok(ops) => ops,
        Err(_) => return Some(OpFault::Memory),
    };
    match names.intern(name.as_bytes()) {
        Ok(name) => ops.set(priority, OpKind::Xfx, name, &names).err(),
        Err(_) => Some(OpFault::Memory),
    }
}

/// Priorities and names of operators, and why they are not set.
const OPERATORS: [(i128, &str, Option<OpFault>); 7] = [
    (700, "===", None),
    (0, "=", None),
    (1200, "a", None),
    (1201, ",", Some(OpFault::BadPriority)),
    (-1, "a", Some(OpFault::BadPriority)),
    (0, "[]", Some(OpFault::BadName)),
    (700, "|", Some(OpFault::BadName)),
];

#[test]
fn operators_are_set(rt: HostRuntime) {
    for (priority, name, found) in &OPERATORS {
        assert!(rt; setting(rt.alloc(), *priority, name) == *found, "{name}");
    }
}
