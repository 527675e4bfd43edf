//! What a clause could have gone on with, as far as the text before the fault shows.

use crate::scan::Scan;
use crate::told::Subject;
use mistake_sentences::{
    ClauseMistake, GoalMistake, HeadMistake, Mistake, OperatorMistake, QueryMistake,
};
use mistakes::{gap_mistake, is_closed_later, percent_mistake, start_mistake, term_mistake};
use std::alloc::{AllocError, Global};
use std::fmt;
use token_search::{Bracket, Gap, is_symbol};

/// What was expected where a clause cannot go on.
#[derive(Clone, Copy)]
pub(crate) enum Expected<'a> {
    Mistake(Mistake<'a>),
    Term,
    EndDot,
    QueryEnd,
    Parenthesis,
    Bracket,
    Brace,
    Operator,
    NoDot,
    NoComma,
    Directive,
    TextEnd,
    EarlyEnd,
}

impl fmt::Display for Expected<'_> {
    fn fmt<W: fmt::Write>(&self, f: &mut fmt::Formatter<W>) -> fmt::Result {
        f.write_str(match self {
            Expected::Mistake(mistake) => return mistake.fmt(f),
            Expected::Term => "a term was expected here",
            Expected::EndDot => "an operator or the end dot was expected here",
            Expected::QueryEnd => "an operator or the end of the query was expected here",
            Expected::Parenthesis => "an operator, `,` or `)` was expected here",
            Expected::Bracket => "an operator, `,`, `|` or `]` was expected here",
            Expected::Brace => "an operator or `}` was expected here",
            Expected::Operator =>
                "this operator cannot follow here: put one side of it in parentheses",
            Expected::NoDot => "the clause before this line has no end dot",
            Expected::NoComma => "a comma or the end dot is missing before this line",
            Expected::Directive => "this directive is not read: leave it out",
            Expected::TextEnd =>
                "the text ends within a clause: look for a missing end dot or bracket",
            Expected::EarlyEnd => "the query ends too early: look for a missing term or bracket",
        })
    }
}

/// A place where a clause cannot go on.
#[derive(Clone, Copy)]
pub(crate) struct Stop<'a> {
    pub subject: Subject,
    /// The text, and the line and the column of the place, which count from 1.
    pub text: &'a [u8],
    pub line: u64,
    pub column: u64,
    /// The text whose directives declare operators.
    pub operators: &'a [u8],
}

/// The place of a line and a column in a text, or its end.
pub(crate) fn offset_of(text: &[u8], line: u64, column: u64) -> usize {
    let mut at_line = 1u64;
    let mut at_column = 1u64;
    for (at, byte) in text.iter().enumerate() {
        if at_line == line && at_column == column {
            return at;
        }
        if *byte == b'\n' {
            at_line = at_line.saturating_add(1);
            at_column = 1;
        } else {
            at_column = at_column.saturating_add(1);
        }
    }
    text.len()
}

/// Whether a text ends in an operator that is a word, after which a term follows.
fn ends_in_word(text: &[u8]) -> bool {
    let text = text.trim_ascii_end();
    text.ends_with(b" is") || text.ends_with(b" mod") || text.ends_with(b" rem")
}

/// The last line of a text, without the layout around it.
fn last_line(text: &[u8]) -> &[u8] {
    let line = text.rsplit(|byte| *byte == b'\n').next().unwrap_or(text);
    line.trim_ascii()
}

/// Whether only layout stands before the end of a text in its last line, and another line before it.
fn begins_line(text: &[u8]) -> bool {
    text.contains(&b'\n') && last_line(text).is_empty()
}

/// Whether a text is a word of small letters.
fn is_small_word(text: &[u8]) -> bool {
    for byte in text {
        if !byte.is_ascii_lowercase() && *byte != b'_' {
            return false;
        }
    }
    !text.is_empty()
}

/// Whether the last line of a text is a directive's word, as `:- dynamic`, which is not an operator here.
fn ends_in_directive(text: &[u8]) -> bool {
    match last_line(text).strip_prefix(b":-".as_slice()) {
        Some(word) => is_small_word(word.trim_ascii()),
        None => false,
    }
}

/// What was expected after a text without an open bracket, which ends in a whole term.
fn expected_outside<'a>(subject: Subject, before: &[u8]) -> Expected<'a> {
    if subject.is_query() {
        Expected::QueryEnd
    } else if ends_in_directive(before) {
        Expected::Directive
    } else if !begins_line(before) {
        Expected::EndDot
    } else if before.ends_with(b"\n") {
        Expected::NoDot
    } else {
        Expected::NoComma
    }
}

/// What is wrong at the end of a text.
fn end_fault<'a>(subject: Subject, before: &[u8]) -> Expected<'a> {
    match subject {
        Subject::Query if before.trim_ascii().is_empty() => {
            Expected::Mistake(Mistake::Query(QueryMistake::Empty))
        }
        Subject::Query => Expected::EarlyEnd,
        _ => match percent_mistake(before) {
            Some(mistake) => Expected::Mistake(Mistake::Operator(mistake)),
            None => Expected::TextEnd,
        },
    }
}

/// What was expected where a term begins.
fn expected_term<'a>(scan: &Scan, gap: Gap<'a>, next: u8) -> Expected<'a> {
    if next == b'!' && gap.before == b"#".as_slice() {
        return Expected::Mistake(Mistake::Clause(ClauseMistake::ScriptLine));
    }
    if !scan.last.is_operand()
        && !scan.earlier.is_operand()
        && let Some(mistake) = start_mistake(gap)
    {
        return Expected::Mistake(mistake);
    }
    match term_mistake(gap) {
        Some(mistake) => Expected::Mistake(mistake),
        None => Expected::Term,
    }
}

/// The bracket that a byte closes.
fn closed_by(byte: u8) -> Option<Bracket> {
    match byte {
        b')' => Some(Bracket::Group),
        b']' => Some(Bracket::List),
        b'}' => Some(Bracket::Braces),
        _ => None,
    }
}

/// What a closing bracket shows, where none is open or another one.
fn closer_mistake<'a>(bracket: Option<Bracket>, next: u8) -> Option<ClauseMistake<'a>> {
    let (opener, closer) = closed_by(next)?.characters();
    Some(match bracket {
        None => ClauseMistake::Closer(opener, closer),
        Some(open) => ClauseMistake::OtherCloser(open.characters().0, closer),
    })
}

/// What a second neck shows, outside brackets: the clause before may end with a comma or `;` and a line's end.
fn second_neck<'a>(scan: &Scan, gap: Gap<'a>) -> Option<Mistake<'a>> {
    if !scan.clause.has_neck {
        return None;
    }
    let mistake = match scan.clause.joint {
        b',' if scan.clause.ends_line => ClauseMistake::CommaForDot,
        b';' if scan.clause.ends_line => ClauseMistake::SemicolonForDot,
        _ if gap.after.starts_with(b":-") => ClauseMistake::SecondNeck,
        _ => return None,
    };
    Some(Mistake::Clause(mistake))
}

/// A mistake where `%` was meant for the remainder of a division in the line before a place at which a line begins.
fn percent_before<'a>(before: &[u8]) -> Option<OperatorMistake<'a>> {
    if begins_line(before) {
        percent_mistake(before)
    } else {
        None
    }
}

/// What a neck shows within a bracket.
fn inner_neck<'a>(bracket: Bracket, after: &[u8]) -> Mistake<'a> {
    if is_closed_later(after) {
        return Mistake::Operator(OperatorMistake::InTerm(":-"));
    }
    let (_, closer) = bracket.characters();
    Mistake::Clause(ClauseMistake::Unclosed(closer))
}

/// What a neck shows that cannot stand here.
fn neck_mistake<'a>(scan: &Scan, gap: Gap<'a>) -> Option<Mistake<'a>> {
    let is_neck = gap.after.starts_with(b":-");
    if !is_neck && !gap.after.starts_with(b"-->") {
        return None;
    }
    match gap.bracket {
        Some(bracket) if is_neck => Some(inner_neck(bracket, gap.after)),
        Some(_) => None,
        None => second_neck(scan, gap),
    }
}

/// What a comma, a bar or a `;` shows that cannot stand here.
fn bar_mistake<'a>(bracket: Option<Bracket>, next: u8) -> Option<Mistake<'a>> {
    match (bracket, next) {
        (Some(Bracket::List), b',' | b'|') => Some(Mistake::Clause(ClauseMistake::SecondBar)),
        (_, b'|') => Some(Mistake::Clause(ClauseMistake::BarOutside)),
        (Some(Bracket::List | Bracket::Arguments), b';') => {
            Some(Mistake::Operator(OperatorMistake::InTerm(";")))
        }
        _ => None,
    }
}

/// A mistake as it is in a query, or in a head.
fn told_there<'a>(gap: Gap<'a>, subject: Subject, mistake: Mistake<'a>) -> Mistake<'a> {
    match mistake {
        Mistake::Goal(GoalMistake::NotOperator) if subject.is_query() => {
            Mistake::Query(QueryMistake::GoalAlone)
        }
        Mistake::Goal(GoalMistake::NotOperator) if gap.is_in_head => {
            Mistake::Head(HeadMistake::Negation)
        }
        Mistake::Goal(GoalMistake::SoftCut | GoalMistake::If) if subject.is_query() => {
            Mistake::Query(QueryMistake::Branches)
        }
        _ => mistake,
    }
}

/// What a query shows as a whole: it is a file's name, or a dot ends it before the place.
fn query_mistake(gap: Gap<'_>) -> Option<QueryMistake> {
    if gap.after.ends_with(b".pl") || gap.after.ends_with(b".cert") {
        return Some(QueryMistake::FileName);
    }
    let before = gap.before.trim_ascii_end();
    if gap.bracket.is_none() && before.len() < gap.before.len() && before.ends_with(b".") {
        Some(QueryMistake::Second)
    } else {
        None
    }
}

/// The mistake that brackets, bars and necks show after a whole term.
fn joint_mistake<'a>(scan: &Scan, gap: Gap<'a>, next: u8) -> Option<Mistake<'a>> {
    if let Some(mistake) = neck_mistake(scan, gap) {
        return Some(mistake);
    }
    if let Some(mistake) = bar_mistake(gap.bracket, next) {
        return Some(mistake);
    }
    closer_mistake(gap.bracket, next).map(Mistake::Clause)
}

/// The mistake that the text shows after a whole term.
fn mistake_after<'a>(scan: &Scan, subject: Subject, gap: Gap<'a>, next: u8) -> Option<Mistake<'a>> {
    if ends_in_directive(gap.before) {
        return None;
    }
    if let Some(mistake) = percent_before(gap.before) {
        return Some(Mistake::Operator(mistake));
    }
    match gap_mistake(gap) {
        Some(mistake) => Some(told_there(gap, subject, mistake)),
        None => joint_mistake(scan, gap, next),
    }
}

/// What was expected within this bracket, after a whole term.
fn expected_inside<'a>(bracket: Bracket) -> Expected<'a> {
    match bracket {
        Bracket::Arguments | Bracket::Group => Expected::Parenthesis,
        Bracket::List => Expected::Bracket,
        Bracket::Braces => Expected::Brace,
    }
}

/// What was expected after a whole term.
fn expected_after<'a>(scan: &Scan, subject: Subject, gap: Gap<'a>, next: u8) -> Expected<'a> {
    if let Some(mistake) = mistake_after(scan, subject, gap, next) {
        return Expected::Mistake(mistake);
    }
    if is_symbol(next) && next != b'.' {
        return Expected::Operator;
    }
    match gap.bracket {
        Some(bracket) => expected_inside(bracket),
        None => expected_outside(subject, gap.before),
    }
}

/// What was expected between two parts of a text.
fn expected_between<'a>(scan: &Scan, subject: Subject, gap: Gap<'a>) -> Expected<'a> {
    let Some(next) = gap.after.first() else {
        return end_fault(subject, gap.before);
    };
    if subject.is_query()
        && let Some(mistake) = query_mistake(gap)
    {
        return Expected::Mistake(Mistake::Query(mistake));
    }
    if !scan.last.is_operand() || ends_in_word(gap.before) {
        return expected_term(scan, gap, *next);
    }
    expected_after(scan, subject, gap, *next)
}

/// What was expected at a place of a text, where a clause cannot go on.
pub(crate) fn expected_at<'a>(alloc: Global, stop: Stop<'a>) -> Result<Expected<'a>, AllocError> {
    let text = stop.text;
    let at = offset_of(text, stop.line, stop.column);
    let before = text.get(..at).unwrap_or(text);
    let mut scan = Scan::new(alloc);
    for byte in before {
        scan.take(*byte)?;
    }
    let gap = Gap {
        before,
        after: text.get(at..).unwrap_or(&[]),
        operators: stop.operators,
        is_in_head: matches!(stop.subject, Subject::Program)
            && !scan.clause.has_neck
            && scan.open.is_empty(),
        bracket: scan.open.last().copied(),
    };
    Ok(expected_between(&scan, stop.subject, gap))
}
