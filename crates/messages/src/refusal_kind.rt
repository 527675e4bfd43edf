//! The kinds of refusal.

use std::fmt;

/// What is wrong with a text that was refused.
#[derive(Clone, Copy)]
pub enum RefusalKind {
    BadByte,
    Unclosed,
    BadEscape,
    Float,
    WideNumber,
    Unexpected,
    Deep,
    Long,
    Arity,
    ManyVariables,
    NotPure,
    BadHead,
    Directive,
    BadOperator,
    ManyClauses,
    NotAFact,
    BadEdit,
}

/// The kinds of the first numbers, in their order.
const KINDS: [RefusalKind; 16] = [
    RefusalKind::BadByte,
    RefusalKind::Unclosed,
    RefusalKind::BadEscape,
    RefusalKind::Float,
    RefusalKind::WideNumber,
    RefusalKind::Unexpected,
    RefusalKind::Deep,
    RefusalKind::Long,
    RefusalKind::Arity,
    RefusalKind::ManyVariables,
    RefusalKind::NotPure,
    RefusalKind::BadHead,
    RefusalKind::Directive,
    RefusalKind::BadOperator,
    RefusalKind::ManyClauses,
    RefusalKind::NotAFact,
];

/// The number of a bad edit. The one before it is no kind of refusal.
const BAD_EDIT: u64 = 18;

impl RefusalKind {
    /// The kind of a number, which counts from 1.
    pub fn of(number: u64) -> Option<RefusalKind> {
        match number {
            1..=16 => Some(KINDS[number as usize - 1]),
            BAD_EDIT => Some(RefusalKind::BadEdit),
            _ => None,
        }
    }

    /// What it is shown as.
    pub(crate) fn sentence(self) -> &'static str {
        match self {
            RefusalKind::BadByte => "this byte cannot stand here",
            RefusalKind::Unclosed => "this quoted item or comment has no end",
            RefusalKind::BadEscape => "a backslash here begins no escape",
            RefusalKind::Float => "floating-point numbers are not read",
            RefusalKind::WideNumber => "this integer is above 2^127 - 1",
            RefusalKind::Unexpected => "the clause cannot go on like this",
            RefusalKind::Deep => "this is nested too deeply",
            RefusalKind::Long => "the text is too long",
            RefusalKind::Arity => "this predicate has more than 12 arguments",
            RefusalKind::ManyVariables => "this clause has more than 48 variables",
            RefusalKind::NotPure => "this is not a goal of a pure program",
            RefusalKind::BadHead => "this cannot be the head of a clause",
            RefusalKind::Directive => "this directive is not read",
            RefusalKind::BadOperator => "this op directive sets no operator",
            RefusalKind::ManyClauses => "the program has more than 16,384 clauses",
            RefusalKind::NotAFact => "this line is not a fact of a certificate",
            RefusalKind::BadEdit => "this is not an edit that can be done",
        }
    }

    /// What to do about it.
    pub fn advice(self) -> &'static str {
        match self {
            RefusalKind::BadByte => "put a name with such letters in single quotes",
            RefusalKind::Unclosed => "close it; a quoted item ends on the line where it begins",
            RefusalKind::BadEscape => "write \\\\ for a backslash",
            RefusalKind::Float => "use integers",
            RefusalKind::WideNumber => "use a smaller integer",
            RefusalKind::Unexpected => {
                "look for a missing end dot, comma, bracket or pair of parentheses"
            }
            RefusalKind::Deep =>
                "nest less: at most 1,000 brackets, list elements and operators may be open before a term, and what stands before an infix operator may have at most 999 levels",
            RefusalKind::Long =>
                "split it: a program or a query has at most 1,048,576 bytes, a certificate 16,777,216",
            RefusalKind::Arity => {
                "put arguments together in one term; a disjunction has an argument for each variable that it shares"
            }
            RefusalKind::ManyVariables => "split the clause in two",
            RefusalKind::NotPure => {
                "leave out cut, negation, if-then-else, call/N, input and output, and grammar rules"
            }
            RefusalKind::BadHead => {
                "a head is a name, or a name with arguments, that is not one of Prolog's own: choose another name"
            }
            RefusalKind::Directive => {
                "leave it out: only :- op(Priority,Kind,Names) and :- discontiguous(..) are read"
            }
            RefusalKind::BadOperator => {
                "give a priority from 0 to 1200, one of xfx, xfy, yfx, fx and fy, and names other than , | [] {}"
            }
            RefusalKind::ManyClauses => {
                "split the program; each branch of a disjunction counts as a clause"
            }
            RefusalKind::NotAFact => {
                "each line is a fact, a dot and a newline, without spaces or comments"
            }
            RefusalKind::BadEdit => {
                "an edit is add(Clause), del(Number) or modes(Name/Arity), each with a dot after it"
            }
        }
    }
}

impl fmt::Display for RefusalKind {
    fn fmt<W: fmt::Write>(&self, f: &mut fmt::Formatter<W>) -> fmt::Result {
        f.write_str(self.sentence())
    }
}
