//! What is wrong with the shape of a clause.

use crate::sentence::Shown;

/// What is wrong with the shape of a clause: its dots, brackets, names and comments, shown as what to do about it.
#[derive(Clone, Copy)]
pub enum ClauseMistake<'a> {
    CommaForDot,
    SemicolonForDot,
    SecondNeck,
    Dot,
    Dots,
    Unclosed(char),
    Closer(char, char),
    OtherCloser(char, char),
    SecondBar,
    BarOutside,
    Dict,
    Comment,
    NestedComment,
    ScriptLine,
    VariableName(&'a str),
    Space(&'a str),
    NoArguments(&'a str),
    NoParentheses(&'a str),
    Arguments(&'a str, u64),
    Variables(u64),
}

impl<'a> ClauseMistake<'a> {
    /// The sentence of the mistake, with a `{}` for each thing that `shown` gives.
    pub fn sentence(self) -> &'static str {
        match self {
            Self::CommaForDot => "does the clause before end with a comma in place of its dot?",
            Self::SemicolonForDot => "does the clause before end with `;` in place of its dot?",
            Self::SecondNeck => "a clause has one `:-`: is a dot missing before this one's head?",
            Self::Dot => "a dot ends a clause only before a space or a line's end",
            Self::Dots => "a clause ends with one dot",
            Self::Unclosed(_) => "a `{}` is missing before `:-`",
            Self::Closer(..) => "no `{}` is open here: one `{}` too many",
            Self::OtherCloser(..) => "`{}` is open here, and `{}` does not close it",
            Self::SecondBar => "a list has one `|`, and one term after it: `[a,b|T]`",
            Self::BarOutside =>
                "`|` stands only in lists: write `[H|T]` for a list, and `;` for a choice of goals",
            Self::Dict => "dicts are not read: write a term, as in `point(X,Y)`",
            Self::Comment => "a comment begins with `%`, or stands between `/*` and `*/`",
            Self::NestedComment => "a comment ends at its first `*/`: comments do not nest",
            Self::ScriptLine => "leave out line 1, which is for the shell",
            Self::VariableName(_) => "a name begins with a small letter: `{}` is a variable",
            Self::Space(_) => "leave out the space between `{}` and `(`",
            Self::NoArguments(_) => "write `{}` for `{}()`",
            Self::NoParentheses(_) =>
                "put the arguments of `{}` in parentheses, or write a comma after it",
            Self::Arguments(..) => "`{}` has {} arguments: put some together in one term",
            Self::Variables(_) =>
                "this clause has {} variables, and each `_` counts: split it in two",
        }
    }

    /// What stands in the places of its sentence, in their order.
    pub fn shown(self) -> [Shown<'a>; 3] {
        match self {
            Self::VariableName(name) | Self::Space(name) | Self::NoParentheses(name) => [
                Shown::Text(name),
                Shown::Nothing,
                Shown::Nothing,
            ],
            Self::NoArguments(name) => [Shown::Text(name), Shown::Text(name), Shown::Nothing],
            Self::Arguments(name, count) => [
                Shown::Text(name),
                Shown::Count(count),
                Shown::Nothing,
            ],
            Self::Variables(count) => [Shown::Count(count), Shown::Nothing, Shown::Nothing],
            Self::Unclosed(closer) => [Shown::Sign(closer), Shown::Nothing, Shown::Nothing],
            Self::Closer(opener, closer) | Self::OtherCloser(opener, closer) => {
                [Shown::Sign(opener), Shown::Sign(closer), Shown::Nothing]
            }
            _ => [Shown::Nothing; 3],
        }
    }
}
