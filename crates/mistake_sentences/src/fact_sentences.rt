//! What is wrong with a line of a certificate.

use crate::mode_numbers::ModeNumbers;
use crate::sentence::Shown;

/// What is wrong with a line of a certificate, shown as what to do about it.
#[derive(Clone, Copy)]
pub enum FactMistake<'a> {
    OfLists,
    NoBeginning,
    Comment,
    EmptyLine,
    CarriageReturn,
    NoNewline,
    CutOff,
    Negative,
    ModeOrder(ModeNumbers),
    Name(&'a str),
    Norm,
    Quotes(&'a str),
    NoQuotes(&'a str),
    Arity,
    ManyArguments,
    LeadingZero(&'a str),
    Argument,
    Mode,
    Number(&'a str),
    Cell,
    Parts {
        name: &'a str,
        wanted: u32,
        found: u32,
    },
    NormVersion,
    NoNorm,
    Order(&'a str, &'a str),
}

impl<'a> FactMistake<'a> {
    /// The sentence of the mistake, with a `{}` for each thing that `shown` gives.
    pub fn sentence(self) -> &'static str {
        match self {
            Self::OfLists =>
                "this is a certificate of lists of mappings, as `cti lex` writes it: `cti check` reads only those of `cti infer`",
            Self::NoBeginning =>
                "a certificate begins with `cti(1).` or `cti(2).`, as `cti infer` writes it",
            Self::Comment => "leave out this line: a certificate has no comments",
            Self::EmptyLine => "leave out the empty line",
            Self::CarriageReturn =>
                "this line ends with a carriage return: end each line with a newline alone",
            Self::NoNewline => "this last line has no newline at its end",
            Self::CutOff =>
                "the certificate is cut off in its last line: write it again with `cti infer`",
            Self::Negative => "no number of this fact may be negative",
            Self::ModeOrder(_) => "the numbers of a mode ascend: `{}`",
            Self::Name(_) => "no fact of a certificate has the name `{}`",
            Self::Norm => "the norms are `term` and `list`",
            Self::Quotes(_) => "write `{}` without quotes",
            Self::NoQuotes(_) => "put `{}` in single quotes: it does not begin with a small letter",
            Self::Arity => "a predicate stands with the number of its arguments, as `app/3`",
            Self::ManyArguments => "a predicate has at most 12 arguments",
            Self::LeadingZero(_) => "leave out the zeros before a number: write `{}`",
            Self::Argument => "the arguments of a mode are numbered from 1",
            Self::Mode => "each mode is a list of its own, as in `[[1],[2,3]]`",
            Self::Number(_) => "numbers and counts in `{}` begin at 1",
            Self::Cell => "each argument of a row is `0`, `1` or `x`",
            Self::Parts { .. } => "`{}`: wrong number of parts, {} wanted and {} found",
            Self::NormVersion => "`norm` stands in version 2: begin with `cti(2).`",
            Self::NoNorm => "in version 2 the second line is `norm(term).` or `norm(list).`",
            Self::Order(..) => "`{}` lines stand before `{}` lines",
        }
    }

    /// What stands in the places of its sentence, in their order.
    pub fn shown(self) -> [Shown<'a>; 3] {
        match self {
            Self::ModeOrder(numbers) => [Shown::Mode(numbers), Shown::Nothing, Shown::Nothing],
            Self::Name(name)
            | Self::Quotes(name)
            | Self::NoQuotes(name)
            | Self::LeadingZero(name)
            | Self::Number(name) => [Shown::Text(name), Shown::Nothing, Shown::Nothing],
            Self::Order(name, earlier) => [Shown::Text(name), Shown::Text(earlier), Shown::Nothing],
            Self::Parts {
                name,
                wanted,
                found,
            } => [
                Shown::Text(name),
                Shown::Count(u64::from(wanted)),
                Shown::Count(u64::from(found)),
            ],
            _ => [Shown::Nothing; 3],
        }
    }
}
