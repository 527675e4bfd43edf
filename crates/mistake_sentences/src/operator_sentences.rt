//! What is wrong with an operator, or where one should stand.

use crate::sentence::Shown;

/// What is wrong with an operator, or with what stands in the place of one, shown as what to do about it.
#[derive(Clone, Copy)]
pub enum OperatorMistake<'a> {
    Module(&'a str),
    SplitNeck,
    Split(&'a str),
    Neck(&'a str),
    /// An operator of another language, and what it is here.
    Foreign(&'a str, &'a str),
    Arithmetic(&'a str),
    Percent,
    Constraint,
    Chain,
    Unknown(&'a str),
    Late(&'a str),
    NoLeft(&'a str),
    NoRight(&'a str),
    InTerm(&'a str),
}

impl<'a> OperatorMistake<'a> {
    /// The sentence of the mistake, with a `{}` for each thing that `shown` gives.
    pub fn sentence(self) -> &'static str {
        match self {
            Self::Module(_) => "`:` is not an operator here: modules are not read; leave out `{}:`",
            Self::SplitNeck => "`: -` is not an operator here: write `:-`",
            Self::Split(_) => "write `{}` without a space in it",
            Self::Neck(_) => "write `:-` for `{}` between a head and its body",
            Self::Foreign(..) => "write `{}` for `{}`",
            Self::Arithmetic(_) =>
                "`{}` is not an operator here: expressions have only `+`, `-` and `*`",
            Self::Percent => "`%` begins a comment, and expressions have only `+`, `-` and `*`",
            Self::Constraint => "constraints are not read: write `is`, or a comparison of integers",
            Self::Chain => "a comparison has two sides: write `A < B, B < C` for `A < B < C`",
            Self::Unknown(_) =>
                "`{}` is not an operator here: correct it, or declare it with `:- op(..)`",
            Self::Late(_) => "`{}` is not an operator yet: declare it before this clause",
            Self::NoLeft(_) =>
                "no term stands before `{}`: a term is missing, or `{}` is one too many",
            Self::NoRight(_) =>
                "no term stands after `{}`: a term is missing, or `{}` is one too many",
            Self::InTerm(_) => "put the term that has `{}` in parentheses of its own",
        }
    }

    /// What stands in the places of its sentence, in their order.
    pub fn shown(self) -> [Shown<'a>; 3] {
        match self {
            Self::SplitNeck | Self::Percent | Self::Constraint | Self::Chain => [Shown::Nothing; 3],
            Self::Foreign(sign, own) => [Shown::Text(own), Shown::Text(sign), Shown::Nothing],
            Self::NoLeft(sign) | Self::NoRight(sign) => {
                [Shown::Text(sign), Shown::Text(sign), Shown::Nothing]
            }
            Self::Module(sign)
            | Self::Split(sign)
            | Self::Neck(sign)
            | Self::Arithmetic(sign)
            | Self::Unknown(sign)
            | Self::Late(sign)
            | Self::InTerm(sign) => [Shown::Text(sign), Shown::Nothing, Shown::Nothing],
        }
    }
}
