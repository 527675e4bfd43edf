//! What is open while a clause is read.

ghost use Rattle.std.specs.Prelude.{◌≡◌};
ghost use Rattle.prolog_grammar.specs.Machine.{inside};
ghost use Rattle.term_parser.specs.Views.{open_of, open_openers, frame_openers};

use crate::limits::MOST_ARGUMENT;
use crate::part::Part;
use cti_terms::Name;
use prolog_operators::MOST_PRIORITY;

/// A name that arguments may follow, by its place: a token, `[` and `]`, or `{` and `}`.
#[derive(Clone, Copy, PartialEq, Eq)]
pub enum Head {
    Plain { at: u32, name: Name },
    Brackets { at: u32 },
    Braces { at: u32 },
}

/// An operator whose right side is under way.
#[derive(Drop)]
pub enum Operator {
    Infix { name: Name, left: Part },
    Prefix { at: u32, name: Name },
}

/// What stands between an opening token and the term under way.
#[derive(Drop)]
pub enum Open {
    Group { at: u32 },
    Curly { at: u32 },
    Arguments { head: Head, parts: Vec<Part> },
    Items { at: u32, parts: Vec<Part> },
    Tail { at: u32, parts: Vec<Part> },
}

impl Open {
    /// The bound of the term under way.
    pub fn inside(&self) -> u32
        ensures { result ≡ inside (open_of self.now) }
    {
        match self {
            Open::Group { .. } | Open::Curly { .. } => MOST_PRIORITY,
            Open::Arguments { .. } | Open::Items { .. } | Open::Tail { .. } => MOST_ARGUMENT,
        }
    }

    /// How many openers it counts for: itself, and each comma or bar of a list.
    pub fn openers(&self) -> usize
        ensures { result ≡ open_openers self.now }
    {
        match self {
            Open::Group { .. } | Open::Curly { .. } | Open::Arguments { .. } => 1,
            Open::Items { parts, .. } | Open::Tail { parts, .. } => parts.len() + 1,
        }
    }
}

/// What is open: an operator whose right side is under way, or an opening token. The bound is that of the term around
/// it.
#[derive(Drop)]
pub enum Frame {
    Operator {
        bound: u32,
        priority: u32,
        operator: Operator,
    },
    Open {
        bound: u32,
        open: Open,
    },
}

impl Frame {
    /// How many openers it counts for.
    pub fn openers(&self) -> usize
        ensures { result ≡ frame_openers self.now }
    {
        match self {
            Frame::Operator { .. } => 1,
            Frame::Open { open, .. } => open.openers(),
        }
    }
}
