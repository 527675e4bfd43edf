//! The parser where an operand is expected.

ghost use Rattle.std.specs.Prelude.{◌≡◌, ◌+◌, nat_lt, IfOk};
ghost use Rattle.prolog_grammar.specs.Run.{height};
ghost use Rattle.term_parser.specs.Limits.{most_openers};
ghost use Rattle.term_parser.specs.Views.{open_of, IsCounted};
ghost use Rattle.term_parser.specs.Parsing.{frames, IsUnder, IsInside, Leads, operand_move, text_move, group_move, open_move};

use crate::frame::{Frame, Open};
use crate::limits::MOST_OPENERS;
use crate::parser::Parser;
use crate::part::{single, text};
use crate::state::{NameRead, Refusal, State, Step};
use prolog_terms::{ReadShape, Symbol};
use std::alloc::AllocError;

impl Parser<'_> {
    /// A token where an operand is expected.
    pub(crate) fn operand(&mut self, bound: u32, token: &Symbol) -> Result<Step, AllocError>
        requires under { IsUnder (most_openers + 1) self.old }
        ensures { IfOk result (Leads self.old self.new (operand_move self.old bound token.now)) }
    {
        let state = match token {
            Symbol::Var { at, number } => State::AfterTerm {
                bound,
                part: single(*at, ReadShape::Var(*number)),
                priority: 0,
            },
            Symbol::Int { at, value } | Symbol::Joined { at, value } => State::AfterTerm {
                bound,
                part: single(*at, ReadShape::Int(value.positive())),
                priority: 0,
            },
            Symbol::Name { at, name } => State::AfterName {
                read: NameRead {
                    bound,
                    at: *at,
                    name: *name,
                },
            },
            Symbol::Bracket { at } => State::AfterOpenList { bound, at: *at },
            Symbol::Brace { at } => State::AfterOpenCurly { bound, at: *at },
            Symbol::Text { at, codes } => return self.text(bound, *at, codes),
            Symbol::Paren { at } | Symbol::Touching { at } => return self.group(bound, *at),
            _ => return Ok(Step::Refused(Refusal::Unexpected)),
        };
        if self.is_full() {
            return Ok(Step::Refused(Refusal::Deep));
        }
        Ok(Step::Continue(state))
    }

    /// Whether more openers are open than an operand may begin under.
    fn is_full(&self) -> bool
        requires counted { IsCounted self.now.stack }
        ensures { result ≡ nat_lt most_openers (height (frames self.now)) }
    {
        self.stack.openers() > MOST_OPENERS as usize
    }

    /// A text where an operand is expected.
    fn text(&mut self, bound: u32, at: u32, codes: &[char]) -> Result<Step, AllocError>
        requires under { IsUnder (most_openers + 1) self.old }
        ensures { IfOk result (Leads self.old self.new (text_move self.old bound at codes.now)) }
    {
        if self.stack.openers() + codes.len() > MOST_OPENERS as usize {
            return Ok(Step::Refused(Refusal::Deep));
        }
        Ok(Step::Continue(State::AfterTerm {
            bound,
            part: text(self.alloc, self.names, at, codes)?,
            priority: 0,
        }))
    }

    /// A parenthesis where an operand is expected.
    fn group(&mut self, bound: u32, at: u32) -> Result<Step, AllocError>
        requires under { IsUnder (most_openers + 1) self.old }
        ensures { IfOk result (Leads self.old self.new (group_move self.old bound at)) }
    {
        if self.is_full() {
            return Ok(Step::Refused(Refusal::Deep));
        }
        self.open(bound, Open::Group { at })
    }

    /// Opens a term of the given bound: an operand is expected inside it.
    pub(crate) fn open(&mut self, bound: u32, opening: Open) -> Result<Step, AllocError>
        requires inside { IsInside (most_openers + 1) (open_of opening) self.old }
        ensures { IfOk result (Leads self.old self.new
            (open_move self.old bound (open_of opening))) }
    {
        let inside = opening.inside();
        self.stack.push(Frame::Open {
            bound,
            open: opening,
        })?;
        Ok(Step::Continue(State::ExpectOperand { bound: inside }))
    }
}
