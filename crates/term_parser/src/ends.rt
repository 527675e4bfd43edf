//! The parser at the end of a term inside an opening token.

ghost use Rattle.std.specs.Prelude.{◌≡◌, map, IfOk};
ghost use Rattle.prolog_grammar.specs.Machine.{group_open, curly_open, arguments_open, items_open, tail_open};
ghost use Rattle.term_parser.specs.Limits.{most_openers};
ghost use Rattle.term_parser.specs.Views.{part_view, head_of, open_of};
ghost use Rattle.term_parser.specs.Parsing.{rules, IsUnder, IsInside, Leads, operand_done, ended_move};

use crate::frame::{Head, Open};
use crate::parser::Parser;
use crate::part::{Part, atom, chain, compound, unary};
use crate::state::{Refusal, State, Step};
use prolog_terms::{ReadTerm, Symbol};
use std::alloc::AllocError;

impl Parser<'_> {
    /// A term inside an opening token, and the token after it.
    pub(crate) fn end(
        &mut self,
        bound: u32,
        opening: Open,
        part: Part,
        token: &Symbol,
    ) -> Result<Step, AllocError>
        requires inside { IsInside most_openers (open_of opening) self.old }
        ensures { IfOk result (Leads self.old self.new
            (ended_move self.old bound (open_of opening) (part_view part) token.now)) }
    {
        match opening {
            Open::Group { at } => self.end_group(bound, at, part, token),
            Open::Curly { at } => self.end_curly(bound, at, part, token),
            Open::Arguments { head, parts } => self.end_argument(bound, head, parts, part, token),
            Open::Items { at, parts } => self.end_item(bound, at, parts, part, token),
            Open::Tail { at, parts } => self.end_tail(bound, at, parts, part, token),
        }
    }

    /// A whole operand, in a term of the given bound.
    fn operand_done(&self, bound: u32, part: Part) -> Step
        requires under { IsUnder most_openers self.now }
        ensures { Leads self.now self.now (operand_done self.now bound (part_view part)) result }
    {
        Step::Continue(State::AfterTerm {
            bound,
            part,
            priority: 0,
        })
    }

    /// A term in parentheses, and the token after it.
    fn end_group(
        &mut self,
        bound: u32,
        at: u32,
        part: Part,
        token: &Symbol,
    ) -> Result<Step, AllocError>
        requires inside { IsInside most_openers (group_open at) self.old }
        ensures { IfOk result (Leads self.old self.new
            (ended_move self.old bound (group_open at) (part_view part) token.now)) }
    {
        match token {
            Symbol::ParenEnd => {
                let Part { term, depth } = part;
                let term = ReadTerm {
                    at,
                    shape: term.shape,
                };
                Ok(self.operand_done(bound, Part { term, depth }))
            }
            _ => Ok(Step::Refused(Refusal::Unexpected)),
        }
    }

    /// A term in braces, and the token after it.
    fn end_curly(
        &mut self,
        bound: u32,
        at: u32,
        part: Part,
        token: &Symbol,
    ) -> Result<Step, AllocError>
        requires inside { IsInside most_openers (curly_open at) self.old }
        ensures { IfOk result (Leads self.old self.new
            (ended_move self.old bound (curly_open at) (part_view part) token.now)) }
    {
        match token {
            Symbol::BraceEnd => {
                let part = unary(self.alloc, at, self.names.curly, part)?;
                Ok(self.operand_done(bound, part))
            }
            _ => Ok(Step::Refused(Refusal::Unexpected)),
        }
    }

    /// An argument, and the token after it.
    fn end_argument(
        &mut self,
        bound: u32,
        head: Head,
        parts: Vec<Part>,
        part: Part,
        token: &Symbol,
    ) -> Result<Step, AllocError>
        requires inside { IsInside most_openers
            (arguments_open (head_of head) (map part_view parts.items)) self.old }
        ensures { IfOk result (Leads self.old self.new
            (ended_move self.old bound
            (arguments_open (head_of head) (map part_view parts.items))
            (part_view part) token.now)) }
    {
        let mut parts = parts;
        parts.push(part)?;
        match token {
            Symbol::Comma => self.open(bound, Open::Arguments { head, parts }),
            Symbol::ParenEnd => {
                let part = self.call(head, parts)?;
                Ok(self.operand_done(bound, part))
            }
            _ => Ok(Step::Refused(Refusal::Unexpected)),
        }
    }

    /// A name with arguments, by its place.
    fn call(&self, head: Head, parts: Vec<Part>) -> Result<Part, AllocError>
        ensures { IfOk result (λ p. part_view p ≡ (rules self.now).call (head_of head)
            (map part_view parts.items)) }
    {
        match head {
            Head::Plain { at, name } => compound(self.alloc, at, name, parts),
            Head::Brackets { at } => compound(self.alloc, at, self.names.nil, parts),
            Head::Braces { at } => compound(self.alloc, at, self.names.curly, parts),
        }
    }

    /// An element of a list, and the token after it.
    fn end_item(
        &mut self,
        bound: u32,
        at: u32,
        parts: Vec<Part>,
        part: Part,
        token: &Symbol,
    ) -> Result<Step, AllocError>
        requires inside { IsInside most_openers
            (items_open at (map part_view parts.items)) self.old }
        ensures { IfOk result (Leads self.old self.new
            (ended_move self.old bound (items_open at (map part_view parts.items))
            (part_view part) token.now)) }
    {
        let mut parts = parts;
        parts.push(part)?;
        match token {
            Symbol::Comma => self.open(bound, Open::Items { at, parts }),
            Symbol::Bar => self.open(bound, Open::Tail { at, parts }),
            Symbol::BracketEnd => {
                let nil = atom(self.alloc, at, self.names.nil);
                let part = chain(self.alloc, self.names, at, parts, nil)?;
                Ok(self.operand_done(bound, part))
            }
            _ => Ok(Step::Refused(Refusal::Unexpected)),
        }
    }

    /// The tail of a list, and the token after it.
    fn end_tail(
        &mut self,
        bound: u32,
        at: u32,
        parts: Vec<Part>,
        part: Part,
        token: &Symbol,
    ) -> Result<Step, AllocError>
        requires inside { IsInside most_openers
            (tail_open at (map part_view parts.items)) self.old }
        ensures { IfOk result (Leads self.old self.new
            (ended_move self.old bound (tail_open at (map part_view parts.items))
            (part_view part) token.now)) }
    {
        match token {
            Symbol::BracketEnd => {
                let part = chain(self.alloc, self.names, at, parts, part)?;
                Ok(self.operand_done(bound, part))
            }
            _ => Ok(Step::Refused(Refusal::Unexpected)),
        }
    }
}
