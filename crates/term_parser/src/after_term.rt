//! The parser after a term: an operator takes it as its left side, or it ends what is open.

ghost use Rattle.std.specs.Prelude.{◌≡◌, Some, IfOk};
ghost use Rattle.prolog_grammar.specs.Rules.{taken, if_fits};
ghost use Rattle.prolog_grammar.specs.Walk.{walk_text};
ghost use Rattle.prolog_operators.specs.Meanings.{infix_of};
ghost use Rattle.term_parser.specs.Limits.{most_openers};
ghost use Rattle.term_parser.specs.Views.{IsCounted, found_of, token_of, part_view};
ghost use Rattle.term_parser.specs.Parsing.{rules, IsUnder, Leads, term_move, infix_move, applied};

use crate::frame::{Frame, Operator};
use crate::limits::MOST_OPENERS;
use crate::parser::Parser;
use crate::part::{Part, pair, unary};
use crate::state::{Refusal, State, Step};
use cti_terms::Name;
use prolog_operators::Infix;
use prolog_terms::Symbol;
use std::alloc::{AllocError, Global};

/// The comma token as an operator.
const COMMA: Infix = Infix {
    priority: 1000,
    left: 999,
    right: 1000,
};

/// An operator, if its priority is at most the bound and its left side allows the priority so far.
fn fitting(bound: u32, so_far: u32, name: Name, op: Infix) -> Option<(Name, Infix)>
    ensures { found_of result ≡ if_fits bound so_far name.0 (Some (infix_of op)) }
{
    if op.priority <= bound && so_far <= op.left {
        Some((name, op))
    } else {
        None
    }
}

/// An operator with its operands, the last of which was under way. An infix operator begins where its left side does.
fn applied(alloc: Global, operator: Operator, part: Part) -> Result<Part, AllocError>
    ensures { IfOk result (λ p. part_view p ≡ applied operator (part_view part)) }
{
    match operator {
        Operator::Infix { name, left } => {
            let at = left.term.at;
            pair(alloc, at, name, left, part)
        }
        Operator::Prefix { at, name } => unary(alloc, at, name, part),
    }
}

impl Parser<'_> {
    /// A token after a term: an operator that is taken, or else the term is at its end.
    #[tactic(auto, using(crate::proofs::WalkLemmas::have_taken, crate::proofs::WalkLemmas::have_end, crate::proofs::WalkLemmas::have_operator, crate::proofs::WalkLemmas::have_open))]
    pub(crate) fn after_term(
        &mut self,
        bound: u32,
        part: Part,
        priority: u32,
        token: &Symbol,
    ) -> Result<Step, AllocError>
        requires under { IsUnder most_openers self.old }
        ensures { IfOk result (Leads self.old self.new
            (term_move self.old bound (part_view part) priority token.now)) }
    {
        let mut bound = bound;
        let mut part = part;
        let mut priority = priority;
        'closing: loop {
            if let Some((name, op)) = self.taken(bound, priority, token) {
                return self.take_infix(bound, part, name, op);
            }
            match self.stack.pop() {
                None => return Ok(self.end_text(part, token)),
                Some(Frame::Open { bound: outer, open }) => {
                    return self.end(outer, open, part, token);
                }
                Some(
                    Frame::Operator {
                        bound: outer,
                        priority: own,
                        operator,
                    },
                ) => {
                    part = applied(self.alloc, operator, part)?;
                    bound = outer;
                    priority = own;
                }
            }
        }
    }

    /// A term with nothing open: the clause's end follows it, or another token.
    fn end_text(&self, part: Part, token: &Symbol) -> Step
        requires counted { IsCounted self.now.stack }
        ensures { Leads self.now self.now (walk_text (part_view part) (token_of token.now)) result }
    {
        match token {
            Symbol::End => Step::Finished(part),
            _ => Step::Refused(Refusal::Unexpected),
        }
    }

    /// The token as an infix operator that is taken at the bound after a term of the priority so far.
    fn taken(&self, bound: u32, so_far: u32, token: &Symbol) -> Option<(Name, Infix)>
        ensures { found_of result ≡ taken (rules self.now) bound so_far (token_of token.now) }
    {
        match token {
            Symbol::Name { name, .. } => match self.ops.infix(*name) {
                Some(op) => fitting(bound, so_far, *name, op),
                None => None,
            },
            Symbol::Comma => fitting(bound, so_far, self.names.comma, COMMA),
            _ => None,
        }
    }

    /// An infix operator that is taken: its right side is expected, if its left side is not too deep.
    fn take_infix(
        &mut self,
        bound: u32,
        left: Part,
        name: Name,
        op: Infix,
    ) -> Result<Step, AllocError>
        requires under { IsUnder most_openers self.old }
        ensures { IfOk result (Leads self.old self.new
            (infix_move self.old bound (part_view left) name.0 (infix_of op))) }
    {
        if left.depth >= MOST_OPENERS {
            return Ok(Step::Refused(Refusal::Deep));
        }
        self.stack.push(Frame::Operator {
            bound,
            priority: op.priority,
            operator: Operator::Infix { name, left },
        })?;
        Ok(Step::Continue(State::ExpectOperand { bound: op.right }))
    }
}
