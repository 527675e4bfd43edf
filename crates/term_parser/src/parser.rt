//! The parser of a clause's term: it takes a token at a time, in a state and with a stack of what is open.
//!
//! It follows `walk_step` of prolog_grammar, whose laws say what it answers.

ghost use Rattle.std.specs.Prelude.{IfOk};
ghost use Rattle.term_parser.specs.Parsing.{IsFresh, IsIn, Leads, state_move};

use crate::stack::Stack;
use crate::state::{State, Step};
use prolog_operators::Ops;
use prolog_terms::{Known, Symbol};
use std::alloc::{AllocError, Global};

/// A clause under way: the operators and names by which it is read, and what is open.
#[derive(Drop)]
pub struct Parser<'a> {
    pub alloc: Global,
    pub ops: &'a Ops,
    pub names: Known,
    pub stack: Stack,
}

impl<'a> Parser<'a> {
    /// A parser before the first token. It takes no memory.
    pub fn new(alloc: Global, ops: &'a Ops, names: Known) -> Parser<'a>
        ensures { IsFresh ops.now names result }
    {
        Parser {
            alloc,
            ops,
            names,
            stack: Stack::new(alloc),
        }
    }

    /// Takes one token. `is_touched` says whether a `(` stands right after it. After an error nothing is said of the
    /// parser.
    pub fn step(
        &mut self,
        state: State,
        token: &Symbol,
        is_touched: bool,
    ) -> Result<Step, AllocError>
        requires fits { IsIn state self.old }
        ensures { IfOk result (Leads self.old self.new
            (state_move self.old state token.now is_touched)) }
    {
        match state {
            State::ExpectOperand { bound } => self.operand(bound, token),
            State::AfterName { read } => self.after_name(read, token, is_touched),
            State::AfterBrackets { bound, head } => self.after_brackets(bound, head, token),
            State::AfterOpenList { bound, at } => self.after_open_list(bound, at, token),
            State::AfterOpenCurly { bound, at } => self.after_open_curly(bound, at, token),
            State::AfterTerm {
                bound,
                part,
                priority,
            } => self.after_term(bound, part, priority, token),
        }
    }
}
