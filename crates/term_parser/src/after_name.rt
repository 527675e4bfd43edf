//! The parser after a name, `[]`, `{}`, or an opening bracket or brace.

ghost use Rattle.std.specs.Prelude.{◌≡◌, IfOk};
ghost use Rattle.prolog_grammar.specs.Rules.{plain, is_infix_alone};
ghost use Rattle.prolog_operators.specs.Meanings.{prefix_of};
ghost use Rattle.term_parser.specs.Limits.{most_openers};
ghost use Rattle.term_parser.specs.Views.{part_view, head_of};
ghost use Rattle.term_parser.specs.Parsing.{rules, IsUnder, Leads, name_move, prefix_move, applied_move, atom_move, decided, arguments_move, brackets_move, open_list_move, open_curly_move};

use crate::frame::{Frame, Head, Open, Operator};
use crate::limits::MOST_ARGUMENT;
use crate::parser::Parser;
use crate::part::{Part, atom, single};
use crate::state::{NameRead, Refusal, State, Step};
use cti_terms::Name;
use prolog_operators::{MOST_PRIORITY, Prefix};
use prolog_terms::{ReadShape, Symbol};
use std::alloc::AllocError;

impl Parser<'_> {
    /// A token after a name.
    pub(crate) fn after_name(
        &mut self,
        read: NameRead,
        token: &Symbol,
        is_touched: bool,
    ) -> Result<Step, AllocError>
        requires under { IsUnder most_openers self.old }
        ensures { IfOk result (Leads self.old self.new
            (name_move self.old read token.now is_touched)) }
    {
        match token {
            Symbol::Touching { .. } => self.open_arguments(
                read.bound,
                Head::Plain {
                    at: read.at,
                    name: read.name,
                },
            ),
            Symbol::Joined { value, .. } => Ok(Step::Continue(State::AfterTerm {
                bound: read.bound,
                part: single(read.at, ReadShape::Int(value.negative())),
                priority: 0,
            })),
            _ => match self.ops.prefix(read.name) {
                Some(op) => self.after_prefix(read, op, token, is_touched),
                None => self.after_atom(read, token),
            },
        }
    }

    /// A token after a prefix operator, which begins no argument list and is not its number.
    fn after_prefix(
        &mut self,
        read: NameRead,
        op: Prefix,
        token: &Symbol,
        is_touched: bool,
    ) -> Result<Step, AllocError>
        requires under { IsUnder most_openers self.old }
        ensures { IfOk result (Leads self.old self.new
            (prefix_move self.old read (prefix_of op) token.now is_touched)) }
    {
        match token {
            Symbol::Name { name, .. } => {
                let can = op.priority <= read.bound;
                if self.is_infix_alone(*name) && !(can && is_touched) {
                    self.decide(read, can, token, is_touched)
                } else {
                    self.apply(read, op, token)
                }
            }
            Symbol::Var { .. }
            | Symbol::Int { .. }
            | Symbol::Text { .. }
            | Symbol::Paren { .. }
            | Symbol::Bracket { .. }
            | Symbol::Brace { .. } => self.apply(read, op, token),
            _ => self.after_atom(read, token),
        }
    }

    /// Whether a name is an infix operator and no prefix operator.
    fn is_infix_alone(&self, name: Name) -> bool
        ensures { result ≡ is_infix_alone (rules self.now) name.0 }
    {
        self.ops.infix(name).is_some() && self.ops.prefix(name).is_none()
    }

    /// A token after a prefix operator that is applied, if its priority allows it.
    #[tactic(auto, using(crate::proofs::WalkLemmas::apply_fits))]
    fn apply(&mut self, read: NameRead, op: Prefix, token: &Symbol) -> Result<Step, AllocError>
        requires under { IsUnder most_openers self.old }
        ensures { IfOk result (Leads self.old self.new
            (applied_move self.old read (prefix_of op) token.now)) }
    {
        if op.priority > read.bound {
            return Ok(Step::Refused(Refusal::Unexpected));
        }
        self.stack.push(Frame::Operator {
            bound: read.bound,
            priority: op.priority,
            operator: Operator::Prefix {
                at: read.at,
                name: read.name,
            },
        })?;
        self.operand(op.right, token)
    }

    /// A token after a name that is an atom.
    fn after_atom(&mut self, read: NameRead, token: &Symbol) -> Result<Step, AllocError>
        requires under { IsUnder most_openers self.old }
        ensures { IfOk result (Leads self.old self.new
            (atom_move self.old read.bound (plain read.at read.name.0) token.now)) }
    {
        let part = atom(self.alloc, read.at, read.name);
        self.after_term(read.bound, part, 0, token)
    }

    /// An infix operator alone after a name that is a prefix operator, which can be applied or not. The name is an atom
    /// then, unless a parenthesis makes the infix operator begin an operand.
    fn decide(
        &mut self,
        read: NameRead,
        can: bool,
        token: &Symbol,
        is_touched: bool,
    ) -> Result<Step, AllocError>
        requires under { IsUnder most_openers self.old }
        ensures { IfOk result (Leads self.old self.new
            (decided can is_touched (atom_move self.old read.bound
            (plain read.at read.name.0) token.now))) }
    {
        match self.after_atom(read, token)? {
            Step::Refused(Refusal::Unexpected) => {
                if can && !is_touched {
                    Ok(Step::Refused(Refusal::NextUnexpected))
                } else {
                    Ok(Step::Refused(Refusal::Unexpected))
                }
            }
            step => {
                if is_touched {
                    Ok(Step::Refused(Refusal::NextUnexpected))
                } else {
                    Ok(step)
                }
            }
        }
    }

    /// The parenthesis before arguments.
    fn open_arguments(&mut self, bound: u32, head: Head) -> Result<Step, AllocError>
        requires under { IsUnder most_openers self.old }
        ensures { IfOk result (Leads self.old self.new
            (arguments_move self.old bound (head_of head))) }
    {
        let parts = Vec::new(self.alloc);
        self.open(bound, Open::Arguments { head, parts })
    }

    /// A token after `[]` or `{}`.
    pub(crate) fn after_brackets(
        &mut self,
        bound: u32,
        head: Head,
        token: &Symbol,
    ) -> Result<Step, AllocError>
        requires under { IsUnder most_openers self.old }
        ensures { IfOk result (Leads self.old self.new
            (brackets_move self.old bound (head_of head) token.now)) }
    {
        match token {
            Symbol::Touching { .. } => self.open_arguments(bound, head),
            _ => {
                let part = self.atom(head);
                self.after_term(bound, part, 0, token)
            }
        }
    }

    /// A name without arguments, by its place.
    fn atom(&self, head: Head) -> Part
        ensures { part_view result ≡ (rules self.now).atom (head_of head) }
    {
        match head {
            Head::Plain { at, name } => atom(self.alloc, at, name),
            Head::Brackets { at } => atom(self.alloc, at, self.names.nil),
            Head::Braces { at } => atom(self.alloc, at, self.names.curly),
        }
    }

    /// A token after an opening bracket.
    pub(crate) fn after_open_list(
        &mut self,
        bound: u32,
        at: u32,
        token: &Symbol,
    ) -> Result<Step, AllocError>
        requires under { IsUnder most_openers self.old }
        ensures { IfOk result (Leads self.old self.new
            (open_list_move self.old bound at token.now)) }
    {
        match token {
            Symbol::BracketEnd => Ok(Step::Continue(State::AfterBrackets {
                bound,
                head: Head::Brackets { at },
            })),
            _ => {
                let parts = Vec::new(self.alloc);
                let open = Open::Items { at, parts };
                self.stack.push(Frame::Open { bound, open })?;
                self.operand(MOST_ARGUMENT, token)
            }
        }
    }

    /// A token after an opening brace.
    pub(crate) fn after_open_curly(
        &mut self,
        bound: u32,
        at: u32,
        token: &Symbol,
    ) -> Result<Step, AllocError>
        requires under { IsUnder most_openers self.old }
        ensures { IfOk result (Leads self.old self.new
            (open_curly_move self.old bound at token.now)) }
    {
        match token {
            Symbol::BraceEnd => Ok(Step::Continue(State::AfterBrackets {
                bound,
                head: Head::Braces { at },
            })),
            _ => {
                let open = Open::Curly { at };
                self.stack.push(Frame::Open { bound, open })?;
                self.operand(MOST_PRIORITY, token)
            }
        }
    }
}
