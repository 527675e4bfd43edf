//! Reading one clause.

ghost use Rattle.std.specs.Prelude.{◌≡◌, ◌≤◌, ◌<◌, ◌+◌, ◌*◌, ℕ, List, ◌∷◌, length, drop, Option, IfOk};
ghost use Rattle.prolog_tokens.specs.Bytes.{begins_with};
ghost use Rattle.prolog_tokens.specs.Decoding.{IsTokenOf};
ghost use Rattle.prolog_tokens.specs.Stream.{Lexes};
ghost use Rattle.prolog_tokens.specs.declared.token.Token.{Token as TextToken};
ghost use Rattle.prolog_tokens.specs.declared.fault.LexFault.{LexFault};
ghost use Rattle.prolog_reader.specs.Limits.{most_bytes};
ghost use Rattle.prolog_operators.specs.Meanings.{table_of};
ghost use Rattle.term_parser.specs.Parsing.{IsIn};
ghost use Rattle.prolog_reader.specs.Progress.{start_of, Begins, IsFound, IsMoved, IsReady, IsTaken, AreNamed, advanced, IsClause, IsRefusal, IsEnd, end_kind};
ghost use Rattle.prolog_operators.specs.Names.{Extends};
ghost use Rattle.prolog_reader.specs.Knowing.{AreKnown};
ghost use Rattle.prolog_reader.specs.Ranges.{IsWithin};
ghost use Rattle.prolog_reader.specs.FoundFit.{IsFoundFit};
ghost use Rattle.prolog_reader.specs.Scan.{closing_of, IsNextFault, Finds, Names as ReadNames};

use crate::fault::ReadKind;
use crate::symbols::next_symbol;
use cti_terms::Names;
use prolog_operators::{MOST_PRIORITY, Ops};
use prolog_terms::{Known, ReadClause, Symbol, Variables};
use prolog_tokens::{Lexer, Token};
use std::alloc::{AllocError, Global};
use term_parser::{Parser, Part, Refusal, State, Step};

/// What reading a clause comes to.
#[derive(Drop)]
pub enum Found {
    Clause(ReadClause),
    Refused { kind: ReadKind, at: u32 },
}

/// A clause that is being read: the text, the parser, the variables so far, the token at hand and the one before it,
/// and whether the clause is a query, which ends also where the text does.
pub struct ClauseReader<'a> {
    text: &'a [u8],
    parser: Parser<'a>,
    variables: Variables,
    before: Option<Token>,
    token: Token,
    is_query: bool,
}

impl Drop for ClauseReader<'_> {
    fn drop(self) {
        let ClauseReader {
            text: _,
            parser: _,
            variables: _,
            before: _,
            token: _,
            is_query: _,
        } = self;
    }
}

/// Whether a parenthesis stands at a place of the text.
fn is_touched(text: &[u8], at: u32) -> bool
    requires { at ≤ length text.now }
    ensures { result ≡ begins_with 40 (drop at text.now) }
{
    match &text[at as usize..] {
        [first, ..] => *first == b'(',
        [] => false,
    }
}

/// The fault where nothing more is expected: the next token, a lexical fault, or the end of the text.
fn next_fault(text: &[u8], lexer: &mut Lexer) -> Found
    requires short { length text.now ≤ most_bytes }
    requires within { lexer.old.at ≤ length lexer.old.text }
    ensures fault { (ts : List TextToken) (fault : Option LexFault) → Lexes lexer.old ts fault
        → IsNextFault (length text.now) fault ts result }
    ensures fit { (count before after : ℕ) → IsFoundFit count before after result }
    ensures text { lexer.new.text ≡ lexer.old.text }
    ensures on { (lexer.old.at ≤ lexer.new.at) × (lexer.new.at ≤ length lexer.old.text) }
{
    match lexer.next() {
        Ok(Some(token)) => Found::Refused {
            kind: ReadKind::Unexpected,
            at: token.start,
        },
        Ok(None) => Found::Refused {
            kind: ReadKind::Unexpected,
            at: text.len() as u32,
        },
        Err(fault) => Found::Refused {
            kind: ReadKind::Lex(fault.kind),
            at: fault.at,
        },
    }
}

/// The kind of the fault where a query's end is refused.
fn end_kind(refusal: Refusal) -> ReadKind
    ensures { result ≡ end_kind refusal }
{
    match refusal {
        Refusal::Unexpected | Refusal::NextUnexpected => ReadKind::Unexpected,
        Refusal::Deep => ReadKind::Deep,
    }
}

/// A clause that is to be read: the text, the operators in force, the names that the syntax makes terms of, the first
/// token, and whether the clause is a query.
#[derive(Clone, Copy)]
pub struct ClauseStart<'a> {
    pub text: &'a [u8],
    pub ops: &'a Ops,
    pub known: Known,
    pub first: Token,
    pub is_query: bool,
}

/// Reads a clause from its first token on, or says why there is none. A query ends also where its text does.
pub fn read_clause(
    alloc: Global,
    start: &ClauseStart,
    lexer: &mut Lexer,
    names: &mut Names,
) -> Result<Found, AllocError>
    requires short { length start.now.text.now ≤ most_bytes }
    requires same { lexer.old.text ≡ start.now.text.now }
    requires behind { lexer.old.at ≡ start.now.first.end }
    requires given { IsTokenOf start.now.text.now start.now.first }
    requires within { IsWithin start.now.text.now start.now.first }
    requires known { AreKnown names.old start.now.known }
    requires room { length names.old + length start.now.text.now ≤ 4294967000 + start.now.first.start }
    ensures found { IfOk result
        (λ found. (later : List (List ℕ)) (ts : List TextToken) (fault : Option LexFault)
        → Extends names.new later → Lexes lexer.old ts fault
        → Finds later start.now.text.now fault (closing_of start.now.is_query fault)
        (table_of start.now.ops.now) (start.now.first ∷ ts) lexer.new found) }
    ensures added { IfOk result (λ found. (ts : List TextToken) (fault : Option LexFault)
        → Lexes lexer.old ts fault
        → ReadNames start.now.text.now names.old names.new (start.now.first ∷ ts) fault lexer.new found) }
    ensures fit { IfOk result (λ found. (count : ℕ) → length names.new ≤ count
        → IsFoundFit count (2 * start.now.first.start) (2 * lexer.new.at) found) }
    ensures same { lexer.new.text ≡ start.now.text.now }
    ensures on { (lexer.old.at ≤ lexer.new.at) × (lexer.new.at ≤ length start.now.text.now) }
    ensures kept { Extends names.old names.new }
    ensures few { length names.new + start.now.first.start ≤ length names.old + lexer.new.at }
{
    let parser = Parser::new(alloc, start.ops, start.known);
    let variables = Variables::new(alloc);
    let mut reader = ClauseReader {
        text: start.text,
        parser,
        variables,
        before: None,
        token: start.first,
        is_query: start.is_query,
    };
    let found = reader.read(lexer, names)?;
    Ok(found)
}

impl ClauseReader<'_> {
    /// Reads the clause from the token at hand on, or says why there is none. After an error nothing is said of the
    /// reader.
    fn read(&mut self, lexer: &mut Lexer, names: &mut Names) -> Result<Found, AllocError>
        requires begins { Begins lexer.old names.old self.old }
        ensures found { IfOk result
            (IsFound (start_of lexer.old names.old self.old) names.new lexer.new) }
        ensures moved { IsMoved (start_of lexer.old names.old self.old) names.new lexer.new }
    {
        let mut state = State::ExpectOperand {
            bound: MOST_PRIORITY,
        };
        'tokens: loop {
            state = match self.take(names, state)? {
                Step::Continue(next) => next,
                Step::Finished(part) => return Ok(self.clause(part)),
                Step::Refused(refusal) => return Ok(self.refused(refusal, lexer)),
            };
            match lexer.next() {
                Ok(Some(token)) => self.advance(token),
                Ok(None) => {
                    let found = self.end(state)?;
                    return Ok(found);
                }
                Err(fault) => {
                    return Ok(Found::Refused {
                        kind: ReadKind::Lex(fault.kind),
                        at: fault.at,
                    });
                }
            }
        }
    }

    /// Takes the token at hand in a state of the parser. After an error nothing is said of the reader.
    fn take(&mut self, names: &mut Names, state: State) -> Result<Step, AllocError>
        requires ready { IsReady names.old state self.old }
        ensures taken { IfOk result (IsTaken names.old names.new state self.old self.new) }
        ensures names { AreNamed names.old names.new }
    {
        let symbol = next_symbol(
            self.parser.alloc,
            self.text,
            names,
            &mut self.variables,
            self.before,
            self.token,
        )?;
        let touched = is_touched(self.text, self.token.end);
        let step = self.parser.step(state, &symbol, touched)?;
        Ok(step)
    }

    /// The next token is at hand.
    fn advance(&mut self, token: Token)
        ensures { self.new ≡ advanced self.old token }
    {
        self.before = Some(self.token);
        self.token = token;
    }

    /// The whole clause with this term.
    fn clause(&self, part: Part) -> Found
        ensures { IsClause self.now part result }
    {
        Found::Clause(ReadClause {
            term: part.term,
            vars: self.variables.count(),
        })
    }

    /// The fault where the token at hand is refused.
    fn refused(&self, refusal: Refusal, lexer: &mut Lexer) -> Found
        requires short { length self.now.text.now ≤ most_bytes }
        requires within { lexer.old.at ≤ length lexer.old.text }
        ensures fault { IsRefusal self.now refusal lexer.old result }
        ensures fit { (count before after : ℕ) → IsFoundFit count before after result }
        ensures text { lexer.new.text ≡ lexer.old.text }
        ensures on { (lexer.old.at ≤ lexer.new.at) × (lexer.new.at ≤ length lexer.old.text) }
    {
        let at = self.token.start;
        match refusal {
            Refusal::Unexpected => Found::Refused {
                kind: ReadKind::Unexpected,
                at,
            },
            Refusal::NextUnexpected => next_fault(self.text, lexer),
            Refusal::Deep => Found::Refused {
                kind: ReadKind::Deep,
                at,
            },
        }
    }

    /// The end of the text within the clause. A query may end there. After an error nothing is said of the reader.
    fn end(&mut self, state: State) -> Result<Found, AllocError>
        requires short { length self.old.text.now ≤ most_bytes }
        requires fits { IsIn state self.old.parser }
        ensures { IfOk result (IsEnd state self.old) }
    {
        let at = self.text.len() as u32;
        if !self.is_query {
            return Ok(Found::Refused {
                kind: ReadKind::Unexpected,
                at,
            });
        }
        match self.parser.step(state, &Symbol::End, false)? {
            Step::Finished(part) => Ok(self.clause(part)),
            Step::Refused(refusal) => Ok(Found::Refused {
                kind: end_kind(refusal),
                at,
            }),
            Step::Continue(_) => Ok(Found::Refused {
                kind: ReadKind::Unexpected,
                at,
            }),
        }
    }
}
