//! Reading texts and queries.

ghost use Rattle.std.specs.Prelude.{◌≡◌, nat_lt, ◌≤◌, ◌<◌, ◌+◌, [], ℕ, List, length, Ok, Err, IfOk, IfErr, Result};
ghost use Rattle.prolog_reader.specs.declared.fault.ReadFault.TheVariants.{Fault as Refused};
ghost use Rattle.prolog_reader.specs.declared.fault.ReadKind.TheVariants.{Long as TooLong};
ghost use Rattle.prolog_operators.specs.Names.{Extends};
ghost use Rattle.prolog_reader.specs.Naming.{AreNamesOf, BeginNames, text_own, query_own};
ghost use Rattle.prolog_grammar.specs.Places.{IsPlaced};
ghost use Rattle.prolog_reader.specs.Places.{ArePlacedClauses, IsFaultPlaced};
ghost use Rattle.prolog_terms.specs.Terms.{clause_of};
ghost use Rattle.prolog_reader.specs.Limits.{most_bytes};
ghost use Rattle.prolog_operators.specs.Meanings.{table_of};
ghost use Rattle.prolog_operators.specs.Table.{Table, standard};
ghost use Rattle.prolog_reader.specs.Knowing.{AreKnown, AreWords};
ghost use Rattle.prolog_reader.specs.Reading.{Answer, Fault, IsTextAnswer, IsQueryAnswer};
ghost use Rattle.prolog_terms.specs.Clauses.{Clause};
ghost use Rattle.prolog_reader.specs.Fit.{AreFit, IsQueryFit};
ghost use Rattle.prolog_reader.specs.Answers.{AnswersText, AnswersQuery, RefusesText, RefusesQuery, SaysText, SaysQuery};

use crate::clause_reading::{ClauseStart, Found, read_clause};
use crate::directives::obey;
use crate::fault::{ReadFault, ReadKind};
use crate::limits::MOST_BYTES;
use crate::text::ReadText;
use crate::words::{Words, find_known, find_words};
use cti_terms::Names;
use prolog_operators::Ops;
use prolog_terms::{Known, ReadClause, ReadClauses};
use prolog_tokens::Lexer;
use std::alloc::{AllocError, Global};

/// Reads all clauses of a text of at most 1,048,576 bytes. A clause `:- op(P,T,N)` sets operators for the clauses after
/// it.
///
/// A place counts bytes from 0. Names that the text adds stay in `names`, also after a refusal. That memory runs out
/// only where a growth was refused is said by no clause.
///
/// Source: ISO/IEC 13211-1:1995, 6.2, in this project's profile.
pub fn read_text(alloc: Global, text: &[u8], names: &mut Names) -> Result<ReadText, ReadFault>
    requires room { length names.old ≤ 4292870143 }

    // What is read is what the text reads as, and a refusal is its first fault.
    ensures found { IfOk result
        (λ read. AnswersText names.new text.now (Ok (read.clauses, table_of read.ops))) }
    ensures refused { IfErr result (λ fault. RefusesText names.new text.now fault) }

    // No text has two answers: what it reads as by the names is what is read, or it is refused as it has to be, unless
    // memory runs out.
    ensures only { (later : List (List ℕ)) (answer : Answer) → Extends names.new later
        → IsTextAnswer later text.now answer → SaysText result answer }

    // The names are those that the text gives, and after a refusal the first of them. Earlier names keep their numbers.
    ensures names { IfOk result (λ read. AreNamesOf text_own names.old text.now names.new) }
    ensures begin { IfErr result (λ fault. BeginNames text_own names.old text.now names.new fault) }
    ensures kept { Extends names.old names.new }

    // There are at most as many new ones as the text has bytes and the operators have names.
    ensures few { length names.new ≤ length names.old + length text.now + 53 }

    // The terms stand within the text, and so does the place of a refusal.
    ensures placed { IfOk result (λ read. ArePlacedClauses (length text.now) read.clauses) }
    ensures place { IfErr result (λ fault. IsFaultPlaced (length text.now) fault) }

    // Names and variables of the clauses are in range, and so are the nodes of all terms together.
    ensures fit { IfOk result (λ read. AreFit (length names.new) read.clauses) }
{
    read_short(alloc, text, names)
}

/// Whether a text has too many bytes.
fn is_long(text: &[u8]) -> bool
    ensures { result ≡ nat_lt most_bytes (length text.now) }
{
    text.len() > MOST_BYTES
}

/// Reads all clauses of a text, if it is short enough.
fn read_short(alloc: Global, text: &[u8], names: &mut Names) -> Result<ReadText, ReadFault>
    requires room { length names.old ≤ 4292870143 }
    ensures found { IfOk result
        (λ read. AnswersText names.new text.now (Ok (read.clauses, table_of read.ops))) }
    ensures refused { IfErr result (λ fault. RefusesText names.new text.now fault) }
    ensures names { IfOk result (λ read. AreNamesOf text_own names.old text.now names.new) }
    ensures begin { IfErr result (λ fault. BeginNames text_own names.old text.now names.new fault) }
    ensures kept { Extends names.old names.new }
    ensures few { length names.new ≤ length names.old + length text.now + 53 }
    ensures fit { IfOk result (λ read. AreFit (length names.new) read.clauses) }
{
    if is_long(text) {
        return Err(ReadFault::Fault {
            kind: ReadKind::Long,
            at: 0,
        });
    }
    let words = find_words(names)?;
    let ops = Ops::standard(alloc, names)?;
    read_clauses(alloc, text, names, words, ops)
}

/// Reads the clauses of a text by these operators.
fn read_clauses(
    alloc: Global,
    text: &[u8],
    names: &mut Names,
    words: Words,
    ops: Ops,
) -> Result<ReadText, ReadFault>
    requires short { length text.now ≤ most_bytes }
    requires room { length names.old ≤ 4293000000 }
    requires words { AreWords names.old words }
    requires standard { (later : List (List ℕ)) → Extends names.old later
        → table_of ops ≡ standard later }
    ensures found { IfOk result
        (λ read. AnswersText names.new text.now (Ok (read.clauses, table_of read.ops))) }
    ensures refused { IfErr result (λ fault. RefusesText names.new text.now fault) }
    ensures names { IfOk result (λ read. AreNamesOf [] names.old text.now names.new) }
    ensures begin { IfErr result (λ fault. BeginNames [] names.old text.now names.new fault) }
    ensures kept { Extends names.old names.new }
    ensures few { length names.new ≤ length names.old + length text.now }
    ensures fit { IfOk result (λ read. AreFit (length names.new) read.clauses) }
{
    let mut ops = ops;
    let mut lexer = Lexer::new(text);
    let mut clauses = ReadClauses::new(alloc);
    'clauses: loop {
        let first = match lexer.next() {
            Ok(Some(token)) => token,
            Ok(None) => return Ok(ReadText { clauses, ops }),
            Err(fault) => {
                return Err(ReadFault::Fault {
                    kind: ReadKind::Lex(fault.kind),
                    at: fault.at,
                });
            }
        };
        let start = ClauseStart {
            text,
            ops: &ops,
            known: words.known,
            first,
            is_query: false,
        };
        match read_clause(alloc, &start, &mut lexer, names)? {
            Found::Clause(clause) => {
                if !obey(&mut ops, &words, &clause.term)? {
                    return Err(ReadFault::Fault {
                        kind: ReadKind::BadOp,
                        at: clause.term.at,
                    });
                }
                clauses.push(clause)?;
            }
            Found::Refused { kind, at } => return Err(ReadFault::Fault { kind, at }),
        }
    }
}

/// Reads one term with an optional end, by these operators. Nothing may follow it.
///
/// A place counts bytes from 0. Names that the query adds stay in `names`, also after a refusal.
///
/// Source: ISO/IEC 13211-1:1995, 6.2, in this project's profile.
pub fn read_query(
    alloc: Global,
    text: &[u8],
    names: &mut Names,
    ops: &Ops,
) -> Result<ReadClause, ReadFault>
    requires room { length names.old ≤ 4292870143 }

    // What is read is what the query reads as by the operators, and a refusal is its first fault.
    ensures found { IfOk result
        (λ clause. AnswersQuery names.new (table_of ops.now) text.now (Ok (clause_of clause))) }
    ensures refused { IfErr result
        (λ fault. RefusesQuery names.new (table_of ops.now) text.now fault) }

    // No query has two answers.
    ensures only { (later : List (List ℕ)) (answer : Result Clause Fault) → Extends names.new later
        → IsQueryAnswer later (table_of ops.now) text.now answer → SaysQuery result answer }

    // The names are those that the query gives, and after a refusal the first of them. Earlier names keep their
    // numbers.
    ensures names { IfOk result (λ clause. AreNamesOf query_own names.old text.now names.new) }
    ensures begin { IfErr result
        (λ fault. BeginNames query_own names.old text.now names.new fault) }
    ensures kept { Extends names.old names.new }

    // There are at most as many new ones as the query has bytes and the syntax has names.
    ensures few { length names.new ≤ length names.old + length text.now + 4 }

    // The term stands within the query, and so does the place of a refusal.
    ensures placed { IfOk result (λ clause. IsPlaced (length text.now) (clause_of clause).term) }
    ensures place { IfErr result (λ fault. IsFaultPlaced (length text.now) fault) }

    // Names and variables of the term are in range, and so are its nodes.
    ensures fit { IfOk result (λ clause. IsQueryFit (length names.new) (clause_of clause)) }
{
    read_short_query(alloc, text, names, ops)
}

/// Reads a query, if it is short enough.
fn read_short_query(
    alloc: Global,
    text: &[u8],
    names: &mut Names,
    ops: &Ops,
) -> Result<ReadClause, ReadFault>
    requires room { length names.old ≤ 4292870143 }
    ensures found { IfOk result
        (λ clause. AnswersQuery names.new (table_of ops.now) text.now (Ok (clause_of clause))) }
    ensures refused { IfErr result
        (λ fault. RefusesQuery names.new (table_of ops.now) text.now fault) }
    ensures names { IfOk result (λ clause. AreNamesOf query_own names.old text.now names.new) }
    ensures begin { IfErr result
        (λ fault. BeginNames query_own names.old text.now names.new fault) }
    ensures kept { Extends names.old names.new }
    ensures few { length names.new ≤ length names.old + length text.now + 4 }
    ensures fit { IfOk result (λ clause. IsQueryFit (length names.new) (clause_of clause)) }
{
    if is_long(text) {
        return Err(ReadFault::Fault {
            kind: ReadKind::Long,
            at: 0,
        });
    }
    let known = find_known(names)?;
    read_term(alloc, text, names, known, ops)
}

/// Reads a query by these names.
fn read_term(
    alloc: Global,
    text: &[u8],
    names: &mut Names,
    known: Known,
    ops: &Ops,
) -> Result<ReadClause, ReadFault>
    requires short { length text.now ≤ most_bytes }
    requires room { length names.old ≤ 4293000000 }
    requires known { AreKnown names.old known }
    ensures found { IfOk result
        (λ clause. AnswersQuery names.new (table_of ops.now) text.now (Ok (clause_of clause))) }
    ensures refused { IfErr result
        (λ fault. RefusesQuery names.new (table_of ops.now) text.now fault) }
    ensures names { IfOk result (λ clause. AreNamesOf [] names.old text.now names.new) }
    ensures begin { IfErr result (λ fault. BeginNames [] names.old text.now names.new fault) }
    ensures kept { Extends names.old names.new }
    ensures few { length names.new ≤ length names.old + length text.now }
    ensures fit { IfOk result (λ clause. IsQueryFit (length names.new) (clause_of clause)) }
{
    let mut lexer = Lexer::new(text);
    let first = match lexer.next() {
        Ok(Some(token)) => token,
        Ok(None) => {
            return Err(ReadFault::Fault {
                kind: ReadKind::Unexpected,
                at: text.len() as u32,
            });
        }
        Err(fault) => {
            return Err(ReadFault::Fault {
                kind: ReadKind::Lex(fault.kind),
                at: fault.at,
            });
        }
    };
    let start = ClauseStart {
        text,
        ops,
        known,
        first,
        is_query: true,
    };
    let clause = match read_clause(alloc, &start, &mut lexer, names)? {
        Found::Clause(clause) => clause,
        Found::Refused { kind, at } => return Err(ReadFault::Fault { kind, at }),
    };
    match lexer.next() {
        Ok(None) => Ok(clause),
        Ok(Some(token)) => Err(ReadFault::Fault {
            kind: ReadKind::Unexpected,
            at: token.start,
        }),
        Err(fault) => Err(ReadFault::Fault {
            kind: ReadKind::Lex(fault.kind),
            at: fault.at,
        }),
    }
}

/// By the same names a text has exactly one answer, and by the same names and operators a query has: the clauses that
/// it reads as, or its first fault. So no text is read as two programs, and none is both read and refused. And a text
/// gives one list of names.
pub fn one_answer()
    ensures text { (names : List (List ℕ)) (text : List ℕ) (answer other : Answer)
        → IsTextAnswer names text answer → IsTextAnswer names text other → answer ≡ other }
    ensures some_text { (names : List (List ℕ)) (text : List ℕ) → (answer : Answer)
        × IsTextAnswer names text answer }
    ensures names { (own earlier : List (List ℕ)) (text : List ℕ) (names other : List (List ℕ))
        → AreNamesOf own earlier text names → AreNamesOf own earlier text other → names ≡ other }
    ensures some_names { (own earlier : List (List ℕ)) (text : List ℕ) → (names : List (List ℕ))
        × AreNamesOf own earlier text names }
    ensures query { (names : List (List ℕ)) (table : Table) (text : List ℕ)
        (answer other : Result Clause Fault) → IsQueryAnswer names table text answer
        → IsQueryAnswer names table text other → answer ≡ other }
    ensures some_query { (names : List (List ℕ)) (table : Table) (text : List ℕ)
        → (answer : Result Clause Fault) × IsQueryAnswer names table text answer }
{}
