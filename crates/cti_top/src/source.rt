//! The program of a text.

ghost use Rattle.std.specs.Prelude.{◌≡◌, ◌<◌, ◌≤◌, ℕ, None, length, position, IfOk, IfErr};
ghost use Rattle.std.specs.List.{AllByRecursion};
ghost use Rattle.cti_terms.specs.Listing.{IsProgram};
ghost use Rattle.cti_terms.specs.declared.predicates.Pred.{Pred as ThePred};
ghost use Rattle.prolog_reader.specs.Meanings.{table_of};
ghost use Rattle.clause_normal.specs.Numbering.{is_equality};
ghost use Rattle.cti_top.specs.Refusal.{lexical_number, read_number, normal_number};
ghost use Rattle.cti_top.specs.Programs.{IsProgramOf};
ghost use Rattle.cti_top.specs.Known.{NamesBuiltins};
ghost use Rattle.cti_top.specs.Faults.{IsProgramFault};

use clause_normal::{NormFault, NormKind, normal};
use cti_terms::{Names, Program};
use prolog_reader::{Ops, ReadFault, ReadKind, read_text};
use prolog_tokens::LexKind;
use std::alloc::Global;

/// The number of the refusal of a text that is too long.
pub const TOO_LONG: u32 = 8;

/// A program, with the names and the operators that its text leaves.
#[derive(Drop)]
pub struct Source {
    pub names: Names,
    pub ops: Ops,
    pub program: Program,
}

/// Why a text is refused. A place counts bytes from 0.
#[derive(Clone, Copy, Debug, PartialEq, Eq)]
pub enum SourceFault {
    /// The text is refused at this place; the kind is its number in the printed line.
    Refused { kind: u32, at: u32 },
    /// Memory ran out.
    Memory,
}

/// The number of a lexical fault's kind.
fn lexical_number(kind: LexKind) -> u32
    ensures { result ≡ lexical_number kind }
{
    match kind {
        LexKind::BadByte => 1,
        LexKind::Unclosed => 2,
        LexKind::BadEscape => 3,
        LexKind::Float => 4,
        LexKind::WideNumber => 5,
    }
}

/// The number of the kind of a fault in reading.
fn read_number(kind: ReadKind) -> u32
    ensures { result ≡ read_number kind }
{
    match kind {
        ReadKind::Lex(kind) => lexical_number(kind),
        ReadKind::Unexpected => 6,
        ReadKind::Deep => 7,
        ReadKind::Long => 8,
        ReadKind::BadOp => 14,
    }
}

/// The number of the kind of a fault of the normal form.
pub fn normal_number(kind: NormKind) -> u32
    ensures { result ≡ normal_number kind }
{
    match kind {
        NormKind::Arity => 9,
        NormKind::ManyVariables => 10,
        NormKind::NotPure => 11,
        NormKind::BadHead => 12,
        NormKind::Directive => 13,
        NormKind::ManyClauses => 15,
    }
}

impl From<ReadFault> for SourceFault {
    ghost use Rattle.std.specs.Prelude.{◌≡◌};
    ghost use Rattle.cti_top.specs.Faults.{read_fault};

    ghost from_gives = { λ fault e. e ≡ read_fault fault };

    fn from(fault: ReadFault) -> SourceFault {
        match fault {
            ReadFault::Fault { kind, at } => SourceFault::Refused {
                kind: read_number(kind),
                at,
            },
            ReadFault::Memory => SourceFault::Memory,
        }
    }
}

impl From<NormFault> for SourceFault {
    ghost use Rattle.std.specs.Prelude.{◌≡◌};
    ghost use Rattle.cti_top.specs.Faults.{normal_fault};

    ghost from_gives = { λ fault e. e ≡ normal_fault fault };

    fn from(fault: NormFault) -> SourceFault {
        match fault {
            NormFault::Fault { kind, at } => SourceFault::Refused {
                kind: normal_number(kind),
                at,
            },
            NormFault::Memory => SourceFault::Memory,
        }
    }
}

/// The program that the bytes of a text are.
pub fn program_in(alloc: Global, bytes: &[u8]) -> Result<Source, SourceFault>
    requires short { length bytes.now ≤ 1048576 }
    ensures program { IfOk result (λ s. IsProgramOf bytes.now s.names s.program (table_of s.ops)) }
    ensures known { IfOk result
        (λ s. AllByRecursion (λ (q : ThePred). q.name.0 < length s.names) s.program.preds) }
    ensures sound { IfOk result (λ s. IsProgram s.program) }
    ensures room { IfOk result (λ s. position (is_equality s.names) s.program.preds ≡ None
        → length s.program.clauses < 16385) }
    ensures arithmetic { IfOk result (λ s. NamesBuiltins s.names s.program) }
    ensures refused { IfErr result (λ fault. IsProgramFault bytes.now fault) }
{
    let mut names = Names::new(alloc);
    let text = read_text(alloc, bytes, &mut names)?;
    let program = normal(alloc, &text, &mut names);
    // No two names have the same text, so that the texts tell the names apart.
    names.count();
    Ok(Source {
        names,
        ops: text.ops,
        program: program?,
    })
}
