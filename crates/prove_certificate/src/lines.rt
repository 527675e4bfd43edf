//! Texts of facts, a line for each.

ghost use Rattle.std.specs.Prelude.{◌≡◌, ◌≤◌, ◌<◌, ◌↔◌, ◌+◌, ◌++◌, ◌≢◌, ℕ, List, length, flat_map, IfOk, MatchResult, OnOk, Err, ◌⊎◌};
ghost use Rattle.std.specs.List.{AllByRecursion};
ghost use Rattle.certificate.specs.Reading.{most_bytes};
ghost use Rattle.certificate.specs.declared.fault.CertFault.TheVariants.{Long as TooLong, NotAFact as WrongLine, Memory};
ghost use Rattle.certificate.specs.declared.line_fault.LineFault.TheVariants.{Memory as NoMemory};
ghost use Rattle.certificate.specs.Parse.{AgreesText, after};
ghost use Rattle.prove_certificate.specs.Lines.{AreFactsOf, IsFirstOther};

use crate::line::Line;
use certificate::{CertFault, LineFault, MOST_BYTES};
use sequences::Sequence;
use std::alloc::{AllocError, Global};

/// What follows these bytes at the front of a text.
pub(crate) fn after<'a>(text: &'a [u8], literal: &[u8]) -> Result<&'a [u8], LineFault>
    ensures { AgreesText result (after literal.now text.now) }
{
    text.strip_prefix(literal).ok_or(LineFault::NotAFact)
}

/// The text of facts: their lines, in order.
pub fn print_lines<F: Line>(alloc: Global, facts: &[F]) -> Result<Vec<u8>, AllocError>
    ensures { IfOk result (λ text. text.items ≡ flat_map F.shown facts.now) }
{
    let mut text = Vec::new(alloc);
    for fact in facts {
        fact.print_line(&mut text)?;
    }
    Ok(text)
}

/// The facts whose text this is.
///
/// A text is that of one list of facts at most. Fails with `Long` past [`MOST_BYTES`]; else with `NotAFact` and the
/// number, from 1, of the first line that is not a fact's text (a last line without a newline is none); or `Memory`.
pub fn read_lines<F: Line>(alloc: Global, text: &[u8]) -> Result<Sequence<F>, CertFault>
    // What is read are facts in range, and this is their text.
    ensures value { IfOk result (λ facts. AreFactsOf F.shown F.fits text.now facts) }

    // The text of facts is read as those, unless memory runs out.
    ensures only { (facts : List F) → AreFactsOf F.shown F.fits text.now facts
        → MatchResult result (λ read. read ≡ facts) (λ fault. fault ≡ Memory) }

    // A text is too long exactly where it has more bytes than the limit.
    ensures long { (result ≡ Err TooLong) ↔ (most_bytes < length text.now) }

    // Within the limit, the fault names the first line that is not a fact, and comes where there is one.
    ensures line { (n : ℕ) → result ≡ Err (WrongLine n) → (length text.now ≤ most_bytes)
        × IsFirstOther F.shown F.fits text.now n }
    ensures wrong { (n : ℕ) → length text.now ≤ most_bytes → IsFirstOther F.shown F.fits text.now n
        → MatchResult result (λ facts. ⊥) (λ fault. (fault ≡ WrongLine n) ⊎ (fault ≡ Memory)) }
{
    if text.len() > MOST_BYTES {
        return Err(CertFault::Long);
    }
    let (facts, rest) = facts_in_front(alloc, text)?;
    if rest.is_empty() {
        Ok(facts)
    } else {
        Err(CertFault::NotAFact {
            line: facts.len() as u32 + 1,
        })
    }
}

/// The facts up to the first line that is not a fact, and the text from that line on.
fn facts_in_front<F: Line>(alloc: Global, text: &[u8]) -> Result<(Sequence<F>, &[u8]), AllocError>
    ensures whole { IfOk result (λ p. text.now ≡ flat_map F.shown p.0 ++ p.1.now) }
    ensures in_range { IfOk result (λ p. AllByRecursion F.fits p.0) }
    ensures few { IfOk result (λ p. length p.0 + length p.1.now ≤ length text.now) }
    ensures stops { IfOk result (λ p. (f : F) (s : List ℕ) → F.fits f
        → p.1.now ≢ F.shown f ++ s) }
{
    let mut facts = Sequence::new(alloc);
    let mut rest = text;
    loop {
        match first_fact(alloc, rest) {
            Ok((fact, after)) => {
                facts.push(fact)?;
                rest = after;
            }
            Err(LineFault::NotAFact) => return Ok((facts, rest)),
            Err(LineFault::Memory) => return Err(AllocError),
        }
    }
}

/// The fact whose line a text begins with, and the text after it.
fn first_fact<F: Line>(alloc: Global, text: &[u8]) -> Result<(F, &[u8]), LineFault>
    ensures value { IfOk result (λ p. F.fits p.0 × (text.now ≡ F.shown p.0 ++ p.1.now)) }
    ensures shorter { IfOk result (λ p. length p.1.now < length text.now) }
    ensures only { (f : F) (s : List ℕ) → F.fits f → text.now ≡ F.shown f ++ s
        → MatchResult result (λ p. (p.0 ≡ f) × (p.1.now ≡ s)) (λ fault. fault ≡ NoMemory) }
{
    let (fact, _) = F::read_line(alloc, text)?;
    let line = line_of(alloc, &fact)?;
    Ok((fact, after(text, line.as_slice())?))
}

/// The line of a fact.
fn line_of<F: Line>(alloc: Global, fact: &F) -> Result<Vec<u8>, AllocError>
    ensures { IfOk result (λ line. line.items ≡ F.shown fact.now) }
{
    let mut line = Vec::new(alloc);
    fact.print_line(&mut line)?;
    Ok(line)
}
