//! Certificates.

ghost use Rattle.std.specs.Prelude.{◌≡◌, ◌≤◌, ◌<◌, ◌↔◌, ◌+◌, ◌++◌, ◌≢◌, ℕ, List, length, IfOk, MatchResult, OnOk, Err, ◌⊎◌};
ghost use Rattle.certificate.specs.declared.certificate.Certificate.{Certificate as TheCertificate};
ghost use Rattle.certificate.specs.declared.fact.Fact.{Fact as TheFact};
ghost use Rattle.certificate.specs.declared.fault.CertFault.TheVariants.{Long as TooLong, NotAFact as WrongLine, Memory};
ghost use Rattle.certificate.specs.declared.line_fault.LineFault.TheVariants.{Memory as NoMemory};
ghost use Rattle.certificate.specs.Text.{fact_text, text_of};
ghost use Rattle.certificate.specs.Range.{InRange, AreInRange};
ghost use Rattle.certificate.specs.Lines.{IsFirstWrong};
ghost use Rattle.certificate.specs.Reading.{IsTextOf, most_bytes};

use crate::fact::Fact;
use crate::fault::CertFault;
use crate::line_fault::LineFault;
use crate::numbers::after;
use crate::printing::print_fact;
use crate::reading::read_fact;
use sequences::Sequence;
use std::alloc::{AllocError, Global};

/// The most bytes of a certificate's text that is read.
pub const MOST_BYTES: usize = 16_777_216;

/// A certificate: its facts, in the order of their lines.
#[derive(Drop)]
pub struct Certificate {
    pub facts: Sequence<Fact>,
}

impl Certificate {
    /// The text: a line for each fact.
    ///
    /// It is read back where its predicates have names in valid UTF-8 and at most 12 arguments, its numbers are in the
    /// range of their kinds, and the text has at most [`MOST_BYTES`].
    pub fn print(&self, alloc: Global) -> Result<Vec<u8>, AllocError>
        ensures { IfOk result (λ text. text.items ≡ text_of self.now.facts) }
    {
        let mut text = Vec::new(alloc);
        for fact in self.facts.as_slice() {
            print_fact(fact, &mut text)?;
        }
        Ok(text)
    }

    /// The certificate whose text this is.
    ///
    /// A text is that of one certificate at most. Fails with `Long` past [`MOST_BYTES`]; else with `NotAFact` and the
    /// number, from 1, of the first line that is not a fact's text (a last line without a newline is none); or
    /// `Memory`.
    pub fn read(alloc: Global, text: &[u8]) -> Result<Certificate, CertFault>
        // What is read is a certificate in range, and this is its text.
        ensures value { IfOk result (λ c. IsTextOf c text.now) }

        // The text of a certificate is read as that one, unless memory runs out.
        ensures only { (c : TheCertificate) → IsTextOf c text.now
            → MatchResult result (λ read. read ≡ c) (λ fault. fault ≡ Memory) }

        // A text is too long exactly where it has more bytes than the limit.
        ensures long { (result ≡ Err TooLong) ↔ (most_bytes < length text.now) }

        // Within the limit, the fault names the first line that is not a fact, and comes where there is one.
        ensures line { (n : ℕ) → result ≡ Err (WrongLine n) → (length text.now ≤ most_bytes)
            × IsFirstWrong text.now n }
        ensures wrong { (n : ℕ) → length text.now ≤ most_bytes → IsFirstWrong text.now n
            → MatchResult result (λ c. ⊥) (λ fault. (fault ≡ WrongLine n) ⊎ (fault ≡ Memory)) }
    {
        if text.len() > MOST_BYTES {
            return Err(CertFault::Long);
        }
        let (facts, rest) = read_facts(alloc, text)?;
        if rest.is_empty() {
            Ok(Certificate { facts })
        } else {
            Err(CertFault::NotAFact {
                line: facts.len() as u32 + 1,
            })
        }
    }
}

/// The facts up to the first line that is not a fact, and the text from that line on.
fn read_facts(alloc: Global, text: &[u8]) -> Result<(Sequence<Fact>, &[u8]), AllocError>
    ensures whole { IfOk result (λ p. text.now ≡ text_of p.0 ++ p.1.now) }
    ensures in_range { IfOk result (λ p. AreInRange p.0) }
    ensures few { IfOk result (λ p. length p.0 + length p.1.now ≤ length text.now) }
    ensures stops { IfOk result (λ p. (f : TheFact) (s : List ℕ) → InRange f
        → p.1.now ≢ fact_text f ++ s) }
{
    let mut facts = Sequence::new(alloc);
    let mut rest = text;
    loop {
        match first_fact(alloc, rest) {
            Ok((fact, after)) => {
                facts.push(fact)?;
                rest = after;
            }
            Err(LineFault::NotAFact) => return Ok((facts, rest)),
            Err(LineFault::Memory) => return Err(AllocError),
        }
    }
}

/// The fact whose line a text begins with, and the text after it.
fn first_fact(alloc: Global, text: &[u8]) -> Result<(Fact, &[u8]), LineFault>
    ensures value { IfOk result (λ p. InRange p.0 × (text.now ≡ fact_text p.0 ++ p.1.now)) }
    ensures only { (f : TheFact) (s : List ℕ) → InRange f → text.now ≡ fact_text f ++ s
        → MatchResult result (λ p. (p.0 ≡ f) × (p.1.now ≡ s)) (λ fault. fault ≡ NoMemory) }
{
    let (fact, _) = read_fact(alloc, text)?;
    let line = line_of(alloc, &fact)?;
    Ok((fact, after(text, line.as_slice())?))
}

/// The line of a fact.
fn line_of(alloc: Global, fact: &Fact) -> Result<Vec<u8>, AllocError>
    ensures { IfOk result (λ line. line.items ≡ fact_text fact.now) }
{
    let mut line = Vec::new(alloc);
    print_fact(fact, &mut line)?;
    Ok(line)
}

/// No two certificates in range have one text.
pub fn one_text()
    ensures { (c d : TheCertificate) → AreInRange c.facts → AreInRange d.facts
        → text_of c.facts ≡ text_of d.facts → c ≡ d }
{}
