//! Certificates of measures with numbers.

ghost use Rattle.std.specs.Prelude.{◌≡◌, ◌≤◌, ◌<◌, ◌↔◌, ℕ, length, IfOk, MatchResult, Err, ◌⊎◌};
ghost use Rattle.certificate.specs.Reading.{most_bytes};
ghost use Rattle.certificate.specs.declared.fault.CertFault.TheVariants.{Long as TooLong, NotAFact as WrongLine, Memory};
ghost use Rattle.prove_certificate.specs.declared.prove_certificate.ProveCertificate.{ProveCertificate as TheCertificate};
ghost use Rattle.prove_certificate.specs.Text.{text_of};
ghost use Rattle.prove_certificate.specs.Range.{AreInRange};
ghost use Rattle.prove_certificate.specs.Reading.{IsFirstWrong, IsTextOf};

use crate::fact::ProveFact;
use crate::lines::{print_lines, read_lines};
use certificate::CertFault;
use sequences::Sequence;
use std::alloc::{AllocError, Global};

/// A certificate: its facts, in the order of their lines.
#[derive(Drop)]
pub struct ProveCertificate {
    pub facts: Sequence<ProveFact>,
}

impl ProveCertificate {
    /// The text: a line for each fact.
    ///
    /// It is read back where its predicates have names in valid UTF-8 and at most 12 arguments, its numbers are in the
    /// range of their kinds, and the text has at most [`certificate::MOST_BYTES`].
    pub fn print(&self, alloc: Global) -> Result<Vec<u8>, AllocError>
        ensures { IfOk result (λ text. text.items ≡ text_of self.now.facts) }
    {
        print_lines(alloc, self.facts.as_slice())
    }

    /// The certificate whose text this is.
    ///
    /// A text is that of one certificate at most. Fails with `Long` past [`certificate::MOST_BYTES`]; else with
    /// `NotAFact` and the number, from 1, of the first line that is not a fact's text (a last line without a newline is
    /// none); or `Memory`.
    pub fn read(alloc: Global, text: &[u8]) -> Result<ProveCertificate, CertFault>
        // What is read is a certificate in range, and this is its text.
        ensures value { IfOk result (λ c. IsTextOf c text.now) }

        // The text of a certificate is read as that one, unless memory runs out.
        ensures only { (c : TheCertificate) → IsTextOf c text.now
            → MatchResult result (λ read. read ≡ c) (λ fault. fault ≡ Memory) }

        // A text is too long exactly where it has more bytes than the limit.
        ensures long { (result ≡ Err TooLong) ↔ (most_bytes < length text.now) }

        // Within the limit, the fault names the first line that is not a fact, and comes where there is one.
        ensures line { (n : ℕ) → result ≡ Err (WrongLine n) → (length text.now ≤ most_bytes)
            × IsFirstWrong text.now n }
        ensures wrong { (n : ℕ) → length text.now ≤ most_bytes → IsFirstWrong text.now n
            → MatchResult result (λ c. ⊥) (λ fault. (fault ≡ WrongLine n) ⊎ (fault ≡ Memory)) }
    {
        let facts = read_lines(alloc, text)?;
        Ok(ProveCertificate { facts })
    }
}

/// No two certificates in range have one text.
pub fn one_text()
    ensures { (c d : TheCertificate) → AreInRange c.facts → AreInRange d.facts
        → text_of c.facts ≡ text_of d.facts → c ≡ d }
{}
