//! Certificates of lists of mappings.

ghost use Rattle.std.specs.Prelude.{◌≡◌, IfOk};
ghost use Rattle.lex_certificate.specs.Text.{text_of};

use crate::fact::LexFact;
use crate::printing::print_fact;
use sequences::Sequence;
use std::alloc::{AllocError, Global};

/// A certificate: its facts, in the order of their lines.
#[derive(Drop)]
pub struct LexCertificate {
    pub facts: Sequence<LexFact>,
}

impl LexCertificate {
    /// The text: a line for each fact.
    pub fn print(&self, alloc: Global) -> Result<Vec<u8>, AllocError>
        ensures { IfOk result (λ text. text.items ≡ text_of self.now.facts) }
    {
        let mut text = Vec::new(alloc);
        for fact in self.facts.as_slice() {
            print_fact(fact, &mut text)?;
        }
        Ok(text)
    }
}
