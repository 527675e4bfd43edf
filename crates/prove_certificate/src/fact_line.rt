//! The facts of a certificate of measures with numbers, as lines.

ghost use Rattle.prove_certificate.specs.Text.{fact_text};
ghost use Rattle.prove_certificate.specs.Range.{InRange};
ghost use Rattle.prove_certificate.specs.Parse.{read_fact};
ghost use Rattle.prove_certificate.specs.FactLaws.{fact_back, one_line};

use crate::fact::ProveFact;
use crate::line::Line;
use crate::printing::print_fact;
use crate::reading::read_fact;
use certificate::LineFault;
use std::alloc::{AllocError, Global};

impl Line for ProveFact {
    ghost shown = { fact_text };

    ghost fits = { InRange };

    ghost reads = { read_fact };

    ghost one_line = { one_line };

    ghost read_back = { fact_back };

    fn print_line(&self, out: &mut Vec<u8>) -> Result<(), AllocError> {
        print_fact(self, out)
    }

    fn read_line(alloc: Global, text: &[u8]) -> Result<(ProveFact, &[u8]), LineFault> {
        read_fact(alloc, text)
    }
}
