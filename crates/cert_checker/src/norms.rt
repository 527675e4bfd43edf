//! The norm of a certificate.

ghost use Rattle.std.specs.Prelude.{◌≡◌};
ghost use Rattle.cert_checker.specs.Norms.{norm_in};

use certificate::CertNorm;
use cti_terms::Names;
use term_size::{AnyNorm, ListSize, TermSize};

/// The norm that a certificate names: term size, where it names none.
///
/// The names are those of the program. It takes no memory.
pub fn norm_of(names: &Names, norm: Option<CertNorm>) -> AnyNorm
    ensures { result ≡ norm_in names.now norm }
{
    match norm {
        None | Some(CertNorm::Term) => AnyNorm::Terms(TermSize),
        Some(CertNorm::List) => AnyNorm::Lists(ListSize::among(names)),
    }
}
