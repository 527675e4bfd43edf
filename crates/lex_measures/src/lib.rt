//! Inference of a certificate of lists of level mappings, with all the modes that its size rows, ground rows and lists
//! give.
//!
//! What makes such a certificate exact is `IsExact` of `specs/Exact.antt`; what makes it valid, `IsValid` of
//! `lex_checker`.
//!
//! Depends on the engines, on `cert_assembly`, which gives what lists and mappings have in common, and on
//! `lex_certificate`, which writes the facts.
#![tactic(auto)]

mod assembling;
mod inferring;
pub mod laws;
mod notes;
mod places;
mod printed;

pub use inferring::infer;
pub use lex_certificate::{LexCertificate, LexFact};
pub use lex_checker::check;
