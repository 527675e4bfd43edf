//! Inference: the certificate of a program, with all the modes that its size rows, ground rows and mappings give.
//!
//! What makes a certificate exact is `IsExact` of `specs/Exact.antt`. Laws say what follows from that.
//!
//! Depends on the engines, which give the parts of a certificate, and on `cert_writing`, which writes its facts.
#![tactic(auto)]

mod assembling;
mod generating;
mod inferring;
pub mod laws;
mod levels;
mod solution;
mod support_notes;

pub use generating::gen_source;
pub use inferring::{infer, infer_text};
pub use solution::{Solution, certificate_of, levels_of};
