//! Certificates of measures with numbers: their facts, and their text.
//!
//! A certificate is a list of facts, each on a line of its own. `ProveCertificate::print` writes their lines, and
//! `read` gives the facts of a text. Whether the facts stand in the right order, and whether what they claim is true,
//! is not asked here. `read_lines` reads facts of any kind that is a `Line`.
#![tactic(auto)]

mod fact;
mod fact_line;
mod kind;
mod line;
mod lines;
mod parts;
mod printing;
mod prove_certificate;
mod reading;
mod shared_fact;

pub use fact::ProveFact;
pub use kind::CertKind;
pub use line::Line;
pub use lines::{print_lines, read_lines};
pub use prove_certificate::{ProveCertificate, one_text};
