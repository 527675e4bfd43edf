//! Certificates: the facts that show a program's modes, and their text.
#![tactic(auto)]

mod cell;
mod certificate;
mod fact;
mod fault;
mod field;
mod how;
mod line;
mod line_fault;
mod lists;
mod names;
mod norm;
mod numbers;
mod pred_text;
mod printing;
mod reading;

pub use cell::CertCell;
pub use certificate::{Certificate, MOST_BYTES, one_text};
pub use fact::Fact;
pub use fault::CertFault;
pub use field::Field;
pub use how::CertHow;
pub use line::{line_of_four, line_of_mark, line_of_one, line_of_three, line_of_two, line_part};
pub use line_fault::LineFault;
pub use norm::CertNorm;
pub use pred_text::PredText;
