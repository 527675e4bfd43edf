//! What `cti` says on standard error: a sentence for each kind of refusal, each reason of a No and each fault of words,
//! with the place, the line of the text, and what to do.
//!
//! The answer on standard output is made elsewhere, and its beginning is read here as any reader would read it:
//! `Ending` says how the call ended and which texts it loaded, and `explain` makes the message. It depends on
//! `mistakes` and `certificate_mistakes` for what a text shows about a mistake, on `mistake_sentences` for how that is
//! said, on `token_search` for places, and on `word_faults` for the words.
#![tactic(auto)]

mod advising;
mod ending;
mod excerpt;
mod expected;
mod explaining;
mod file_cause;
mod no_reason;
mod place;
mod refusal_kind;
mod scan;
pub mod status;
mod telling;
mod texts;
mod told;
mod trouble;

pub use ending::Ending;
pub use excerpt::{push_excerpt, push_shown};
pub use explaining::{call_message, explain};
pub use file_cause::FileCause;
pub use no_reason::NoReason;
pub use place::Place;
pub use refusal_kind::RefusalKind;
pub use telling::{message, push_help};
pub use texts::Texts;
pub use told::{Subject, ToldNo, ToldRefusal};
pub use trouble::Trouble;
