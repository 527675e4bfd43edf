//! The top call of `cti`, over the traits of `outside`.
#![tactic(auto)]

mod answer;
pub mod answered_laws;
mod answering;
mod checking;
pub mod generated_laws;
mod generating;
mod inferring;
pub mod laws;
mod lexing;
mod looping;
mod places;
mod querying;
mod refusal;
mod running;
mod session;
mod source;
mod status;
mod sure;
mod top_call;
mod verdicts;

pub use outside::{
    Files, KeptFiles, LoadFault, MemFiles, MemSink, RealFiles, RealSink, Sink, SinkFault,
    SureFiles, SureSink,
};
pub use refusal::{Subject, refusal_text};
pub use status::Status;
pub use sure::sure_command;
pub use term_text::run_text;
pub use top_call::command;
pub use verdicts::verdict_text;
