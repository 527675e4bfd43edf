//! The answer to the words, complete before any of it is written.

ghost use Rattle.std.specs.Prelude.{◌≡◌, ◌≢◌, ◌<◌, ◌≤◌, ◌⊎◌, List, ℕ, length, map, position, Some, None, IfOk, IfErr, IsErrOf};
ghost use Rattle.std.specs.List.{AllByRecursion};
ghost use Rattle.cti_terms.specs.declared.predicates.Pred.{Pred as ThePred};
ghost use Rattle.clause_normal.specs.Numbering.{is_equality};
ghost use Rattle.command_words.specs.Words.{Ask, asks, origin, session, usage_lines};
ghost use Rattle.report.specs.Generated.{generated};
ghost use Rattle.cti_top.specs.Queries.{Known};
ghost use Rattle.cti_top.specs.Known.{known_of, NamesBuiltins};
ghost use Rattle.cti_top.specs.Runs.{IsKnown};
ghost use Rattle.cti_top.specs.Outcome.{CertificateRose, FileRose, IsAnswer, OriginRose, TellsLong, TellsText};
ghost use Rattle.outside.specs.Told.{Keeps};
ghost use Rattle.command_words.specs.Requests.{ask_of, origin_of, IsAskInRange, IsInRange};
ghost use Rattle.cti_top.specs.Answers.{AnswersAsk, AnswersProgram, AnswersRequest};

use crate::answer::{Answer, refused, too_long};
use crate::checking::check_of;
use crate::generating::gen_of;
use crate::inferring::infer_of;
use crate::lexing::lex_of;
use crate::looping::loop_of;
use crate::refusal::Subject;
use crate::running::run_of;
use crate::session::session_of;
use crate::source::{Source, SourceFault, program_in};
use crate::status::Status;
use command_words::{Origin, Request, RequestFault, request_in, usage_text};
use outside::{Files, LoadFault};
use prolog_reader::MOST_BYTES;
use report::gen_source;
use std::alloc::{AllocError, Global};

/// The answer to what is asked of a program that was read, or the status of a call that writes nothing.
#[tactic(auto, using(crate::proofs::KeepLemmas::untouched, crate::proofs::KeepLemmas::loaded))]
fn answer_program<F: Files>(
    alloc: Global,
    source: Source,
    request: Request,
    files: &mut F,
) -> Result<Answer, Status>
    requires known { AllByRecursion
        (λ (q : ThePred). q.name.0 < length source.names) source.program.preds }
    requires room { position (is_equality source.names) source.program.preds ≡ None
        → length source.program.clauses < 16385 }
    requires arithmetic { NamesBuiltins source.names source.program }
    requires range { IsAskInRange (ask_of request) }
    requires program { (name : List ℕ) → ask_of request ≢ session name }
    ensures answered { IfOk result (λ a. (bytes : List ℕ) → IsKnown bytes (known_of source)
        → AnswersAsk (F.told files.old) bytes (ask_of request.entry) a.status a.text.items) }
    ensures file_fault { IsErrOf result Status.FileFault
        → CertificateRose (ask_of request.entry) (F.faults files.old) (F.faults files.new) }
    ensures others { IfErr result (λ e. (e ≡ Status.FileFault) ⊎ (e ≡ Status.Memory)) }
    ensures kept { Keeps (F.told files.old) (F.told files.new) (F.faults files.old)
        (F.faults files.new) }
{
    match request {
        Request::Infer(_, norm) => Ok(infer_of(alloc, &source, norm)?),
        Request::Check(_, certificate) => check_of(alloc, &source, certificate, files),
        Request::Run(_, query, steps) => Ok(run_of(alloc, source, query.as_bytes(), steps)?),
        Request::Generate(predicates) => Ok(gen_of(alloc, &source, predicates)?),
        Request::Lex(_) => Ok(lex_of(alloc, &source)?),
        Request::Loop(_, query, depth) => Ok(loop_of(alloc, source, query.as_bytes(), depth)?),
        Request::Session(_) => unreachable!(),
    }
}

/// The answer to what is asked of the bytes of a program or of edits, or the status of a call that writes nothing.
#[tactic(auto, using(crate::proofs::KeepLemmas::untouched, crate::proofs::KeepLemmas::loaded))]
fn answer_text<F: Files>(
    alloc: Global,
    bytes: &[u8],
    request: Request,
    files: &mut F,
) -> Result<Answer, Status>
    requires short { length bytes.now ≤ 1048576 }
    requires range { IsAskInRange (ask_of request) }
    ensures answered { IfOk result
        (λ a. AnswersProgram (F.told files.old) bytes.now
        (ask_of request.entry) a.status a.text.items) }
    ensures file_fault { IsErrOf result Status.FileFault → (known : Known) × IsKnown bytes.now known
        × CertificateRose (ask_of request.entry) (F.faults files.old) (F.faults files.new) }
    ensures others { IfErr result (λ e. (e ≡ Status.FileFault) ⊎ (e ≡ Status.Memory)) }
    ensures kept { Keeps (F.told files.old) (F.told files.new) (F.faults files.old)
        (F.faults files.new) }
{
    if let Request::Session(_) = request {
        return Ok(session_of(alloc, bytes)?);
    }
    match program_in(alloc, bytes) {
        Ok(source) => answer_program(alloc, source, request, files),
        Err(SourceFault::Refused { kind, at }) => {
            Ok(refused(alloc, Subject::Program, bytes, kind, at)?)
        }
        Err(SourceFault::Memory) => Err(Status::Memory),
    }
}

/// The text of generated predicates.
fn generated(alloc: Global, predicates: u32) -> Result<Vec<u8>, LoadFault>
    requires some { 1 ≤ predicates }
    requires few { predicates ≤ 300 }
    ensures text { IfOk result (λ text. text.items ≡ generated predicates) }
    ensures short { IfOk result (λ text. length text.items ≤ 1048576) }
    ensures memory { IfErr result (λ fault. fault ≡ LoadFault.Memory) }
{
    match gen_source(alloc, predicates) {
        Ok(text) => Ok(text),
        Err(_) => Err(LoadFault::Memory),
    }
}

/// The text of this origin.
fn text_of<F: Files>(alloc: Global, origin: Origin, files: &mut F) -> Result<Vec<u8>, LoadFault>
    requires { IsInRange (origin_of origin) }
    ensures text { IfOk result
        (λ text. TellsText (F.told files.old) (origin_of origin.entry) text.items) }
    ensures short { IfOk result (λ text. length text.items ≤ 1048576) }
    ensures long { IsErrOf result LoadFault.TooLong
        → TellsLong (F.told files.old) (origin_of origin.entry) }
    ensures cause { IsErrOf result LoadFault.Failed
        → OriginRose (origin_of origin.entry) (F.faults files.old) (F.faults files.new) }
    ensures calm { (IsErrOf result LoadFault.Failed → ⊥) → (name : List ℕ)
        → F.faults files.new name ≡ F.faults files.old name }
    ensures later { (name : List ℕ) → F.faults files.old name ≤ F.faults files.new name }
    ensures stays { F.told files.new ≡ F.told files.old }
{
    match origin {
        Origin::File(name) => files.load(alloc, name, MOST_BYTES as u64),
        Origin::Generated(predicates) => generated(alloc, predicates),
    }
}

/// The answer to what is asked, or the status of a call that writes nothing.
#[tactic(auto, using(crate::proofs::KeepLemmas::untouched, crate::proofs::KeepLemmas::loaded))]
fn answer_request<F: Files>(
    alloc: Global,
    request: Request,
    files: &mut F,
) -> Result<Answer, Status>
    requires { IsAskInRange (ask_of request) }
    ensures answered { IfOk result
        (λ a. AnswersRequest (F.told files.old) (ask_of request.entry) a.status a.text.items) }
    ensures file_fault { IsErrOf result Status.FileFault
        → FileRose (F.told files.old) (ask_of request.entry) (F.faults files.old)
        (F.faults files.new) }
    ensures others { IfErr result (λ e. (e ≡ Status.FileFault) ⊎ (e ≡ Status.Memory)) }
    ensures kept { Keeps (F.told files.old) (F.told files.new) (F.faults files.old)
        (F.faults files.new) }
{
    match text_of(alloc, request.origin(), files) {
        Ok(program) => answer_text(alloc, &program, request, files),
        Err(LoadFault::TooLong) => Ok(too_long(alloc, Subject::Program)?),
        Err(LoadFault::Failed) => Err(Status::FileFault),
        Err(LoadFault::Memory) => Err(Status::Memory),
    }
}

/// The answer to words that are not a command.
fn usage(alloc: Global) -> Result<Answer, AllocError>
    ensures { IfOk result (λ a. (a.status ≡ Status.Usage) × (a.text.items ≡ usage_lines)) }
{
    Ok(Answer {
        status: Status::Usage,
        text: usage_text(alloc)?,
    })
}

/// The answer to the words, or the status of a call that writes nothing.
#[tactic(auto, using(crate::proofs::KeepLemmas::untouched, crate::proofs::KeepLemmas::loaded))]
pub fn answer_words<F: Files>(
    alloc: Global,
    words: &[&str],
    files: &mut F,
) -> Result<Answer, Status>
    ensures answered { IfOk result
        (λ a. IsAnswer (F.told files.old)
        (map (λ w. w.now) words.entry.now) a.status a.text.items) }
    ensures file_fault { IsErrOf result Status.FileFault
        → (ask : Ask) × (asks (map (λ w. w.now) words.entry.now) ≡ Some ask)
        × FileRose (F.told files.old) ask (F.faults files.old) (F.faults files.new) }
    ensures others { IfErr result (λ e. (e ≡ Status.FileFault) ⊎ (e ≡ Status.Memory)) }
    ensures kept { Keeps (F.told files.old) (F.told files.new) (F.faults files.old)
        (F.faults files.new) }
{
    match request_in(alloc, words) {
        Ok(request) => answer_request(alloc, request, files),
        Err(RequestFault::Usage) => Ok(usage(alloc)?),
        Err(RequestFault::Memory) => Err(Status::Memory),
    }
}
