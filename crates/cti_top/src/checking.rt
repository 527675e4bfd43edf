//! The answer to a certificate of a program.

ghost use Rattle.std.specs.Prelude.{◌≡◌, ◌<◌, ◌≤◌, ◌⊎◌, length, IfOk, IfErr, IsErrOf};
ghost use Rattle.std.specs.List.{AllByRecursion};
ghost use Rattle.certificate.specs.Reading.{IsTextOf, most_bytes};
ghost use Rattle.cti_terms.specs.declared.predicates.Pred.{Pred as ThePred};
ghost use Rattle.cti_top.specs.Answers.{AnswersCertificate, AnswersText, verdict_status};
ghost use Rattle.outside.specs.Causes.{Rose};
ghost use Rattle.cti_top.specs.Checks.{IsVerdictOn};
ghost use Rattle.cti_top.specs.Known.{known_of};
ghost use Rattle.cti_top.specs.Refusal.{refusal_line};
ghost use Rattle.outside.specs.Told.{Keeps};

use crate::answer::{Answer, too_long};
use crate::refusal::{Subject, refusal_text};
use crate::source::Source;
use crate::status::Status;
use crate::verdicts::verdict_text;
use cert_checker::{Verdict, check};
use certificate::{CertFault, Certificate, MOST_BYTES};
use outside::{Files, LoadFault};
use std::alloc::{AllocError, Global};

/// The number of the refusal of a line that is not a fact.
const NOT_A_FACT: u32 = 16;

/// The status that goes with a verdict.
fn status_of(verdict: Verdict) -> Status
    ensures { result ≡ verdict_status verdict }
{
    match verdict {
        Verdict::Yes => Status::Done,
        Verdict::No { .. } => Status::No,
    }
}

/// The answer to a certificate: whether it is valid.
fn checked(alloc: Global, source: &Source, certificate: &Certificate) -> Result<Answer, AllocError>
    requires known { AllByRecursion
        (λ (q : ThePred). q.name.0 < length source.now.names) source.now.program.preds }
    ensures { IfOk result
        (λ a. IsVerdictOn source.now.program source.now.names certificate.now.facts a.status a.text.items) }
{
    let verdict = check(alloc, &source.program, &source.names, certificate)?;
    Ok(Answer {
        status: status_of(verdict),
        text: verdict_text(alloc, verdict)?,
    })
}

/// The answer that refuses a certificate's text for a line that is not a fact.
fn not_a_fact(alloc: Global, line: u32) -> Result<Answer, AllocError>
    ensures { IfOk result (λ a. (a.status ≡ Status.Refused)
        × (a.text.items ≡ refusal_line Subject.Certificate line 1 16)) }
{
    Ok(Answer {
        status: Status::Refused,
        text: refusal_text(alloc, Subject::Certificate, line, 1, NOT_A_FACT)?,
    })
}

/// The answer to a certificate's text.
fn answer_to(alloc: Global, source: &Source, text: &[u8]) -> Result<Answer, AllocError>
    requires known { AllByRecursion
        (λ (q : ThePred). q.name.0 < length source.now.names) source.now.program.preds }
    requires short { length text.now ≤ most_bytes }
    ensures { IfOk result (λ a. AnswersText (known_of source.now) text.now a.status a.text.items) }
{
    match Certificate::read(alloc, text) {
        Ok(certificate) => checked(alloc, source, &certificate),
        Err(CertFault::Long) => too_long(alloc, Subject::Certificate),
        Err(CertFault::NotAFact { line }) => not_a_fact(alloc, line),
        Err(CertFault::Memory) => Err(AllocError),
    }
}

/// The answer to the certificate of a program in the file of this name, or the status of a call that writes nothing.
#[tactic(auto, using(crate::proofs::KeepLemmas::untouched, crate::proofs::KeepLemmas::loaded))]
pub fn check_of<F: Files>(
    alloc: Global,
    source: &Source,
    name: &str,
    files: &mut F,
) -> Result<Answer, Status>
    requires known { AllByRecursion
        (λ (q : ThePred). q.name.0 < length source.now.names) source.now.program.preds }
    ensures answered { IfOk result
        (λ a. AnswersCertificate (F.told files.old)
        (known_of source.now) name.now a.status a.text.items) }
    ensures file_fault { IsErrOf result Status.FileFault
        → Rose (F.faults files.old name.now) (F.faults files.new name.now) }
    ensures others { IfErr result (λ e. (e ≡ Status.FileFault) ⊎ (e ≡ Status.Memory)) }
    ensures kept { Keeps (F.told files.old) (F.told files.new) (F.faults files.old)
        (F.faults files.new) }
{
    match files.load(alloc, name, MOST_BYTES as u64) {
        Ok(text) => Ok(answer_to(alloc, source, &text)?),
        Err(LoadFault::TooLong) => Ok(too_long(alloc, Subject::Certificate)?),
        Err(LoadFault::Failed) => Err(Status::FileFault),
        Err(LoadFault::Memory) => Err(Status::Memory),
    }
}
