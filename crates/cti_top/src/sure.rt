//! A law: over a store and a sink that never fail, no command says that one did.

ghost use Rattle.std.specs.Prelude.{◌≢◌};

use crate::status::Status;
use crate::top_call::command;
use outside::{SureFiles, SureSink};
use std::alloc::Global;

/// Carries out a command over files and a sink that never fail: neither is said to have failed.
pub fn sure_command(
    alloc: Global,
    words: &[&str],
    files: &mut SureFiles,
    out: &mut SureSink,
) -> Status
    ensures file_fault { result ≢ Status.FileFault }
    ensures out_fault { result ≢ Status.OutFault }
{
    command(alloc, words, files, out)
}
