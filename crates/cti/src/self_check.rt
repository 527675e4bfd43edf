//! A second look at a certificate that was written: whether `check` accepts it.
//!
//! That a certificate of `infer` is valid is proved. This guards against what no theorem covers: a compiler's error, or
//! a faulty machine.

use cti_top::{MemFiles, Status, SureSink, command};
use std::alloc::{AllocError, Global};
use std::collections::BTreeMap;
use std::env;

/// The longest certificate that `check` reads, in bytes.
pub const MOST_BYTES: usize = 16_777_216;

/// Where this variable of the environment is `1`, nothing is looked at.
const SWITCH: &str = "CTI_NO_SELF_CHECK";

/// The names under which `check` finds the two texts.
const PROGRAM: &str = "program.pl";

const CERTIFICATE: &str = "certificate";

/// What is said of a certificate that is not accepted.
pub const REJECTED: &[u8] =
    b"cti: error: `cti check` does not accept this certificate: do not rely on it
cti: this program or this machine does not work as it was proved to; please report it
";

/// What is said of a certificate that is too long.
pub const TOO_LONG: &[u8] =
    b"cti: note: this certificate has more than 16777216 bytes, which `cti check` does not read\n";

/// Whether a second look is wanted.
pub fn is_wanted(rt: &HostRuntime) -> bool {
    match env::var(rt, SWITCH) {
        Ok(value) => value.as_str() != "1",
        Err(_) => true,
    }
}

/// A store of a program and its certificate.
fn store(alloc: Global, program: &[u8], certificate: &[u8]) -> Result<MemFiles, AllocError> {
    let mut files = BTreeMap::new(alloc);
    for (name, text) in [(PROGRAM, program), (CERTIFICATE, certificate)] {
        files.insert(
            String::from_str(alloc, name)?,
            Vec::from_slice(alloc, text)?,
        )?;
    }
    Ok(MemFiles {
        files,
        fails: Vec::new(alloc),
        calls: 0,
        faults: 0,
    })
}

/// Whether `check` does not accept a certificate of a program. Where there is no memory to find out, nothing is known
/// against it.
pub fn is_rejected(alloc: Global, program: &[u8], certificate: &[u8]) -> Result<bool, AllocError> {
    let mut files = store(alloc, program, certificate)?;
    let words = ["check", PROGRAM, CERTIFICATE];
    let status = command(alloc, &words, &mut files, &mut SureSink);
    Ok(!matches!(status, Status::Done | Status::Memory))
}
