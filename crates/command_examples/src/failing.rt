//! Failing files and sinks: each load and each write of a command fails in turn; and an interrupted write, which is
//! tried again.

use crate::commands::{APPEND, sink};
use crate::texts::APPEND as CERTIFICATE;
use cti_top::{Status, command};
use outside::{MemFiles, RealSink, Sink};
use std::alloc::{AllocError, Global};
use std::collections::BTreeMap;
use std::io;
use std::io::{ErrorKind, Write};
use std::test::Fail;

/// The most writes that fail in turn.
const MOST_WRITES: u64 = 20;

/// How many bytes a sink takes at most in one write.
const CHUNKS: [usize; 3] = [1, 8, 4096];

/// The program of append and its certificate, in a store whose loads of these numbers fail.
fn store(alloc: Global, fails: &[u64]) -> Result<MemFiles, AllocError> {
    let mut files = BTreeMap::new(alloc);
    for (name, text) in [("app.pl", APPEND), ("app.cert", CERTIFICATE)] {
        let text = Vec::from_slice(alloc, text.as_bytes())?;
        files.insert(String::from_str(alloc, name)?, text)?;
    }
    Ok(MemFiles {
        files,
        fails: Vec::from_slice(alloc, fails)?,
        calls: 0,
        faults: 0,
    })
}

/// Whether the command ends with this status and writes this text, where the loads and the writes of these numbers
/// fail.
fn ends(
    alloc: Global,
    words: &[&str],
    chunk: usize,
    loads: &[u64],
    writes: &[u64],
    end: (Status, &[u8]),
) -> Result<bool, AllocError> {
    let mut files = store(alloc, loads)?;
    let mut out = sink(alloc, chunk, writes)?;
    let status = command(alloc, words, &mut files, &mut out);
    Ok(status == end.0 && out.taken.as_slice() == end.1)
}

/// What the command writes where nothing fails.
fn written(alloc: Global, words: &[&str]) -> Result<Vec<u8>, AllocError> {
    let mut files = store(alloc, &[])?;
    let mut out = sink(alloc, 4096, &[])?;
    command(alloc, words, &mut files, &mut out);
    Ok(out.taken)
}

/// Whether nothing is written where one of the loads of the command fails.
fn loads_fail(alloc: Global, words: &[&str], chunk: usize, loads: u64) -> Result<bool, AllocError> {
    for load in 1..=loads {
        let end = (Status::FileFault, b"".as_slice());
        if !ends(alloc, words, chunk, &[load], &[], end)? {
            return Ok(false);
        }
    }
    Ok(true)
}

/// Whether the sink has taken the pieces of the earlier writes alone, where one of the first writes of this text fails.
fn writes_fail(
    alloc: Global,
    words: &[&str],
    chunk: usize,
    text: &[u8],
) -> Result<bool, AllocError> {
    for earlier in 0..MOST_WRITES {
        let taken = chunk.saturating_mul(earlier as usize);
        if taken >= text.len() {
            break;
        }
        let end = (Status::OutFault, &text[..taken]);
        if !ends(alloc, words, chunk, &[], &[earlier.saturating_add(1)], end)? {
            return Ok(false);
        }
    }
    Ok(true)
}

/// Whether each of the loads of a command, and each of its first twenty writes, is a fault of files or of the output
/// where it fails in turn.
fn faults_are_told(alloc: Global, words: &[&str], loads: u64) -> Result<bool, AllocError> {
    let text = written(alloc, words)?;
    for chunk in &CHUNKS {
        if !loads_fail(alloc, words, *chunk, loads)? || !writes_fail(alloc, words, *chunk, &text)? {
            return Ok(false);
        }
    }
    Ok(true)
}

#[test]
fn loads_and_writes_that_fail(rt: HostRuntime) -> Result<(), Fail> {
    let alloc = rt.alloc();
    assert!(rt; faults_are_told(alloc, &["infer", "app.pl"], 1)?);
    assert!(rt; faults_are_told(alloc, &["check", "app.pl", "app.cert"], 2)?);
    assert!(rt; faults_are_told(alloc, &["run", "app.pl", "app(X,Y,[a])"], 1)?);
    assert!(rt; faults_are_told(alloc, &["gen", "1"], 0)?);
    Ok(())
}

/// Where the second write fails, the first piece is written.
#[test]
fn a_second_write_that_fails(rt: HostRuntime) -> Result<(), Fail> {
    let end = (Status::OutFault, b"cti(1).\n".as_slice());
    assert!(rt; ends(rt.alloc(), &["infer", "app.pl"], 8, &[], &[2], end)?);
    Ok(())
}

/// A writer whose first call is interrupted.
#[derive(Drop)]
struct Interrupted {
    bytes: Vec<u8>,
    is_called: bool,
}

impl Write for Interrupted {
    fn write(&mut self, bytes: &[u8]) -> io::Result<usize> {
        if self.is_called {
            return self.bytes.write(bytes);
        }
        self.is_called = true;
        Err(io::Error::from(ErrorKind::Interrupted))
    }

    fn flush(&mut self) -> io::Result<()> {
        Ok(())
    }
}

/// Whether a write that is interrupted is tried again, which is no fault.
fn is_tried_again(alloc: Global) -> bool {
    let writer = Interrupted {
        bytes: Vec::new(alloc),
        is_called: false,
    };
    let mut sink = RealSink::new(alloc, writer, 64);
    sink.write(b"p(a).") == Ok(5)
        && sink.faults == 0
        && sink.inner.bytes.as_slice() == b"p(a).".as_slice()
}

#[test]
fn an_interrupted_write_is_tried_again(rt: HostRuntime) {
    assert!(rt; is_tried_again(rt.alloc()));
}
