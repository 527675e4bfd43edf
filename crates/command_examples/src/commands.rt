//! Large inputs and outputs, and the adapters over a real file and a real writer. What words and files of ordinary size
//! give stands in the program `cases`.

use cti_top::{
    Files, KeptFiles, LoadFault, MemFiles, MemSink, RealFiles, RealSink, Sink, SinkFault, Status,
    Subject, SureFiles, SureSink, command, refusal_text,
};
use std::alloc::{AllocError, Global};
use std::collections::BTreeMap;
use std::test::Fail;

/// A store with one file, `a.pl`.
fn files(alloc: Global, text: &[u8]) -> Result<BTreeMap<String, Vec<u8>>, AllocError> {
    let mut files = BTreeMap::new(alloc);
    files.insert(
        String::from_str(alloc, "a.pl")?,
        Vec::from_slice(alloc, text)?,
    )?;
    Ok(files)
}

/// A store with one file, `a.pl`, whose calls of these numbers fail.
fn store(alloc: Global, text: &[u8], fails: &[u64]) -> Result<MemFiles, AllocError> {
    Ok(MemFiles {
        files: files(alloc, text)?,
        fails: Vec::from_slice(alloc, fails)?,
        calls: 0,
        faults: 0,
    })
}

/// A sink that takes at most `chunk` bytes in a call, and whose calls of these numbers fail.
pub(crate) fn sink(alloc: Global, chunk: usize, fails: &[u64]) -> Result<MemSink, AllocError> {
    Ok(MemSink {
        taken: Vec::new(alloc),
        chunk,
        fails: Vec::from_slice(alloc, fails)?,
        calls: 0,
        faults: 0,
        refused: 0,
    })
}

/// Concatenation of lists.
pub(crate) const APPEND: &str = "app([],L,L).\napp([H|T],L,[H|R]) :- app(T,L,R).\n";

/// The status and the bytes of these words, where the file has this text.
fn answered(alloc: Global, text: &[u8], words: &[&str]) -> Result<(Status, Vec<u8>), AllocError> {
    let mut out = sink(alloc, 4096, &[])?;
    let status = command(alloc, words, &mut store(alloc, text, &[])?, &mut out);
    Ok((status, out.taken))
}

/// Whether these words are answered with this text, where the file has that one.
fn is_answered(
    alloc: Global,
    text: &[u8],
    words: &[&str],
    answer: &[u8],
) -> Result<bool, AllocError> {
    let (status, taken) = answered(alloc, text, words)?;
    Ok(status == Status::Done && taken.as_slice() == answer)
}

/// Whether these words are refused with this line, where the file has this text.
fn is_refused(alloc: Global, text: &[u8], words: &[&str], line: &[u8]) -> Result<bool, AllocError> {
    let (status, taken) = answered(alloc, text, words)?;
    Ok(status == Status::Refused && taken.as_slice() == line)
}

/// A text and `count` repetitions of another.
fn repeated(alloc: Global, first: &[u8], text: &[u8], count: usize) -> Result<Vec<u8>, AllocError> {
    let mut whole = Vec::from_slice(alloc, first)?;
    for _ in 0..count {
        whole.extend_from_slice(text)?;
    }
    Ok(whole)
}

/// A term with `s` around it `count` times.
fn nested(alloc: Global, inner: &[u8], count: usize) -> Result<Vec<u8>, AllocError> {
    let mut text = repeated(alloc, b"", b"s(", count)?;
    text.extend_from_slice(inner)?;
    for _ in 0..count {
        text.push(b')')?;
    }
    Ok(text)
}

/// A text that consists of these.
fn joined(alloc: Global, parts: &[&[u8]]) -> Result<Vec<u8>, AllocError> {
    let mut text = Vec::new(alloc);
    for part in parts {
        text.extend_from_slice(part)?;
    }
    Ok(text)
}

/// What is written for one answer that is this term, or is too large, with this last line.
fn one_answer(
    alloc: Global,
    term: &[u8],
    is_printed: bool,
    last: &[u8],
) -> Result<Vec<u8>, AllocError> {
    if is_printed {
        joined(alloc, &[b"answer([", term, b"]).\n", last])
    } else {
        joined(alloc, &[b"answer(large).\n", last])
    }
}

/// Whether a term with this many `s` more than the program makes around its variable is printed as the query's one
/// answer, or told to be large.
fn is_deep_answer(alloc: Global, outer: usize, is_printed: bool) -> Result<bool, AllocError> {
    let step = nested(alloc, b"X", 990)?;
    let head = nested(alloc, b"X", outer)?;
    let program = joined(
        alloc,
        &[
            b"q(",
            &head,
            b") :- g(0,A), g(A,B), g(B,C), g(C,X).\ng(X,",
            &step,
            b").\n",
        ],
    )?;
    let deep = nested(alloc, b"0", outer.saturating_add(3960))?;
    let term = joined(alloc, &[b"q(", &deep, b")"])?;
    let lines = one_answer(alloc, &term, is_printed, b"ran(5,5,finished).\n")?;
    is_answered(alloc, &program, &["run", "a.pl", "q(X)"], &lines)
}

#[test]
fn deep_answers(rt: HostRuntime) -> Result<(), Fail> {
    let alloc = rt.alloc();
    assert!(rt; is_deep_answer(alloc, 38, true)?);
    assert!(rt; is_deep_answer(alloc, 39, false)?);
    Ok(())
}

/// Whether an atom with this many constants after the first is printed as the query's one answer, or told to be large.
fn is_large_answer(alloc: Global, count: usize, is_printed: bool) -> Result<bool, AllocError> {
    let term = repeated(alloc, b"p(f(a", b",a", count)?;
    let term = joined(alloc, &[&term, b"))"])?;
    let program = joined(alloc, &[&term, b".\n"])?;
    let lines = one_answer(alloc, &term, is_printed, b"ran(1,1,finished).\n")?;
    is_answered(alloc, &program, &["run", "a.pl", "p(X)"], &lines)
}

#[test]
fn large_answers(rt: HostRuntime) -> Result<(), Fail> {
    let alloc = rt.alloc();
    assert!(rt; is_large_answer(alloc, 99_997, true)?);
    assert!(rt; is_large_answer(alloc, 99_998, false)?);
    Ok(())
}

/// How many lines the run of a query writes for all splits of a list of this many elements.
fn lines_of_splits(alloc: Global, elements: usize) -> Result<usize, AllocError> {
    let list = repeated(alloc, b"app(X,Y,[a", b",a", elements.saturating_sub(1))?;
    let list = joined(alloc, &[&list, b"])"])?;
    let query = std::str::from_utf8(&list).unwrap_or("");
    let (_, taken) = answered(alloc, APPEND.as_bytes(), &["run", "a.pl", query])?;
    Ok(taken.iter().filter(|byte| **byte == b'\n').count())
}

#[test]
fn all_splits(rt: HostRuntime) -> Result<(), Fail> {
    assert!(rt; lines_of_splits(rt.alloc(), 300)? == 302);
    Ok(())
}

/// Whether a text as long as the longest that is read is answered, and one of a byte more refused, as a program and as
/// a query.
fn are_long_texts_refused(alloc: Global) -> Result<bool, AllocError> {
    let longest = repeated(alloc, b"", b"\n", 1_048_576)?;
    let long = repeated(alloc, &longest, b"\n", 1)?;
    let query = std::str::from_utf8(&long).unwrap_or("");
    Ok(
        is_answered(alloc, &longest, &["infer", "a.pl"], b"cti(1).\n")?
            && is_refused(
                alloc,
                &long,
                &["infer", "a.pl"],
                b"refused(program,1,1,8).\n",
            )?
            && is_refused(
                alloc,
                b"p.",
                &["run", "a.pl", query],
                b"refused(query,1,1,8).\n",
            )?,
    )
}

#[test]
fn long_texts(rt: HostRuntime) -> Result<(), Fail> {
    assert!(rt; are_long_texts_refused(rt.alloc())?);
    Ok(())
}

/// A query of two lines.
#[test]
fn queries_of_two_lines(rt: HostRuntime) -> Result<(), Fail> {
    let words = ["run", "a.pl", "app(X,Y,Z),\n  !"];
    assert!(rt;
        is_refused(
            rt.alloc(),
            APPEND.as_bytes(),
            &words,
            b"refused(query,2,3,11).\n"
        )?
    );
    Ok(())
}

/// Whether a store without faults gives of its one file what is asked, and a command is answered over it.
fn is_sure_store_read(alloc: Global) -> Result<bool, AllocError> {
    let mut sure = SureFiles {
        files: files(alloc, b"p.")?,
    };
    Ok(
        sure.load(alloc, "b.pl", 0)
            .is_ok_and(|bytes| bytes.is_empty())
            && sure.load(alloc, "a.pl", 1).err() == Some(LoadFault::TooLong)
            && command(alloc, &["infer", "a.pl"], &mut sure, &mut SureSink) == Status::Done,
    )
}

#[test]
fn a_sure_store(rt: HostRuntime) -> Result<(), Fail> {
    assert!(rt; is_sure_store_read(rt.alloc())?);
    Ok(())
}

/// Whether a refusal of the greatest kind at line 12 and column 3 is this line.
fn is_refusal(alloc: Global, subject: Subject, line: &[u8]) -> Result<bool, AllocError> {
    Ok(refusal_text(alloc, subject, 12, 3, u32::MAX)?.as_slice() == line)
}

#[test]
fn refusals(rt: HostRuntime) -> Result<(), Fail> {
    let alloc = rt.alloc();
    assert!(rt;
        is_refusal(
            alloc,
            Subject::Program,
            b"refused(program,12,3,4294967295).\n"
        )?
    );
    assert!(rt;
        is_refusal(
            alloc,
            Subject::Certificate,
            b"refused(certificate,12,3,4294967295).\n"
        )?
    );
    assert!(rt; is_refusal(alloc, Subject::Query, b"refused(query,12,3,4294967295).\n")?);
    Ok(())
}

/// Whether a file of six bytes, whose name this is, is read where six may be, and refused where five may; and an empty
/// name is a fault.
fn is_file_read(rt: &HostRuntime, name: &str) -> bool {
    let alloc = rt.alloc();
    let mut files = RealFiles {
        runtime: rt,
        faults: 0,
    };
    files
        .load(alloc, name, 6)
        .is_ok_and(|bytes| bytes.as_slice() == b"p(a).\n".as_slice())
        && files.load(alloc, name, 5).err() == Some(LoadFault::TooLong)
        && files.load(alloc, "", 5).err() == Some(LoadFault::Failed)
        && files.faults == 1
}

#[test]
fn a_real_file(rt: HostRuntime) -> Result<(), Fail> {
    let path = std::env::temp_dir(&rt)?.join(rt.alloc(), "cti_top_a_real_file.pl")?;
    std::fs::write(&rt, &path, "p(a).\n")?;
    assert!(rt; is_file_read(&rt, path.to_str().unwrap_or("")));
    std::fs::remove_file(&rt, &path)?;
    Ok(())
}

/// Whether the texts of the loads that gave one are kept in their order, of a store whose second load fails and whose
/// third is of too long a file.
fn are_texts_kept(alloc: Global) -> Result<bool, AllocError> {
    let mut files = KeptFiles::new(alloc, store(alloc, b"p(a).\n", &[2])?);
    Ok(
        files.text(0).is_empty()
            && files.load(alloc, "a.pl", 6).is_ok()
            && files.load(alloc, "a.pl", 6).err() == Some(LoadFault::Failed)
            && files.load(alloc, "a.pl", 5).err() == Some(LoadFault::TooLong)
            && files.text(0) == b"p(a).\n".as_slice()
            && files.text(1).is_empty()
            && files.load(alloc, "a.pl", 7).is_ok()
            && files.text(1) == b"p(a).\n".as_slice()
            && files.inner.faults == 1,
    )
}

#[test]
fn a_store_that_keeps(rt: HostRuntime) -> Result<(), Fail> {
    assert!(rt; are_texts_kept(rt.alloc())?);
    Ok(())
}

/// Whether a writer takes all that it is given, and the sink keeps it while it is at most 64 bytes, and then the first
/// 64.
fn is_text_kept(alloc: Global) -> bool {
    let mut sink = RealSink::new(alloc, Vec::new(alloc), 64);
    sink.write(b"p(a).") == Ok(5)
        && sink.write(b"") == Ok(0)
        && sink.write(b"\n") == Ok(1)
        && sink.inner.as_slice() == b"p(a).\n".as_slice()
        && sink.text() == b"p(a).\n".as_slice()
        && sink.write(&[b'x'; 100]) == Ok(100)
        && sink.head().len() == 64
        && sink.taken() == 106
        && sink.text().is_empty()
}

/// Whether a writer with room for one byte takes one, and then has a fault.
fn is_short_writer_faulty(alloc: Global) -> bool {
    let mut buffer = [0u8; 1];
    let mut short = RealSink::new(alloc, buffer.as_mut_slice(), 64);
    short.write(b"pq") == Ok(1) && short.write(b"q") == Err(SinkFault::Failed) && short.faults == 1
}

#[test]
fn a_real_writer(rt: HostRuntime) {
    assert!(rt; is_text_kept(rt.alloc()));
    assert!(rt; is_short_writer_faulty(rt.alloc()));
}
