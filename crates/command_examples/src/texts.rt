//! Texts that are read and printed again, and texts that are refused at a line.

use certificate::{CertCell, CertFault, Certificate, Fact, MOST_BYTES, PredText};
use sequences::Sequence;
use std::alloc::{AllocError, Global};
use std::test::Fail;

/// A certificate for `append/3`.
pub(crate) const APPEND: &str = "cti(1).
terminates(app/3,[[1],[3]]).
size(app/3,1,[0,1,1,-1]).
size(app/3,2,[0,-1,-1,1]).
by(1,1,1,[]).
by(1,2,1,[]).
by(2,1,1,[1,0]).
by(2,2,1,[0,1]).
grounds(app/3,1,[0,x,0]).
grounds(app/3,2,[1,0,0]).
grounds(app/3,3,[1,1,1]).
measure(app/3,1,[1,0,0],0).
measure(app/3,2,[0,0,1],0).
falls(2,1,1,1,[]).
falls(2,1,2,1,[]).
pre(app/3,1,1,[1,x,x]).
pre(app/3,2,1,[x,x,1]).
";

/// Texts that are read, and printed again as they were.
const READ_TEXTS: [&str; 10] = [
    "",
    APPEND,
    "terminates('='/2,[[]]).\nterminates([]/0,[]).\n",
    "by(4294967295,18446744073709551615,170141183460469231731687303715884105727,[0]).\n",
    "size(p/0,1,[-170141183460469231731687303715884105727]).\n",
    "none(p/0,1).\npoint(1,1,0,[]).\nat(1,1,1,[]).\n",
    "image(1,2,p/1,[[0,1],[1,-1]]).\nstep(1,p/1,first,[[0,1]]).\n",
    "step(2,p/0,none,[]).\nstep(3,p/0,join,[]).\nstep(4,p/0,keep,[]).\nstep(5,p/0,same,[]).\n",
    "weak(image(7)).\nweak(step(7)).\nblown(p/2,[[1,2],[]]).\nlarge(p/12,13).\n",
    "terminates('a\\nb\\'c\\\\\\x7f\\\\x0\\é'/1,[]).\n",
];

/// Texts that are refused, each with the line that is named.
const WRONG_TEXTS: [(&str, u32); 24] = [
    ("cti(1).", 1),
    ("cti(1).\ncti(1)\n", 2),
    ("cti(01).\n", 1),
    ("cti(-0).\n", 1),
    ("cti(-1).\n", 1),
    ("cti(1) .\n", 1),
    ("cti(1).\nsize(p/0,1,[0]). \n", 2),
    ("cti(1).\n\n", 2),
    ("by(0,1,1,[]).\n", 1),
    ("by(4294967296,1,1,[]).\n", 1),
    ("by(1,18446744073709551616,1,[]).\n", 1),
    ("by(1,1,170141183460469231731687303715884105728,[]).\n", 1),
    ("by(1,1,1,[-1]).\n", 1),
    (
        "size(p/0,1,[-170141183460469231731687303715884105728]).\n",
        1,
    ),
    ("terminates('p'/1,[]).\n", 1),
    ("terminates(=/2,[]).\n", 1),
    ("terminates('\\x0a\\'/1,[]).\n", 1),
    ("terminates(p/13,[]).\n", 1),
    ("terminates(p/1,[[]).\n", 1),
    ("terminates(p/1,[,]).\n", 1),
    ("grounds(p/1,1,[2]).\n", 1),
    ("step(1,p/0,other,[]).\n", 1),
    ("weak(step(1)).\nweak(image(1).\n", 2),
    ("dummy.\n", 1),
];

/// Whether a text is read, and printed again as it was.
fn is_printed_again(alloc: Global, text: &str) -> Result<bool, AllocError> {
    match Certificate::read(alloc, text.as_bytes()) {
        Ok(certificate) => Ok(certificate.print(alloc)?.as_slice() == text.as_bytes()),
        Err(_) => Ok(false),
    }
}

/// Whether a text is refused at this line.
fn is_refused_at(alloc: Global, text: &[u8], line: u32) -> bool {
    Certificate::read(alloc, text).err() == Some(CertFault::NotAFact { line })
}

#[test]
fn texts_are_read_and_printed_again(rt: HostRuntime) -> Result<(), Fail> {
    for text in &READ_TEXTS {
        assert!(rt; is_printed_again(rt.alloc(), text)?, "{text}");
    }
    Ok(())
}

#[test]
fn texts_are_refused_at_their_first_wrong_line(rt: HostRuntime) {
    for (text, line) in &WRONG_TEXTS {
        assert!(rt; is_refused_at(rt.alloc(), text.as_bytes(), *line), "{text}");
    }
}

/// Whether a certificate whose only fact is of a predicate with this name is printed so, and what is printed is refused
/// at line 1.
fn is_printed_and_not_read(alloc: Global, name: &[u8], line: &[u8]) -> Result<bool, AllocError> {
    let mut facts = Sequence::new(alloc);
    facts.push(Fact::Grounds {
        pred: PredText {
            name: Sequence::from_vec(Vec::from_slice(alloc, name)?),
            arity: 1,
        },
        index: 1,
        cube: Sequence::from_vec(Vec::from_slice(alloc, &[CertCell::Any])?),
    })?;
    let text = Certificate { facts }.print(alloc)?;
    Ok(text.as_slice() == line && is_refused_at(alloc, line, 1))
}

#[test]
fn a_name_that_is_no_utf8_is_printed_and_not_read(rt: HostRuntime) -> Result<(), Fail> {
    assert!(rt; is_printed_and_not_read(rt.alloc(), b"a\xff", b"grounds('a\xff'/1,1,[x]).\n")?);
    Ok(())
}

/// Whether a text of the greatest length is read, and one of a byte more is too long.
fn is_limit_kept(alloc: Global) -> Result<bool, AllocError> {
    let mut text = Vec::new(alloc);
    for _ in 0..MOST_BYTES / 16 {
        text.extend_from_slice(b"weak(image(1)).\n")?;
    }
    let is_read = Certificate::read(alloc, text.as_slice()).is_ok();
    text.push(b'\n')?;
    Ok(is_read && Certificate::read(alloc, text.as_slice()).err() == Some(CertFault::Long))
}

#[test]
fn a_text_past_the_limit_is_long(rt: HostRuntime) -> Result<(), Fail> {
    assert!(rt; is_limit_kept(rt.alloc())?);
    Ok(())
}
