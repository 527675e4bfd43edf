//! Certificates of measures with numbers: texts that are read and printed again, and texts that are refused at a line.

use certificate::{CertFault, MOST_BYTES, PredText};
use prove_certificate::{CertKind, ProveCertificate, ProveFact};
use sequences::Sequence;
use std::alloc::{AllocError, Global};
use std::test::Fail;

/// A certificate of `count(0). count(N) :- N > 0, M is N-1, count(M).`, without notes.
const COUNT: &str = "ctiprove(1).
terminates(count/1,[[1]]).
terminates('>'/2,[[]]).
terminates(is/2,[[]]).
kinds(count/1,[number]).
kinds('>'/2,[number,number]).
kinds(is/2,[number,number]).
size(count/1,1,[0,0,1,-1]).
size('>'/2,1,[-1,0,1,-1,0,-1,1]).
size(is/2,1,[0,-1,0,0,0,0,0]).
size(is/2,2,[0,0,1,-1,0,-1,1]).
size(is/2,3,[0,0,-1,1,0,1,-1]).
size(is/2,4,[0,0,-1,0,0,1,0]).
size(is/2,5,[0,0,0,-1,0,0,1]).
by(1,1,1,[]).
by(2,1,1,[1,0,0,0,0,0,0]).
grounds(count/1,1,[1]).
grounds('>'/2,1,[1,1]).
grounds(is/2,1,[1,1]).
level(count/1,1,1,[0,1,-1],0).
level('>'/2,1,1,[0,0,0,0,0,0],0).
level(is/2,1,1,[0,0,0,0,0,0],0).
drops(2,3,1,1,1,[0,0,0,1,0,0]).
floors(2,3,1,1,[1,0,0,0,0,0]).
pre(count/1,1,1,[1]).
pre('>'/2,1,1,[x,x]).
pre(is/2,1,1,[x,x]).
";

/// A certificate of `down(N) :- M is N-1, down(M).`
const DOWN: &str = "ctiprove(1).
terminates(down/1,[]).
terminates(is/2,[[]]).
kinds(down/1,[number]).
kinds(is/2,[number,number]).
fails(down/1).
size(down/1,1,[-1,0,0,0]).
size(is/2,1,[0,-1,0,0,0,0,0]).
size(is/2,2,[0,0,1,-1,0,-1,1]).
size(is/2,3,[0,0,-1,1,0,1,-1]).
size(is/2,4,[0,0,-1,0,0,1,0]).
size(is/2,5,[0,0,0,-1,0,0,1]).
by(1,1,0,[0,0,0,0,0,1]).
grounds(is/2,1,[1,1]).
level(is/2,1,1,[0,0,0,0,0,0],0).
pre(is/2,1,1,[x,x]).
none(down/1,1).
group(1,2).
point(1,2,1,[0,0,0,0,0,1]).
floor(1,2,0,[0,0,1,0,0,1]).
image(1,1,down/1,[[-1,0,0,0]]).
step(1,down/1,none,[[-1,0,0,0]]).
";

/// Texts that are read, and printed again as they were.
const READ_TEXTS: [&str; 11] = [
    "",
    COUNT,
    DOWN,
    "kinds(p/3,[size,number,size]).\nkinds([]/0,[]).\nfails('A'/12).\n",
    "level(p/1,4294967295,18446744073709551615,[-170141183460469231731687303715884105727,-1],-5).\n",
    "level(p/0,1,1,[],170141183460469231731687303715884105727).\n",
    "drops(1,2,3,4,5,[6,0]).\ndrops(1,2,3,18446744073709551615,0,[]).\n",
    "floors(4294967295,2,3,170141183460469231731687303715884105727,[4]).\nfloors(1,1,1,0,[]).\n",
    "none(p/0,18446744073709551615).\ngroup(1,4294967295).\npoint(1,1,0,[]).\nfloor(1,1,2,[3,4,5]).\n",
    "weak(image(7)).\nweak(step(7)).\nblown(p/2,[[1,2],[]]).\nstep(2,p/0,join,[]).\n",
    "terminates('a\\nb\\'c\\\\\\x7f\\\\x0\\é'/1,[]).\n",
];

/// Texts that are refused, each with the line that is named.
const WRONG_TEXTS: [(&str, u32); 40] = [
    ("ctiprove(1).", 1),
    ("ctiprove(1).\nkinds(p/0,[])\n", 2),
    ("ctiprove(1).\n\nfails(p/0).\n", 2),
    ("ctiprove(1).\r\n", 1),
    ("ctiprove(01).\n", 1),
    ("ctiprove(-1).\n", 1),
    ("ctiprove(1). \n", 1),
    ("cti(1).\n", 1),
    ("ctilex(1).\n", 1),
    ("kinds(p/1,[]).\nkinds(p/1,[sizes]).\n", 2),
    ("kinds(p/1,[number ]).\n", 1),
    ("kinds(p/1,[Size]).\n", 1),
    ("kinds(p/1,size).\n", 1),
    ("kinds(p/1,[size,]).\n", 1),
    ("kinds(p/1,[2]).\n", 1),
    ("fails(p/1).\nfails(p/13).\n", 2),
    ("fails(p/1,1).\n", 1),
    ("fails(P/1).\n", 1),
    ("level(p/1,0,1,[],0).\n", 1),
    ("level(p/1,1,0,[],0).\n", 1),
    ("level(p/1,1,1,[-0],0).\n", 1),
    ("level(p/1,1,1,[+1],0).\n", 1),
    ("level(p/1,1,1,[0]).\n", 1),
    (
        "level(p/1,1,1,[],-170141183460469231731687303715884105728).\n",
        1,
    ),
    ("drops(1,1,1,1,1,[-1]).\n", 1),
    ("drops(1,1,1,1,-1,[]).\n", 1),
    ("drops(1,1,1,1,[]).\n", 1),
    ("drops(1,1,1,18446744073709551616,1,[]).\n", 1),
    ("floors(1,1,1,1,[0]).\nfloors(1,1,1,1,1,[0]).\n", 2),
    ("floors(1,1,1,1,[-1]).\n", 1),
    ("floors(4294967296,1,1,1,[]).\n", 1),
    ("none(p/0,0).\n", 1),
    ("group(0,1).\n", 1),
    ("group(1,1).\ngroup(1).\n", 2),
    ("point(1,1,-1,[]).\n", 1),
    ("floor(1,1,1,[-1]).\n", 1),
    ("at(1,1,1,[]).\n", 1),
    ("measure(p/1,1,[0],0).\n", 1),
    ("blown(p/0).\n", 1),
    ("large(p/12,13).\n", 1),
];

/// Whether a text is read, and printed again as it was.
fn is_printed_again(alloc: Global, text: &str) -> Result<bool, AllocError> {
    match ProveCertificate::read(alloc, text.as_bytes()) {
        Ok(certificate) => Ok(certificate.print(alloc)?.as_slice() == text.as_bytes()),
        Err(_) => Ok(false),
    }
}

/// Whether a text is refused at this line.
fn is_refused_at(alloc: Global, text: &[u8], line: u32) -> bool {
    ProveCertificate::read(alloc, text).err() == Some(CertFault::NotAFact { line })
}

#[test]
fn texts_are_read_and_printed_again(rt: HostRuntime) -> Result<(), Fail> {
    for text in &READ_TEXTS {
        assert!(rt; is_printed_again(rt.alloc(), text)?, "{text}");
    }
    Ok(())
}

#[test]
fn texts_are_refused_at_their_first_wrong_line(rt: HostRuntime) {
    for (text, line) in &WRONG_TEXTS {
        assert!(rt; is_refused_at(rt.alloc(), text.as_bytes(), *line), "{text}");
    }
}

/// Whether a certificate of one fact, the kinds of a predicate of two arguments with this name, is printed so.
fn are_kinds_printed(
    alloc: Global,
    name: &[u8],
    kinds: &[CertKind],
    line: &[u8],
) -> Result<bool, AllocError> {
    let mut facts = Sequence::new(alloc);
    facts.push(ProveFact::Kinds {
        pred: PredText {
            name: Sequence::from_vec(Vec::from_slice(alloc, name)?),
            arity: 2,
        },
        kinds: Sequence::from_vec(Vec::from_slice(alloc, kinds)?),
    })?;
    let text = ProveCertificate { facts }.print(alloc)?;
    Ok(text.as_slice() == line)
}

#[test]
fn kinds_are_printed(rt: HostRuntime) -> Result<(), Fail> {
    let kinds = [CertKind::Size, CertKind::Number];
    let line = b"kinds(up/2,[size,number]).\n";
    assert!(rt; are_kinds_printed(rt.alloc(), b"up", &kinds, line)?);
    assert!(rt;
        are_kinds_printed(
            rt.alloc(),
            b"a\xff",
            &kinds,
            b"kinds('a\xff'/2,[size,number]).\n"
        )?
    );
    assert!(rt; is_refused_at(rt.alloc(), b"kinds('a\xff'/2,[size,number]).\n", 1));
    Ok(())
}

/// Whether a text of the greatest length is read, and one of a byte more is too long.
fn is_limit_kept(alloc: Global) -> Result<bool, AllocError> {
    let mut text = Vec::new(alloc);
    for _ in 0..MOST_BYTES / 16 {
        text.extend_from_slice(b"weak(image(1)).\n")?;
    }
    let is_read = ProveCertificate::read(alloc, text.as_slice()).is_ok();
    text.push(b'\n')?;
    Ok(is_read && ProveCertificate::read(alloc, text.as_slice()).err() == Some(CertFault::Long))
}

#[test]
fn a_text_past_the_limit_is_long(rt: HostRuntime) -> Result<(), Fail> {
    assert!(rt; is_limit_kept(rt.alloc())?);
    Ok(())
}
