//! What the words of the command line ask for.

ghost use Rattle.std.specs.Prelude.{◌≡◌, ◌≢◌, codes, map, [], Some, None, option_map, IfOk, IfErr, IfSome, IfNone, IsErrOf};
ghost use Rattle.clap.specs.Words.{fault_of, first_of, found_of, rows_of, subcommand_of, subcommand_rows_of};
ghost use Rattle.command_words.specs.Words.{asks, ask_by, command_line, depth_of, gen as asked_gen, given, infer as asked_infer, loop as asked_loop, norm_of, origin, predicates_in, usage_lines};
ghost use Rattle.command_words.specs.Requests.{ask_of, origin_of, IsAskInRange};

use crate::command_line::command_line;
use crate::norms::norm_of;
use crate::steps::{depth_of, predicates_in, steps_of};
use clap::ArgMatches;
use clap::error::ErrorKind;
use std::alloc::{AllocError, Global};
use term_size::NormName;

/// Why the words are not a command.
#[derive(Clone, Copy, PartialEq, Eq)]
pub enum RequestFault {
    /// The words do not fit the usage.
    Usage,
    /// Memory ran out.
    Memory,
}

/// What the words ask for.
#[derive(Clone, Copy)]
pub enum Request<'a> {
    /// The modes of the program in a file, by this norm.
    Infer(&'a str, NormName),
    /// The check of the certificate in the second file, for the program in the first.
    Check(&'a str, &'a str),
    /// A run of a query of the program in a file, and how many derivations are looked at, from 1 to 1,000,000.
    Run(&'a str, &'a str, u64),
    /// How many modes the generated program of this many predicates, from 1 to 300, has.
    Generate(u32),
    /// The modes of the program in a file, by lists of mappings.
    Lex(&'a str),
    /// A loop of a query of the program in a file, among derivations of at most this many steps, from 1 to 12.
    Loop(&'a str, &'a str, u32),
    /// What the edits in a file tell.
    Session(&'a str),
}

/// Where a text comes from.
#[derive(Clone, Copy)]
pub enum Origin<'a> {
    /// The text of a file of this name.
    File(&'a str),
    /// A generated text, with this many predicates.
    Generated(u32),
}

impl<'a> Request<'a> {
    /// Where the text comes from that it is about.
    pub fn origin(self) -> Origin<'a>
        ensures { origin_of result ≡ origin (ask_of self.entry) }
    {
        match self {
            Request::Infer(file, _) => Origin::File(file),
            Request::Check(file, _) => Origin::File(file),
            Request::Run(file, _, _) => Origin::File(file),
            Request::Generate(count) => Origin::Generated(count),
            Request::Lex(file) => Origin::File(file),
            Request::Loop(file, _, _) => Origin::File(file),
            Request::Session(file) => Origin::File(file),
        }
    }
}

/// The matches of the words, or why there are none.
fn matches_of<'a>(alloc: Global, words: &'a [&'a str]) -> Result<ArgMatches<'a>, RequestFault>
    ensures usage { IsErrOf result RequestFault.Usage
        → fault_of command_line (map (λ w. w.now) words.entry.now) ≢ [] }
    ensures taken { IfOk result (λ _. fault_of command_line (map (λ w. w.now) words.entry.now)
        ≡ []) }
    ensures rows { IfOk result
        (λ m. subcommand_rows_of m ≡ subcommand_of command_line
        (map (λ w. w.now) words.entry.now)) }
{
    let Ok(command) = command_line(alloc) else {
        return Err(RequestFault::Memory);
    };
    match command.try_get_matches_from(words) {
        Ok(matches) => Ok(matches),
        Err(error) => match error.kind() {
            ErrorKind::OutOfMemory => Err(RequestFault::Memory),
            _ => Err(RequestFault::Usage),
        },
    }
}

/// The subcommand that was used, and its matches.
fn entered<'a, 'm>(matches: &'m ArgMatches<'a>) -> Option<(&'a str, &'m ArgMatches<'a>)>
    ensures none { IfNone result (subcommand_rows_of matches.now ≡ None) }
    ensures some { IfSome result
        (λ p. subcommand_rows_of matches.now ≡ Some (p.0.now, rows_of (found_of p.1.now))) }
{
    matches.subcommand()
}

/// An argument's value.
fn value<'a>(matches: &ArgMatches<'a>, id: &str) -> Option<&'a str>
    ensures { option_map (λ s. s.now) result ≡ first_of id.now (rows_of (found_of matches.now)) }
{
    matches.get_str(id)
}

/// A word that was given.
fn word<'a>(matches: &ArgMatches<'a>, id: &str) -> &'a str
    ensures { result.now ≡ given id.now (rows_of (found_of matches.now)) }
{
    match value(matches, id) {
        Some(text) => text,
        None => "",
    }
}

/// What `gen` asks for by its word, or why it is not a command.
fn generation<'a>(matches: &ArgMatches<'a>) -> Result<Request<'a>, RequestFault>
    ensures asked { IfOk result
        (λ r. option_map asked_gen
        (predicates_in (given (codes "count") (rows_of (found_of matches.now))))
        ≡ Some (ask_of r)) }
    ensures usage { IfErr result (λ e. (e ≡ RequestFault.Usage)
        × (option_map asked_gen (predicates_in
        (given (codes "count") (rows_of (found_of matches.now)))) ≡ None)) }
    ensures range { IfOk result (λ r. IsAskInRange (ask_of r)) }
{
    match predicates_in(word(matches, "count")) {
        Some(count) => Ok(Request::Generate(count)),
        None => Err(RequestFault::Usage),
    }
}

/// What `infer` asks for by its words, or why it is not a command.
fn inference<'a>(matches: &ArgMatches<'a>) -> Result<Request<'a>, RequestFault>
    ensures asked { IfOk result
        (λ r. option_map (asked_infer (given (codes "file") (rows_of (found_of matches.now))))
        (norm_of (first_of (codes "norm") (rows_of (found_of matches.now)))) ≡ Some (ask_of r)) }
    ensures usage { IfErr result (λ e. (e ≡ RequestFault.Usage)
        × (option_map (asked_infer (given (codes "file") (rows_of (found_of matches.now))))
        (norm_of (first_of (codes "norm") (rows_of (found_of matches.now)))) ≡ None)) }
    ensures range { IfOk result (λ r. IsAskInRange (ask_of r)) }
{
    match norm_of(value(matches, "norm")) {
        Some(norm) => Ok(Request::Infer(word(matches, "file"), norm)),
        None => Err(RequestFault::Usage),
    }
}

/// What `loop` asks for by its words, or why it is not a command.
fn loop_search<'a>(matches: &ArgMatches<'a>) -> Result<Request<'a>, RequestFault>
    ensures asked { IfOk result
        (λ r. option_map (asked_loop (given (codes "file") (rows_of (found_of matches.now)))
        (given (codes "query") (rows_of (found_of matches.now))))
        (depth_of (first_of (codes "depth") (rows_of (found_of matches.now))))
        ≡ Some (ask_of r)) }
    ensures usage { IfErr result (λ e. (e ≡ RequestFault.Usage)
        × (option_map (asked_loop (given (codes "file") (rows_of (found_of matches.now)))
        (given (codes "query") (rows_of (found_of matches.now))))
        (depth_of (first_of (codes "depth") (rows_of (found_of matches.now)))) ≡ None)) }
    ensures range { IfOk result (λ r. IsAskInRange (ask_of r)) }
{
    match depth_of(value(matches, "depth")) {
        Some(depth) => Ok(Request::Loop(word(matches, "file"), word(matches, "query"), depth)),
        None => Err(RequestFault::Usage),
    }
}

/// What a command asks for by its arguments, or why it is not a command.
fn request_by<'a>(name: &str, given: &ArgMatches<'a>) -> Result<Request<'a>, RequestFault>
    ensures asked { IfOk result
        (λ r. ask_by name.now (rows_of (found_of given.now)) ≡ Some (ask_of r)) }
    ensures usage { IfErr result (λ e. (e ≡ RequestFault.Usage)
        × (ask_by name.now (rows_of (found_of given.now)) ≡ None)) }
    ensures range { IfOk result (λ r. IsAskInRange (ask_of r)) }
{
    if name == "gen" {
        return generation(given);
    }
    if name == "infer" {
        return inference(given);
    }
    if name == "loop" {
        return loop_search(given);
    }
    let file = word(given, "file");
    if name == "check" {
        return Ok(Request::Check(file, word(given, "certificate")));
    }
    if name == "lex" {
        return Ok(Request::Lex(file));
    }
    if name == "session" {
        return Ok(Request::Session(file));
    }
    match steps_of(value(given, "steps")) {
        Some(steps) => Ok(Request::Run(file, word(given, "query"), steps)),
        None => Err(RequestFault::Usage),
    }
}

/// What the words ask for, or why they are not a command.
#[tactic(auto, using(crate::proofs::WordLemmas::is_entered, crate::proofs::WordLemmas::none_asked))]
pub fn request_in<'a>(alloc: Global, words: &'a [&'a str]) -> Result<Request<'a>, RequestFault>
    ensures asked { IfOk result (λ r. asks (map (λ w. w.now) words.entry.now) ≡ Some (ask_of r)) }
    ensures usage { IsErrOf result RequestFault.Usage → asks (map (λ w. w.now) words.entry.now) ≡ None }
    ensures range { IfOk result (λ r. IsAskInRange (ask_of r)) }
{
    let matches = matches_of(alloc, words)?;
    match entered(&matches) {
        Some((name, given)) => request_by(name, given),
        None => Err(RequestFault::Usage),
    }
}

/// One line for each command.
pub fn usage_text(alloc: Global) -> Result<Vec<u8>, AllocError>
    ensures { IfOk result (λ text. text.items ≡ usage_lines) }
{
    let mut text = Vec::from_slice(alloc, b"usage: cti infer FILE --norm NORM\n")?;
    text.extend_from_slice(b"usage: cti check FILE CERT\n")?;
    text.extend_from_slice(b"usage: cti run FILE QUERY --steps N\n")?;
    text.extend_from_slice(b"usage: cti gen N\n")?;
    text.extend_from_slice(b"usage: cti lex FILE\n")?;
    text.extend_from_slice(b"usage: cti loop FILE QUERY --depth D\n")?;
    text.extend_from_slice(b"usage: cti session FILE\n")?;
    Ok(text)
}
