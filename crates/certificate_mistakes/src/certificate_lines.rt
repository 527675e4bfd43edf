//! Lines of certificates that are not facts, or not as they have to be.

use crate::fact_look::fact_mistake;
use mistake_sentences::{FactMistake, ModeNumbers};
use token_search::{after_last, before_byte, beginning_among, has_part};

/// The facts whose numbers are never negative.
const NATURAL: [&str; 9] = [
    "cti(", "by(", "falls(", "measure(", "none(", "point(", "at(", "blown(", "large(",
];

/// What follows the name and the arity of a fact's predicate: names may have any byte.
fn after_name(line: &[u8]) -> &[u8] {
    after_last(line, b'/')
}

/// Whether a minus sign stands in a text.
fn has_minus(text: &[u8]) -> bool {
    text.contains(&b'-')
}

/// Whether a line of a text is that of a certificate's version.
fn has_version(text: &[u8]) -> bool {
    text.starts_with(b"cti(") || has_part(text, b"\ncti(")
}

/// What the text of a certificate shows as a whole, whose line of this number, counted from 1, is not a fact.
pub fn beginning_mistake<'a>(text: &[u8], number: u64) -> Option<FactMistake<'a>> {
    if text.starts_with(b"ctilex(") {
        Some(FactMistake::OfLists)
    } else if number == 1 && !has_version(text) {
        Some(FactMistake::NoBeginning)
    } else {
        None
    }
}

/// What the form of a line shows, whatever fact it is to be.
fn form_mistake<'a>(line: &[u8]) -> Option<FactMistake<'a>> {
    if line.ends_with(b"\r") {
        Some(FactMistake::CarriageReturn)
    } else if line.is_empty() {
        Some(FactMistake::EmptyLine)
    } else if line.starts_with(b"%") || line.starts_with(b"/*") {
        Some(FactMistake::Comment)
    } else if beginning_among(&NATURAL, line).is_some() && has_minus(after_name(line)) {
        Some(FactMistake::Negative)
    } else {
        None
    }
}

/// What a line that is not a fact shows. `is_unended` is whether no line comes after it.
pub fn line_mistake<'a>(line: &'a [u8], is_unended: bool) -> Option<FactMistake<'a>> {
    if let Some(mistake) = form_mistake(line) {
        return Some(mistake);
    }
    if is_unended && !line.ends_with(b").") {
        return Some(FactMistake::CutOff);
    }
    if let Some(mistake) = fact_mistake(line) {
        return Some(mistake);
    }
    if is_unended {
        Some(FactMistake::NoNewline)
    } else {
        None
    }
}

/// A list of modes, read byte by byte.
#[derive(Clone, Copy)]
struct ModeReader {
    numbers: ModeNumbers,
    /// The number before.
    before: usize,
    /// The number under way.
    number: usize,
    /// Whether each number was above the one before.
    ascends: bool,
    /// Whether each number was one from 1 to 12.
    is_whole: bool,
}

impl ModeReader {
    /// Before a mode.
    fn new() -> ModeReader {
        ModeReader {
            numbers: ModeNumbers::none(),
            before: 0,
            number: 0,
            ascends: true,
            is_whole: true,
        }
    }

    /// Takes a digit.
    fn take_digit(&mut self, byte: u8) {
        let digit = usize::from(byte.saturating_sub(b'0'));
        self.number = self.number.saturating_mul(10).saturating_add(digit);
    }

    /// Takes the end of a number.
    fn end_number(&mut self) {
        self.is_whole = self.numbers.add(self.number) && self.is_whole;
        self.ascends = self.ascends && self.number > self.before;
        self.before = self.number;
        self.number = 0;
    }

    /// The mode, where its numbers are in range and do not ascend.
    fn unordered(self) -> Option<ModeNumbers> {
        if self.is_whole && !self.ascends {
            Some(self.numbers)
        } else {
            None
        }
    }
}

/// The first mode of a `terminates` line whose numbers do not ascend.
fn unordered_mode(modes: &[u8]) -> Option<ModeNumbers> {
    let mut reader = ModeReader::new();
    for byte in modes {
        match *byte {
            b'0'..=b'9' => reader.take_digit(*byte),
            b'[' => reader = ModeReader::new(),
            b',' | b']' => reader.end_number(),
            _ => return None,
        }
        if *byte == b']'
            && let Some(numbers) = reader.unordered()
        {
            return Some(numbers);
        }
    }
    None
}

/// What a `terminates` line shows whose modes have their numbers in a wrong order.
pub fn mode_mistake<'a>(line: &[u8]) -> Option<FactMistake<'a>> {
    if !line.starts_with(b"terminates(") {
        return None;
    }
    let modes = after_name(line);
    if let Some(arity) = before_byte(modes, b'[')
        && let Some(modes) = modes.strip_prefix(arity)
        && let Some(numbers) = unordered_mode(modes)
    {
        return Some(FactMistake::ModeOrder(numbers));
    }
    None
}
