//! Lines of certificates, read token by token.

use crate::fact_forms::{FactForm, form_of};
use mistake_sentences::{FactMistake, MOST_ARGUMENTS};
use prolog_tokens::TokenKind;
use token_search::{Look, TextToken, TokenReader, first_name, shown_name};

/// The names of the norms.
const NORMS: [&[u8]; 2] = [b"term", b"list"];

/// A fact whose parts are looked at.
#[derive(Clone, Copy)]
struct FactLook<'a> {
    form: &'static FactForm,
    /// How many brackets are open within the fact's parentheses.
    depth: u32,
    /// The number of the part, from 0.
    part: u32,
    /// The token before.
    before: Option<TextToken<'a>>,
    /// What is wrong, where something is.
    found: Option<FactMistake<'a>>,
}

/// Whether a name stands without quotes.
fn is_plain(name: &[u8]) -> bool {
    name == b"[]".as_slice() || first_name(name) == Some(name)
}

/// What is between the quotes of a name.
fn unquoted(text: &[u8]) -> &[u8] {
    let end = text.len().saturating_sub(1);
    text.get(1..end).unwrap_or(&[])
}

/// A mistake where a name stands in quotes that needs none.
fn quoted_mistake<'a>(name: &'a [u8]) -> Option<FactMistake<'a>> {
    if is_plain(name) {
        shown_name(name).map(FactMistake::Quotes)
    } else {
        None
    }
}

/// The text of a number without the zeros that it begins with, where a digit comes after the first of them.
fn without_zeros(number: &[u8]) -> Option<&str> {
    if !matches!(number, [b'0', b'0'..=b'9', ..]) {
        return None;
    }
    match std::str::from_utf8(number).ok()?.trim_start_matches('0') {
        "" => Some("0"),
        digits => Some(digits),
    }
}

impl<'a> Look<'a> for FactLook<'a> {
    fn take(&mut self, word: TextToken<'a>) -> bool {
        if word.opens() {
            self.depth = self.depth.saturating_add(1);
        } else if word.closes() {
            if self.depth == 0 {
                self.end_part();
                self.end();
                return false;
            }
            self.depth = self.depth.saturating_sub(1);
        } else if word.kind == TokenKind::Comma {
            if self.depth == 0 {
                self.end_part();
                self.part = self.part.saturating_add(1);
            }
        } else {
            self.found = self.mistake_in(word);
        }
        self.before = Some(word);
        self.found.is_none()
    }
}

impl<'a> FactLook<'a> {
    /// Takes the end of a part.
    fn end_part(&mut self) {
        if self.form.pred == Some(self.part)
            && let Some(before) = self.before
            && before.is_name()
        {
            self.found = Some(FactMistake::Arity);
        }
    }

    /// Takes the end of the fact.
    fn end(&mut self) {
        let found = self.part.saturating_add(1);
        if self.found.is_none() && found != self.form.parts {
            self.found = Some(FactMistake::Parts {
                name: self.form.name,
                wanted: self.form.parts,
                found,
            });
        }
    }

    /// Whether it is of this name.
    fn is_of(&self, name: &str) -> bool {
        self.form.name == name
    }

    /// Whether the part under way is a predicate.
    fn is_pred(&self) -> bool {
        self.depth == 0 && self.form.pred == Some(self.part)
    }

    /// Whether the part under way is a list of modes.
    fn is_modes(&self) -> bool {
        self.part == 1 && self.is_of("terminates")
    }

    /// Whether an argument of a row of truth values is under way.
    fn is_cell(&self) -> bool {
        self.depth == 1 && (self.is_of("grounds") || self.is_of("pre"))
    }

    /// What a token shows that is no bracket and no comma.
    fn mistake_in(&self, word: TextToken<'a>) -> Option<FactMistake<'a>> {
        if self.is_of("norm") && !NORMS.contains(&word.text) {
            return Some(FactMistake::Norm);
        }
        match word.kind {
            TokenKind::Int(number) => self.number_mistake(word, number),
            TokenKind::Quoted => quoted_mistake(unquoted(word.text)),
            TokenKind::Var if self.is_pred() => shown_name(word.text).map(FactMistake::NoQuotes),
            TokenKind::Var | TokenKind::Name if self.is_cell() && word.text != b"x".as_slice() => {
                Some(FactMistake::Cell)
            }
            _ => None,
        }
    }

    /// What a number shows.
    fn number_mistake(&self, word: TextToken<'a>, number: i128) -> Option<FactMistake<'a>> {
        if let Some(rest) = without_zeros(word.text) {
            return Some(FactMistake::LeadingZero(rest));
        }
        self.range_mistake(number)
    }

    /// Whether numbers of the part under way are counted from 1.
    fn is_counted(&self) -> bool {
        self.depth == 0 && self.form.first <= self.part && self.part < self.form.end
    }

    /// What a number shows that is not in the range of its part.
    fn range_mistake(&self, number: i128) -> Option<FactMistake<'a>> {
        if self.is_pred() && number > MOST_ARGUMENTS as i128 {
            Some(FactMistake::ManyArguments)
        } else if self.is_cell() && number != 0 && number != 1 {
            Some(FactMistake::Cell)
        } else if self.is_modes() && self.depth == 1 {
            Some(FactMistake::Mode)
        } else if self.is_modes() && self.depth > 1 && number == 0 {
            Some(FactMistake::Argument)
        } else if self.is_counted() && number == 0 {
            Some(FactMistake::Number(self.form.name))
        } else {
            None
        }
    }
}

/// What is wrong with a line of a certificate that is not a fact, where the line shows it.
pub(crate) fn fact_mistake<'a>(line: &'a [u8]) -> Option<FactMistake<'a>> {
    let mut reader = TokenReader::new(line, 0);
    let name = reader.next()?;
    match form_of(name.text) {
        Some(form) => match reader.next() {
            Some(open) if open.opens_arguments(name) => parts_mistake(&mut reader, form),
            _ => None,
        },
        None => shown_name(name.text).map(FactMistake::Name),
    }
}

/// What the parts of a fact of this form show, after the bracket that opens them.
fn parts_mistake<'a>(
    reader: &mut TokenReader<'a>,
    form: &'static FactForm,
) -> Option<FactMistake<'a>> {
    let mut look = FactLook {
        form,
        depth: 0,
        part: 0,
        before: None,
        found: None,
    };
    reader.show_to(&mut look);
    look.found
}
