//! A quick look over a text: which brackets are open, and whether a term or an operator stands last.

use std::alloc::{AllocError, Global};
use token_search::{Bracket, is_layout, is_symbol};

/// What a byte belongs to.
#[derive(Clone, Copy)]
enum Mode {
    Code,
    LineComment,
    BlockComment,
    /// An item in quotes of this kind.
    Quoted(u8),
    /// The character of `0'`.
    Character,
    /// What follows a quote there: a second quote, where the character is one.
    SecondQuote,
    /// What follows a backslash there.
    Escape,
    /// The digits of an escape there, up to its second backslash.
    CharacterDigits,
    /// The digits of an escape in an item in quotes of this kind.
    Digits(u8),
}

/// Whether an escape that begins with this byte has digits, which end at a second backslash.
fn begins_digits(byte: u8) -> bool {
    matches!(byte, b'x' | b'0'..=b'7')
}

/// What stands last.
#[derive(Clone, Copy)]
pub enum Last {
    /// Nothing, or what a term follows: a comma, a bar, an opening bracket or an operator.
    Opening,
    /// The end of a term.
    Operand,
}

impl Last {
    /// Whether it is the end of a term.
    pub(crate) fn is_operand(self) -> bool {
        matches!(self, Last::Operand)
    }
}

/// What was seen of a text.
#[derive(Drop)]
pub struct Scan {
    /// The brackets that are open.
    pub open: Vec<Bracket>,
    pub last: Last,
    /// What stood last before the run of symbols that stands last.
    pub earlier: Last,
    mode: Mode,
    /// The byte before.
    before: u8,
    /// Whether the byte before is a dot that stands alone.
    is_dot: bool,
    /// Whether it is a slash that begins a run of symbols, so that an asterisk after it opens a comment.
    is_slash: bool,
    /// What was seen of the clause under way, outside brackets.
    pub clause: ClauseScan,
}

/// What was seen of a clause, outside brackets.
#[derive(Clone, Copy)]
pub struct ClauseScan {
    /// Whether its neck was there.
    pub has_neck: bool,
    /// Whether a line ended after its last comma or `;`, and before the next token.
    pub ends_line: bool,
    /// The last of its commas and `;`.
    pub joint: u8,
    /// Whether its last token is a comma or `;`.
    is_joint: bool,
}

impl ClauseScan {
    /// Before a first byte.
    fn new() -> ClauseScan {
        ClauseScan {
            has_neck: false,
            ends_line: false,
            joint: b',',
            is_joint: false,
        }
    }

    /// Takes the next byte outside brackets, comments and quotes.
    fn take(&mut self, byte: u8, before: u8) {
        if byte == b'\n' {
            self.ends_line = self.ends_line || self.is_joint;
        } else if byte == b',' || byte == b';' {
            self.joint = byte;
            self.is_joint = true;
            self.ends_line = false;
        } else if byte != b'%' && !is_layout(byte) {
            self.is_joint = false;
        }
        self.has_neck = self.has_neck || (byte == b'-' && before == b':');
    }
}

/// The bracket that a byte opens after another one.
fn opened(byte: u8, before: u8) -> Bracket {
    match byte {
        b'[' => Bracket::List,
        b'{' => Bracket::Braces,
        _ if before.is_ascii_alphanumeric() || b"_'".contains(&before) => { Bracket::Arguments }
        _ => Bracket::Group,
    }
}

impl Scan {
    /// Before a first byte.
    pub fn new(alloc: Global) -> Scan {
        Scan {
            open: Vec::new(alloc),
            last: Last::Opening,
            earlier: Last::Opening,
            mode: Mode::Code,
            before: b' ',
            is_dot: false,
            is_slash: false,
            clause: ClauseScan::new(),
        }
    }

    /// Takes the next byte.
    pub fn take(&mut self, byte: u8) -> Result<(), AllocError> {
        let before = self.before;
        self.before = byte;
        match self.mode {
            Mode::Code => return self.take_code(byte, before),
            Mode::LineComment if byte == b'\n' => {
                self.mode = Mode::Code;
                self.clause.take(byte, before);
            }
            Mode::BlockComment if byte == b'/' && before == b'*' => self.leave(),
            // The byte after a backslash is a part of the escape.
            Mode::Quoted(quote) if before == b'\\' => {
                self.before = b' ';
                if begins_digits(byte) {
                    self.mode = Mode::Digits(quote);
                }
            }
            Mode::Digits(quote) if byte == b'\\' => {
                self.before = b' ';
                self.mode = Mode::Quoted(quote);
            }
            Mode::Quoted(quote) if byte == quote => self.mode = Mode::Code,
            Mode::Character if byte == b'\'' => self.mode = Mode::SecondQuote,
            Mode::Character if byte == b'\\' => self.mode = Mode::Escape,
            // `0''` without a third quote is a number and an empty item in quotes.
            Mode::SecondQuote if byte != b'\'' => {
                self.mode = Mode::Code;
                return self.take_code(byte, before);
            }
            Mode::Escape if begins_digits(byte) => self.mode = Mode::CharacterDigits,
            Mode::CharacterDigits if byte != b'\\' => {}
            Mode::CharacterDigits => self.leave(),
            Mode::Character | Mode::SecondQuote | Mode::Escape => self.mode = Mode::Code,
            _ => {}
        }
        Ok(())
    }

    /// Takes the next byte outside comments and quotes.
    fn take_code(&mut self, byte: u8, before: u8) -> Result<(), AllocError> {
        if self.is_dot && (byte == b'%' || is_layout(byte)) {
            self.open.clear();
            self.last = Last::Opening;
            self.clause = ClauseScan::new();
        }
        if self.open.is_empty() {
            self.clause.take(byte, before);
        }
        let opens_comment = self.is_slash && byte == b'*';
        self.is_dot = byte == b'.' && !is_symbol(before);
        self.is_slash = byte == b'/' && !is_symbol(before);
        match byte {
            b'(' | b'[' | b'{' => {
                self.open.push(opened(byte, before))?;
                self.last = Last::Opening;
            }
            b')' | b']' | b'}' => {
                self.open.pop();
                self.last = Last::Operand;
            }
            b',' | b'|' | b';' => self.last = Last::Opening,
            b'%' => self.mode = Mode::LineComment,
            b'\'' | b'"' => self.take_quote(byte, before),
            _ if opens_comment => self.take_comment(),
            _ if is_symbol(byte) => self.take_symbol(before),
            _ if is_layout(byte) => {}
            _ => self.last = Last::Operand,
        }
        Ok(())
    }

    /// Takes a quote.
    fn take_quote(&mut self, byte: u8, before: u8) {
        self.last = Last::Operand;
        self.mode = if byte == b'\'' && before == b'0' {
            Mode::Character
        } else {
            Mode::Quoted(byte)
        };
    }

    /// Takes the second byte of a comment, so that its first is not an operator. It is no part of the comment's end.
    fn take_comment(&mut self) {
        self.mode = Mode::BlockComment;
        self.last = self.earlier;
        self.before = b' ';
    }

    /// Takes the last byte of a comment or of an escape, which begins neither a comment nor an operator.
    fn leave(&mut self) {
        self.mode = Mode::Code;
        self.before = b' ';
    }

    /// Takes a symbol.
    fn take_symbol(&mut self, before: u8) {
        if !is_symbol(before) {
            self.earlier = self.last;
        }
        self.last = Last::Opening;
    }
}
