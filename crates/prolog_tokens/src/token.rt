//! What a token is.

/// The form of a token.
#[derive(Clone, Copy, Debug, PartialEq, Eq)]
pub enum TokenKind {
    /// A small letter and the letters, digits and underscores after it; a run of the graphic characters
    /// `# $ & * + - . / : < = > ? @ ^ ~ \`; `!`; or `;`.
    Name,
    /// An item in single quotes.
    Quoted,
    /// A capital letter or an underscore, and the letters, digits and underscores after it.
    Var,
    /// An integer from 0 to 2^127 - 1: decimal digits, digits after `0x`, `0o` or `0b`, or a character after `0'`.
    Int(i128),
    /// An item in double quotes.
    Text,
    /// `(`
    Paren,
    /// `)`
    ParenEnd,
    /// `[`
    List,
    /// `]`
    ListEnd,
    /// `{`
    Curly,
    /// `}`
    CurlyEnd,
    /// `,`
    Comma,
    /// `|`
    Bar,
    /// The dot that ends a clause: layout, `%` or the end of the text follows it.
    End,
}

/// A token and its place: the bytes from `start` on that stand before `end`, both counted from 0.
#[derive(Clone, Copy, Debug, PartialEq, Eq)]
pub struct Token {
    pub kind: TokenKind,
    pub start: u32,
    pub end: u32,
}
