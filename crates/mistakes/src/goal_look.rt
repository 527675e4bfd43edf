//! What stands from the first token of a goal on.

use prolog_tokens::TokenKind;
use token_search::{Look, TextToken, TokenReader, shown_name};

/// What was seen from the first token of a goal on, outside its brackets.
#[derive(Clone, Copy)]
pub(crate) struct GoalLook<'a> {
    pub(crate) first: Option<TextToken<'a>>,
    pub(crate) second: Option<TextToken<'a>>,
    depth: u32,
    /// Whether no comma and no branch has come yet.
    is_first_goal: bool,
    pub(crate) has_branch: bool,
    /// Whether an arrow comes before a branch.
    pub(crate) has_arrow: bool,
    /// Whether there is the arrow of a grammar rule.
    pub(crate) has_grammar_arrow: bool,
    /// Whether the first goal compares terms.
    pub(crate) has_test: bool,
    /// Whether the first goal makes a term of a list.
    pub(crate) has_univ: bool,
    /// Whether there is the neck of a clause.
    pub(crate) has_neck: bool,
}

/// The names that compare terms, and bind nothing.
const TESTS: [&str; 7] = ["\\=", "==", "\\==", "@<", "@=<", "@>", "@>="];

impl<'a> Look<'a> for GoalLook<'a> {
    fn take(&mut self, word: TextToken<'a>) -> bool {
        // The parentheses around a goal begin it.
        if self.first.is_none() && word.kind == TokenKind::Paren {
            return true;
        }
        if self.first.is_none() {
            self.first = Some(word);
        } else if self.second.is_none() {
            self.second = Some(word);
        }
        let depth = self.depth;
        self.depth = word.depth_after(depth);
        depth > 0 || self.take_outside(word)
    }
}

impl<'a> GoalLook<'a> {
    /// Looks at the tokens from a place on, up to the end of the clause or of the brackets that the place is in.
    pub(crate) fn of(text: &'a [u8], at: usize) -> GoalLook<'a> {
        let mut look = GoalLook {
            first: None,
            second: None,
            depth: 0,
            is_first_goal: true,
            has_branch: false,
            has_arrow: false,
            has_grammar_arrow: false,
            has_test: false,
            has_univ: false,
            has_neck: false,
        };
        TokenReader::new(text, at).show_to(&mut look);
        look
    }

    /// Whether the first token is the whole goal.
    pub(crate) fn is_alone(&self) -> bool {
        match self.second {
            Some(word) => {
                word.closes()
                    || matches!(word.kind, TokenKind::End | TokenKind::Comma)
                    || word.text == b";".as_slice()
            }
            None => true,
        }
    }

    /// Whether the first token is the prompt of a Prolog system.
    pub(crate) fn begins_with_prompt(&self) -> bool {
        match self.first {
            Some(word) => word.text == b"?-".as_slice(),
            None => false,
        }
    }

    /// Whether the first token has arguments.
    pub(crate) fn has_arguments(&self) -> bool {
        match (self.first, self.second) {
            (Some(first), Some(second)) => second.opens_arguments(first),
            _ => false,
        }
    }

    /// Takes a token outside brackets.
    fn take_outside(&mut self, word: TextToken<'a>) -> bool {
        match word.kind {
            TokenKind::End => return false,
            TokenKind::Comma => self.is_first_goal = false,
            TokenKind::Name => self.take_name(shown_name(word.text).unwrap_or("")),
            _ => return !word.closes(),
        }
        true
    }

    /// Takes a name outside brackets.
    fn take_name(&mut self, name: &str) {
        match name {
            ";" => {
                self.has_branch = true;
                self.is_first_goal = false;
            }
            "->" => {
                self.has_arrow = self.has_arrow || !self.has_branch;
                self.is_first_goal = false;
            }
            "-->" => self.has_grammar_arrow = true,
            ":-" => self.has_neck = true,
            "=.." => self.has_univ = self.has_univ || self.is_first_goal,
            _ => self.has_test = self.has_test || (self.is_first_goal && TESTS.contains(&name)),
        }
    }
}
