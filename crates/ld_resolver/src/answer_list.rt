//! A list of answers.

ghost use Rattle.std.specs.Prelude.{◌≡◌, OnOk, length, [], ◌∷◌, ◌++◌};

use crate::answer::Answer;
use std::alloc::{AllocError, Global};
use std::marker::Model;

/// A list of answers. Contracts see the list.
#[derive(Drop)]
pub struct Answers {
    items: Vec<Answer>,
}

impl Model for Answers {
    ghost use Rattle.std.specs.Prelude.{List};
    ghost use Rattle.std.specs.Coded.{coded_list};
    ghost use Rattle.ld_resolver.specs.declared.answer.Answer.{Answer};
    ghost use Rattle.ld_resolver.specs.AnswerCode.{coded_answer};

    ghost Value = { List Answer };

    ghost coded = { coded_list coded_answer };

    ghost view = { λ a. a.items.items };
}

impl Answers {
    /// No answers. It takes no memory.
    pub fn new(alloc: Global) -> Answers
        ensures { result ≡ [] }
    {
        Answers {
            items: Vec::new(alloc),
        }
    }

    /// How many answers are there.
    pub fn len(&self) -> usize
        ensures { result ≡ length self.now }
    {
        self.items.len()
    }

    /// The answers, in their order.
    pub fn as_slice(&self) -> &[Answer]
        ensures { result.now ≡ self.now }
    {
        self.items.as_slice()
    }

    /// Adds an answer at the end.
    pub fn push(&mut self, answer: Answer) -> Result<(), AllocError>
        ensures { OnOk result (self.new ≡ self.old ++ answer ∷ []) }
    {
        self.items.push(answer)?;
        Ok(())
    }
}
