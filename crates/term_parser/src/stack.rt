//! The stack of what is open, with the number of openers.

ghost use Rattle.std.specs.Prelude.{◌≡◌, ◌≤◌, ◌+◌, ◌∷◌, [], IfSome, IfNone, OnOk};
ghost use Rattle.prolog_grammar.specs.Run.{height};
ghost use Rattle.term_parser.specs.Limits.{most_openers};
ghost use Rattle.term_parser.specs.Views.{frame_of, opened, IsCounted};

use crate::frame::Frame;
use std::alloc::{AllocError, Global};

/// What is open, the last on top, and how many openers that are.
#[derive(Drop)]
pub struct Stack {
    frames: Vec<Frame>,
    openers: usize,
}

impl Stack {
    /// Nothing is open. It takes no memory.
    pub fn new(alloc: Global) -> Stack
        ensures none { opened result ≡ [] }
        ensures counted { IsCounted result }
    {
        Stack {
            frames: Vec::new(alloc),
            openers: 0,
        }
    }

    /// How many openers are open.
    pub fn openers(&self) -> usize
        requires counted { IsCounted self.now }
        ensures { result ≡ height (opened self.now) }
    {
        self.openers
    }

    /// Puts a frame on top. After an error nothing is said of the stack.
    #[tactic(auto, using(crate::proofs::StackLemmas::frames_of_push, crate::proofs::StackLemmas::frame_height))]
    pub fn push(&mut self, frame: Frame) -> Result<(), AllocError>
        requires counted { IsCounted self.old }
        requires few { height (frame_of frame ∷ opened self.old) ≤ most_openers + 1 }
        ensures top { OnOk result (opened self.new ≡ frame_of frame ∷ opened self.old) }
        ensures counted { OnOk result (IsCounted self.new) }
    {
        self.openers += frame.openers();
        self.frames.push(frame)?;
        Ok(())
    }

    /// Takes the top frame off.
    #[tactic(auto, using(crate::proofs::StackLemmas::frames_of_push, crate::proofs::StackLemmas::frame_height))]
    pub fn pop(&mut self) -> Option<Frame>
        requires counted { IsCounted self.old }
        ensures top { IfSome result (λ f. opened self.old ≡ frame_of f ∷ opened self.new) }
        ensures none { IfNone result (opened self.old ≡ []) }
        ensures counted { IsCounted self.new }
    {
        match self.frames.pop() {
            Some(frame) => {
                self.openers -= frame.openers();
                Some(frame)
            }
            None => None,
        }
    }
}
