//! Readers of numbered items at the front of facts, of any type of facts.
//!
//! A certificate is a list of facts in sections: some facts of a kind in a row (`many`), an item for each predicate or
//! clause (`each`), one fact (`first_item`). What is read is in `specs/Walk.antt`, and which facts items have in
//! `specs/Numbered.antt`. The lemmas of
//! `proofs/SectionLemmas.antt` go both ways: what is read has the facts that were there, and the facts of items are
//! read as these items.
#![tactic(auto)]

mod kind;
mod reader;
mod stop;

pub use kind::{Kind, Next, first_item, many};
pub use reader::{Reader, each, each_into};
pub use stop::{FactFault, Stop, StructureReason, wrong};
