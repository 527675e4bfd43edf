//! The parts of a certificate that size rows and sets of truth rows give, and the notes of a chain, whatever mappings
//! are searched.
//!
//! What makes modes exact is `ModesAreExact` of `specs/ExactModes.antt`; which notes a chain has, `IsChain` of
//! `specs/ChainNotes.antt`.
#![tactic(auto)]

mod chain_notes;
mod copies;
mod leading;
mod measured;
mod named;
mod parted;
mod printed;
mod ranges;
mod sets;

pub use chain_notes::{note_chain, note_components, print_chain};
pub use copies::{copied_proofs, copied_refutation, copied_rows};
pub use leading::led_by;
pub use measured::{Measured, move_sizes, put_sizes};
pub use named::pred_text;
pub use parted::{part_of, zero_part};
pub use printed::print_facts;
pub use ranges::{Bounded, all_bounded};
pub use sets::{arguments_of, mode_lists, spelled_list, spelled_lists};
