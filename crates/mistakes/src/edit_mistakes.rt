//! Edits that cannot be done.

use mistake_sentences::EditMistake;

/// How edits begin, and what is wrong with one that cannot be done.
const EDITS: [(&[u8], EditMistake); 4] = [
    (b"add(", EditMistake::Add),
    (b"del(", EditMistake::Remove),
    (b"modes(", EditMistake::Modes),
    (b":-", EditMistake::Directive),
];

/// What is wrong with the edit at a place of a text.
pub fn edit_mistake(text: &[u8], at: usize) -> Option<EditMistake> {
    let text = text.get(at..)?;
    for (beginning, mistake) in &EDITS {
        if text.starts_with(beginning) {
            return Some(*mistake);
        }
    }
    Some(EditMistake::Clause)
}
