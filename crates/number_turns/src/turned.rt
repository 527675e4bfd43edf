//! What comes of a turn.

use crate::found::Found;
use linear_rows::Numbers;

/// What comes of a turn.
pub enum Turned {
    /// A mapping that does what is asked.
    Found(Found),
    /// Multipliers that show that the template has no point: for each target a natural t, and then one for each natural
    /// of its transition.
    Refuted(Numbers),
    /// Nothing: the template is blown.
    Blown,
}

impl Drop for Turned {
    fn drop(self) {
        match self {
            Turned::Found(_) => {}
            Turned::Refuted(_) => {}
            Turned::Blown => {}
        }
    }
}
