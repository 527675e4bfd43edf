//! A component's call of itself, as measures with numbers see it.

use linear_rows::Multipliers;
use number_turns::Transition;

/// A call of a member in a clause of a member, both counted from 1, and what measures see of it.
///
/// `empty` has multipliers with scale 0 where the rows before the call hold nowhere.
pub struct OwnTransition {
    pub clause: u32,
    pub call: u32,
    pub transition: Transition,
    pub empty: Option<Multipliers>,
}

impl Drop for OwnTransition {
    fn drop(self) {
        let OwnTransition {
            clause: _,
            call: _,
            transition: _,
            empty: _,
        } = self;
    }
}
