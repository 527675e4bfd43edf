//! The law of transitions, a function without a body.

ghost use Rattle.component_transitions.specs.OwnTransitions.{TransitionsAreOfClaims};

/// The levels of a transition, and its falls, are those of claims of the size rows that it was made of.
pub fn transitions_are_of_claims()
    ensures { TransitionsAreOfClaims }
{}
