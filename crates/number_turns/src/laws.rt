//! The laws of turns, each a function without a body.

ghost use Rattle.number_turns.specs.Examples.{CountAndDownTurns};
ghost use Rattle.number_turns.specs.Turning.{FoundIsTurn, RefutedIsTurn};

/// The mapping that a turn finds rises at no transition, and falls and is at least 0 on the head where that is marked;
/// and what is refuted with the first transition marked is a part of a stuck set.
pub fn turns_are_of_the_search()
    ensures found { FoundIsTurn }
    ensures refuted { RefutedIsTurn }
{}

/// An example: over a count down to 0 the value of its argument is found, and over a count down without a bound the
/// template is refuted.
pub fn a_count_is_found()
    ensures { CountAndDownTurns }
{}
