//! Laws.

ghost use Rattle.lex_measures.specs.Unnoted.{UnnotedListsAreBest};

/// Where no note of an exact certificate says that the search for lists of a component was given up, and the component
/// has at most 12 argument positions, its modes are the best over all its lists of linear mappings.
pub fn unnoted_lists_are_best()
    ensures { UnnotedListsAreBest }
{}
