// Laws of selectors.
ghost use Rattle.selecting_automaton.specs.Laws.{WordsAreLists, SpelledAreSmall};

/// The states in words are those of the lists of truths that turns speak of: the hits are the same.
pub fn words_are_lists()
    ensures { WordsAreLists }
{}

/// What bytes spell within the limits of a query is small enough for `compile`.
pub fn spelled_are_small()
    ensures { SpelledAreSmall }
{}
