// The laws of schemas, each on a public call that does nothing.
ghost use Rattle.content_models.specs.Laws.{NamesAreNames, SpellsOne, WrongOne};

/// Bytes spell at most one schema.
pub fn spells_one()
    ensures { SpellsOne }
{}

/// What is taken for a name is one, and as long as it can be.
pub fn names_are_names()
    ensures { NamesAreNames }
{}

/// Nodes have one list of numbers of wrong elements.
pub fn wrong_one()
    ensures { WrongOne }
{}
