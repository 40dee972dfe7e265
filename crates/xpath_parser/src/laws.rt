// The laws of spelling, each on a public call that does nothing.
ghost use Rattle.xpath_parser.specs.Laws.{SpellsOne, NamesAreQNames};

/// Bytes spell at most one query.
pub fn spells_one()
    ensures { SpellsOne }
{}

/// What a token takes for a name is one.
pub fn names_are_qnames()
    ensures { NamesAreQNames }
{}
