// The laws of the scan and of runs, each on a public call that does nothing.
ghost use Rattle.xml_tokenizer.specs.Laws.{Scans, OneCut, OneCutting, CharactersAreTokens};

/// Every token is scanned to its end, and not before.
pub fn scans()
    ensures { Scans }
{}

/// Two texts that are scanned to their ends in the same bytes are one.
pub fn one_cut()
    ensures { OneCut }
{}

/// Bytes are cut into tokens in one way.
pub fn one_cutting()
    ensures { OneCutting }
{}

/// A run of characters is a token each.
pub fn characters_are_tokens()
    ensures { CharactersAreTokens }
{}
