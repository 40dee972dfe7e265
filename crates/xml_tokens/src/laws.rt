// The laws of tokens, each on a public call that does nothing.
ghost use Rattle.xml_tokens.specs.Laws.{OneToken, TokenIsRead, ReadIsToken};

/// Bytes spell at most one token.
pub fn one_token()
    ensures { OneToken }
{}

/// What spells a token is read as it.
pub fn token_is_read()
    ensures { TokenIsRead }
{}

/// What is read as a token spells it.
pub fn read_is_token()
    ensures { ReadIsToken }
{}
