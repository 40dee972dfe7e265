// Which text is which token, and how pieces are cut into them, as xml_tokens and xml_tokenizer promise it.
ghost use Rattle.std.specs.Prelude.{IfOk, IfSome, IfNone, ◌≡◌, ◌++◌, ◌+◌, ◌<◌, ◌^◌, ℕ, List, length, OnOk, Err, [], IsTrue, false};
ghost use Rattle.plain_tree.specs.XmlNames.{is_name};
ghost use Rattle.xml_tokens.specs.SeenTokens.{token_of};
ghost use Rattle.xml_tokens.specs.Tokens.{Token, IsToken, AreTokens};
ghost use Rattle.xml_tokenizer.specs.LineEnds.{line_ends};
ghost use Rattle.xml_tokenizer.specs.Standing.{Stands, GoesOn, BreaksAt, NoneFollow};

use std::alloc::{AllocError, Global};
use xml_tokenizer::{TokenError, TokenSink, Tokenizer};
use xml_tokens::{Found, is_name, read_token};

/// The token that a text is, or that it is none.
pub fn read_token_told(alloc: Global, text: &[u8]) -> Result<Option<Found<'_>>, AllocError>
    ensures found { IfOk result (λ o. IfSome o (λ f. IsToken (token_of f) text.now)) }
    ensures none { IfOk result (λ o. IfNone o ((t : Token) → IsToken t text.now → ⊥)) }
{
    read_token(alloc, text)
}

/// Whether the bytes are a Name of XML.
pub fn is_name_told(bytes: &[u8]) -> bool
    ensures { result ≡ is_name bytes.now }
{
    is_name(bytes)
}

/// The tokens that a piece ends go to the sink, and what begins in it is kept for the next piece.
/// Bytes that begin no token are refused at the place where they go wrong.
pub fn feed_told<S: TokenSink>(
    tokenizer: &mut Tokenizer,
    alloc: Global,
    piece: &[u8],
    sink: &mut S,
) -> Result<(), TokenError>
    requires ready { S.IsReady (S.state sink.old) }
    requires count { tokenizer.old.count + length piece.now < 2 ^ 64 }
    ensures ready { OnOk result (S.IsReady (S.state sink.new)) }
    ensures lenders { S.lenders sink.new ≡ S.lenders sink.old }
    ensures ok { OnOk result ((tokens : List Token) (fed : List ℕ) → Stands tokenizer.old tokens fed →
        GoesOn S.step (λ ts. Stands tokenizer.new ts (fed ++ piece.now)) (S.state sink.old) (S.state sink.new) tokens) }
    ensures count { OnOk result (tokenizer.new.count ≡ tokenizer.old.count + length piece.now) }
    ensures bad { result ≡ Err TokenError.Bad → (tokens : List Token) (fed : List ℕ) → Stands tokenizer.old tokens fed →
        NoneFollow S.step (S.state sink.old) tokens (fed ++ piece.now) }
    ensures place { result ≡ Err TokenError.Bad → (tokens : List Token) (fed : List ℕ) → Stands tokenizer.old tokens fed →
        BreaksAt S.step (S.state sink.old) tokens (fed ++ piece.now) tokenizer.new.start }
{
    tokenizer.feed(alloc, piece, sink)
}

/// Whether all that was fed is tokens, and none is begun.
pub fn is_whole_told(tokenizer: &Tokenizer) -> bool
    ensures whole { IsTrue result → (tokens : List Token) (fed : List ℕ) → Stands tokenizer.now tokens fed → AreTokens tokens (line_ends fed) [] }
    ensures broken { result ≡ false → (tokens others : List Token) (fed : List ℕ) → Stands tokenizer.now tokens fed → AreTokens others (line_ends fed) [] → ⊥ }
{
    tokenizer.is_whole()
}
