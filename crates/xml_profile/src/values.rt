// Values of edits from bytes that are all there.
ghost use Rattle.std.specs.Prelude.{◌≡◌, ℕ, ◌++◌, IfOk, OnOk, Err};
ghost use Rattle.std.specs.Char.{encode_utf8};
ghost use Rattle.plain_tree.specs.Lawful.{AreChars};
ghost use Rattle.xml_nodes.specs.Spelling.{SpellsValue};
ghost use Rattle.xml_profile.specs.Reading.{IsBadValue};

use crate::error::XmlError;
use plain_tree::Bytes;
use std::alloc::{AllocError, Global};
use xml_tokenizer::{Refused, RunRefused, TokenError, TokenSink, Tokenizer};
use xml_tokens::Found;

// What a value's characters and references give so far.
#[derive(Drop)]
struct ValueSink {
    value: Vec<u8>,
}

impl ValueSink {
    fn push(&mut self, c: char) -> Result<(), AllocError>
        ensures { OnOk result (self.new.value.items ≡ self.old.value.items ++ encode_utf8 c) }
    {
        let mut buffer = [0; 4];
        let text = c.encode_utf8(&mut buffer);
        self.value.extend_from_slice(text.as_bytes())
    }
}

impl TokenSink for ValueSink {
    ghost use Rattle.std.specs.Prelude.{ℕ, List, []};
    ghost use Rattle.xml_profile.specs.Valuing.{value_step};

    ghost State = { List ℕ };

    ghost state = { λ s. s.value.items };

    ghost step = { value_step };

    ghost IsReady = { λ _. Unit {0} };

    ghost lenders = { λ _. [] };

    fn token(&mut self, found: Found<'_>) -> Result<(), Refused> {
        match found {
            Found::Character(c) | Found::Reference(c) => {
                self.push(c).map_err(|_| Refused::Memory)
            }
            _ => Err(Refused::Here),
        }
    }

    fn run(&mut self, bytes: &[u8]) -> Result<(), RunRefused> {
        self.value
            .extend_from_slice(bytes)
            .map_err(|_| RunRefused::Memory)
    }
}

/// The value that the bytes spell: characters, of which white space stays as it is, and references. `Bad` comes exactly where they
/// spell none, and tells the place.
pub fn read_value(alloc: Global, bytes: &[u8]) -> Result<Bytes, XmlError>
    ensures spelled { IfOk result (λ value. SpellsValue bytes.now value) }
    ensures chars { IfOk result AreChars }
    ensures bad { (at : ℕ) → result ≡ Err (XmlError.Bad at) → IsBadValue bytes.now at }
{
    let mut sink = ValueSink {
        value: Vec::new(alloc),
    };
    let mut tokenizer = Tokenizer::new(alloc);
    match tokenizer.feed(alloc, bytes, &mut sink) {
        Ok(()) => {}
        Err(TokenError::Bad) => {
            return Err(XmlError::Bad {
                at: tokenizer.start(),
            });
        }
        Err(TokenError::Memory) => return Err(XmlError::Memory),
    }
    if tokenizer.is_whole() {
        Ok(Bytes::from_slice(alloc, sink.value.as_slice())?)
    } else {
        Err(XmlError::Bad {
            at: tokenizer.start(),
        })
    }
}
