// Values: what characters and references between quotes give.
ghost use Rattle.std.specs.Prelude.{◌≡◌, ◌≤◌, ◌++◌, ℕ, List, length, None, IfOk, IfSome, IfNone, OnOk};
ghost use Rattle.std.specs.Char.{encode_utf8};
ghost use Rattle.xml_tokens.specs.Cutting.{back};
ghost use Rattle.xml_tokens.specs.Attributes.{IsValue};
ghost use Rattle.xml_tokens.specs.TokenAt.{value_of, value_in, gives_itself};
ghost use Rattle.xml_tokens.specs.Seen.{byte_given, value_bytes, seen_value, seen_items};

use crate::characters::are_chars;
use crate::references::leading_reference;
use std::alloc::{AllocError, Global};

/// What white space in a value gives.
#[derive(Clone, Copy)]
pub enum Spaces {
    /// Itself.
    Kept,
    /// One space each, as in the value of an attribute.
    Spaced,
}

impl Spaces {
    fn given(self, c: u8) -> u8
        ensures { result ≡ byte_given self c }
    {
        match self {
            Spaces::Kept => c,
            Spaces::Spaced => match c {
                b' ' | b'\t' | b'\r' | b'\n' => b' ',
                _ => c,
            },
        }
    }
}

/// A value: the bytes as they stand in the document, or what its references and white space give.
#[derive(Drop)]
pub enum Value<'a> {
    Same(&'a [u8]),
    Made(Vec<u8>),
}

impl Value<'_> {
    /// The value's bytes, lent.
    pub fn as_slice(&self) -> &[u8]
        ensures { result.now ≡ value_bytes self.now }
    {
        match self {
            Value::Same(bytes) => bytes,
            Value::Made(bytes) => bytes.as_slice(),
        }
    }
}

/// The value that characters and references give, which are all the bytes; None where they are anything else. Line ends
/// have to be done before. It is refused only for want of memory.
pub fn read_value(
    alloc: Global,
    inner: &[u8],
    spaces: Spaces,
) -> Result<Option<Value<'_>>, AllocError>
    ensures found { IfOk result (λ o. IfSome o (λ v. IsValue (byte_given spaces) (value_bytes v) inner.now)) }
    ensures none { IfOk result (λ o. IfNone o ((value : List ℕ) → IsValue (byte_given spaces) value inner.now → ⊥)) }
{
    value_of(alloc, inner, spaces)
}

pub(crate) fn value_of(
    alloc: Global,
    inner: &[u8],
    spaces: Spaces,
) -> Result<Option<Value<'_>>, AllocError>
    ensures { IfOk result (λ o. seen_value o ≡ value_of (byte_given spaces) inner.now) }
{
    if !are_chars(inner) {
        return Ok(None);
    }
    if skip_plain(inner).is_empty() {
        return Ok(Some(Value::Same(inner)));
    }
    match made_of(alloc, inner, spaces)? {
        Some(bytes) => Ok(Some(Value::Made(bytes))),
        None => Ok(None),
    }
}

fn made_of(alloc: Global, inner: &[u8], spaces: Spaces) -> Result<Option<Vec<u8>>, AllocError>
    ensures { IfOk result (λ o. seen_items o ≡ value_in (byte_given spaces) None inner.now) }
{
    let mut value = Vec::with_capacity(alloc, inner.len())?;
    let mut rest = inner;
    loop {
        let left = skip_plain(rest);
        value.extend_from_slice(&rest[..rest.len() - left.len()])?;
        match left {
            [] => return Ok(Some(value)),
            [b'&', tail @ ..] => match leading_reference(tail) {
                Some((c, after)) => {
                    push_char(&mut value, c)?;
                    rest = after;
                }
                None => return Ok(None),
            },
            [b'<', ..] => return Ok(None),
            [first, tail @ ..] => {
                value.push(spaces.given(*first))?;
                rest = tail;
            }
        }
    }
}

// The bytes from the first on that is white space other than #x20, `&` or `<`.
fn skip_plain(bytes: &[u8]) -> &[u8]
    ensures left { result.now ≡ back gives_itself bytes.now }
    ensures not_longer { length result.now ≤ length bytes.now }
{
    let mut rest = bytes;
    while let [first, tail @ ..] = rest {
        if !gives_itself(*first) {
            return rest;
        }
        rest = tail;
    }
    rest
}

fn gives_itself(c: u8) -> bool
    ensures { result ≡ gives_itself c }
{
    c != b'&' && c != b'<' && c != b'\t' && c != b'\n' && c != b'\r'
}

/// Appends the bytes of a character.
fn push_char(out: &mut Vec<u8>, c: char) -> Result<(), AllocError>
    ensures { OnOk result (out.new.items ≡ out.old.items ++ encode_utf8 c) }
{
    let mut buffer = [0; 4];
    let text = c.encode_utf8(&mut buffer);
    out.extend_from_slice(text.as_bytes())
}
