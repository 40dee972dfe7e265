// The attributes of a tag.
ghost use Rattle.std.specs.Prelude.{◌≡◌, ◌<◌, length, IfOk, IfSome};
ghost use Rattle.std.specs.Str.{bytes_eq};
ghost use Rattle.xml_tokens.specs.Seen.{seen_three};
ghost use Rattle.xml_tokens.specs.Attributes.{are_distinct, has_name};
ghost use Rattle.xml_tokens.specs.TokenAt.{attribute_at, all_attributes_at, ended_attributes, raw_attribute_at};
ghost use Rattle.xml_tokens.specs.SeenTokens.{attributes_of, seen_attribute, seen_attributes};

use crate::cutting::{begins_space, eq_in, name_in, quoted_in, skip_space};
use crate::name_set::NameSet;
use crate::values::{Spaces, Value, value_of};
use std::alloc::{AllocError, Global};

/// An attribute: its name as it stands in the document, and its value.
#[derive(Drop)]
pub struct Attribute<'a> {
    pub name: &'a [u8],
    pub value: Value<'a>,
}

/// An attribute, and what follows it.
type Given<'a> = (Attribute<'a>, &'a [u8]);

/// Attributes, and what follows them.
type AllGiven<'a> = (Vec<Attribute<'a>>, &'a [u8]);

/// The attributes up to the end of the tag, and how it ends.
pub(crate) fn attributes_in(alloc: Global, bytes: &[u8]) -> Result<Option<AllGiven<'_>>, AllocError>
    ensures { IfOk result (λ o. seen_attributes o ≡ all_attributes_at bytes.now) }
{
    let mut attributes = Vec::new(alloc);
    let mut rest = bytes;
    loop {
        let start = skip_space(rest);
        if ends_attributes(start) {
            return Ok(Some((attributes, start)));
        }
        if !begins_space(rest) {
            return Ok(None);
        }
        match attribute_in(alloc, start)? {
            Some((attribute, after)) => {
                attributes.push(attribute)?;
                rest = after;
            }
            None => return Ok(None),
        }
    }
}

fn ends_attributes(bytes: &[u8]) -> bool
    ensures { result ≡ ended_attributes bytes.now }
{
    match bytes {
        [first, ..] => *first == b'>' || *first == b'/',
        [] => true,
    }
}

#[tactic(auto, unfolding(crate::specs::TokenAt::attribute_at))]
fn attribute_in(alloc: Global, bytes: &[u8]) -> Result<Option<Given<'_>>, AllocError>
    ensures found { IfOk result (λ o. seen_attribute o ≡ attribute_at bytes.now) }
{
    match raw_attribute_in(bytes) {
        Some((name, inner, after)) => match value_of(alloc, inner, Spaces::Spaced)? {
            Some(value) => Ok(Some((Attribute { name, value }, after))),
            None => Ok(None),
        },
        None => Ok(None),
    }
}

// The name, what stands in the quotes, and what follows.
type Raw<'a> = (&'a [u8], &'a [u8], &'a [u8]);

#[tactic(auto, unfolding(crate::specs::TokenAt::raw_attribute_at))]
fn raw_attribute_in(bytes: &[u8]) -> Option<Raw<'_>>
    ensures { seen_three result ≡ raw_attribute_at bytes.now }
{
    let (name, rest) = name_in(bytes)?;
    let (inner, after) = quoted_in(eq_in(rest)?)?;
    Some((name, inner, after))
}

/// Whether no name stands twice. Few names are compared with one another, many are put into a set.
pub(crate) fn are_distinct(alloc: Global, attributes: &[Attribute<'_>]) -> Result<bool, AllocError>
    ensures { IfOk result (λ b. b ≡ are_distinct (attributes_of attributes.now)) }
{
    if attributes.len() <= 16 {
        Ok(are_few_distinct(attributes))
    } else {
        are_many_distinct(alloc, attributes)
    }
}

fn are_many_distinct(alloc: Global, attributes: &[Attribute<'_>]) -> Result<bool, AllocError>
    ensures { IfOk result (λ b. b ≡ are_distinct (attributes_of attributes.now)) }
{
    let mut seen = NameSet::new(alloc);
    let mut rest = attributes;
    while let [first, tail @ ..] = rest {
        match seen.find(first.name) {
            Some(_) => return Ok(false),
            None => {}
        }
        seen.add(first.name.to_vec(alloc)?)?;
        rest = tail;
    }
    Ok(true)
}

fn are_few_distinct(attributes: &[Attribute<'_>]) -> bool
    ensures { result ≡ are_distinct (attributes_of attributes.now) }
{
    let mut rest = attributes;
    while let [first, tail @ ..] = rest {
        if has_name(first.name, tail) {
            return false;
        }
        rest = tail;
    }
    true
}

fn has_name(name: &[u8], attributes: &[Attribute<'_>]) -> bool
    ensures { result ≡ has_name name.now (attributes_of attributes.now) }
{
    let mut rest = attributes;
    while let [first, tail @ ..] = rest {
        if first.name == name {
            return true;
        }
        rest = tail;
    }
    false
}
