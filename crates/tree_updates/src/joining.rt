// Texts that meet where a code comes before a node.
ghost use Rattle.std.specs.Prelude.{◌≡◌, ◌≤◌, ◌+◌, ◌-◌, ◌++◌, [], ◌∷◌, IfOk, length, slice_get, drop, take};
ghost use Rattle.std.specs.Option.{option_copied};
ghost use Rattle.slt_grammar.specs.Names.{Param};
ghost use Rattle.linked_edits.specs.Endings.{EndsInParam};
ghost use Rattle.tree_updates.specs.Joinings.{ends, if_meets, joined_value, middle};

use crate::deleting_between::joined_bytes;
use fcns_encoding::Coded;
use plain_tree::{Bytes, Texts};
use slt_grammar::{Body, Label};
use std::alloc::{AllocError, Global};
use text_list::TextList;

// Whether the text before a node meets the first of some trees, and the last of them the node.
#[derive(Clone, Copy, Drop)]
pub(crate) struct Seams {
    pub(crate) front: bool,
    pub(crate) back: bool,
}

// The values that the text before a node and the node get, where the first and the last of some trees are texts that meet them, and the code and
// the texts of the other trees.
#[derive(Drop)]
pub(crate) struct Joined {
    pub(crate) front: Option<Bytes>,
    pub(crate) back: Option<Bytes>,
    pub(crate) rest: Coded,
}

// What a code with its texts comes to before the node whose texts begin at this rank. Memory is asked for values that are joined, and then for what
// is left of the code.
pub(crate) fn join_ends(
    alloc: Global,
    texts: &TextList,
    rank: u64,
    seams: Seams,
    coded: Coded,
) -> Result<Joined, AllocError>
    requires last { EndsInParam coded.body }
    requires labels { ends seams.front 2 + (ends seams.back 2 + 1) ≤ length coded.body }
    requires values { ends seams.front 1 + ends seams.back 1 ≤ length coded.texts }
    ensures front { IfOk result (λ j. j.front ≡ if_meets seams.front (joined_value (slice_get texts.now.texts (rank - 1)) (slice_get coded.texts 0))) }
    ensures back { IfOk result (λ j. j.back ≡ if_meets seams.back (joined_value (slice_get coded.texts (length coded.texts - 1)) (slice_get texts.now.texts rank))) }
    ensures body { IfOk result (λ j. j.rest.body ≡ middle (ends seams.front 2) (ends seams.back 2 + 1) coded.body ++ Param ∷ []) }
    ensures rest { IfOk result (λ j. j.rest.texts ≡ middle (ends seams.front 1) (ends seams.back 1) coded.texts) }
{
    if !seams.front && !seams.back {
        return Ok(Joined {
            front: None,
            back: None,
            rest: coded,
        });
    }
    join_at(alloc, texts, rank, seams, &coded)
}

// The same where texts meet.
fn join_at(
    alloc: Global,
    texts: &TextList,
    rank: u64,
    seams: Seams,
    coded: &Coded,
) -> Result<Joined, AllocError>
    requires labels { ends seams.front 2 + (ends seams.back 2 + 1) ≤ length coded.now.body }
    requires values { ends seams.front 1 + ends seams.back 1 ≤ length coded.now.texts }
    ensures front { IfOk result (λ j. j.front ≡ if_meets seams.front (joined_value (slice_get texts.now.texts (rank - 1)) (slice_get coded.now.texts 0))) }
    ensures back { IfOk result (λ j. j.back ≡ if_meets seams.back (joined_value (slice_get coded.now.texts (length coded.now.texts - 1)) (slice_get texts.now.texts rank))) }
    ensures body { IfOk result (λ j. j.rest.body ≡ middle (ends seams.front 2) (ends seams.back 2 + 1) coded.now.body ++ Param ∷ []) }
    ensures rest { IfOk result (λ j. j.rest.texts ≡ middle (ends seams.front 1) (ends seams.back 1) coded.now.texts) }
{
    let many = coded.texts.len();
    let first = value_at(&coded.texts, 0);
    let last = value_at(&coded.texts, many.saturating_sub(1));
    let front = joined_if(alloc, seams.front, texts.get(rank.saturating_sub(1)), first)?;
    let back = joined_if(alloc, seams.back, last, texts.get(rank))?;
    let body = middle_body(alloc, coded.body.as_slice(), seams)?;
    let values = middle_texts(alloc, &coded.texts, seams)?;
    let rest = Coded {
        body,
        texts: values,
    };
    Ok(Joined { front, back, rest })
}

pub(crate) fn value_at(texts: &Texts, at: usize) -> Option<&[u8]>
    ensures { option_copied result ≡ slice_get texts.now at }
{
    match texts.get(at) {
        Some(text) => Some(text.as_slice()),
        None => None,
    }
}

// The value of two texts that meet, if they do.
fn joined_if(
    alloc: Global,
    meet: bool,
    first: Option<&[u8]>,
    second: Option<&[u8]>,
) -> Result<Option<Bytes>, AllocError>
    ensures { IfOk result (λ value. value ≡ if_meets meet (joined_value (option_copied first.entry) (option_copied second.entry))) }
{
    if !meet {
        return Ok(None);
    }
    let Some(before) = first else {
        return Ok(None);
    };
    let Some(after) = second else {
        return Ok(None);
    };
    Ok(Some(joined_bytes(alloc, before, after)?))
}

pub(crate) fn ends(meet: bool, many: usize) -> usize
    ensures { result ≡ ends meet many }
{
    if meet { many } else { 0 }
}

// The labels of a code without those of its first tree and of its last, where these are texts that meet others.
fn middle_body(alloc: Global, labels: &[Label], seams: Seams) -> Result<Body, AllocError>
    requires { ends seams.front 2 + (ends seams.back 2 + 1) ≤ length labels.now }
    ensures { IfOk result (λ body. body ≡ middle (ends seams.front 2) (ends seams.back 2 + 1) labels.now ++ Param ∷ []) }
{
    let from = ends(seams.front, 2);
    let to = labels.len() - (ends(seams.back, 2) + 1);
    let mut body = copy_labels(alloc, &labels[from..to])?;
    body.push(Label::Param)?;
    Ok(body)
}

fn copy_labels(alloc: Global, labels: &[Label]) -> Result<Body, AllocError>
    ensures { IfOk result (λ body. body ≡ labels.now) }
{
    let mut body = Body::new(alloc);
    for label in labels {
        body.push(*label)?;
    }
    Ok(body)
}

// And its texts.
fn middle_texts(alloc: Global, texts: &Texts, seams: Seams) -> Result<Texts, AllocError>
    requires { ends seams.front 1 + ends seams.back 1 ≤ length texts.now }
    ensures { IfOk result (λ values. values ≡ middle (ends seams.front 1) (ends seams.back 1) texts.now) }
{
    let from = ends(seams.front, 1);
    let to = texts.len() - ends(seams.back, 1);
    let mut values = Texts::new(alloc);
    for at in from..to {
        let text = texts.get(at).unwrap();
        values.push(Bytes::from_slice(alloc, text.as_slice())?)?;
    }
    Ok(values)
}
