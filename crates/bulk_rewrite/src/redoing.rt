// Texts that are redone one after another.
ghost use Rattle.std.specs.Prelude.{◌≡◌, ◌<◌, ◌≤◌, ◌+◌, ◌++◌, [], None, IfOk, OnOk, drop, length, slice_index_or, slice_range, option_to_list};
ghost use Rattle.bulk_rewrite.specs.Fates.{Redone, Stays, Joins, redone, redone_one, redone_alike};
ghost use Rattle.bulk_rewrite.specs.Redoing.{all_texts, nothing_redone, opened};
ghost use Rattle.bulk_rewrite.specs.Tags.{told_fates};

use crate::tagging::{Fate, told_fate};
use rule_runs::Answers;
use std::alloc::{AllocError, Global};
use std::marker::Model;
use text_list::{TextCopy, TextList};

// The text that stays and to whose end the next may go: that of a place, as long as none went there, and else the joined bytes.
#[derive(Clone, Copy, Drop)]
enum OpenText {
    Nothing,
    Kept(u64),
    Joined,
}

// The texts that are done, beside those that there were, and the one that is open.
#[derive(Drop)]
pub(crate) struct Redoing<'a> {
    done: TextCopy<'a>,
    open_text: OpenText,
    joined: Vec<u8>,
}

impl<'a> Model for Redoing<'a> {
    ghost use Rattle.bulk_rewrite.specs.Redoing.{TextsSoFar, opened};

    ghost Value = { TextsSoFar };

    ghost view = { λ r. record {
      originals = r.done.originals;
      done = r.done.texts;
      open_text = opened r.done.originals r.joined.items r.open_text;
    } };
}

impl<'a> Redoing<'a> {
    pub(crate) fn new(alloc: Global, texts: &'a TextList) -> Result<Redoing<'a>, AllocError>
        ensures { IfOk result (λ redoing. redoing ≡ record { originals = texts.now.texts; done = []; open_text = None }) }
    {
        Ok(Redoing {
            done: TextCopy::new(alloc, texts)?,
            open_text: OpenText::Nothing,
            joined: Vec::new(alloc),
        })
    }

    // How many texts there were.
    fn originals(&self) -> u64
        ensures { result ≡ length self.now.originals }
    {
        self.done.originals()
    }

    // The open text is done.
    fn close(&mut self) -> Result<(), AllocError>
        ensures originals { self.new.originals ≡ self.old.originals }
        ensures closed { OnOk result (self.new ≡ record { originals = self.old.originals; done = self.old.done ++ option_to_list self.old.open_text; open_text = None }) }
    {
        put(self.open_text, self.joined.as_slice(), &mut self.done)?;
        self.open_text = OpenText::Nothing;
        Ok(())
    }

    // So many texts stay, from the one at a place on.
    fn stay(&mut self, place: u64, count: u64) -> Result<(), AllocError>
        requires some { 0 < count }
        requires range { place + count ≤ length self.old.originals }
        ensures originals { self.new.originals ≡ self.old.originals }
        ensures texts { OnOk result ((r : Redone) → all_texts self.new r ≡ all_texts self.old (redone_alike Stays (slice_range self.old.originals place (place + count)) r)) }
    {
        // The call tells that places are machine words.
        let _places = self.originals();
        self.close()?;
        self.done.copy_many(place, count - 1)?;
        self.open_text = OpenText::Kept(place + (count - 1));
        Ok(())
    }

    // So many texts go to the end of the open one, from the one at a place on.
    fn join_all(&mut self, place: u64, count: u64) -> Result<(), AllocError>
        requires { place + count ≤ length self.old.originals }
        ensures originals { self.new.originals ≡ self.old.originals }
        ensures texts { OnOk result ((r : Redone) → all_texts self.new r ≡ all_texts self.old (redone_alike Joins (slice_range self.old.originals place (place + count)) r)) }
    {
        // The call tells that places are machine words.
        let _places = self.originals();
        'texts: for next in 0..count {
            self.join(place + next)?;
        }
        Ok(())
    }

    // The text at a place goes to the end of the open one.
    fn join(&mut self, place: u64) -> Result<(), AllocError>
        requires { place < length self.old.originals }
        ensures originals { self.new.originals ≡ self.old.originals }
        ensures texts { OnOk result ((r : Redone) → all_texts self.new r ≡ all_texts self.old (redone_one Joins (slice_index_or self.old.originals place []) r)) }
    {
        let text = self.done.original(place).unwrap();
        match self.open_text {
            OpenText::Nothing => {}
            OpenText::Kept(at) => {
                if let Some(first) = self.done.original(at) {
                    write_both(&mut self.joined, first, text)?;
                    self.open_text = OpenText::Joined;
                }
            }
            OpenText::Joined => self.joined.extend_from_slice(text)?,
        }
        Ok(())
    }

    // So many texts are redone that have one fate, from the one at a place on.
    fn redo(&mut self, fate: Fate, place: u64, count: u64) -> Result<(), AllocError>
        requires some { 0 < count }
        requires range { place + count ≤ length self.old.originals }
        ensures originals { self.new.originals ≡ self.old.originals }
        ensures texts { OnOk result ((r : Redone) → all_texts self.new r ≡ all_texts self.old (redone_alike fate (slice_range self.old.originals place (place + count)) r)) }
    {
        match fate {
            Fate::Stays => self.stay(place, count),
            Fate::Joins => self.join_all(place, count),
            Fate::Drops => Ok(()),
        }
    }

    // The list of them all.
    pub(crate) fn finish(self) -> Result<TextList, AllocError>
        ensures { IfOk result (λ list. list.texts ≡ all_texts self.entry nothing_redone) }
    {
        let mut redoing = self;
        redoing.close()?;
        Ok(redoing.done.finish())
    }
}

// An open text comes behind those that are done.
fn put(text: OpenText, joined: &[u8], done: &mut TextCopy<'_>) -> Result<(), AllocError>
    ensures originals { done.new.originals ≡ done.old.originals }
    ensures texts { OnOk result (done.new.texts ≡ done.old.texts ++ option_to_list (opened done.old.originals joined.now text)) }
{
    match text {
        OpenText::Nothing => Ok(()),
        OpenText::Kept(place) => done.copy(place),
        OpenText::Joined => done.push(joined),
    }
}

fn write_both(bytes: &mut Vec<u8>, first: &[u8], second: &[u8]) -> Result<(), AllocError>
    ensures { OnOk result (bytes.new.items ≡ first.now ++ second.now) }
{
    bytes.clear();
    bytes.extend_from_slice(first)?;
    bytes.extend_from_slice(second)?;
    Ok(())
}

// All texts, whose fates the answers tell, are redone.
pub(crate) fn redo_all(
    answers: &mut Answers<'_>,
    redoing: &mut Redoing<'_>,
) -> Result<(), AllocError>
    ensures { OnOk result (all_texts redoing.new nothing_redone ≡ all_texts redoing.old (redone (told_fates answers.old) redoing.old.originals)) }
{
    let count = redoing.originals();
    let mut place = 0;
    'texts: while place < count {
        place += redo_next(answers, place, redoing)?;
    }
    Ok(())
}

// The texts from a place on are redone whose fates are told next, and it answers how many.
fn redo_next(
    answers: &mut Answers<'_>,
    place: u64,
    redoing: &mut Redoing<'_>,
) -> Result<u64, AllocError>
    requires { place < length redoing.old.originals }
    ensures originals { redoing.new.originals ≡ redoing.old.originals }
    ensures some { IfOk result (λ count. 0 < count) }
    ensures within { IfOk result (λ count. place + count ≤ length redoing.old.originals) }
    ensures texts { IfOk result (λ count. all_texts redoing.new (redone (told_fates answers.new) (drop (place + count) redoing.old.originals)) ≡ all_texts redoing.old (redone (told_fates answers.old) (drop place redoing.old.originals))) }
{
    let left = redoing.originals() - place;
    let Some(hits) = answers.next_alike()? else {
        return Ok(left);
    };
    let count = hits.count.min(left);
    redoing.redo(told_fate(hits.symbol), place, count)?;
    Ok(count)
}
