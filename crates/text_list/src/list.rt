// The list of the texts of a document.
ghost use Rattle.std.specs.Prelude.{◌^◌, ◌≡◌, ◌+◌, ◌-◌, map, ◌<◌, ◌≤◌, ◌++◌, length, slice_get, slice_range, slice_set, vec_len, vec_capacity, IfOk, IsOk, OnOk, OnErr};
ghost use Rattle.std.specs.List.{insert_slice, remove_range};
ghost use Rattle.std.specs.Option.{option_copied};
ghost use Rattle.text_list.specs.Different.{different};
ghost use Rattle.text_list.specs.Marking.{mark_of};
ghost use Rattle.text_list.specs.Numbers.{texts_at, AreWithin};

use crate::blob::Blob;
use crate::chunk::MOST_NUMBERS;
use crate::marking::{mark_places, marks_by_number};
use crate::places::Places;
use crate::table::TextTable;
use plain_tree::{Bytes, Texts};
use std::alloc::{AllocError, Global};
use std::marker::Model;

/// A list of texts, seen as their list with its `room`: how many more can be put in at one place without memory.
///
/// A text that has gone from the list may stay in memory until `reserve` makes the list anew.
pub struct TextList {
    kept: Blob,
    // Texts that edits brought since the list was made. Their numbers come behind those of the kept ones.
    loose: Vec<Bytes>,
    places: Places,
}

impl Drop for TextList {
    fn drop(self) {
        let TextList {
            kept: _kept,
            loose: _loose,
            places: _places,
        } = self;
    }
}

// How many texts can have numbers of 32 bits.
const MOST_TEXTS: usize = 1 << 32;

impl Model for TextList {
    ghost use Rattle.std.specs.Prelude.{◌-◌, ◌+◌, ◌^◌, ◌≤◌, ◌++◌, length, min, vec_len, vec_capacity};
    ghost use Rattle.text_list.specs.RoomyTexts.{RoomyTexts, room_among};
    ghost use Rattle.text_list.specs.Numbers.{texts_at, AreWithin};

    ghost Value = { RoomyTexts };

    ghost view = { λ t. record {
      texts = texts_at (t.kept ++ t.loose.items) t.places.numbers;
      room = room_among (length t.kept + vec_len t.loose)
          (vec_capacity t.loose - vec_len t.loose) t.places.room;
    } };

    ghost invariant = { λ t. AreWithin (t.kept ++ t.loose.items) t.places.numbers × (length t.kept + vec_len t.loose ≤ 2 ^ 32) };
}

impl TextList {
    /// The list of these texts. It takes no memory, and gives back what the table took in advance.
    pub fn new(texts: TextTable) -> TextList
        ensures { result.texts ≡ texts }
    {
        let (mut kept, places) = texts.into_parts();
        kept.shrink();
        TextList {
            loose: Vec::new(kept.allocator()),
            kept,
            places,
        }
    }

    /// How many texts there are. Memory holds fewer than 2^60.
    pub fn len(&self) -> u64
        ensures value { result ≡ length self.now.texts }
        ensures few { result < 2 ^ 60 }
    {
        self.places.len() as u64
    }

    /// How many more texts can be put in at one place without memory.
    pub fn room(&self) -> u64
        ensures value { result ≡ self.now.room }
        ensures few { length (different self.now.texts) + result ≤ 2 ^ 32 }
    {
        let numbers = MOST_TEXTS.saturating_sub(self.kept.len().saturating_add(self.loose.len()));
        let loose = self.loose.capacity() - self.loose.len();
        numbers.min(loose).min(self.places.room()) as u64
    }

    /// The text at a place, and None exactly where the place isn't below the length.
    pub fn get(&self, at: u64) -> Option<&[u8]>
        ensures { option_copied result ≡ slice_get self.now.texts at }
    {
        match self.places.get(at as usize) {
            Some(number) => text_of(&self.kept, self.loose.as_slice(), number as usize),
            None => None,
        }
    }

    /// Which of some literals each text equals: 0 where it equals none, else one more than the place of the first one. Each text that is
    /// kept is compared once, however often it stands in the list.
    pub fn marks(&self, alloc: Global, literals: &[Bytes]) -> Result<Vec<u32>, AllocError>
        requires { length literals.now < 2 ^ 32 - 1 }
        ensures { IfOk result (λ marks. marks.items ≡ map (mark_of literals.now) self.now.texts) }
    {
        let by_number = marks_by_number(alloc, &self.kept, self.loose.as_slice(), literals)?;
        mark_places(alloc, &self.places, by_number.as_slice())
    }

    /// Makes room for this many more texts at one place. It is refused only for want of memory or of numbers for texts. Where
    /// there is no room yet and edits have left much behind, it makes the list anew, unless memory is refused for that or the
    /// different texts have 2^32 bytes or more.
    pub fn reserve(&mut self, more: u64) -> Result<(), AllocError>
        ensures texts { self.new.texts ≡ self.old.texts }
        ensures room { OnOk result (more ≤ self.new.room) }
        ensures grown { self.old.room ≤ self.new.room }
        ensures succeeds { more ≤ self.old.room → IsOk result }
        ensures few { OnOk result (length (different self.new.texts) + more ≤ 2 ^ 32) }
    {
        if more <= self.room() {
            return Ok(());
        }
        if self.is_worn() && self.make_anew(more).is_ok() {
            return Ok(());
        }
        self.grow(more)
    }

    /// Puts texts before the one at a place, or at the end. It takes no memory where there is room for them, and it may use up
    /// the room as a whole, so that a later call reserves anew. It is refused only as `reserve` is.
    pub fn insert(&mut self, at: u64, texts: Texts) -> Result<(), AllocError>
        requires { at ≤ length self.old.texts }
        ensures texts { OnOk result (self.new.texts ≡ insert_slice self.old.texts at texts) }
        ensures err { OnErr result (self.new.texts ≡ self.old.texts) }
        ensures succeeds { length texts ≤ self.old.room → IsOk result }
        ensures few { OnOk result (length (different self.old.texts) + length texts ≤ 2 ^ 32) }
    {
        let added = texts.into_vec();
        let count = added.as_slice().len();
        self.reserve(count as u64)?;
        if count == 0 {
            return Ok(());
        }
        let first = self.kept.len() + self.loose.as_slice().len();
        put_behind(&mut self.loose, added);
        self.places.insert(at as usize, first as u32, count);
        Ok(())
    }

    /// Puts a copy of the texts of a range, `count` from the one at `at` on, before them. It takes no memory where there is room
    /// for them, and it may use up the room as a whole, so that a later call reserves anew. It is refused only as `reserve` is.
    pub fn duplicate(&mut self, at: u64, count: u64) -> Result<(), AllocError>
        requires { at + count ≤ length self.old.texts }
        ensures texts { OnOk result (self.new.texts ≡ insert_slice self.old.texts at (slice_range self.old.texts at (at + count))) }
        ensures err { OnErr result (self.new.texts ≡ self.old.texts) }
        ensures succeeds { count ≤ self.old.room → IsOk result }
        ensures few { OnOk result (length (different self.old.texts) + count ≤ 2 ^ 32) }
    {
        self.reserve(count)?;
        self.places.duplicate(at as usize, count as usize);
        Ok(())
    }

    /// Takes out `count` texts from the one at `at` on. It takes no memory.
    pub fn remove_range(&mut self, at: u64, count: u64)
        requires { at + count ≤ length self.old.texts }
        ensures texts { self.new.texts ≡ remove_range self.old.texts at (at + count) }
        ensures room { self.old.room ≤ self.new.room }
    {
        self.places.remove_range(at as usize, count as usize);
    }

    /// Puts a text in the place of another, where there is room for one. It takes no memory.
    pub fn set(&mut self, at: u64, value: Bytes)
        requires place { at < length self.old.texts }
        requires room { 0 < self.old.room }
        ensures texts { self.new.texts ≡ slice_set self.old.texts at value }
        ensures room { self.old.room ≤ self.new.room + 1 }
    {
        let number = self.kept.len() + self.loose.as_slice().len();
        self.loose.push_reserved(value);
        self.places.set(at as usize, number as u32);
    }

    // Whether edits have left so much behind that the list is better made anew, which takes time for each text. Only many edits
    // bring that about: of a list that was just made each text is in use, none is loose, and all chunks but one are full.
    fn is_worn(&self) -> bool {
        let len = self.places.len();
        let loose = self.loose.len();
        let texts = self.kept.len().saturating_add(loose);
        let chunks = self.places.chunks();
        loose > LEAST_LOOSE.max(len / 16)
            || texts > LEAST_LOOSE + len + len / 4
            || chunks > LEAST_CHUNKS + len / MOST_NUMBERS * 3
    }

    // Makes room within this list.
    fn grow(&mut self, more: u64) -> Result<(), AllocError>
        ensures texts { self.new.texts ≡ self.old.texts }
        ensures room { OnOk result (more ≤ self.new.room) }
        ensures grown { self.old.room ≤ self.new.room }
        ensures few { OnOk result (length (different self.new.texts) + more ≤ 2 ^ 32) }
    {
        self.loose.reserve(more as usize)?;
        self.places.reserve(more as usize)?;
        if self.room() < more {
            return Err(AllocError);
        }
        Ok(())
    }

    // The texts that have numbers, kept and loose ones, and the numbers of the places.
    pub(crate) fn parts(&self) -> (&Blob, &[Bytes], &Places)
        ensures texts { self.now.texts ≡ texts_at (result.0.now ++ result.1.now) result.2.now.numbers }
        ensures within { AreWithin (result.0.now ++ result.1.now) result.2.now.numbers }
    {
        (&self.kept, self.loose.as_slice(), &self.places)
    }

    // The list of these numbers of texts.
    pub(crate) fn of_parts(kept: Blob, places: Places) -> TextList
        requires within { AreWithin kept places.numbers }
        requires few { length kept ≤ 2 ^ 32 }
        ensures texts { result.texts ≡ texts_at kept places.numbers }
    {
        TextList {
            loose: Vec::new(kept.allocator()),
            kept,
            places,
        }
    }

    // Makes a new list of the same texts, with this room and no less than there was.
    fn make_anew(&mut self, more: u64) -> Result<(), AllocError>
        ensures texts { self.new.texts ≡ self.old.texts }
        ensures room { OnOk result (more ≤ self.new.room) }
        ensures grown { self.old.room ≤ self.new.room }
        ensures few { OnOk result (length (different self.new.texts) + more ≤ 2 ^ 32) }
    {
        let room = more.max(self.room());
        let mut fresh = TextList::new(self.table()?);
        fresh.grow(room)?;
        *self = fresh;
        Ok(())
    }

    // The texts of the list, each different one kept once.
    fn table(&self) -> Result<TextTable, AllocError>
        ensures { IfOk result (λ t. t ≡ self.now.texts) }
    {
        let mut table = TextTable::new(*self.loose.allocator());
        for at in 0..self.len() {
            if let Some(text) = self.get(at) {
                table.push(text)?;
            }
        }
        Ok(table)
    }
}

// For no more loose texts than this, or texts that no place has, a list isn't made anew.
const LEAST_LOOSE: usize = 4096;

// For no more chunks than this a list isn't made anew.
const LEAST_CHUNKS: usize = 32;

// The text of a number: a kept one, or behind them a loose one.
pub(crate) fn text_of<'a>(kept: &'a Blob, loose: &'a [Bytes], number: usize) -> Option<&'a [u8]>
    ensures { option_copied result ≡ slice_get (kept.now ++ loose.now) number }
{
    let count = kept.len();
    if number < count {
        return kept.get(number);
    }
    match loose.get(number - count) {
        Some(text) => Some(text.as_slice()),
        None => None,
    }
}

// Puts texts behind the others. It takes no memory.
fn put_behind(loose: &mut Vec<Bytes>, mut added: Vec<Bytes>)
    requires { vec_len loose.old + vec_len added ≤ vec_capacity loose.old }
    ensures { loose.new.items ≡ loose.old.items ++ added.items }
{
    loose.append(&mut added).unwrap();
}
