// Lists of texts, as text_list promises them.
ghost use Rattle.std.specs.List.{insert_slice, remove_range};
ghost use Rattle.std.specs.Prelude.{◌^◌, ◌≡◌, ◌+◌, ◌≤◌, length, IsOk, OnOk, OnErr, slice_range, ◌-◌, map, ◌<◌, IfOk, slice_index, ℕ, List, None, IfSome};
ghost use Rattle.text_list.specs.Dictionaries.{dictionary_of};
ghost use Rattle.text_list.specs.Different.{different};
ghost use Rattle.text_list.specs.Marking.{mark_of};

use plain_tree::{Bytes, Texts};
use std::alloc::{AllocError, Global};
use text_list::{Dictionary, ListedTable, TextList};

/// Texts come to stand at a place of the list.
pub fn texts_insert_told(list: &mut TextList, at: u64, texts: Texts) -> Result<(), AllocError>
    requires { at ≤ length list.old.texts }
    ensures texts { OnOk result (list.new.texts ≡ insert_slice list.old.texts at texts) }
    ensures err { OnErr result (list.new.texts ≡ list.old.texts) }
    ensures succeeds { length texts ≤ list.old.room → IsOk result }
    ensures few { OnOk result (length (different list.old.texts) + length texts ≤ 2 ^ 32) }
{
    list.insert(at, texts)
}

/// So many texts from a place on stand there once more.
pub fn texts_duplicate_told(list: &mut TextList, at: u64, count: u64) -> Result<(), AllocError>
    requires { at + count ≤ length list.old.texts }
    ensures texts { OnOk result (list.new.texts ≡ insert_slice list.old.texts at (slice_range list.old.texts at (at + count))) }
    ensures err { OnErr result (list.new.texts ≡ list.old.texts) }
    ensures succeeds { count ≤ list.old.room → IsOk result }
    ensures few { OnOk result (length (different list.old.texts) + count ≤ 2 ^ 32) }
{
    list.duplicate(at, count)
}

/// So many texts from a place on are gone.
pub fn texts_remove_told(list: &mut TextList, at: u64, count: u64)
    requires { at + count ≤ length list.old.texts }
    ensures texts { list.new.texts ≡ remove_range list.old.texts at (at + count) }
    ensures room { list.old.room ≤ list.new.room }
{
    list.remove_range(at, count)
}

/// For each text its mark, which says what literal it equals.
pub fn marks_told(
    list: &TextList,
    alloc: Global,
    literals: &[Bytes],
) -> Result<Vec<u32>, AllocError>
    requires { length literals.now < 2 ^ 32 - 1 }
    ensures { IfOk result (λ marks. marks.items ≡ map (mark_of literals.now) list.now.texts) }
{
    list.marks(alloc, literals)
}

/// The place of a text among the different ones.
pub fn dictionary_place_told<'a>(dictionary: &Dictionary<'a>, text: u64) -> u64
    requires { text < length dictionary.now.places }
    ensures { result ≡ slice_index dictionary.now.places text }
{
    dictionary.place(text)
}

/// The list whose dictionary is this one, and None exactly where it is that of no list.
pub fn listed_told(table: ListedTable) -> Result<Option<TextList>, AllocError>
    ensures list { IfOk result (λ o. IfSome o (λ list. dictionary_of list.texts ≡ table)) }
    ensures none { IfOk result (λ o. o ≡ None → (texts : List (List ℕ)) → dictionary_of texts ≡ table → ⊥) }
{
    let list = table.finish()?;
    Ok(list)
}
