// The lists of texts: each call that takes memory once has enough of it, and equal texts are kept once.
use plain_tree::{Bytes, Texts};
use std::alloc::{AllocError, Global};
use std::slice;
use std::test::Fail;
use text_list::{TextCopy, TextList, TextTable};

// The list of a text for each letter.
fn list_of(alloc: Global, letters: &[u8]) -> Result<TextList, AllocError> {
    let mut table = TextTable::new(alloc);
    for letter in letters {
        table.push(slice::from_ref(letter))?;
    }
    Ok(TextList::new(table))
}

// Texts of one letter.
fn one_text(alloc: Global, letter: &[u8]) -> Result<Texts, AllocError> {
    let mut texts = Texts::new(alloc);
    texts.push(Bytes::from_slice(alloc, letter)?)?;
    Ok(texts)
}

// Whether the list has a text for each letter and no more.
fn spells(list: &TextList, letters: &[u8]) -> bool {
    let same = letters.iter().enumerate().all(|(place, letter)| {
        list.get(place as u64)
            .is_some_and(|text| text == slice::from_ref(letter))
    });
    same && list.get(letters.len() as u64).is_none()
}

// Copies the second and the third of three texts, and puts one in at the front.
fn lengthen(alloc: Global, list: &mut TextList) -> Result<(), AllocError> {
    if list.len() == 3 {
        list.duplicate(1, 2)?;
        list.insert(0, one_text(alloc, b"w")?)?;
    }
    Ok(())
}

// Takes three texts of six away, and makes another one of the last.
fn shorten(alloc: Global, list: &mut TextList) -> Result<(), AllocError> {
    if list.len() == 6 {
        list.reserve(9)?;
        list.remove_range(1, 3);
        list.set(2, Bytes::from_slice(alloc, b"v")?);
    }
    Ok(())
}

#[test]
fn texts_are_copied_put_in_and_taken_out(rt: HostRuntime) -> Result<(), Fail> {
    let mut list = list_of(rt.alloc(), b"xyz")?;
    lengthen(rt.alloc(), &mut list)?;
    assert!(rt; spells(&list, b"wxyzyz"));
    shorten(rt.alloc(), &mut list)?;
    assert!(rt; spells(&list, b"wyv"));
    Ok(())
}

// Three texts of a list, one of them again, and others.
fn copy_some(copy: &mut TextCopy<'_>) -> Result<(), AllocError> {
    copy.copy(2)?;
    copy.copy(0)?;
    copy.copy(2)?;
    copy.push(b"u")?;
    copy.push(b"v")?;
    copy.push(b"u")?;
    copy.copy(4)?;
    copy.copy(6)
}

fn some_copied(alloc: Global, list: &TextList) -> Result<TextList, AllocError> {
    let mut copy = TextCopy::new(alloc, list)?;
    copy_some(&mut copy)?;
    Ok(copy.finish())
}

#[test]
fn texts_of_a_list_are_copied(rt: HostRuntime) -> Result<(), Fail> {
    let mut list = list_of(rt.alloc(), b"xyz")?;
    lengthen(rt.alloc(), &mut list)?;
    let copied = some_copied(rt.alloc(), &list)?;
    assert!(rt; spells(&copied, b"ywyuvuy"));
    Ok(())
}

// Whether three texts are there to copy, of which `z` is the last.
fn has_three(copy: &TextCopy<'_>) -> bool {
    let last = copy.original(2).is_some_and(|text| text == b"z".as_slice());
    last && copy.originals() == 3 && copy.original(3).is_none()
}

#[test]
fn a_copy_has_the_list_beside_it(rt: HostRuntime) -> Result<(), Fail> {
    let list = list_of(rt.alloc(), b"xyz")?;
    let copy = TextCopy::new(rt.alloc(), &list)?;
    assert!(rt; has_three(&copy));
    Ok(())
}

const LONG: usize = 1 << 20;

const TIMES: usize = 4_200;

// A table with one text so many times. Kept each time, they would have more bytes than a table takes.
fn repeated(alloc: Global, text: &[u8]) -> Result<TextTable, AllocError> {
    let mut table = TextTable::new(alloc);
    for _ in 0..TIMES {
        table.push(text)?;
    }
    Ok(table)
}

#[test]
fn equal_texts_are_kept_once(rt: HostRuntime) -> Result<(), Fail> {
    let text = vec![in rt.alloc(); b'x'; LONG]?;
    let table = repeated(rt.alloc(), &text)?;
    assert!(rt; table.len() == TIMES);
    assert!(rt; table.get(TIMES - 1) == Some(text.as_slice()));
    Ok(())
}

// A list with one text 8,192 times.
fn doubled(alloc: Global, text: &[u8]) -> Result<TextList, AllocError> {
    let mut table = TextTable::new(alloc);
    table.push(text)?;
    let mut list = TextList::new(table);
    for _ in 0..13 {
        let count = list.len();
        list.duplicate(0, count)?;
    }
    Ok(list)
}

// All texts of a list.
fn all_copied(alloc: Global, list: &TextList) -> Result<TextList, AllocError> {
    let mut copy = TextCopy::new(alloc, list)?;
    for place in 0..list.len() {
        copy.copy(place)?;
    }
    Ok(copy.finish())
}

#[test]
fn a_text_that_is_copied_again_is_kept_once(rt: HostRuntime) -> Result<(), Fail> {
    let text = vec![in rt.alloc(); b'x'; LONG]?;
    let list = doubled(rt.alloc(), &text)?;
    let copied = all_copied(rt.alloc(), &list)?;
    assert!(rt; copied.len() == 8_192);
    assert!(rt; copied.get(8_191) == Some(text.as_slice()));
    Ok(())
}

// All texts of a list but the first and the last.
fn inner_copied(alloc: Global, list: &TextList) -> Result<TextList, AllocError> {
    let mut copy = TextCopy::new(alloc, list)?;
    let count = copy.originals();
    if count > 2 {
        copy.copy_many(1, count - 2)?;
    }
    Ok(copy.finish())
}

#[test]
fn a_range_of_texts_is_copied(rt: HostRuntime) -> Result<(), Fail> {
    let few = inner_copied(rt.alloc(), &list_of(rt.alloc(), b"wxyz")?)?;
    assert!(rt; spells(&few, b"xy"));
    let many = inner_copied(rt.alloc(), &doubled(rt.alloc(), b"x")?)?;
    assert!(rt; many.len() == 8_190);
    assert!(rt; many.get(8_189) == Some(b"x".as_slice()));
    Ok(())
}
