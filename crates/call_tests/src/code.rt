// The codes of a document with nodes of several kinds and of a fragment of two nodes, with their texts.
use fcns_encoding::{Coded, encode, encode_list};
use plain_tree::Names;
use slt_grammar::Label::{self, Bottom, Param, Symbol};
use std::alloc::Global;
use std::test::Fail;
use xml_profile::{read_document, read_fragment};

// document(a(b(bottom, text(bottom, comment(bottom, bottom))), bottom), bottom)
static LABELS: [Label; 11] = [
    Symbol(0),
    Symbol(1),
    Symbol(2),
    Bottom,
    Symbol(3),
    Bottom,
    Symbol(4),
    Bottom,
    Bottom,
    Bottom,
    Bottom,
];

// text(bottom, b(bottom, parameter))
static OPEN_LABELS: [Label; 5] = [Symbol(0), Bottom, Symbol(1), Bottom, Param];

fn document_code(alloc: Global) -> Result<Coded, Fail> {
    let document = read_document(alloc, b"<a b='x'>y<!--z--></a>")?;
    Ok(encode(alloc, &document, &mut Names::new(alloc))?)
}

fn fragment_code(alloc: Global) -> Result<Coded, Fail> {
    let nodes = read_fragment(alloc, b"t<b/>")?;
    Ok(encode_list(alloc, &nodes, &mut Names::new(alloc))?)
}

// Whether a code has these labels, and so many texts of which the last one is this.
fn is_code(coded: &Coded, labels: &[Label], texts: usize, last: &[u8]) -> bool {
    coded.body.as_slice() == labels
        && coded.texts.len() == texts
        && coded
            .texts
            .get(texts.saturating_sub(1))
            .is_some_and(|text| text.as_slice() == last)
}

#[test]
fn trees_are_coded_and_their_texts_are_kept(rt: HostRuntime) -> Result<(), Fail> {
    let document = document_code(rt.alloc())?;
    assert!(rt; is_code(&document, &LABELS, 3, b"z"));
    let fragment = fragment_code(rt.alloc())?;
    assert!(rt; is_code(&fragment, &OPEN_LABELS, 1, b"t"));
    Ok(())
}
