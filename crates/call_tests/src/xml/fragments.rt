// Fragments and values.
use plain_tree::Kind::{self, Comment, Element, Instruction, Text};
use plain_tree::Node;
use std::alloc::Global;
use xml_profile::{XmlError, read_fragment, read_value};

// A node by its kind, name and value.
type Seen = (Kind, &'static [u8], &'static [u8]);

// Bytes, and the nodes that are read; or nothing, and the place where the bytes are bad.
static FRAGMENTS: [(&[u8], &[Seen], Option<u64>); 24] = [
    (b"t<b/>", &[(Text, b"", b"t"), (Element, b"b", b"")], None),
    (b"<b></b>", &[(Element, b"b", b"")], None),
    (
        b"<b/><b>x</b><c/>",
        &[
            (Element, b"b", b""),
            (Element, b"b", b""),
            (Element, b"c", b""),
        ],
        None,
    ),
    (b" ", &[(Text, b"", b" ")], None),
    (
        b"x\r\n&lt;<![CDATA[&]]>\xC3\xA9",
        &[(Text, b"", b"x\n<&\xC3\xA9")],
        None,
    ),
    (b"<!--q-->", &[(Comment, b"", b"q")], None),
    (
        b"<?go now?>x",
        &[(Instruction, b"go", b"now"), (Text, b"", b"x")],
        None,
    ),
    (
        b"<![CDATA[]]><b/><![CDATA[]]>",
        &[(Element, b"b", b"")],
        None,
    ),
    (b"\xEF\xBB\xBF", &[(Text, b"", b"\xEF\xBB\xBF")], None),
    (
        b"]]<b/>>",
        &[(Text, b"", b"]]"), (Element, b"b", b""), (Text, b"", b">")],
        None,
    ),
    (b"", &[], Some(0)),
    (b"<![CDATA[]]>", &[], Some(12)),
    (b"</b>", &[], Some(0)),
    (b"x</b>", &[], Some(1)),
    (b"<b>", &[], Some(3)),
    (b"<b></c>", &[], Some(3)),
    (b"<b/></b>", &[], Some(4)),
    (b"x<b", &[], Some(1)),
    (b"x]]>", &[], Some(3)),
    (b"&nbsp;", &[], Some(0)),
    (b"<?xml version='1.0'?><b/>", &[], Some(0)),
    (b"<b/><!DOCTYPE b>", &[], Some(4)),
    (b"\xC3\xA9\x01", &[], Some(2)),
    (b"<b/>\xC3", &[], Some(4)),
];

static VALUES: [(&[u8], &[u8], Option<u64>); 16] = [
    (b"", b"", None),
    (b"u&amp;v", b"u&v", None),
    (b" \t\"']]> ", b" \t\"']]> ", None),
    (b"x\r\ny\rz\n", b"x\ny\nz\n", None),
    (b"&#13;\n&#xD;", b"\r\n\r", None),
    (b"&lt;&#x3C;&#38;amp;", b"<<&amp;", None),
    (
        b"\xC3\xA9\xF0\x9F\x98\x80",
        b"\xC3\xA9\xF0\x9F\x98\x80",
        None,
    ),
    (b"<", b"", Some(0)),
    (b"x\r\n<b/>", b"", Some(3)),
    (b"&", b"", Some(0)),
    (b"&lt;&lt", b"", Some(4)),
    (b"x&nbsp;y", b"", Some(1)),
    (b"\xC3\xA9&#0;", b"", Some(2)),
    (b"x\x00", b"", Some(1)),
    (b"x\xEF\xBF\xBF", b"", Some(1)),
    (b"\xC3\xA9\xC3", b"", Some(2)),
];

fn is_seen(node: &Node, (kind, name, value): &Seen) -> bool {
    node.kind == *kind && node.name.as_slice() == *name && node.value.as_slice() == *value
}

fn are_seen(nodes: &[Node], expected: &[Seen]) -> bool {
    nodes.len() == expected.len()
        && nodes
            .iter()
            .zip(expected.iter())
            .all(|(node, seen)| is_seen(node, seen))
}

fn is_bad_at(error: XmlError, place: Option<u64>) -> bool {
    match error {
        XmlError::Bad { at } => place == Some(at),
        _ => false,
    }
}

fn is_fragment(alloc: Global, bytes: &[u8], seen: &[Seen], place: Option<u64>) -> bool {
    match read_fragment(alloc, bytes) {
        Ok(nodes) => place.is_none() && are_seen(nodes.as_slice(), seen),
        Err(error) => is_bad_at(error, place),
    }
}

#[test]
fn fragments_are_read(rt: HostRuntime) {
    for &(bytes, seen, place) in &FRAGMENTS {
        assert!(rt; is_fragment(rt.alloc(), bytes, seen, place), "{bytes:?}");
    }
}

fn is_value(alloc: Global, bytes: &[u8], wanted: &[u8], place: Option<u64>) -> bool {
    match read_value(alloc, bytes) {
        Ok(value) => place.is_none() && value.as_slice() == wanted,
        Err(error) => is_bad_at(error, place),
    }
}

#[test]
fn values_are_read(rt: HostRuntime) {
    for &(bytes, wanted, place) in &VALUES {
        assert!(rt; is_value(rt.alloc(), bytes, wanted, place), "{bytes:?}");
    }
}
