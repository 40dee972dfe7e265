// Which names and values are lawful.
use plain_tree::Kind::{self, Attribute, Comment, Document, Element, Instruction, Text};
use xml_profile::{is_name, lawful, name_length};

// A kind, a name and a value, and whether they are lawful.
static PAIRS: [(Kind, &[u8], &[u8], bool); 45] = [
    (Document, b"", b"", true),
    (Document, b"a", b"", false),
    (Document, b"", b"x", false),
    (Element, b"a", b"", true),
    (Element, b"a:b-1.c", b"", true),
    (Element, b"\xC3\xA9", b"", true),
    (Element, b"a", b"x", false),
    (Element, b"", b"", false),
    (Element, b"1a", b"", false),
    (Element, b"-a", b"", false),
    (Element, b"a\xC3\x97", b"", false),
    (Element, b"a\xC3", b"", false),
    (Element, b"a:b", b"", true),
    (Element, b"a b", b"", false),
    (Attribute, b"a", b"", true),
    (Attribute, b"a", b"<\r\n", true),
    (Attribute, b"a", b"\x0c", false),
    (Attribute, b"a", b"\xEF\xBF\xBE", false),
    (Attribute, b"xmlns", b"", true),
    (Attribute, b"a", b"\t\r\n<&\"]]>", true),
    (Attribute, b"a", b"\x01", false),
    (Text, b"", b"]]>", true),
    (Text, b"", b"", false),
    (Text, b"a", b"x", false),
    (Text, b"", b"]]>\r", true),
    (Text, b"", b"\xED\xA0\x80", false),
    (Comment, b"", b"", true),
    (Comment, b"", b"a - b", true),
    (Comment, b"", b"a--b", false),
    (Comment, b"", b"a-", false),
    (Comment, b"", b"a\rb", false),
    (Comment, b"", b"- -", false),
    (Comment, b"", b"- - ", true),
    (Comment, b"", b"\r", false),
    (Instruction, b"a", b"", true),
    (Instruction, b"a", b"b ?", true),
    (Instruction, b"a", b"?>", false),
    (Instruction, b"a", b" b", false),
    (Instruction, b"a", b"b\r", false),
    (Instruction, b"xMl", b"", false),
    (Instruction, b"xml-a", b"", true),
    (Instruction, b"a:b", b"? >?", true),
    (Instruction, b"XML", b"", false),
    (Instruction, b"a", b"\tb", false),
    (Instruction, b"a", b"b?>", false),
];

#[test]
fn names_and_values_are_told_apart(rt: HostRuntime) {
    for (kind, name, value, expected) in &PAIRS {
        assert_eq!(rt; lawful(*kind, name, value), *expected, "{name:?} {value:?}");
    }
}

// Bytes, how many of them are the longest Name at the front, and whether they are one.
static NAMES: [(&[u8], usize, bool); 14] = [
    (b"", 0, false),
    (b"a", 1, true),
    (b":", 1, true),
    (b"xml", 3, true),
    (b"a:b.c-1\xC2\xB7", 9, true),
    (b"\xC3\xA9\xE2\x80\x8C\xF0\x90\x80\x80", 9, true),
    (b"a b", 1, false),
    (b"a>", 1, false),
    (b"1a", 0, false),
    (b"-a", 0, false),
    (b"\xC3\xA9/x", 2, false),
    (b"a\xC3\x97b", 1, false),
    (b"a\xC3", 1, false),
    (b"\xF3\xB0\x80\x80", 0, false),
];

#[test]
fn names_are_told_from_other_bytes(rt: HostRuntime) {
    for &(bytes, length, expected) in &NAMES {
        assert_eq!(rt;
            (name_length(bytes), is_name(bytes)),
            (length, expected),
            "{bytes:?}"
        );
    }
}
