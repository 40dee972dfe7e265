// Worked rows.
use super::vectors::Outcome::{Bad, Loaded};
use super::vectors::Vector;

pub(super) static VECTORS: [Vector; 17] = [
    (
        "empty elements",
        b"<a><b/><b/></a>",
        Loaded(4, b"<a><b/><b/></a>\n"),
    ),
    (
        "a byte order mark, a declaration, a DOCTYPE, comments",
        b"\xEF\xBB\xBF<?xml version=\"1.0\" encoding=\"UTF-8\"?>\n<!--x-->\n<!DOCTYPE a SYSTEM \"a.dtd\">\n<a/>\n<!--y-->\n",
        Loaded(4, b"<!--x-->\n<a/>\n<!--y-->\n"),
    ),
    (
        "attributes and sections",
        b"<a x=\"1\" y=\" &#xA;\">t<![CDATA[]]><![CDATA[<]]></a>",
        Loaded(5, b"<a x=\"1\" y=\" &#xA;\">t&lt;</a>\n"),
    ),
    ("empty", b"", Bad(0)),
    ("a tag that breaks off", b"<a", Bad(0)),
    ("another end tag", b"<a></b>", Bad(3)),
    ("two roots", b"<a/><b/>", Bad(4)),
    ("an attribute twice", b"<a b=\"1\" b=\"2\"/>", Bad(0)),
    ("]]>", b"<a>]]></a>", Bad(5)),
    ("no such entity", b"<a>&nbsp;</a>", Bad(3)),
    ("--", b"<a><!--x--y--></a>", Bad(3)),
    ("< in a value", b"<a b=\"<\"/>", Bad(0)),
    ("XML", b"<?XML ?><a/>", Bad(0)),
    (
        "texts around an element",
        b"<a>x<b/>y</a>",
        Loaded(5, b"<a>x<b/>y</a>\n"),
    ),
    (
        "a saved document",
        b"<a>xy</a>\n",
        Loaded(3, b"<a>xy</a>\n"),
    ),
    (
        "a feed",
        b"<?xml version=\"1.0\" encoding=\"utf-8\"?>\n<?xml-stylesheet type=\"text/css\" href=\"s.css\"?>\n<feed xmlns=\"http://www.w3.org/2005/Atom\">\n  <title>News &amp; more</title>\n  <entry><link href=\"/1\"/></entry>\n</feed>\n",
        Loaded(
            12,
            b"<?xml-stylesheet type=\"text/css\" href=\"s.css\"?>\n<feed xmlns=\"http://www.w3.org/2005/Atom\">\n  <title>News &amp; more</title>\n  <entry><link href=\"/1\"/></entry>\n</feed>\n",
        ),
    ),
    (
        "a comment before the root",
        b"<!--p--><a>t</a>",
        Loaded(4, b"<!--p-->\n<a>t</a>\n"),
    ),
];
