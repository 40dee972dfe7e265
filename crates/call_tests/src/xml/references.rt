// References to characters and to the five entities that every document has.
use super::vectors::Outcome::{Bad, Loaded};
use super::vectors::Vector;

pub(super) static VECTORS: [Vector; 45] = [
    (
        "EntityRef (68), 4.6",
        b"<a>&lt;&gt;&amp;&apos;&quot;</a>",
        Loaded(3, b"<a>&lt;&gt;&amp;'\"</a>\n"),
    ),
    (
        "CharRef (66)",
        b"<a>&#65;&#x41;&#xe9;&#xE9;&#x20AC;&#128512;</a>",
        Loaded(
            3,
            b"<a>AA\xC3\xA9\xC3\xA9\xE2\x82\xAC\xF0\x9F\x98\x80</a>\n",
        ),
    ),
    (
        "CharRef (66): zeros in front",
        b"<a>&#0065;&#x00000000000000000000000000000041;&#00000000000000000000000000000065;</a>",
        Loaded(3, b"<a>AAA</a>\n"),
    ),
    (
        "Legal Character: the ends of the ranges",
        b"<a>&#9;&#xA;&#x20;&#xD7FF;&#xE000;&#xFFFD;&#x10000;&#x10FFFF;&#1114111;</a>",
        Loaded(
            3,
            b"<a>\t\n \xED\x9F\xBF\xEE\x80\x80\xEF\xBF\xBD\xF0\x90\x80\x80\xF4\x8F\xBF\xBF\xF4\x8F\xBF\xBF</a>\n",
        ),
    ),
    (
        "CharRef (66): #xD stays",
        b"<a>&#13;&#xD;&#x00d;</a>",
        Loaded(3, b"<a>&#xD;&#xD;&#xD;</a>\n"),
    ),
    (
        "CharRef (66): #xD, #xA",
        b"<a>&#xD;&#xA;</a>",
        Loaded(3, b"<a>&#xD;\n</a>\n"),
    ),
    (
        "CharRef (66): a space is a text",
        b"<a>&#32;</a>",
        Loaded(3, b"<a> </a>\n"),
    ),
    (
        "4.4: a reference is read once",
        b"<a>&#38;lt;&amp;amp;&#38;#65;</a>",
        Loaded(3, b"<a>&amp;lt;&amp;amp;&amp;#65;</a>\n"),
    ),
    (
        "4.4: a reference makes no tag",
        b"<a>&#60;b/></a>",
        Loaded(3, b"<a>&lt;b/&gt;</a>\n"),
    ),
    (
        "PEReference (69): none in a content",
        b"<a>%b;</a>",
        Loaded(3, b"<a>%b;</a>\n"),
    ),
    (
        "Reference (67): a text with its neighbours",
        b"<a>x&lt;y<b/>&amp;</a>",
        Loaded(5, b"<a>x&lt;y<b/>&amp;</a>\n"),
    ),
    ("Legal Character: #x0", b"<a>&#0;</a>", Bad(3)),
    (
        "Legal Character: #x0 of many zeros",
        b"<a>&#x00000000;</a>",
        Bad(3),
    ),
    ("Legal Character: #x1", b"<a>&#1;</a>", Bad(3)),
    ("Legal Character: #xB", b"<a>&#11;</a>", Bad(3)),
    ("Legal Character: #x1F", b"<a>&#x1F;</a>", Bad(3)),
    ("Legal Character: #xD800", b"<a>&#xD800;</a>", Bad(3)),
    ("Legal Character: #xDFFF", b"<a>&#57343;</a>", Bad(3)),
    ("Legal Character: #xFFFE", b"<a>&#xFFFE;</a>", Bad(3)),
    ("Legal Character: #xFFFF", b"<a>&#xffff;</a>", Bad(3)),
    ("Legal Character: #x110000", b"<a>&#x110000;</a>", Bad(3)),
    ("Legal Character: 1114112", b"<a>&#1114112;</a>", Bad(3)),
    (
        "Legal Character: 2^32 + 65",
        b"<a>&#4294967361;</a>",
        Bad(3),
    ),
    (
        "Legal Character: 2^64 + 65",
        b"<a>&#18446744073709551681;</a>",
        Bad(3),
    ),
    (
        "Legal Character: 2^64 + #x41",
        b"<a>&#x10000000000000041;</a>",
        Bad(3),
    ),
    ("CharRef (66): no digits", b"<a>&#;</a>", Bad(3)),
    (
        "CharRef (66): no hexadecimal digits",
        b"<a>&#x;</a>",
        Bad(3),
    ),
    ("CharRef (66): x is small", b"<a>&#X41;</a>", Bad(3)),
    ("CharRef (66): a letter", b"<a>&#6a;</a>", Bad(3)),
    ("CharRef (66): a letter beyond f", b"<a>&#x4g;</a>", Bad(3)),
    ("CharRef (66): S", b"<a>&# 65;</a>", Bad(3)),
    ("CharRef (66): a sign", b"<a>&#+65;</a>", Bad(3)),
    ("CharRef (66): no ;", b"<a>x&#65</a>", Bad(4)),
    ("EntityRef (68): no name", b"<a>&;</a>", Bad(3)),
    ("EntityRef (68): & alone", b"<a>x & y</a>", Bad(5)),
    ("EntityRef (68): no ;", b"<a>&lt</a>", Bad(3)),
    ("EntityRef (68): S", b"<a>&lt ;</a>", Bad(3)),
    ("EntityRef (68): case", b"<a>&LT;</a>", Bad(3)),
    (
        "Entity Declared: behind others",
        b"<a>x&#65;&y;</a>",
        Bad(9),
    ),
    (
        "Entity Declared: a name that begins so",
        b"<a>&amper;</a>",
        Bad(3),
    ),
    ("Entity Declared: a front of a name", b"<a>&am;</a>", Bad(3)),
    (
        "Entity Declared: not by what isn't read",
        b"<!DOCTYPE a SYSTEM 'b'><a>&c;</a>",
        Bad(26),
    ),
    ("Reference (67): broken off", b"<a>&#x4", Bad(3)),
    (
        "document (1): a reference before the root",
        b"&#32;<a/>",
        Bad(0),
    ),
    (
        "document (1): a reference behind the root",
        b"<a/>&lt;",
        Bad(4),
    ),
];
