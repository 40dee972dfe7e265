// What stands before and behind the root: a byte order mark, the declaration, comments and instructions. The profile takes
// fewer encodings than a parser may.
use super::vectors::Outcome::{Bad, Loaded};
use super::vectors::Vector;

pub(super) static VECTORS: [Vector; 54] = [
    (
        "XMLDecl (23)",
        b"<?xml version=\"1.0\"?><a/>",
        Loaded(2, b"<a/>\n"),
    ),
    (
        "XMLDecl (23): all of it",
        b"<?xml version='1.0' encoding=\"UTF-8\" standalone='no' ?>\n<a/>",
        Loaded(2, b"<a/>\n"),
    ),
    (
        "XMLDecl (23): S",
        b"<?xml\r\n\tversion\n=\t\"1.0\" \n?><a/>",
        Loaded(2, b"<a/>\n"),
    ),
    (
        "VersionNum (26): 1.1",
        b"<?xml version='1.1'?><a/>",
        Loaded(2, b"<a/>\n"),
    ),
    (
        "VersionNum (26): more digits",
        b"<?xml version='1.01234567890123456789'?><a/>",
        Loaded(2, b"<a/>\n"),
    ),
    (
        "SDDecl (32)",
        b"<?xml version='1.0' standalone=\"yes\"?><a/>",
        Loaded(2, b"<a/>\n"),
    ),
    (
        "EncodingDecl (80), 4.3.3: case",
        b"<?xml version='1.0' encoding='uTf-8'?><a/>",
        Loaded(2, b"<a/>\n"),
    ),
    (
        "EncodingDecl (80): US-ASCII",
        b"<?xml version='1.0' encoding='us-ASCII'?><a/>",
        Loaded(2, b"<a/>\n"),
    ),
    (
        "EncodingDecl (80): ASCII",
        b"<?xml version='1.0' encoding='Ascii'?><a/>",
        Loaded(2, b"<a/>\n"),
    ),
    (
        "EncodingDecl (80): ASCII is read as UTF-8",
        b"<?xml version='1.0' encoding='ASCII'?><a>\xC3\xA9</a>",
        Loaded(3, b"<a>\xC3\xA9</a>\n"),
    ),
    (
        "VersionNum (26): no digits",
        b"<?xml version='1.'?><a/>",
        Bad(0),
    ),
    ("VersionNum (26): 1", b"<?xml version='1'?><a/>", Bad(0)),
    ("VersionNum (26): 2.0", b"<?xml version='2.0'?><a/>", Bad(0)),
    (
        "VersionNum (26): a letter",
        b"<?xml version='1.0a'?><a/>",
        Bad(0),
    ),
    ("VersionNum (26): S", b"<?xml version=' 1.0'?><a/>", Bad(0)),
    ("VersionNum (26): empty", b"<?xml version=''?><a/>", Bad(0)),
    (
        "EncodingDecl (80): UTF8",
        b"<?xml version='1.0' encoding='UTF8'?><a/>",
        Bad(0),
    ),
    (
        "EncodingDecl (80): another",
        b"<?xml version='1.0' encoding='ISO-8859-1'?><a/>",
        Bad(0),
    ),
    (
        "EncodingDecl (80): UTF-16",
        b"<?xml version='1.0' encoding='UTF-16'?><a/>",
        Bad(0),
    ),
    (
        "EncName (81): empty",
        b"<?xml version='1.0' encoding=''?><a/>",
        Bad(0),
    ),
    (
        "EncName (81): S",
        b"<?xml version='1.0' encoding='UTF-8 '?><a/>",
        Bad(0),
    ),
    (
        "SDDecl (32): case",
        b"<?xml version='1.0' standalone='YES'?><a/>",
        Bad(0),
    ),
    (
        "SDDecl (32): another word",
        b"<?xml version='1.0' standalone='maybe'?><a/>",
        Bad(0),
    ),
    (
        "XMLDecl (23): the order",
        b"<?xml version='1.0' standalone='no' encoding='UTF-8'?><a/>",
        Bad(0),
    ),
    (
        "XMLDecl (23): no version",
        b"<?xml encoding='UTF-8'?><a/>",
        Bad(0),
    ),
    ("XMLDecl (23): nothing", b"<?xml?><a/>", Bad(0)),
    ("XMLDecl (23): S alone", b"<?xml ?><a/>", Bad(0)),
    (
        "XMLDecl (23): the version twice",
        b"<?xml version='1.0' version='1.0'?><a/>",
        Bad(0),
    ),
    (
        "XMLDecl (23): another name",
        b"<?xml version='1.0' a='b'?><a/>",
        Bad(0),
    ),
    (
        "XMLDecl (23): no S",
        b"<?xml version='1.0'encoding='UTF-8'?><a/>",
        Bad(0),
    ),
    (
        "XMLDecl (23): two quotes",
        b"<?xml version='1.0\"?><a/>",
        Bad(0),
    ),
    ("XMLDecl (23): no ?", b"<?xml version='1.0'><a/>", Bad(0)),
    ("XMLDecl (23): broken off", b"<?xml version='1.0'?", Bad(0)),
    (
        "XMLDecl (23): S in front",
        b" <?xml version='1.0'?><a/>",
        Bad(1),
    ),
    (
        "XMLDecl (23): a comment in front",
        b"<!--x--><?xml version='1.0'?><a/>",
        Bad(8),
    ),
    (
        "XMLDecl (23): twice",
        b"<?xml version='1.0'?><?xml version='1.0'?><a/>",
        Bad(21),
    ),
    (
        "XMLDecl (23): behind the root",
        b"<a/><?xml version='1.0'?>",
        Bad(4),
    ),
    (
        "prolog (22): a declaration alone",
        b"<?xml version='1.0'?>",
        Bad(21),
    ),
    (
        "4.3.3: a byte order mark",
        b"\xEF\xBB\xBF<a/>",
        Loaded(2, b"<a/>\n"),
    ),
    (
        "4.3.3: a byte order mark before the declaration",
        b"\xEF\xBB\xBF<?xml version='1.0'?><a/>",
        Loaded(2, b"<a/>\n"),
    ),
    ("4.3.3: a byte order mark alone", b"\xEF\xBB\xBF", Bad(3)),
    (
        "4.3.3: two byte order marks",
        b"\xEF\xBB\xBF\xEF\xBB\xBF<a/>",
        Bad(3),
    ),
    (
        "4.3.3: a byte order mark behind S",
        b" \xEF\xBB\xBF<a/>",
        Bad(1),
    ),
    (
        "4.3.3: a byte order mark behind the declaration",
        b"<?xml version='1.0'?>\xEF\xBB\xBF<a/>",
        Bad(21),
    ),
    (
        "4.3.3: S between mark and declaration",
        b"\xEF\xBB\xBF\n<?xml version='1.0'?><a/>",
        Bad(4),
    ),
    (
        "4.3.3: a bad tag behind the mark",
        b"\xEF\xBB\xBF<1/>",
        Bad(3),
    ),
    ("4.3.3: a byte order mark broken off", b"\xEF\xBB", Bad(0)),
    (
        "4.3.3: the front of a byte order mark",
        b"\xEF\xBB<a/>",
        Bad(0),
    ),
    (
        "4.3.3: the mark of UTF-16",
        b"\xFE\xFF\x00<\x00a\x00/\x00>",
        Bad(0),
    ),
    (
        "4.3.3: UTF-16 without a mark",
        b"<\x00a\x00/\x00>\x00",
        Bad(0),
    ),
    (
        "Misc (27)",
        b"\n<!--x-->\n<?b c?>\n<!DOCTYPE a>\n<!--y--><?d?><a/>\n<!--z-->\n<?e?>\n",
        Loaded(
            8,
            b"<!--x-->\n<?b c?>\n<!--y-->\n<?d?>\n<a/>\n<!--z-->\n<?e?>\n",
        ),
    ),
    ("document (1): white space alone", b" \r\n", Bad(3)),
    ("document (1): a comment alone", b"<!--x-->", Bad(8)),
    ("document (1): an instruction alone", b"<?b?>\n", Bad(6)),
];
