// The DOCTYPE. The profile takes none with a subset, and drops it.
use super::vectors::Outcome::{Bad, Loaded};
use super::vectors::Vector;

pub(super) static VECTORS: [Vector; 34] = [
    (
        "doctypedecl (28)",
        b"<!DOCTYPE a><a/>",
        Loaded(2, b"<a/>\n"),
    ),
    (
        "doctypedecl (28): another name, S",
        b"<!DOCTYPE\r\n\tb:c.1 ><a/>",
        Loaded(2, b"<a/>\n"),
    ),
    (
        "ExternalID (75): SYSTEM",
        b"<!DOCTYPE a SYSTEM 'x\"><!--'><a/>",
        Loaded(2, b"<a/>\n"),
    ),
    (
        "ExternalID (75): PUBLIC",
        b"<!DOCTYPE a\nPUBLIC\t\"-//x'y\"\r\n'z'\n><a/>",
        Loaded(2, b"<a/>\n"),
    ),
    (
        "SystemLiteral (11)",
        b"<!DOCTYPE a SYSTEM \"\xC3\xA9<&]]>[\r\n'\"><a/>",
        Loaded(2, b"<a/>\n"),
    ),
    (
        "SystemLiteral (11), PubidLiteral (12): empty",
        b"<!DOCTYPE a PUBLIC '' \"\"><a/>",
        Loaded(2, b"<a/>\n"),
    ),
    (
        "PubidChar (13)",
        b"<!DOCTYPE a PUBLIC \" \r\nazAZ09-'()+,./:=?;!*#@$_%\" ''><a/>",
        Loaded(2, b"<a/>\n"),
    ),
    (
        "PubidChar (13): #x9",
        b"<!DOCTYPE a PUBLIC 'x\ty' ''><a/>",
        Bad(0),
    ),
    (
        "PubidChar (13): &",
        b"<!DOCTYPE a PUBLIC '&' ''><a/>",
        Bad(0),
    ),
    (
        "PubidChar (13): a double quote",
        b"<!DOCTYPE a PUBLIC '\"' ''><a/>",
        Bad(0),
    ),
    (
        "PubidChar (13): beyond ASCII",
        b"<!DOCTYPE a PUBLIC '\xC3\xA9' ''><a/>",
        Bad(0),
    ),
    (
        "PubidLiteral (12): a single quote between such",
        b"<!DOCTYPE a PUBLIC 'x'y' ''><a/>",
        Bad(0),
    ),
    (
        "ExternalID (75): no literal",
        b"<!DOCTYPE a SYSTEM><a/>",
        Bad(0),
    ),
    (
        "ExternalID (75): two at SYSTEM",
        b"<!DOCTYPE a SYSTEM 'x' 'y'><a/>",
        Bad(0),
    ),
    (
        "ExternalID (75): one at PUBLIC",
        b"<!DOCTYPE a PUBLIC 'x'><a/>",
        Bad(0),
    ),
    (
        "ExternalID (75): no S between literals",
        b"<!DOCTYPE a PUBLIC 'x''y'><a/>",
        Bad(0),
    ),
    (
        "ExternalID (75): no S at SYSTEM",
        b"<!DOCTYPE a SYSTEM'x'><a/>",
        Bad(0),
    ),
    (
        "ExternalID (75): small letters",
        b"<!DOCTYPE a system 'x'><a/>",
        Bad(0),
    ),
    (
        "ExternalID (75): no quotes",
        b"<!DOCTYPE a SYSTEM x><a/>",
        Bad(0),
    ),
    (
        "ExternalID (75): two quotes",
        b"<!DOCTYPE a SYSTEM 'x\"><a/>",
        Bad(0),
    ),
    (
        "doctypedecl (28): a literal alone",
        b"<!DOCTYPE a 'x'><a/>",
        Bad(0),
    ),
    ("doctypedecl (28): no name", b"<!DOCTYPE><a/>", Bad(0)),
    ("doctypedecl (28): no S", b"<!DOCTYPEa><a/>", Bad(0)),
    (
        "doctypedecl (28): small letters",
        b"<!doctype a><a/>",
        Bad(0),
    ),
    ("doctypedecl (28): two names", b"<!DOCTYPE a b><a/>", Bad(0)),
    (
        "doctypedecl (28): an empty subset is refused",
        b"<!DOCTYPE a []><a/>",
        Bad(0),
    ),
    (
        "doctypedecl (28): a subset is refused",
        b"<!DOCTYPE a [<!ENTITY b 'c'>]><a/>",
        Bad(0),
    ),
    (
        "doctypedecl (28): a subset behind a literal",
        b"\n<!DOCTYPE a SYSTEM 'x' []><a/>",
        Bad(1),
    ),
    (
        "doctypedecl (28): twice",
        b"<!DOCTYPE a><!DOCTYPE a><a/>",
        Bad(12),
    ),
    (
        "doctypedecl (28): behind the root",
        b"<a/><!DOCTYPE a>",
        Bad(4),
    ),
    (
        "doctypedecl (28): before the declaration",
        b"<!DOCTYPE a><?xml version='1.0'?><a/>",
        Bad(12),
    ),
    (
        "doctypedecl (28): broken off",
        b"<!--x--><!DOCTYPE a SYSTEM 'b",
        Bad(8),
    ),
    ("prolog (22): a DOCTYPE alone", b"<!DOCTYPE a>\n", Bad(13)),
    (
        "elementdecl (45): in the prolog",
        b"<!ELEMENT a ANY><a/>",
        Bad(0),
    ),
];
