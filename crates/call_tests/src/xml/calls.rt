// The calls that a reader makes at a builder, which are the same in pieces of any size.
ghost use Rattle.std.specs.Prelude.{◌≡◌, true};

use plain_tree::Kind;
use std::alloc::{AllocError, Global};
use std::test::Fail;
use xml_profile::{Builder, Reader, TreeBuilder, XmlError};

static SIZES: [usize; 5] = [1, 2, 3, 7, 1000];

// A document, and its calls.
static ROWS: [(&[u8], &[u8]); 3] = [
    (
        b"<a x=\"1\" y=\" &#xA;\">t<![CDATA[]]><![CDATA[<]]></a>",
        b"<a>{attribute x=1}{attribute y= \n}{text =t<}</>",
    ),
    (
        b"<?xml version=\"1.0\" encoding=\"utf-8\"?>\n<?xml-stylesheet type=\"text/css\" href=\"s.css\"?>\n<feed xmlns=\"http://www.w3.org/2005/Atom\">\n  <title>News &amp; more</title>\n  <entry><link href=\"/1\"/></entry>\n</feed>\n",
        b"{instruction xml-stylesheet=type=\"text/css\" href=\"s.css\"}<feed>{attribute xmlns=http://www.w3.org/2005/Atom}{text =\n  }<title>{text =News & more}</>{text =\n  }<entry><link>{attribute href=/1}</></>{text =\n}</>",
    ),
    (
        b"\xEF\xBB\xBF\r\n<!--b\r\n--><!DOCTYPE a><a>\r<![CDATA[\r\n]]>&#13;\n<b/><?c \xC3\xA9\r?></a>\r<!---->",
        b"{comment =b\n}<a>{text =\n\n\r\n}<b></>{instruction c=\xC3\xA9\n}</>{comment =}",
    ),
];

// Hands calls on, and writes them down.
#[derive(Drop)]
struct Log<B: Builder + Drop> {
    inner: B,
    calls: Vec<u8>,
}

// A call that there is no room for is missing in the log, which the test then sees.
fn note(calls: &mut Vec<u8>, front: &[u8], text: &[u8], back: &[u8]) {
    let _ = calls.extend_from_slice(front);
    let _ = calls.extend_from_slice(text);
    let _ = calls.extend_from_slice(back);
}

fn word_of(kind: Kind) -> &'static [u8] {
    match kind {
        Kind::Document => b"{document ",
        Kind::Element => b"{element ",
        Kind::Attribute => b"{attribute ",
        Kind::Text => b"{text ",
        Kind::Comment => b"{comment ",
        Kind::Instruction => b"{instruction ",
    }
}

impl<B: Builder + Drop> Builder for Log<B> {
    ghost log = { λ l. B.log l.inner };

    ghost sound = { λ l. B.sound l.inner };

    ghost depth = { λ l. B.depth l.inner };

    fn open(&mut self, kind: Kind, name: &[u8]) -> Result<(), AllocError> {
        self.inner.open(kind, name)?;
        note(&mut self.calls, b"<", name, b">");
        Ok(())
    }

    fn leaf(&mut self, kind: Kind, name: &[u8], value: &[u8]) -> Result<(), AllocError> {
        self.inner.leaf(kind, name, value)?;
        note(&mut self.calls, word_of(kind), name, b"=");
        note(&mut self.calls, b"", value, b"}");
        Ok(())
    }

    fn close(&mut self) -> Result<(), AllocError> {
        self.inner.close()?;
        note(&mut self.calls, b"</", b"", b">");
        Ok(())
    }
}

// Reads bytes in pieces of a size, at least one byte each.
fn read<B: Builder>(
    alloc: Global,
    bytes: &[u8],
    size: usize,
    builder: &mut B,
) -> Result<(), XmlError>
    requires sound { B.sound builder.old ≡ true }
    requires new { B.depth builder.old ≡ 0 }
{
    let mut reader = Reader::new(alloc)?;
    let mut rest = bytes;
    while !rest.is_empty() {
        let (piece, after) = rest.split_at(size.clamp(1, rest.len()));
        reader.feed(alloc, piece, builder)?;
        rest = after;
    }
    reader.finish()
}

// Whether these calls come of a document in pieces of a size.
fn makes_calls(
    alloc: Global,
    document: &[u8],
    size: usize,
    wanted: &[u8],
) -> Result<bool, XmlError> {
    let mut log = Log {
        inner: TreeBuilder::new(alloc),
        calls: Vec::new(alloc),
    };
    read(alloc, document, size, &mut log)?;
    Ok(log.calls.as_slice() == wanted)
}

#[test]
fn calls_are_the_same_in_pieces(rt: HostRuntime) -> Result<(), Fail> {
    for &(document, wanted) in &ROWS {
        for &size in &SIZES {
            let is_right = makes_calls(rt.alloc(), document, size, wanted)?;
            assert!(rt; is_right, "in pieces of {size}");
        }
    }
    Ok(())
}
