// Names at the front of bytes.
ghost use Rattle.std.specs.Prelude.{◌≡◌, ◌==◌, if◌then◌else◌};
ghost use Rattle.plain_tree.specs.XmlNames.{is_name_start, is_name_char};
ghost use Rattle.xml_nodes.specs.NameLengths.{IsNameLength};

use bstr::decode_utf8;
use xml_tokens::{is_name_char, is_name_start};

/// How many bytes the longest Name at the front has, and 0 where none begins there.
pub fn name_length(bytes: &[u8]) -> usize
    ensures { IsNameLength bytes.now result }
{
    let mut length = 0;
    while length < bytes.len() {
        let (first, size) = decode_utf8(&bytes[length..]);
        match first {
            Some(c) if may_come(length, c) => length += size,
            _ => return length,
        }
    }
    length
}

// Whether the character goes on a name behind so many bytes.
fn may_come(length: usize, c: char) -> bool
    ensures { result ≡ (if length == 0 then is_name_start c else is_name_char c) }
{
    if length == 0 {
        is_name_start(c)
    } else {
        is_name_char(c)
    }
}
