// Runs of plain characters, a slice at a time.
ghost use Rattle.std.specs.Prelude.{◌≡◌, ◌≤◌, ◌<◌, length, IfSome};
ghost use Rattle.xml_tokens.specs.Cutting.{back, Begins};
ghost use Rattle.xml_tokenizer.specs.Runs.{IsRun, is_low_run};

use xml_tokens::read_char;

/// The bytes behind a run of characters without `<`, `&` and `]`. A character that the bytes cut off ends it.
pub(crate) fn skip_run(bytes: &[u8]) -> &[u8]
    ensures run { Begins IsRun bytes.now result.now }
    ensures not_longer { length result.now ≤ length bytes.now }
{
    let mut rest = bytes;
    loop {
        let left = skip_low(rest);
        match high_char_in(left) {
            Some(after) => rest = after,
            None => return left,
        }
    }
}

fn skip_low(bytes: &[u8]) -> &[u8]
    ensures left { result.now ≡ back is_low_run bytes.now }
    ensures not_longer { length result.now ≤ length bytes.now }
{
    let mut rest = bytes;
    while let [first, tail @ ..] = rest {
        if !is_low_run(*first) {
            return rest;
        }
        rest = tail;
    }
    rest
}

fn is_low_run(c: u8) -> bool
    ensures { result ≡ is_low_run c }
{
    c < 128
        && (32 <= c || c == b'\t' || c == b'\n' || c == b'\r')
        && c != b'<'
        && c != b'&'
        && c != b']'
}

// What follows the character beyond ASCII at the front, if a whole one stands there.
fn high_char_in(bytes: &[u8]) -> Option<&[u8]>
    ensures run { IfSome result (λ after. Begins IsRun bytes.now after.now) }
    ensures shorter { IfSome result (λ after. length after.now < length bytes.now) }
{
    let n = high_len(bytes);
    if n == 0 || bytes.len() < n {
        return None;
    }
    match read_char(&bytes[..n]) {
        Some(c) => {
            if (c as u32) < 128 {
                None
            } else {
                Some(&bytes[n..])
            }
        }
        None => None,
    }
}

// How many bytes the character has that begins with the first byte; 0 for ASCII.
fn high_len(bytes: &[u8]) -> usize {
    match bytes {
        [0xC2..=0xDF, ..] => 2,
        [0xE0..=0xEF, ..] => 3,
        [0xF0..=0xF4, ..] => 4,
        _ => 0,
    }
}
