// Where a token ends, byte by byte.
ghost use Rattle.std.specs.Prelude.{◌≡◌, ◌≤◌, length};
ghost use Rattle.xml_tokens.specs.Cutting.{back, is_other};
ghost use Rattle.xml_tokenizer.specs.Ends.{Came, EndsSo};
ghost use Rattle.xml_tokenizer.specs.Scanning.{scan_step, first_step, next_step, only, until, in_quotes, in_tag, at_close, is_tag_byte, is_between};

use xml_tokens::skip_to;

/// How far a token has come.
#[derive(Clone, Copy)]
pub enum Scan {
    /// Nothing has come.
    Idle,
    /// So many bytes of a character are missing.
    One,
    Two,
    Three,
    Reference,
    /// Behind `<`.
    Open,
    /// In a tag, and there in double and in single quotes.
    Tag,
    Double,
    Single,
    /// Behind `<!` and `<!-`.
    Bang,
    Dash,
    /// In a comment, behind one `-` of it and behind two.
    Comment,
    CommentDash,
    CommentEnd,
    /// Behind `<![`, and there behind one `]` and behind two or more.
    Section,
    Bracket,
    Brackets,
    /// Behind `<!D`, and there in double and in single quotes.
    Doctype,
    DoctypeDouble,
    DoctypeSingle,
    /// Behind `<?`, and there behind a `?`.
    Instruction,
    InstructionEnd,
}

/// What one byte more leads to: on, to the end of the token, or to bytes that no token begins with.
#[derive(Clone, Copy)]
pub enum Step {
    On(Scan),
    Whole,
    Dead,
}

// The first byte of a character.
fn first_step(c: u8) -> Step
    ensures { result ≡ first_step c }
{
    match c {
        0..=127 => Step::Whole,
        194..=223 => Step::On(Scan::One),
        224..=239 => Step::On(Scan::Two),
        240..=244 => Step::On(Scan::Three),
        _ => Step::Dead,
    }
}

// A further byte of a character.
fn next_step(c: u8, step: Step) -> Step
    ensures { result ≡ next_step c step }
{
    if 128 <= c && c <= 191 {
        step
    } else {
        Step::Dead
    }
}

fn only(c: u8, wanted: u8, step: Step) -> Step
    ensures { result ≡ only wanted step c }
{
    if c == wanted { step } else { Step::Dead }
}

fn until(c: u8, stop: u8, next: Scan, here: Scan) -> Step
    ensures { result ≡ until stop next here c }
{
    if c == stop {
        Step::On(next)
    } else {
        Step::On(here)
    }
}

fn in_quotes(c: u8, quote: u8, behind: Scan, here: Scan) -> Step
    ensures { result ≡ in_quotes quote behind here c }
{
    if c == quote {
        Step::On(behind)
    } else if c == b'<' {
        Step::Dead
    } else {
        Step::On(here)
    }
}

fn in_tag(c: u8, double: Scan, single: Scan, here: Scan) -> Step
    ensures { result ≡ in_tag double single here c }
{
    match c {
        b'>' => Step::Whole,
        b'"' => Step::On(double),
        b'\'' => Step::On(single),
        b'<' => Step::Dead,
        _ => Step::On(here),
    }
}

fn at_close(c: u8, sign: u8, here: Scan, back: Scan) -> Step
    ensures { result ≡ at_close sign here back c }
{
    if c == b'>' {
        Step::Whole
    } else {
        until(c, sign, here, back)
    }
}

fn idle_step(c: u8) -> Step
    ensures { result ≡ scan_step Scan.Idle c }
{
    match c {
        b'<' => Step::On(Scan::Open),
        b'&' => Step::On(Scan::Reference),
        _ => first_step(c),
    }
}

fn reference_step(c: u8) -> Step
    ensures { result ≡ scan_step Scan.Reference c }
{
    match c {
        b';' => Step::Whole,
        b'<' => Step::Dead,
        _ => Step::On(Scan::Reference),
    }
}

fn open_step(c: u8) -> Step
    ensures { result ≡ scan_step Scan.Open c }
{
    match c {
        b'!' => Step::On(Scan::Bang),
        b'?' => Step::On(Scan::Instruction),
        b'<' => Step::Dead,
        _ => Step::On(Scan::Tag),
    }
}

fn bang_step(c: u8) -> Step
    ensures { result ≡ scan_step Scan.Bang c }
{
    match c {
        b'-' => Step::On(Scan::Dash),
        b'[' => Step::On(Scan::Section),
        b'D' => Step::On(Scan::Doctype),
        _ => Step::Dead,
    }
}

/// One byte more.
pub(crate) fn step_of(scan: Scan, c: u8) -> Step
    ensures { result ≡ scan_step scan c }
{
    match scan {
        Scan::Idle => idle_step(c),
        Scan::One => next_step(c, Step::Whole),
        Scan::Two => next_step(c, Step::On(Scan::One)),
        Scan::Three => next_step(c, Step::On(Scan::Two)),
        Scan::Reference => reference_step(c),
        Scan::Open => open_step(c),
        Scan::Tag => in_tag(c, Scan::Double, Scan::Single, Scan::Tag),
        Scan::Double => in_quotes(c, b'"', Scan::Tag, Scan::Double),
        Scan::Single => in_quotes(c, b'\'', Scan::Tag, Scan::Single),
        Scan::Bang => bang_step(c),
        Scan::Dash => only(c, b'-', Step::On(Scan::Comment)),
        Scan::Comment => until(c, b'-', Scan::CommentDash, Scan::Comment),
        Scan::CommentDash => until(c, b'-', Scan::CommentEnd, Scan::Comment),
        Scan::CommentEnd => only(c, b'>', Step::Whole),
        Scan::Section => until(c, b']', Scan::Bracket, Scan::Section),
        Scan::Bracket => until(c, b']', Scan::Brackets, Scan::Section),
        Scan::Brackets => at_close(c, b']', Scan::Brackets, Scan::Section),
        Scan::Doctype => in_tag(c, Scan::DoctypeDouble, Scan::DoctypeSingle, Scan::Doctype),
        Scan::DoctypeDouble => until(c, b'"', Scan::Doctype, Scan::DoctypeDouble),
        Scan::DoctypeSingle => until(c, b'\'', Scan::Doctype, Scan::DoctypeSingle),
        Scan::Instruction => until(c, b'?', Scan::InstructionEnd, Scan::Instruction),
        Scan::InstructionEnd => at_close(c, b'?', Scan::InstructionEnd, Scan::Instruction),
    }
}

/// How a scan over bytes ended: at their end, behind a whole token, or at a byte that no token has there.
#[derive(Clone, Copy)]
pub(crate) enum Ended<'a> {
    On(Scan),
    Whole(&'a [u8]),
    Dead(&'a [u8]),
}

/// Scans on until the token is whole, no token can come, or the bytes end.
pub(crate) fn end_in(from: Scan, bytes: &[u8]) -> Ended<'_>
    ensures { EndsSo from bytes.now result }
{
    let mut scan = from;
    let mut rest = bytes;
    loop {
        let left = skip_same(scan, rest);
        match left {
            [first, tail @ ..] => match step_of(scan, *first) {
                Step::On(next) => {
                    scan = next;
                    rest = tail;
                }
                Step::Whole => return Ended::Whole(tail),
                Step::Dead => return Ended::Dead(left),
            },
            [] => return Ended::On(scan),
        }
    }
}

// Goes over the bytes at the front that leave the scan where it is, at the states where there may be many.
fn skip_same(scan: Scan, bytes: &[u8]) -> &[u8]
    ensures came { Came scan bytes.now scan result.now }
    ensures not_longer { length result.now ≤ length bytes.now }
{
    match scan {
        Scan::Tag => skip_tag(bytes),
        Scan::Double => skip_between(b'"', bytes),
        Scan::Single => skip_between(b'\'', bytes),
        Scan::Comment => skip_to(b'-', bytes),
        Scan::Section => skip_to(b']', bytes),
        Scan::Instruction => skip_to(b'?', bytes),
        _ => bytes,
    }
}

fn skip_tag(bytes: &[u8]) -> &[u8]
    ensures left { result.now ≡ back is_tag_byte bytes.now }
    ensures not_longer { length result.now ≤ length bytes.now }
{
    let mut rest = bytes;
    while let [first, tail @ ..] = rest {
        if !is_tag_byte(*first) {
            return rest;
        }
        rest = tail;
    }
    rest
}

fn is_tag_byte(c: u8) -> bool
    ensures { result ≡ is_tag_byte c }
{
    c != b'>' && c != b'"' && c != b'\'' && c != b'<'
}

// The bytes from the quote or a `<` on.
fn skip_between(quote: u8, bytes: &[u8]) -> &[u8]
    ensures left { result.now ≡ back (is_between quote) bytes.now }
    ensures not_longer { length result.now ≤ length bytes.now }
{
    let mut rest = bytes;
    while let [first, tail @ ..] = rest {
        if *first == quote || *first == b'<' {
            return rest;
        }
        rest = tail;
    }
    rest
}
