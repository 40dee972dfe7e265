// The token at the front of a query's bytes.
ghost use Rattle.std.specs.Prelude.{◌≡◌, ◌≤◌, ◌<◌, ◌-◌, length, take, codes, IfSome, Some, None};
ghost use Rattle.std.specs.Str.{bytes_eq};
ghost use Rattle.plain_tree.specs.XmlNames.{is_space};
ghost use Rattle.xml_tokens.specs.Cutting.{back};
ghost use Rattle.xml_tokens.specs.Seen.{seen_part};
ghost use Rattle.xpath_parser.specs.Names.{is_start_byte, behind_byte, behind_name};
ghost use Rattle.xpath_parser.specs.Tokens.{span_before, is_other_than, quoted, literal, compared, behind_text, behind_again, axis_of, call_of, word_of, call_closed, called, along, along_child, along_attribute, named, named_at, slash, sign, token_at, seen};

use crate::query::Axis;
use crate::spelling::{behind_byte, behind_name, is_start_byte, skip_space, skip_to};
use crate::token::{Asked, Operand, Span, Token};
use xml_tokens::are_chars;

// A token, and what follows it.
type Found<'a> = Option<(Token, &'a [u8])>;

fn is_word(name: &[u8], word: &[u8]) -> bool
    ensures { result ≡ bytes_eq name.now word.now }
{
    name == word
}

fn axis_of(name: &[u8]) -> Option<Axis>
    ensures { result ≡ axis_of name.now }
{
    if is_word(name, b"child") {
        Some(Axis::Child)
    } else if is_word(name, b"descendant") {
        Some(Axis::Descendant)
    } else if is_word(name, b"descendant-or-self") {
        Some(Axis::DescendantOrSelf)
    } else if is_word(name, b"self") {
        Some(Axis::SelfNode)
    } else if is_word(name, b"following-sibling") {
        Some(Axis::FollowingSibling)
    } else if is_word(name, b"attribute") {
        Some(Axis::Attribute)
    } else {
        None
    }
}

fn call_of(name: &[u8]) -> Option<Token>
    ensures { result ≡ call_of name.now }
{
    if is_word(name, b"node") {
        Some(Token::Asks(Asked::AnyNode))
    } else if is_word(name, b"text") {
        Some(Token::Asks(Asked::TextNode))
    } else if is_word(name, b"comment") {
        Some(Token::Asks(Asked::CommentNode))
    } else if is_word(name, b"processing-instruction") {
        Some(Token::Asks(Asked::InstructionNode))
    } else if is_word(name, b"true") {
        Some(Token::Truth(true))
    } else if is_word(name, b"false") {
        Some(Token::Truth(false))
    } else {
        None
    }
}

fn word_of(name: &[u8], span: Span) -> Token
    ensures { result ≡ word_of name.now span }
{
    if is_word(name, b"and") {
        Token::AndWord(span)
    } else if is_word(name, b"or") {
        Token::OrWord(span)
    } else {
        Token::Word(span)
    }
}

/// The place of what stands before the rest of the last bytes of a query of so many.
fn span_before(total: usize, bytes: &[u8], rest: &[u8]) -> Span
    requires shorter { length rest.now ≤ length bytes.now }
    requires within { length bytes.now ≤ total }
    ensures { result ≡ span_before total bytes.now rest.now }
{
    Span {
        from: total - bytes.len(),
        to: total - rest.len(),
    }
}

/// A comparison with the literal whose first quote stood in front.
fn quoted<'a>(operand: Operand, total: usize, quote: u8, bytes: &'a [u8]) -> Found<'a>
    requires { length bytes.now ≤ total }
    ensures found { seen result ≡ quoted operand total quote bytes.now (back (is_other_than quote) bytes.now) }
    ensures shorter { IfSome result (λ p. length p.1.now ≤ length bytes.now) }
{
    let rest = skip_to(quote, bytes);
    if !are_chars(&bytes[..bytes.len() - rest.len()]) {
        return None;
    }
    let value = span_before(total, bytes, rest);
    match behind_byte(quote, rest) {
        Some(after) => Some((Token::Compares(operand, value), after)),
        None => None,
    }
}

/// A comparison with the literal at the front.
fn literal<'a>(operand: Operand, total: usize, bytes: &'a [u8]) -> Found<'a>
    requires { length bytes.now ≤ total }
    ensures found { seen result ≡ literal operand total bytes.now }
    ensures shorter { IfSome result (λ p. length p.1.now ≤ length bytes.now) }
{
    match bytes {
        [] => None,
        [first, rest @ ..] => {
            if *first == b'"' || *first == b'\'' {
                quoted(operand, total, *first, rest)
            } else {
                None
            }
        }
    }
}

/// A comparison where `=` follows, and else the token after which this comes.
fn compared<'a>(
    operand: Operand,
    total: usize,
    rest: &'a [u8],
    token: Token,
    after: &'a [u8],
) -> Found<'a>
    requires within { length rest.now ≤ total }
    requires shorter { length rest.now ≤ length after.now }
    ensures found { seen result ≡ compared operand total rest.now token after.now }
    ensures shorter { IfSome result (λ p. length p.1.now ≤ length after.now) }
{
    match behind_byte(b'=', skip_space(rest)) {
        Some(more) => literal(operand, total, skip_space(more)),
        None => Some((token, after)),
    }
}

fn close_call<'a>(total: usize, token: Token, more: &'a [u8]) -> Found<'a>
    requires { length more.now ≤ total }
    ensures found { seen result ≡ call_closed total (Some token) more.now }
    ensures shorter { IfSome result (λ p. length p.1.now ≤ length more.now) }
{
    let rest = behind_byte(b')', skip_space(more))?;
    match token {
        Token::Asks(Asked::TextNode) => compared(Operand::Texts, total, rest, token, rest),
        _ => Some((token, rest)),
    }
}

fn call<'a>(total: usize, name: &[u8], span: Span, rest: &'a [u8], more: &'a [u8]) -> Found<'a>
    requires shorter { length more.now ≤ length rest.now }
    requires within { length more.now ≤ total }
    ensures found { seen result ≡ called total name.now span rest.now more.now }
    ensures shorter { IfSome result (λ p. length p.1.now ≤ length rest.now) }
{
    if is_word(name, b"not") {
        Some((Token::NotOpen, more))
    } else if is_word(name, b"and") {
        Some((Token::AndWord(span), rest))
    } else if is_word(name, b"or") {
        Some((Token::OrWord(span), rest))
    } else {
        match call_of(name) {
            Some(token) => close_call(total, token, more),
            None => None,
        }
    }
}

/// What follows the test `text()`, if it stands at the front.
fn behind_text(bytes: &[u8]) -> Option<&[u8]>
    ensures found { seen_part result ≡ behind_text bytes.now }
    ensures not_longer { IfSome result (λ rest. length rest.now ≤ length bytes.now) }
{
    let rest = behind_name(bytes)?;
    if is_word(&bytes[..bytes.len() - rest.len()], b"text") {
        behind_byte(b')', skip_space(behind_byte(b'(', skip_space(rest))?))
    } else {
        None
    }
}

fn along_child<'a>(total: usize, more: &'a [u8]) -> Found<'a>
    requires { length more.now ≤ total }
    ensures found { seen result ≡ along_child total more.now (behind_text (back is_space more.now)) }
    ensures shorter { IfSome result (λ p. length p.1.now ≤ length more.now) }
{
    let axis = Token::Along(Axis::Child);
    match behind_text(skip_space(more)) {
        Some(rest) => compared(Operand::Texts, total, rest, axis, more),
        None => Some((axis, more)),
    }
}

fn along_attribute<'a>(total: usize, more: &'a [u8]) -> Found<'a>
    requires { length more.now ≤ total }
    ensures found { seen result ≡ along_attribute total more.now (behind_name (back is_space more.now)) }
    ensures shorter { IfSome result (λ p. length p.1.now ≤ length more.now) }
{
    let axis = Token::Along(Axis::Attribute);
    let name = skip_space(more);
    match behind_name(name) {
        Some(rest) => {
            let operand = Operand::Attributes(span_before(total, name, rest));
            compared(operand, total, rest, axis, more)
        }
        None => Some((axis, more)),
    }
}

fn along<'a>(total: usize, axis: Option<Axis>, more: &'a [u8]) -> Found<'a>
    requires { length more.now ≤ total }
    ensures found { seen result ≡ along total axis more.now }
    ensures shorter { IfSome result (λ p. length p.1.now ≤ length more.now) }
{
    match axis {
        Some(Axis::Child) => along_child(total, more),
        Some(Axis::Attribute) => along_attribute(total, more),
        Some(axis) => Some((Token::Along(axis), more)),
        None => None,
    }
}

/// What follows two colons.
fn behind_colons(bytes: &[u8]) -> Option<&[u8]>
    ensures found { seen_part result ≡ behind_again (behind_byte 58 bytes.now) }
    ensures not_longer { IfSome result (λ rest. length rest.now ≤ length bytes.now) }
{
    match behind_byte(b':', bytes) {
        Some(more) => behind_byte(b':', more),
        None => None,
    }
}

fn named<'a>(total: usize, name: &[u8], span: Span, rest: &'a [u8]) -> Found<'a>
    requires { length rest.now ≤ total }
    ensures found { seen result ≡ named total name.now span rest.now }
    ensures shorter { IfSome result (λ p. length p.1.now ≤ length rest.now) }
{
    let after = skip_space(rest);
    if let Some(more) = behind_colons(after) {
        return along(total, axis_of(name), more);
    }
    match behind_byte(b'(', after) {
        Some(more) => call(total, name, span, rest, more),
        None => Some((word_of(name, span), rest)),
    }
}

fn slash(bytes: &[u8]) -> Found<'_>
    ensures found { seen result ≡ slash bytes.now (behind_byte 47 bytes.now) }
    ensures shorter { IfSome result (λ p. length p.1.now ≤ length bytes.now) }
{
    match behind_byte(b'/', bytes) {
        Some(more) => Some((Token::Slashes, more)),
        None => Some((Token::Slash, bytes)),
    }
}

fn sign(total: usize, first: u8, rest: &[u8]) -> Found<'_>
    requires { length rest.now ≤ total }
    ensures found { seen result ≡ sign total first rest.now }
    ensures shorter { IfSome result (λ p. length p.1.now ≤ length rest.now) }
{
    match first {
        b'/' => slash(rest),
        b'.' => Some((Token::Dot, rest)),
        b'@' => along_attribute(total, rest),
        b'|' => Some((Token::Bar, rest)),
        b'[' => Some((Token::OpenFilter, rest)),
        b']' => Some((Token::CloseFilter, rest)),
        b'(' => Some((Token::Open, rest)),
        b')' => Some((Token::Close, rest)),
        b'*' => Some((Token::Asks(Asked::Star), rest)),
        _ => None,
    }
}

fn name_token<'a>(total: usize, bytes: &[u8], rest: &'a [u8]) -> Found<'a>
    requires shorter { length rest.now < length bytes.now }
    requires within { length bytes.now ≤ total }
    ensures found { seen result ≡ named_at total bytes.now (Some rest.now) }
    ensures shorter { IfSome result (λ p. length p.1.now ≤ length rest.now) }
{
    let span = span_before(total, bytes, rest);
    named(total, &bytes[..bytes.len() - rest.len()], span, rest)
}

/// The token at the front of the last bytes of so many, and what follows it.
#[tactic(auto, unfolding(crate::specs::Tokens::token_at))]
pub(crate) fn next_token(total: usize, bytes: &[u8]) -> Found<'_>
    requires { length bytes.now ≤ total }
    ensures found { seen result ≡ token_at total bytes.now }
    ensures shorter { IfSome result (λ p. length p.1.now < length bytes.now) }
{
    match bytes {
        [] => None,
        [first, tail @ ..] => {
            if is_start_byte(*first) {
                name_token(total, bytes, behind_name(bytes)?)
            } else {
                sign(total, *first, tail)
            }
        }
    }
}
