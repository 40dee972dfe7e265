// What a line of a schema gives.
ghost use Rattle.std.specs.Prelude.{◌≡◌, ℕ, IfOk, IfSome, List};
ghost use Rattle.content_models.specs.Givens.{comment, given_of, given_by, is_large, IsExact};
ghost use Rattle.content_models.specs.Lines.{Given, Gives, IsLine, SpellsModel};
ghost use Rattle.content_models.specs.Models.{Model};

use crate::error::ReadError;
use crate::model_reading::read_model;
use crate::postfix::{Op, names_in_code};
use crate::tokens::{behind_equals, name_at, skip_blanks};
use plain_tree::Bytes;
use std::alloc::Global;
use xml_tokens::are_chars;

/// A name, the code of the model that is given to it, and how deep its parentheses are nested.
#[derive(Drop)]
pub(crate) struct Line {
    pub name: Bytes,
    pub code: Vec<Op>,
    pub depth: usize,
}

/// How many names a model may have, and how deep its parentheses may be nested.
const LIMIT: usize = 64;

impl Line {
    /// Whether the model passes a limit.
    pub(crate) fn is_large(&self) -> bool
        ensures { result ≡ is_large self.now }
    {
        names_in_code(&self.code) > LIMIT || self.depth > LIMIT
    }
}

/// What a line gives, which has no line feed.
pub(crate) fn read_line(alloc: Global, line: &[u8]) -> Result<Option<Line>, ReadError>
    ensures given { IfOk result (λ read. IsLine line.now (given_by read)) }
    ensures exact { IfOk result (λ read. IfSome read (λ given. IsExact given)) }
    ensures bad { result ≡ Err ReadError.Bad → (gs : List Given) → IsLine line.now gs → ⊥ }
{
    let rest = skip_blanks(line);
    match comment(rest) {
        Some(true) => Ok(None),
        Some(false) => Err(ReadError::Bad),
        None => match read_given(alloc, rest) {
            Ok(given) => Ok(Some(given)),
            Err(error) => Err(error),
        },
    }
}

/// Whether what may be a comment is one, if nothing or a number sign stands at the front.
fn comment(rest: &[u8]) -> Option<bool>
    ensures { result ≡ comment rest.now }
{
    match rest {
        [] => Some(true),
        [b'#', text @ ..] => Some(are_chars(text)),
        _ => None,
    }
}

/// The model that a line gives, of which these bytes are left behind the blanks at the front.
fn read_given(alloc: Global, rest: &[u8]) -> Result<Line, ReadError>
    ensures given { IfOk result (λ line. Gives rest.now (given_of line)) }
    ensures exact { IfOk result (λ line. IsExact line) }
    ensures bad { result ≡ Err ReadError.Bad → (g : Given) → Gives rest.now g → ⊥ }
{
    match name_at(rest) {
        Some((name, behind)) => match behind_equals(behind) {
            Some(right) => read_right(alloc, name, right),
            None => Err(ReadError::Bad),
        },
        None => Err(ReadError::Bad),
    }
}

/// The model to the right of the equals sign.
fn read_right(alloc: Global, name: &[u8], right: &[u8]) -> Result<Line, ReadError>
    ensures name { IfOk result (λ line. line.name ≡ name.now) }
    ensures spelled { IfOk result (λ line. SpellsModel right.now (given_of line).model line.depth) }
    ensures exact { IfOk result (λ line. IsExact line) }
    ensures bad { result ≡ Err ReadError.Bad → (model : Model) (depth : ℕ) → SpellsModel right.now model depth → ⊥ }
{
    let name = Bytes::from_slice(alloc, name)?;
    match read_model(alloc, right) {
        Ok(read) => Ok(Line {
            name,
            code: read.code,
            depth: read.depth,
        }),
        Err(error) => Err(error),
    }
}
