// The schema that bytes spell.
ghost use Rattle.std.specs.Prelude.{◌≡◌, ◌≤◌, ◌<◌, ◌++◌, ◌∷◌, [], length, List, IfErr, IfOk, IfSome, OnOk, map, true, false};
ghost use Rattle.xml_tokens.specs.Seen.{seen_part};
ghost use Rattle.content_models.specs.Givens.{given_of, is_large, IsExact};
ghost use Rattle.content_models.specs.Holding.{is_past, Holds, Keeps, Refused, TakesLine, names_of};
ghost use Rattle.content_models.specs.Rules.{rule_of, rules_of};
ghost use Rattle.content_models.specs.Lines.{Given, behind_feed};
ghost use Rattle.content_models.specs.Schemas.{HasName, IsLarge, SpellsSchema, rules};

use crate::error::{ReadError, SchemaError};
use crate::line_reading::{Line, read_line};
use crate::schema::{Declaration, Schema};
use plain_tree::{Kind, Names};
use std::alloc::Global;
use xml_tokens::skip_to;

/// How many models a schema may have.
const MOST_MODELS: usize = 64;

/// What the lines up to now give. Once a limit is passed no more is kept than the names.
#[derive(Drop)]
pub(crate) struct Reader {
    seen: Names,
    kept: Vec<Declaration>,
    large: bool,
}

impl Reader {
    fn new(alloc: Global) -> Reader
        ensures { Holds result [] }
    {
        Reader {
            seen: Names::new(alloc),
            kept: Vec::new(alloc),
            large: false,
        }
    }

    /// Whether no line gave a model to the name of this one.
    fn is_new(&self, line: &Line) -> bool
        ensures new { result ≡ true → (gs : List Given) → Holds self.now gs → HasName line.now.name gs → ⊥ }
        ensures old { result ≡ false → (gs : List Given) → Holds self.now gs → HasName line.now.name gs }
    {
        self.seen
            .find(Kind::Element, line.name.as_slice())
            .is_none()
    }

    fn note(&mut self, alloc: Global, line: &Line) -> Result<(), SchemaError>
        requires { (gs : List Given) → Holds self.old gs → HasName line.now.name gs → ⊥ }
        ensures noted { OnOk result ((gs : List Given) → Holds self.old gs → self.new.seen ≡ names_of (gs ++ given_of line.now ∷ [])) }
        ensures kept { OnOk result (self.new.kept ≡ self.old.kept) }
        ensures large { OnOk result (self.new.large ≡ self.old.large) }
        ensures err { IfErr result (λ error. error ≡ SchemaError.Memory) }
    {
        self.seen
            .intern(alloc, Kind::Element, line.name.as_slice())?;
        Ok(())
    }

    /// Whether a limit is passed with this line.
    fn is_past(&self, line: &Line) -> bool
        ensures { result ≡ is_past self.now line.now }
    {
        self.kept.len() >= MOST_MODELS || line.is_large()
    }

    fn keep(&mut self, line: Line) -> Result<(), SchemaError>
        requires { IsExact line }
        ensures kept { OnOk result ((gs : List Given) → Keeps self.old gs → Keeps self.new (gs ++ given_of line ∷ [])) }
        ensures seen { OnOk result (self.new.seen ≡ self.old.seen) }
        ensures err { IfErr result (λ error. error ≡ SchemaError.Memory) }
    {
        if self.large {
            return Ok(());
        }
        if self.is_past(&line) {
            self.large = true;
            return Ok(());
        }
        self.kept.push(declared(line))?;
        Ok(())
    }

    /// Takes what a line gives.
    fn take(&mut self, alloc: Global, line: Line) -> Result<(), SchemaError>
        requires { IsExact line }
        ensures held { OnOk result ((gs : List Given) → Holds self.old gs → Holds self.new (gs ++ given_of line ∷ [])) }
        ensures new { OnOk result ((gs : List Given) → Holds self.old gs → HasName line.name gs → ⊥) }
        ensures bad { result ≡ Err SchemaError.Bad → (gs : List Given) → Holds self.old gs → HasName line.name gs }
        ensures small { result ≡ Err SchemaError.Large → ⊥ }
    {
        if !self.is_new(&line) {
            return Err(SchemaError::Bad);
        }
        self.note(alloc, &line)?;
        self.keep(line)
    }

    /// Takes the first of the lines, and answers what follows it if it isn't the last.
    fn take_first<'a>(
        &mut self,
        alloc: Global,
        lines: &'a [u8],
    ) -> Result<Option<&'a [u8]>, SchemaError>
        ensures taken { IfOk result (λ next. TakesLine lines.now self.old self.new (seen_part next)) }
        ensures shorter { IfOk result (λ next. IfSome next (λ rest. length rest.now < length lines.now)) }
        ensures bad { result ≡ Err SchemaError.Bad → Refused lines.now self.old }
        ensures small { result ≡ Err SchemaError.Large → ⊥ }
    {
        let after = skip_to(b'\n', lines);
        match read_line(alloc, &lines[..lines.len() - after.len()]) {
            Ok(Some(line)) => match self.take(alloc, line) {
                Ok(()) => Ok(behind_feed(after)),
                Err(error) => Err(error),
            },
            Ok(None) => Ok(behind_feed(after)),
            Err(error) => Err(SchemaError::from(error)),
        }
    }

    fn finish(self) -> Result<Schema, SchemaError>
        requires { self.large ≡ false → length self.kept.items ≤ 64 }
        ensures kept { IfOk result (λ schema. (self.large ≡ false) × (rules_of schema ≡ map rule_of self.kept.items)) }
        ensures large { result ≡ Err SchemaError.Large → self.large ≡ true }
        ensures bad { result ≡ Err SchemaError.Bad → ⊥ }
    {
        if self.large {
            Err(SchemaError::Large)
        } else {
            Ok(Schema {
                declarations: self.kept,
            })
        }
    }
}

/// A name and its model, within the limits.
fn declared(line: Line) -> Declaration
    requires exact { IsExact line }
    requires small { is_large line ≡ false }
    ensures { rule_of result ≡ ((given_of line).name, (given_of line).model) }
{
    Declaration {
        name: line.name,
        code: line.code,
    }
}

/// What follows a line, from its line feed on: another line, unless it is the last.
fn behind_feed(after: &[u8]) -> Option<&[u8]>
    ensures found { seen_part result ≡ behind_feed after.now }
    ensures shorter { IfSome result (λ rest. length rest.now < length after.now) }
{
    match after {
        [] => None,
        [_, rest @ ..] => Some(rest),
    }
}

/// The schema that the bytes spell.
///
/// It is `Bad` exactly where the bytes are not in the grammar or give two models to one name, and `Large` exactly where they are and
/// pass its limits: at most 64 models, at most 64 names in each, and parentheses nested at most 64 deep. It is `Memory` for want of
/// memory alone.
pub fn read_schema(alloc: Global, bytes: &[u8]) -> Result<Schema, SchemaError>
    ensures spelled { IfOk result (λ schema. (gs : List Given) × SpellsSchema bytes.now gs × (rules_of schema ≡ rules gs)) }
    ensures small { IfOk result (λ schema. (gs : List Given) → SpellsSchema bytes.now gs → IsLarge gs → ⊥) }
    ensures bad { result ≡ Err SchemaError.Bad → (gs : List Given) → SpellsSchema bytes.now gs → ⊥ }
    ensures large { result ≡ Err SchemaError.Large → ((gs : List Given) × SpellsSchema bytes.now gs) × ((gs : List Given) → SpellsSchema bytes.now gs → IsLarge gs) }
{
    let mut reader = Reader::new(alloc);
    let mut rest = Some(bytes);
    while let Some(lines) = rest {
        match reader.take_first(alloc, lines) {
            Ok(next) => rest = next,
            Err(error) => return Err(error),
        }
    }
    reader.finish()
}
