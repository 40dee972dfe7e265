// Tokens outside the root.
ghost use Rattle.std.specs.Prelude.{◌≡◌, ◌≢◌, ℕ, [], OnOk, OnErr, Some, None, Err};
ghost use Rattle.std.specs.Str.{chars};
ghost use Rattle.plain_tree.specs.XmlNames.{is_space};
ghost use Rattle.xml_tokens.specs.Tokens.{Start, Empty};
ghost use Rattle.xml_tokens.specs.SeenTokens.{token_of, attributes_of};
ghost use Rattle.xml_tokenizer.specs.Runs.{IsRun, characters};
ghost use Rattle.xml_nodes.specs.Machine.{steps, outer_step, outer_character};
ghost use Rattle.xml_nodes.specs.Taking.{built, IsReady, TakesBy, RefusesRun};
ghost use Rattle.xml_nodes.specs.StateOf.{state_of};

use super::{Machine, Refusal, leaves};
use crate::builder::Builder;
use crate::stage::Stage;
use bstr::decode_utf8;
use plain_tree::{Bytes, Kind};
use std::alloc::Global;
use xml_tokenizer::RunRefused;
use xml_tokens::{Attribute, Found};

impl Machine {
    pub(super) fn outer<B: Builder>(
        &mut self,
        alloc: Global,
        token: Found<'_>,
        builder: &mut B,
    ) -> Result<(), Refusal>
        requires { IsReady (state_of self.old) (built B.Builder builder.old) }
        ensures ok { OnOk result (TakesBy outer_step (state_of self.old) (token_of token.entry) (state_of self.new) (built B.Builder builder.old) (built B.Builder builder.new)) }
        ensures bad { result ≡ Err Refusal.Misplaced → outer_step (state_of self.old) (token_of token.entry) ≡ None }
    {
        match token {
            Found::Character(c) => self.outer_character(c),
            Found::Start(name, attributes) => self.root(
                alloc,
                name,
                attributes.as_slice(),
                builder,
            ),
            Found::Empty(name, attributes) => self.empty_root(name, attributes.as_slice(), builder),
            Found::Comment(value) => {
                builder.leaf(Kind::Comment, &[], value)?;
                self.stage = self.stage.passed();
                Ok(())
            }
            Found::Instruction(name, value) => {
                builder.leaf(Kind::Instruction, name, value)?;
                self.stage = self.stage.passed();
                Ok(())
            }
            Found::Declaration if self.stage.may_declare() => {
                self.stage = Stage::Prolog;
                Ok(())
            }
            Found::Doctype if self.stage.may_type() => {
                self.stage = Stage::Typed;
                Ok(())
            }
            Found::Declaration | Found::Doctype => Err(Refusal::Misplaced),
            Found::Reference(_) | Found::Section(_) | Found::End(_) => Err(Refusal::Misplaced),
        }
    }

    // A run outside the root, character by character.
    pub(super) fn outer_run(&mut self, text: &[u8]) -> Result<(), RunRefused>
        requires outside { self.old.stage ≢ Stage.Inside }
        requires run { IsRun text.now }
        ensures ok { OnOk result (steps (state_of self.old) (characters (chars text.now)) ≡ Some (state_of self.new, [])) }
        ensures refused { (at : ℕ) → result ≡ Err (RunRefused.Here at) → RefusesRun (state_of self.old) text.now at }
    {
        let mut at = 0;
        while at < text.len() {
            match decode_utf8(&text[at..]) {
                (Some(c), size) => match self.outer_character(c) {
                    Ok(()) => at += size,
                    Err(_) => return Err(RunRefused::Here { at }),
                },
                // A run is UTF-8.
                (None, _) => unreachable!(),
            }
        }
        Ok(())
    }

    // White space, or at the very front the mark of the order of bytes.
    fn outer_character(&mut self, c: char) -> Result<(), Refusal>
        ensures ok { OnOk result (outer_character (state_of self.old) c ≡ Some (state_of self.new, [])) }
        ensures same_names { self.new.names.items ≡ self.old.names.items }
        ensures bad { OnErr result (outer_character (state_of self.old) c ≡ None) }
    {
        if is_space(c) {
            self.stage = self.stage.passed();
            Ok(())
        } else if self.stage == Stage::Front && c == '\u{FEFF}' {
            self.stage = Stage::Marked;
            Ok(())
        } else {
            Err(Refusal::Misplaced)
        }
    }

    fn root<B: Builder>(
        &mut self,
        alloc: Global,
        name: &[u8],
        attributes: &[Attribute<'_>],
        builder: &mut B,
    ) -> Result<(), Refusal>
        requires { IsReady (state_of self.old) (built B.Builder builder.old) }
        ensures ok { OnOk result (TakesBy outer_step (state_of self.old) (Start name.now (attributes_of attributes.now)) (state_of self.new) (built B.Builder builder.old) (built B.Builder builder.new)) }
        ensures bad { result ≡ Err Refusal.Misplaced → outer_step (state_of self.old) (Start name.now (attributes_of attributes.now)) ≡ None }
    {
        if !self.stage.may_root() {
            return Err(Refusal::Misplaced);
        }
        let own = Bytes::from_slice(alloc, name)?;
        self.names.push(own)?;
        builder.open(Kind::Element, name)?;
        leaves(attributes, builder)?;
        self.stage = Stage::Inside;
        Ok(())
    }

    // The root in one tag.
    fn empty_root<B: Builder>(
        &mut self,
        name: &[u8],
        attributes: &[Attribute<'_>],
        builder: &mut B,
    ) -> Result<(), Refusal>
        requires { IsReady (state_of self.old) (built B.Builder builder.old) }
        ensures ok { OnOk result (TakesBy outer_step (state_of self.old) (Empty name.now (attributes_of attributes.now)) (state_of self.new) (built B.Builder builder.old) (built B.Builder builder.new)) }
        ensures bad { result ≡ Err Refusal.Misplaced → outer_step (state_of self.old) (Empty name.now (attributes_of attributes.now)) ≡ None }
    {
        if !self.stage.may_root() {
            return Err(Refusal::Misplaced);
        }
        builder.open(Kind::Element, name)?;
        leaves(attributes, builder)?;
        builder.close()?;
        self.stage = Stage::Epilog;
        Ok(())
    }
}

fn is_space(c: char) -> bool
    ensures { result ≡ is_space c }
{
    matches!(c, ' ' | '\t' | '\r' | '\n')
}
