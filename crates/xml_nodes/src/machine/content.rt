// Tokens inside the root.
ghost use Rattle.std.specs.Prelude.{◌≡◌, [], ◌++◌, ℕ, OnOk, Some, None, Err, true, if◌then◌else◌};
ghost use Rattle.std.specs.Char.{encode_utf8};
ghost use Rattle.std.specs.Str.{chars};
ghost use Rattle.xml_tokens.specs.Tokens.{Character, Start, Empty, End};
ghost use Rattle.xml_tokens.specs.SeenTokens.{token_of, attributes_of};
ghost use Rattle.xml_tokenizer.specs.Runs.{IsRun, characters};
ghost use Rattle.xml_nodes.specs.Machine.{steps, inner_step, brackets_after, run_step, with_text, opened_at, text_leaf};
ghost use Rattle.xml_nodes.specs.Taking.{built, IsReady, TakesBy, RefusesRun};
ghost use Rattle.xml_nodes.specs.StateOf.{state_of};

use super::{Machine, Refusal, leaves};
use crate::builder::Builder;
use crate::stage::Stage;
use plain_tree::{Bytes, Kind};
use std::alloc::{AllocError, Global};
use xml_tokenizer::RunRefused;
use xml_tokens::{Attribute, Found};

impl Machine {
    pub(super) fn inner<B: Builder>(
        &mut self,
        alloc: Global,
        token: Found<'_>,
        builder: &mut B,
    ) -> Result<(), Refusal>
        requires { IsReady (state_of self.old) (built B.Builder builder.old) }
        ensures ok { OnOk result (TakesBy inner_step (state_of self.old) (token_of token.entry) (state_of self.new) (built B.Builder builder.old) (built B.Builder builder.new)) }
        ensures bad { result ≡ Err Refusal.Misplaced → inner_step (state_of self.old) (token_of token.entry) ≡ None }
    {
        match token {
            Found::Character(c) => self.inner_character(c),
            Found::Reference(c) => {
                self.push_char(c)?;
                self.brackets = 0;
                Ok(())
            }
            Found::Section(value) => {
                self.text.extend_from_slice(value)?;
                self.brackets = 0;
                Ok(())
            }
            Found::Start(name, attributes) => Ok(self.start(
                alloc,
                name,
                attributes.as_slice(),
                builder,
            )?),
            Found::Empty(name, attributes) => Ok(self.empty(name, attributes.as_slice(), builder)?),
            Found::End(name) => self.end(name, builder),
            Found::Comment(value) => {
                self.flush(builder)?;
                builder.leaf(Kind::Comment, &[], value)?;
                Ok(())
            }
            Found::Instruction(name, value) => {
                self.flush(builder)?;
                builder.leaf(Kind::Instruction, name, value)?;
                Ok(())
            }
            Found::Declaration | Found::Doctype => Err(Refusal::Misplaced),
        }
    }

    // The text so far is a leaf, where there is any.
    pub(super) fn flush<B: Builder>(&mut self, builder: &mut B) -> Result<(), AllocError>
        requires { IsReady (state_of self.old) (built B.Builder builder.old) }
        ensures log { OnOk result (B.log builder.new ≡ B.log builder.old ++ text_leaf self.old.text.items) }
        ensures ready { OnOk result (IsReady (state_of self.old) (built B.Builder builder.new)) }
        ensures state { OnOk result (state_of self.new ≡ opened_at self.old.stage (state_of self.old).names) }
    {
        if !self.text.is_empty() {
            builder.leaf(Kind::Text, &[], self.text.as_slice())?;
            self.text.clear();
        }
        self.brackets = 0;
        Ok(())
    }

    fn push_char(&mut self, c: char) -> Result<(), AllocError>
        ensures { OnOk result (state_of self.new ≡ with_text (state_of self.old) (self.old.text.items ++ encode_utf8 c) self.old.brackets) }
    {
        let mut buffer = [0; 4];
        let text = c.encode_utf8(&mut buffer);
        self.text.extend_from_slice(text.as_bytes())
    }

    fn inner_character(&mut self, c: char) -> Result<(), Refusal>
        ensures ok { OnOk result (inner_step (state_of self.old) (Character c) ≡ Some (state_of self.new, [])) }
        ensures bad { result ≡ Err Refusal.Misplaced → inner_step (state_of self.old) (Character c) ≡ None }
    {
        if c == '>' && 2 <= self.brackets {
            return Err(Refusal::Misplaced);
        }
        self.push_char(c)?;
        self.brackets = brackets_after(self.brackets, c);
        Ok(())
    }

    fn start<B: Builder>(
        &mut self,
        alloc: Global,
        name: &[u8],
        attributes: &[Attribute<'_>],
        builder: &mut B,
    ) -> Result<(), AllocError>
        requires { IsReady (state_of self.old) (built B.Builder builder.old) }
        ensures { OnOk result (TakesBy inner_step (state_of self.old) (Start name.now (attributes_of attributes.now)) (state_of self.new) (built B.Builder builder.old) (built B.Builder builder.new)) }
    {
        self.flush(builder)?;
        let own = Bytes::from_slice(alloc, name)?;
        match self.names.push(own) {
            Ok(()) => {}
            Err(_) => return Err(AllocError),
        }
        builder.open(Kind::Element, name)?;
        leaves(attributes, builder)
    }

    // An element in one tag.
    fn empty<B: Builder>(
        &mut self,
        name: &[u8],
        attributes: &[Attribute<'_>],
        builder: &mut B,
    ) -> Result<(), AllocError>
        requires { IsReady (state_of self.old) (built B.Builder builder.old) }
        ensures { OnOk result (TakesBy inner_step (state_of self.old) (Empty name.now (attributes_of attributes.now)) (state_of self.new) (built B.Builder builder.old) (built B.Builder builder.new)) }
    {
        self.flush(builder)?;
        builder.open(Kind::Element, name)?;
        leaves(attributes, builder)?;
        builder.close()
    }

    fn end<B: Builder>(&mut self, name: &[u8], builder: &mut B) -> Result<(), Refusal>
        requires { IsReady (state_of self.old) (built B.Builder builder.old) }
        ensures ok { OnOk result (TakesBy inner_step (state_of self.old) (End name.now) (state_of self.new) (built B.Builder builder.old) (built B.Builder builder.new)) }
        ensures bad { result ≡ Err Refusal.Misplaced → inner_step (state_of self.old) (End name.now) ≡ None }
    {
        match self.names.last() {
            Some(open) if open.as_slice() == name => {}
            _ => return Err(Refusal::Misplaced),
        }
        self.flush(builder)?;
        builder.close()?;
        self.names.pop();
        if self.names.is_empty() {
            self.stage = Stage::Epilog;
        } else {
            self.stage = Stage::Inside;
        }
        Ok(())
    }

    // A run inside the root. Only its first character may be one that may not stand there, the > of ]]>.
    pub(super) fn inner_run(&mut self, text: &[u8]) -> Result<(), RunRefused>
        requires inside { self.old.stage ≡ Stage.Inside }
        requires run { IsRun text.now }
        ensures ok { OnOk result (steps (state_of self.old) (characters (chars text.now)) ≡ Some (state_of self.new, [])) }
        ensures refused { (at : ℕ) → result ≡ Err (RunRefused.Here at) → RefusesRun (state_of self.old) text.now at }
    {
        match self.add_run(text) {
            Ok(()) => Ok(()),
            Err(Refusal::Misplaced) => Err(RunRefused::Here { at: 0 }),
            Err(Refusal::Memory) => Err(RunRefused::Memory),
        }
    }

    fn add_run(&mut self, text: &[u8]) -> Result<(), Refusal>
        ensures ok { OnOk result (run_step (state_of self.old) text.now ≡ Some (state_of self.new, [])) }
        ensures bad { result ≡ Err Refusal.Misplaced → run_step (state_of self.old) text.now ≡ None }
    {
        match text {
            [] => Ok(()),
            [b'>', ..] if 2 <= self.brackets => Err(Refusal::Misplaced),
            _ => {
                self.text.extend_from_slice(text)?;
                self.brackets = 0;
                Ok(())
            }
        }
    }
}

fn brackets_after(brackets: u8, c: char) -> u8
    ensures { result ≡ brackets_after brackets c }
{
    match c {
        ']' if 1 <= brackets => 2,
        ']' => 1,
        _ => 0,
    }
}
