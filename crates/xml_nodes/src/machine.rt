// The machine on tokens, which makes a builder's calls.
ghost use Rattle.std.specs.Prelude.{◌≡◌, [], ◌∷◌, ◌++◌, ℕ, List, OnOk, IfOk, Some, None, Err, ◌↔◌, IsTrue, true};
ghost use Rattle.std.specs.Str.{chars};
ghost use Rattle.xml_tokens.specs.Tokens.{End};
ghost use Rattle.xml_tokens.specs.SeenTokens.{token_of, attributes_of};
ghost use Rattle.xml_tokenizer.specs.Runs.{IsRun, characters};
ghost use Rattle.xml_nodes.specs.Machine.{Event, step, steps, start, end, fragment_start, attribute_leaves, text_leaf};
ghost use Rattle.xml_nodes.specs.Taking.{built, IsReady, Takes, RefusesRun};
ghost use Rattle.xml_nodes.specs.StateOf.{state_of};

mod content;
mod outside;

use crate::builder::Builder;
use crate::stage::Stage;
use plain_tree::{Bytes, Kind};
use std::alloc::{AllocError, AllocFailed, Global};
use xml_tokenizer::RunRefused;
use xml_tokens::{Attribute, Found};

/// Why a token was not taken: it may not stand here, or there was no memory.
#[derive(Clone, Copy, Debug, PartialEq, Eq)]
pub enum Refusal {
    Misplaced,
    Memory,
}

impl From<AllocError> for Refusal {
    ghost use Rattle.std.specs.Prelude.{◌≡◌};
    ghost use Rattle.xml_nodes.specs.declared.machine.Refusal.TheVariants.{Memory};

    ghost from_gives = { λ _ e. e ≡ Memory };

    fn from(_: AllocError) -> Refusal {
        Refusal::Memory
    }
}

impl<T: Drop> From<AllocFailed<T>> for Refusal {
    ghost use Rattle.std.specs.Prelude.{◌≡◌};
    ghost use Rattle.xml_nodes.specs.declared.machine.Refusal.TheVariants.{Memory};

    ghost from_gives = { λ _ e. e ≡ Memory };

    fn from(_: AllocFailed<T>) -> Refusal {
        Refusal::Memory
    }
}

/// What is open: the elements, and the text so far of the innermost.
#[derive(Drop)]
pub struct Machine {
    stage: Stage,
    names: Vec<Bytes>,
    text: Vec<u8>,
    // how many `]` stand at the end of the text as characters, 2 at most
    brackets: u8,
}

impl Machine {
    /// Before a document. It takes no memory.
    pub fn new(alloc: Global) -> Machine
        ensures { state_of result ≡ start }
    {
        Machine {
            stage: Stage::Front,
            names: Vec::new(alloc),
            text: Vec::new(alloc),
            brackets: 0,
        }
    }

    /// Before the content of an element without a name, as which a fragment is read: no end tag of a document ends it.
    pub fn of_content(alloc: Global) -> Result<Machine, AllocError>
        ensures { IfOk result (λ m. state_of m ≡ fragment_start) }
    {
        let mut names = Vec::new(alloc);
        names
            .push(Bytes::from_slice(alloc, &[])?)
            .map_err(|_| AllocError)?;
        Ok(Machine {
            stage: Stage::Inside,
            names,
            text: Vec::new(alloc),
            brackets: 0,
        })
    }

    /// Whether a document may end here.
    pub fn may_end(&self) -> bool
        ensures { IsTrue result ↔ ((state_of self.now).stage ≡ Stage.Epilog) }
    {
        self.stage == Stage::Epilog
    }

    /// Whether the root element is open.
    pub fn is_inside(&self) -> bool
        ensures { IsTrue result ↔ ((state_of self.now).stage ≡ Stage.Inside) }
    {
        self.stage == Stage::Inside
    }

    /// Takes a token, and makes its calls.
    pub fn take<B: Builder>(
        &mut self,
        alloc: Global,
        token: Found<'_>,
        builder: &mut B,
    ) -> Result<(), Refusal>
        requires { IsReady (state_of self.old) (built B.Builder builder.old) }
        ensures ok { OnOk result (Takes (state_of self.old) (token_of token.entry) (state_of self.new) (built B.Builder builder.old) (built B.Builder builder.new)) }
        ensures bad { result ≡ Err Refusal.Misplaced → step (state_of self.old) (token_of token.entry) ≡ None }
    {
        if self.is_inside() {
            self.inner(alloc, token, builder)
        } else {
            self.outer(alloc, token, builder)
        }
    }

    /// Takes a run of characters, each of which is a token.
    pub fn run(&mut self, text: &[u8]) -> Result<(), RunRefused>
        requires { IsRun text.now }
        ensures ok { OnOk result (steps (state_of self.old) (characters (chars text.now)) ≡ Some (state_of self.new, [])) }
        ensures refused { (at : ℕ) → result ≡ Err (RunRefused.Here at) → RefusesRun (state_of self.old) text.now at }
    {
        if self.is_inside() {
            self.inner_run(text)
        } else {
            self.outer_run(text)
        }
    }

    /// Ends the content of the element without a name: the text so far is a leaf. `Misplaced` where another element is open.
    pub fn end_content<B: Builder>(&mut self, builder: &mut B) -> Result<(), Refusal>
        requires { IsReady (state_of self.old) (built B.Builder builder.old) }
        ensures ends { OnOk result (step (state_of self.old) (End []) ≡ Some (end, text_leaf self.old.text.items ++ Event.Closed ∷ [])) }
        ensures log { OnOk result (B.log builder.new ≡ B.log builder.old ++ text_leaf self.old.text.items) }
        ensures bad { result ≡ Err Refusal.Misplaced → (calls : List Event) → step (state_of self.old) (End []) ≡ Some (end, calls) → ⊥ }
    {
        if !self.is_in_content() {
            return Err(Refusal::Misplaced);
        }
        self.flush(builder)?;
        Ok(())
    }

    // Whether the element without a name is the only one that is open.
    fn is_in_content(&self) -> bool
        ensures { IsTrue result ↔ ((self.now.stage ≡ Stage.Inside) × (self.now.names.items ≡ [] ∷ [])) }
    {
        self.stage == Stage::Inside && is_nameless(self.names.as_slice())
    }
}

// Whether there is just one name, and it is empty.
fn is_nameless(names: &[Bytes]) -> bool
    ensures { IsTrue result ↔ (names.now ≡ [] ∷ []) }
{
    match names {
        [only] => only.as_slice().is_empty(),
        _ => false,
    }
}

// The calls of a tag's attributes.
fn leaves<B: Builder>(attributes: &[Attribute<'_>], builder: &mut B) -> Result<(), AllocError>
    requires { B.sound builder.old ≡ true }
    ensures log { OnOk result (B.log builder.new ≡ B.log builder.old ++ attribute_leaves (attributes_of attributes.now)) }
    ensures depth { OnOk result (B.depth builder.new ≡ B.depth builder.old) }
    ensures sound { OnOk result (B.sound builder.new ≡ true) }
{
    for attribute in attributes {
        builder.leaf(Kind::Attribute, attribute.name, attribute.value.as_slice())?;
    }
    Ok(())
}
