// Tokens on their way from the tokenizer to the machine, which makes a builder's calls.
ghost use Rattle.std.specs.Prelude.{◌≡◌, ◌+◌, ◌<◌, ◌^◌, ◌++◌, List, ℕ, length, OnOk, Err};
ghost use Rattle.xml_tokens.specs.Tokens.{Token};
ghost use Rattle.xml_tokenizer.specs.Standing.{Stands as HasCut, BreaksAt};
ghost use Rattle.xml_nodes.specs.StateOf.{state_of};
ghost use Rattle.xml_nodes.specs.Taking.{built, IsReady};
ghost use Rattle.xml_profile.specs.Feeding.{joint, joint_step, TakesPiece};

use std::alloc::Global;
use xml_nodes::{Builder, Machine, Refusal};
use xml_tokenizer::{Refused, RunRefused, TokenError, TokenSink, Tokenizer};
use xml_tokens::Found;

// A sink of tokens: the machine takes each, and the builder gets its calls.
#[derive(Drop)]
struct Feeding<'a, B: Builder> {
    alloc: Global,
    machine: &'a mut Machine,
    builder: &'a mut B,
}

impl<B: Builder> TokenSink for Feeding<'_, B> {
    ghost use Rattle.std.specs.Prelude.{[], ◌∷◌};
    ghost use Rattle.xml_nodes.specs.StateOf.{state_of};
    ghost use Rattle.xml_nodes.specs.Taking.{built, IsReady};
    ghost use Rattle.xml_profile.specs.Feeding.{Joint, joint, joint_step};

    ghost State = { Joint };

    ghost state = { λ f. joint (state_of f.machine.now) (built B.Builder f.builder.now) };

    ghost step = { joint_step };

    ghost IsReady = { λ j. IsReady j.now j.built };

    ghost lenders = { λ f. f.machine.ghost_name ∷ f.builder.ghost_name ∷ [] };

    fn token(&mut self, found: Found<'_>) -> Result<(), Refused> {
        match self.machine.take(self.alloc, found, self.builder) {
            Ok(()) => Ok(()),
            Err(Refusal::Misplaced) => Err(Refused::Here),
            Err(Refusal::Memory) => Err(Refused::Memory),
        }
    }

    fn run(&mut self, bytes: &[u8]) -> Result<(), RunRefused> {
        self.machine.run(bytes)
    }
}

/// Cuts a piece into tokens, and hands them to the machine.
pub(crate) fn feed_tokens<B: Builder>(
    alloc: Global,
    piece: &[u8],
    tokenizer: &mut Tokenizer,
    machine: &mut Machine,
    builder: &mut B,
) -> Result<(), TokenError>
    requires ready { IsReady (state_of machine.old) (built B.Builder builder.old) }
    requires count { tokenizer.old.count + length piece.now < 2 ^ 64 }
    ensures ready { OnOk result (IsReady (state_of machine.new) (built B.Builder builder.new)) }
    ensures ok { OnOk result (TakesPiece tokenizer.old tokenizer.new (joint (state_of machine.old) (built B.Builder builder.old)) (joint (state_of machine.new) (built B.Builder builder.new)) piece.now) }
    ensures count { OnOk result (tokenizer.new.count ≡ tokenizer.old.count + length piece.now) }
    ensures place { result ≡ Err TokenError.Bad → (tokens : List Token) (fed : List ℕ) → HasCut tokenizer.old tokens fed →
        BreaksAt joint_step (joint (state_of machine.old) (built B.Builder builder.old)) tokens (fed ++ piece.now) tokenizer.new.start }
{
    let mut feeding = Feeding {
        alloc,
        machine,
        builder,
    };
    tokenizer.feed(alloc, piece, &mut feeding)
}
