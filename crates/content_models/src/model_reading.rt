// The postfix code of the model that bytes spell. No tree is made, so a model of any size takes no stack.
ghost use Rattle.std.specs.Prelude.{◌≡◌, ◌+◌, ◌≤◌, ◌<◌, IfOk, length, reverse, ℕ, []};
ghost use Rattle.content_models.specs.Feeding.{Refuses, Takes};
ghost use Rattle.content_models.specs.Lines.{SpellsModel};
ghost use Rattle.content_models.specs.Machine.{at_of};
ghost use Rattle.content_models.specs.Models.{Model};
ghost use Rattle.content_models.specs.Nesting.{nested};
ghost use Rattle.content_models.specs.Postfix.{code_on};
ghost use Rattle.content_models.specs.Seen.{token_of};
ghost use Rattle.content_models.specs.Spelled.{Open};
ghost use Rattle.content_models.specs.Tokens.{token_at};

use crate::error::ReadError;
use crate::machine::Machine;
use crate::postfix::Op;
use crate::token::Token;
use crate::tokens::{next_token, skip_blanks};
use std::alloc::Global;

/// The code of a model, and how deep its parentheses are nested.
#[derive(Drop)]
pub(crate) struct ModelCode {
    pub code: Vec<Op>,
    pub depth: usize,
}

/// How many parentheses are open, and how many at most were so.
#[derive(Clone, Copy)]
pub(crate) struct Nesting {
    pub current: usize,
    pub most: usize,
}

impl Nesting {
    fn with(self, total: usize, token: Token<'_>) -> Nesting
        requires { self.current < total }
        ensures nested { result ≡ nested (token_of token.entry) self }
        ensures room { result.current ≤ self.current + 1 }
    {
        match token {
            Token::Open => self.with_open(total),
            Token::Close => Nesting {
                current: self.current.saturating_sub(1),
                most: self.most,
            },
            _ => self,
        }
    }

    fn with_open(self, total: usize) -> Nesting
        requires { self.current < total }
        ensures { result ≡ nested Open self }
    {
        let current = self.current + 1;
        Nesting {
            current,
            most: self.most.max(current),
        }
    }
}

/// Gives the machine the token at the front of the bytes, and answers what follows it and its blanks.
fn feed<'a>(
    alloc: Global,
    total: usize,
    machine: &mut Machine,
    nesting: &mut Nesting,
    bytes: &'a [u8],
) -> Result<&'a [u8], ReadError>
    requires { nesting.old.current + length bytes.now ≤ total }
    ensures taken { IfOk result (λ rest. Takes (at_of machine.old) (at_of machine.new) nesting.old nesting.new (token_at bytes.now) rest.now) }
    ensures shorter { IfOk result (λ rest. length rest.now < length bytes.now) }
    ensures room { IfOk result (λ rest. nesting.new.current + length rest.now ≤ total) }
    ensures bad { result ≡ Err ReadError.Bad → Refuses (at_of machine.old) (token_at bytes.now) }
{
    match next_token(bytes) {
        Some((token, after)) => {
            *nesting = nesting.with(total, token);
            match machine.step(alloc, token) {
                Ok(()) => Ok(skip_blanks(after)),
                Err(error) => Err(error),
            }
        }
        None => Err(ReadError::Bad),
    }
}

/// The code of the model that the bytes spell.
pub(crate) fn read_model(alloc: Global, bytes: &[u8]) -> Result<ModelCode, ReadError>
    ensures spelled { IfOk result (λ read. (model : Model) × SpellsModel bytes.now model read.depth × (reverse read.code.items ≡ code_on model [])) }
    ensures bad { result ≡ Err ReadError.Bad → (model : Model) (depth : ℕ) → SpellsModel bytes.now model depth → ⊥ }
{
    let total = bytes.len();
    let mut machine = Machine::new(alloc);
    let mut nesting = Nesting {
        current: 0,
        most: 0,
    };
    let mut rest = skip_blanks(bytes);
    while !rest.is_empty() {
        match feed(alloc, total, &mut machine, &mut nesting, rest) {
            Ok(left) => rest = left,
            Err(error) => return Err(error),
        }
    }
    match machine.finish() {
        Ok(code) => Ok(ModelCode {
            code,
            depth: nesting.most,
        }),
        Err(error) => Err(error),
    }
}
