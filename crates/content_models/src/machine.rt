// The machine that reads a model's tokens. It keeps a stack of its own, and holds no tree.
ghost use Rattle.std.specs.Prelude.{◌≡◌, ◌∷◌, IfOk, OnOk, Some, None, reverse, true, if◌then◌else◌};
ghost use Rattle.content_models.specs.Machine.{after_atom, after_item, at_of, closed, code_in, commas_on, ended, frames_of, level_on, start, step, wanted};
ghost use Rattle.content_models.specs.Seen.{token_of};

use crate::error::ReadError;
use crate::postfix::Op;
use crate::token::Token;
use plain_tree::Bytes;
use std::alloc::{AllocError, Global};

/// Whether operands of `|` and of `,` stand before.
#[derive(Clone, Copy, Debug, PartialEq, Eq)]
pub(crate) struct Level {
    pub bars: bool,
    pub commas: bool,
}

/// What is to come, or has just ended. An atom that is wanted behind an opened parenthesis may be missing.
#[derive(Clone, Copy, Debug, PartialEq, Eq)]
pub(crate) enum Mode {
    Wanted(bool),
    AtomDone,
    ItemDone,
}

/// The machine, with the levels of the parentheses that are open.
#[derive(Drop)]
pub(crate) struct Machine {
    pub mode: Mode,
    pub level: Level,
    pub frames: Vec<Level>,
    pub code: Vec<Op>,
}

/// The level at the front of a model.
const FIRST: Level = Level {
    bars: false,
    commas: false,
};

impl Machine {
    /// Before the first token.
    pub(crate) fn new(alloc: Global) -> Machine
        ensures { Some (at_of result) ≡ start }
    {
        Machine {
            mode: Mode::Wanted(false),
            level: FIRST,
            frames: Vec::new(alloc),
            code: Vec::new(alloc),
        }
    }

    fn write(&mut self, op: Op) -> Result<(), AllocError>
        ensures code { OnOk result (code_in self.new ≡ op ∷ code_in self.old) }
        ensures frames { OnOk result (self.new.frames ≡ self.old.frames) }
        ensures level { OnOk result (self.new.level ≡ self.old.level) }
    {
        self.code.push(op)?;
        Ok(())
    }

    fn write_commas(&mut self) -> Result<(), AllocError>
        ensures code { OnOk result (code_in self.new ≡ commas_on self.old.level.commas (code_in self.old)) }
        ensures frames { OnOk result (self.new.frames ≡ self.old.frames) }
        ensures level { OnOk result (self.new.level ≡ self.old.level) }
    {
        if self.level.commas {
            self.write(Op::Join)?;
        }
        Ok(())
    }

    /// Writes the operations of the operands that wait.
    fn write_level(&mut self) -> Result<(), AllocError>
        ensures code { OnOk result (code_in self.new ≡ level_on self.old.level (code_in self.old)) }
        ensures frames { OnOk result (self.new.frames ≡ self.old.frames) }
    {
        self.write_commas()?;
        if self.level.bars {
            self.write(Op::Choose)?;
        }
        Ok(())
    }

    fn open(&mut self) -> Result<(), AllocError>
        ensures moved { OnOk result (at_of self.new ≡ record { mode = Mode.Wanted true; level = FIRST; frames = self.old.level ∷ frames_of self.old; code = code_in self.old }) }
    {
        self.frames.push(self.level)?;
        self.level = FIRST;
        self.mode = Mode::Wanted(true);
        Ok(())
    }

    fn close(&mut self) -> Result<(), ReadError>
        ensures read { OnOk result (closed (frames_of self.old) (code_in self.old) ≡ Some (at_of self.new)) }
        ensures bad { result ≡ Err ReadError.Bad → closed (frames_of self.old) (code_in self.old) ≡ None }
    {
        match self.frames.pop() {
            Some(level) => {
                self.level = level;
                self.mode = Mode::AtomDone;
                Ok(())
            }
            None => Err(ReadError::Bad),
        }
    }

    fn take_atom(&mut self, op: Op) -> Result<(), AllocError>
        ensures moved { OnOk result (at_of self.new ≡ record { mode = Mode.AtomDone; level = self.old.level; frames = frames_of self.old; code = op ∷ code_in self.old }) }
    {
        self.write(op)?;
        self.mode = Mode::AtomDone;
        Ok(())
    }

    fn take_sign(&mut self, op: Op) -> Result<(), AllocError>
        ensures moved { OnOk result (at_of self.new ≡ record { mode = Mode.ItemDone; level = self.old.level; frames = frames_of self.old; code = op ∷ code_in self.old }) }
    {
        self.write(op)?;
        self.mode = Mode::ItemDone;
        Ok(())
    }

    /// An atom is to come.
    fn wanted(&mut self, alloc: Global, opened: bool, token: Token<'_>) -> Result<(), ReadError>
        ensures read { OnOk result (wanted opened self.old.level (frames_of self.old) (code_in self.old) (token_of token.entry) ≡ Some (at_of self.new)) }
        ensures bad { result ≡ Err ReadError.Bad → wanted opened self.old.level (frames_of self.old) (code_in self.old) (token_of token.entry) ≡ None }
    {
        match token {
            Token::Word(name) => {
                let name = Bytes::from_slice(alloc, name)?;
                Ok(self.take_atom(Op::Push(name))?)
            }
            Token::Open => Ok(self.open()?),
            Token::Close => {
                if opened {
                    self.write(Op::PushNothing)?;
                    self.close()
                } else {
                    Err(ReadError::Bad)
                }
            }
            _ => Err(ReadError::Bad),
        }
    }

    /// An item has ended.
    fn after_item(&mut self, token: Token<'_>) -> Result<(), ReadError>
        ensures read { OnOk result (after_item self.old.level (frames_of self.old) (code_in self.old) (token_of token.entry) ≡ Some (at_of self.new)) }
        ensures bad { result ≡ Err ReadError.Bad → after_item self.old.level (frames_of self.old) (code_in self.old) (token_of token.entry) ≡ None }
    {
        match token {
            Token::Comma => {
                self.write_commas()?;
                self.level = Level {
                    bars: self.level.bars,
                    commas: true,
                };
                self.mode = Mode::Wanted(false);
                Ok(())
            }
            Token::Bar => {
                self.write_level()?;
                self.level = Level {
                    bars: true,
                    commas: false,
                };
                self.mode = Mode::Wanted(false);
                Ok(())
            }
            Token::Close => {
                self.write_level()?;
                self.close()
            }
            _ => Err(ReadError::Bad),
        }
    }

    /// An atom has ended.
    fn after_atom(&mut self, token: Token<'_>) -> Result<(), ReadError>
        ensures read { OnOk result (after_atom self.old.level (frames_of self.old) (code_in self.old) (token_of token.entry) ≡ Some (at_of self.new)) }
        ensures bad { result ≡ Err ReadError.Bad → after_atom self.old.level (frames_of self.old) (code_in self.old) (token_of token.entry) ≡ None }
    {
        match token {
            Token::Question => Ok(self.take_sign(Op::MakeOptional)?),
            Token::Star => Ok(self.take_sign(Op::MakeAny)?),
            Token::Plus => Ok(self.take_sign(Op::MakeSome)?),
            _ => self.after_item(token),
        }
    }

    /// Reads one token.
    pub(crate) fn step(&mut self, alloc: Global, token: Token<'_>) -> Result<(), ReadError>
        ensures read { OnOk result (step (at_of self.old) (token_of token.entry) ≡ Some (at_of self.new)) }
        ensures bad { result ≡ Err ReadError.Bad → step (at_of self.old) (token_of token.entry) ≡ None }
    {
        match self.mode {
            Mode::Wanted(opened) => self.wanted(alloc, opened, token),
            Mode::AtomDone => self.after_atom(token),
            Mode::ItemDone => self.after_item(token),
        }
    }

    fn is_whole(&self) -> bool
        ensures { ended (at_of self.now) ≡ (if result then Some (level_on self.now.level (code_in self.now)) else None) }
    {
        self.frames.is_empty() && !matches!(self.mode, Mode::Wanted(_))
    }

    /// The code, where a model has ended.
    pub(crate) fn finish(mut self) -> Result<Vec<Op>, ReadError>
        ensures read { IfOk result (λ code. ended (at_of self) ≡ Some (reverse code.items)) }
        ensures bad { result ≡ Err ReadError.Bad → ended (at_of self) ≡ None }
    {
        if !self.is_whole() {
            return Err(ReadError::Bad);
        }
        self.write_level()?;
        Ok(self.code)
    }
}
