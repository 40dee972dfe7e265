// The machine that reads a query's tokens. It keeps a stack of its own, and holds no tree.
ghost use Rattle.std.specs.Prelude.{◌≡◌, ◌∷◌, OnOk, Some, None, if◌then◌else◌};
ghost use Rattle.xpath_parser.specs.Noting.{noted, none_noted};
ghost use Rattle.xpath_parser.specs.Run.{step, at_of, frames_of, code_in, start, ended, side_of, path_wanted, level_on, closed_parens, closed_filter, after_unit, after_paths, after_step, after_test, test_wanted, step_wanted, unit_wanted, first_wanted, after_root};

use crate::error::ReadError;
use crate::postfix::{Op, Postfix, Side};
use crate::query::Axis;
use crate::token::{Asked, Token};
use std::alloc::{AllocError, Global};

/// Whether operands of `or` and of `and` stand before.
#[derive(Clone, Copy, Debug, PartialEq, Eq)]
pub(crate) struct Level {
    pub ors: bool,
    pub ands: bool,
}

/// Where a path stands.
#[derive(Clone, Copy, Debug, PartialEq, Eq)]
pub(crate) enum Place {
    Top,
    Inside(Level),
}

impl Place {
    fn side(self) -> Side
        ensures { result ≡ side_of self }
    {
        match self {
            Place::Top => Side::Outer,
            Place::Inside(_) => Side::Inner,
        }
    }

    /// What is to come behind `|`.
    fn path_wanted(self) -> Mode
        ensures { result ≡ path_wanted self }
    {
        match self {
            Place::Top => Mode::PathWanted,
            Place::Inside(level) => Mode::StepWanted(Place::Inside(level)),
        }
    }
}

/// What is open.
#[derive(Clone, Copy, Debug, PartialEq, Eq)]
pub(crate) enum Frame {
    Bracket(Place),
    Parens(Level),
    NotParens(Level),
}

/// What is to come, or has just ended.
#[derive(Clone, Copy, Debug, PartialEq, Eq)]
pub(crate) enum Mode {
    PathWanted,
    Rooted,
    StepWanted(Place),
    TestWanted(Place, Axis),
    Tested(Place),
    Dotted(Place),
    UnitWanted(Level),
    UnitDone(Level),
}

/// The machine that reads tokens.
#[derive(Drop)]
pub(crate) struct Machine {
    pub mode: Mode,
    pub frames: Vec<Frame>,
    pub postfix: Postfix,
}

/// The level inside a bracket or a parenthesis.
const FIRST: Level = Level {
    ors: false,
    ands: false,
};

impl Machine {
    /// Before the first token.
    pub(crate) fn new(alloc: Global) -> Machine
        ensures { Some (at_of result) ≡ start none_noted }
    {
        Machine {
            mode: Mode::PathWanted,
            frames: Vec::new(alloc),
            postfix: Postfix::new(alloc),
        }
    }

    fn write(&mut self, op: Op) -> Result<(), AllocError>
        ensures code { OnOk result (code_in self.new ≡ noted op (code_in self.old)) }
        ensures frames { OnOk result (self.new.frames ≡ self.old.frames) }
    {
        self.postfix.write(op)
    }

    /// Writes the step for which `//` stands.
    fn write_below(&mut self, side: Side) -> Result<(), AllocError>
        ensures code { OnOk result (code_in self.new ≡ noted (Op.Step side Axis.DescendantOrSelf Asked.AnyNode) (code_in self.old)) }
        ensures frames { OnOk result (self.new.frames ≡ self.old.frames) }
    {
        self.write(Op::Step(side, Axis::DescendantOrSelf, Asked::AnyNode))
    }

    /// Writes the operations of the operands that wait.
    fn write_level(&mut self, level: Level) -> Result<(), AllocError>
        ensures code { OnOk result (code_in self.new ≡ level_on noted level (code_in self.old)) }
        ensures frames { OnOk result (self.new.frames ≡ self.old.frames) }
    {
        if level.ands {
            self.write(Op::And)?;
        }
        if level.ors {
            self.write(Op::Or)?;
        }
        Ok(())
    }

    fn open(&mut self, frame: Frame) -> Result<(), AllocError>
        ensures moved { OnOk result (at_of self.new ≡ record { mode = Mode.UnitWanted FIRST; frames = frame ∷ frames_of self.old; code = code_in self.old }) }
    {
        self.frames.push(frame)?;
        self.mode = Mode::UnitWanted(FIRST);
        Ok(())
    }

    fn close_parens(&mut self) -> Result<(), ReadError>
        ensures read { OnOk result (closed_parens noted (frames_of self.old) (code_in self.old) ≡ Some (at_of self.new)) }
        ensures bad { result ≡ Err ReadError.Bad → closed_parens noted (frames_of self.old) (code_in self.old) ≡ None }
    {
        match self.frames.pop() {
            Some(Frame::Parens(level)) => {
                self.mode = Mode::UnitDone(level);
                Ok(())
            }
            Some(Frame::NotParens(level)) => {
                self.write(Op::Not)?;
                self.mode = Mode::UnitDone(level);
                Ok(())
            }
            Some(Frame::Bracket(_)) => Err(ReadError::Bad),
            None => Err(ReadError::Bad),
        }
    }

    fn close_filter(&mut self) -> Result<(), ReadError>
        ensures read { OnOk result (closed_filter noted (frames_of self.old) (code_in self.old) ≡ Some (at_of self.new)) }
        ensures bad { result ≡ Err ReadError.Bad → closed_filter noted (frames_of self.old) (code_in self.old) ≡ None }
    {
        match self.frames.pop() {
            Some(Frame::Bracket(place)) => {
                self.write(Op::Filter)?;
                self.mode = Mode::Tested(place);
                Ok(())
            }
            Some(Frame::Parens(_)) => Err(ReadError::Bad),
            Some(Frame::NotParens(_)) => Err(ReadError::Bad),
            None => Err(ReadError::Bad),
        }
    }

    /// A unit has ended.
    fn after_unit(&mut self, level: Level, token: Token) -> Result<(), ReadError>
        ensures read { OnOk result (after_unit noted level (frames_of self.old) (code_in self.old) token ≡ Some (at_of self.new)) }
        ensures bad { result ≡ Err ReadError.Bad → after_unit noted level (frames_of self.old) (code_in self.old) token ≡ None }
    {
        match token {
            Token::AndWord(_) => {
                if level.ands {
                    self.write(Op::And)?;
                }
                self.mode = Mode::UnitWanted(Level {
                    ors: level.ors,
                    ands: true,
                });
                Ok(())
            }
            Token::OrWord(_) => {
                self.write_level(level)?;
                self.mode = Mode::UnitWanted(Level {
                    ors: true,
                    ands: false,
                });
                Ok(())
            }
            Token::Close => {
                self.write_level(level)?;
                self.close_parens()
            }
            Token::CloseFilter => {
                self.write_level(level)?;
                self.close_filter()
            }
            _ => Err(ReadError::Bad),
        }
    }

    /// The paths of a filter have ended, or the token doesn't belong there.
    fn after_paths(&mut self, place: Place, token: Token) -> Result<(), ReadError>
        ensures read { OnOk result (after_paths noted place (frames_of self.old) (code_in self.old) token ≡ Some (at_of self.new)) }
        ensures bad { result ≡ Err ReadError.Bad → after_paths noted place (frames_of self.old) (code_in self.old) token ≡ None }
    {
        match place {
            Place::Top => Err(ReadError::Bad),
            Place::Inside(level) => {
                self.write(Op::Exists)?;
                self.after_unit(level, token)
            }
        }
    }

    /// A step has ended, and can take no filter.
    fn after_step(&mut self, place: Place, token: Token) -> Result<(), ReadError>
        ensures read { OnOk result (after_step noted place (frames_of self.old) (code_in self.old) token ≡ Some (at_of self.new)) }
        ensures bad { result ≡ Err ReadError.Bad → after_step noted place (frames_of self.old) (code_in self.old) token ≡ None }
    {
        match token {
            Token::Slash => {
                self.mode = Mode::StepWanted(place);
                Ok(())
            }
            Token::Slashes => {
                self.write_below(place.side())?;
                self.mode = Mode::StepWanted(place);
                Ok(())
            }
            Token::Bar => {
                self.write(Op::Bar(place.side()))?;
                self.mode = place.path_wanted();
                Ok(())
            }
            _ => self.after_paths(place, token),
        }
    }

    /// A test has ended, or a filter of its step.
    fn after_test(&mut self, place: Place, token: Token) -> Result<(), ReadError>
        ensures read { OnOk result (after_test noted place (frames_of self.old) (code_in self.old) token ≡ Some (at_of self.new)) }
        ensures bad { result ≡ Err ReadError.Bad → after_test noted place (frames_of self.old) (code_in self.old) token ≡ None }
    {
        match token {
            Token::OpenFilter => Ok(self.open(Frame::Bracket(place))?),
            _ => self.after_step(place, token),
        }
    }

    fn take_test(&mut self, place: Place, axis: Axis, asked: Asked) -> Result<(), AllocError>
        ensures moved { OnOk result (at_of self.new ≡ record { mode = Mode.Tested place; frames = frames_of self.old; code = noted (Op.Step (side_of place) axis asked) (code_in self.old) }) }
    {
        self.write(Op::Step(place.side(), axis, asked))?;
        self.mode = Mode::Tested(place);
        Ok(())
    }

    /// A test is to come.
    fn test_wanted(&mut self, place: Place, axis: Axis, token: Token) -> Result<(), ReadError>
        ensures read { OnOk result (test_wanted noted place axis (frames_of self.old) (code_in self.old) token ≡ Some (at_of self.new)) }
        ensures bad { result ≡ Err ReadError.Bad → test_wanted noted place axis (frames_of self.old) (code_in self.old) token ≡ None }
    {
        match token {
            Token::Asks(asked) => Ok(self.take_test(place, axis, asked)?),
            Token::Word(name) => Ok(self.take_test(place, axis, Asked::Name(name))?),
            Token::AndWord(name) => Ok(self.take_test(place, axis, Asked::Name(name))?),
            Token::OrWord(name) => Ok(self.take_test(place, axis, Asked::Name(name))?),
            _ => Err(ReadError::Bad),
        }
    }

    /// A step is to come.
    fn step_wanted(&mut self, place: Place, token: Token) -> Result<(), ReadError>
        ensures read { OnOk result (step_wanted noted place (frames_of self.old) (code_in self.old) token ≡ Some (at_of self.new)) }
        ensures bad { result ≡ Err ReadError.Bad → step_wanted noted place (frames_of self.old) (code_in self.old) token ≡ None }
    {
        match token {
            Token::Along(axis) => {
                self.mode = Mode::TestWanted(place, axis);
                Ok(())
            }
            Token::Dot => {
                self.write(Op::Step(place.side(), Axis::SelfNode, Asked::AnyNode))?;
                self.mode = Mode::Dotted(place);
                Ok(())
            }
            _ => self.test_wanted(place, Axis::Child, token),
        }
    }

    /// A unit is to come.
    fn unit_wanted(&mut self, level: Level, token: Token) -> Result<(), ReadError>
        ensures read { OnOk result (unit_wanted noted level (frames_of self.old) (code_in self.old) token ≡ Some (at_of self.new)) }
        ensures bad { result ≡ Err ReadError.Bad → unit_wanted noted level (frames_of self.old) (code_in self.old) token ≡ None }
    {
        match token {
            Token::Open => Ok(self.open(Frame::Parens(level))?),
            Token::NotOpen => Ok(self.open(Frame::NotParens(level))?),
            Token::Truth(truth) => {
                self.write(Op::Truth(truth))?;
                self.mode = Mode::UnitDone(level);
                Ok(())
            }
            Token::Compares(operand, value) => {
                self.write(Op::Compare(operand, value))?;
                self.mode = Mode::UnitDone(level);
                Ok(())
            }
            _ => {
                self.write(Op::Begin)?;
                self.step_wanted(Place::Inside(level), token)
            }
        }
    }

    /// A path at the top is to come.
    fn first_wanted(&mut self, token: Token) -> Result<(), ReadError>
        ensures read { OnOk result (first_wanted noted (frames_of self.old) (code_in self.old) token ≡ Some (at_of self.new)) }
        ensures bad { result ≡ Err ReadError.Bad → first_wanted noted (frames_of self.old) (code_in self.old) token ≡ None }
    {
        match token {
            Token::Slash => {
                self.mode = Mode::Rooted;
                Ok(())
            }
            Token::Slashes => {
                self.write_below(Side::Outer)?;
                self.mode = Mode::StepWanted(Place::Top);
                Ok(())
            }
            _ => self.step_wanted(Place::Top, token),
        }
    }

    /// A slash stands at the front of the path.
    fn after_root(&mut self, token: Token) -> Result<(), ReadError>
        ensures read { OnOk result (after_root noted (frames_of self.old) (code_in self.old) token ≡ Some (at_of self.new)) }
        ensures bad { result ≡ Err ReadError.Bad → after_root noted (frames_of self.old) (code_in self.old) token ≡ None }
    {
        match token {
            Token::Bar => {
                self.write(Op::Bar(Side::Outer))?;
                self.mode = Mode::PathWanted;
                Ok(())
            }
            _ => self.step_wanted(Place::Top, token),
        }
    }

    /// Reads one token.
    pub(crate) fn step(&mut self, token: Token) -> Result<(), ReadError>
        ensures read { OnOk result (step noted (at_of self.old) token ≡ Some (at_of self.new)) }
        ensures bad { result ≡ Err ReadError.Bad → step noted (at_of self.old) token ≡ None }
    {
        match self.mode {
            Mode::PathWanted => self.first_wanted(token),
            Mode::Rooted => self.after_root(token),
            Mode::StepWanted(place) => self.step_wanted(place, token),
            Mode::TestWanted(place, axis) => self.test_wanted(place, axis, token),
            Mode::Tested(place) => self.after_test(place, token),
            Mode::Dotted(place) => self.after_step(place, token),
            Mode::UnitWanted(level) => self.unit_wanted(level, token),
            Mode::UnitDone(level) => self.after_unit(level, token),
        }
    }

    /// Whether a query has ended.
    pub(crate) fn is_whole(&self) -> bool
        ensures { ended noted (at_of self.now) ≡ (if result then Some (code_in self.now) else None) }
    {
        matches!(
            self.mode,
            Mode::Rooted | Mode::Tested(Place::Top) | Mode::Dotted(Place::Top)
        )
    }
}
