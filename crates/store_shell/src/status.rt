// How a script ends.
use std::fmt::{self, Display, Formatter};

/// How a script ended.
#[derive(Clone, Copy, Debug, PartialEq, Eq)]
pub enum Status {
    /// It was read to its end or to a `quit`, and each line before was done.
    Done,
    /// There was no memory to begin with, and nothing was read.
    Memory,
    /// The words were refused, and nothing was read.
    Words,
    /// The source failed. The lines that had ended were done.
    ReadFault,
    /// The sink failed, and got a front of the text of the lines so far.
    WriteFault,
    /// The script has 2^30 bytes or more. The lines that had ended were done.
    LongScript,
}

impl Status {
    ghost use Rattle.std.specs.Prelude.{◌≡◌};
    ghost use Rattle.store_shell.specs.Serving.{exit_status};

    /// The exit status with which a program says so: from 0, where all was done, to 5.
    pub fn exit_status(self) -> u8
        ensures { result ≡ exit_status self }
    {
        match self {
            Status::Done => 0,
            Status::Memory => 1,
            Status::Words => 2,
            Status::ReadFault => 3,
            Status::WriteFault => 4,
            Status::LongScript => 5,
        }
    }
}

impl Display for Status {
    fn fmt<W: fmt::Write>(&self, f: &mut Formatter<W>) -> fmt::Result {
        f.write_str(match self {
            Status::Done => "done",
            Status::Memory => "memory",
            Status::Words => "bad words",
            Status::ReadFault => "read fault",
            Status::WriteFault => "write fault",
            Status::LongScript => "long script",
        })
    }
}
