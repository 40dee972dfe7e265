// The turns of a selector.
use plain_tree::Kind;
use xpath_parser::Axis;

/// Which symbols a step takes. Symbol f of N names, at a node whose text has mark m, is f + N*m; all but the last two leave marks aside.
#[derive(Clone, Copy, Debug, PartialEq, Eq)]
pub enum Wanted {
    Nothing,
    Anything,
    OfKind(Kind),
    Named(usize),
    /// Those of texts with this mark.
    TextWith(usize),
    /// This one alone, with its mark.
    Exactly(usize),
}

/// One turn of the selector at a node.
#[derive(Clone, Copy, Debug, PartialEq, Eq)]
pub enum Turn {
    /// A truth on the stack.
    Truth(bool),
    /// The topmost truth turned.
    Not,
    /// One truth for the two topmost.
    Or,
    And,
    /// A step of a path in a filter; on the stack are what the rest of the path says, and the step's own filters.
    Seek(Axis, Wanted),
    /// A path of the query begins.
    Begin,
    /// A step of it; on the stack is what the step's filters say.
    Walk(Axis, Wanted),
    /// It ends.
    End,
}
