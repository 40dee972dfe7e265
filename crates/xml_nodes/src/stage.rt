// Where in a document a reader stands.

/// Where in a document a reader stands.
#[derive(Clone, Copy, Debug, PartialEq, Eq)]
pub enum Stage {
    /// Before everything.
    Front,
    /// Behind the mark of the order of bytes.
    Marked,
    /// No declaration may come any more.
    Prolog,
    /// Nor a DOCTYPE.
    Typed,
    /// In the root element.
    Inside,
    /// Behind it.
    Epilog,
}

impl Stage {
    ghost use Rattle.std.specs.Prelude.{◌≡◌};
    ghost use Rattle.xml_nodes.specs.Machine.{passed, may_declare, may_type, may_root};

    /// Behind white space, a comment or an instruction that stands outside the root.
    pub fn passed(self) -> Stage
        ensures { result ≡ passed self }
    {
        match self {
            Stage::Front | Stage::Marked => Stage::Prolog,
            stage => stage,
        }
    }

    /// Whether a declaration may come.
    pub fn may_declare(self) -> bool
        ensures { result ≡ may_declare self }
    {
        matches!(self, Stage::Front | Stage::Marked)
    }

    /// Whether a DOCTYPE may come.
    pub fn may_type(self) -> bool
        ensures { result ≡ may_type self }
    {
        matches!(self, Stage::Front | Stage::Marked | Stage::Prolog)
    }

    /// Whether the root may come.
    pub fn may_root(self) -> bool
        ensures { result ≡ may_root self }
    {
        matches!(
            self,
            Stage::Front | Stage::Marked | Stage::Prolog | Stage::Typed
        )
    }
}
