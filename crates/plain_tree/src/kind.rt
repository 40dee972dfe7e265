// The kinds of nodes.

/// What a node is (XPath 1.0, section 5, without namespace nodes). Elements, attributes and instructions have a name;
/// attributes, texts, comments and instructions have a value.
#[derive(Clone, Copy, Debug, PartialEq, Eq)]
pub enum Kind {
    Document,
    Element,
    Attribute,
    Text,
    Comment,
    Instruction,
}

impl Kind {
    ghost use Rattle.std.specs.Prelude.{◌≡◌, ◌<◌};
    ghost use Rattle.plain_tree.specs.Numbers.{has_value};
    ghost use Rattle.plain_tree.specs.Tree.{kind_code};

    /// The number of the kind, from 0 on in the order above.
    pub fn number(self) -> u8
        ensures value { result ≡ kind_code self }
        ensures small { result < 6 }
    {
        match self {
            Kind::Document => 0,
            Kind::Element => 1,
            Kind::Attribute => 2,
            Kind::Text => 3,
            Kind::Comment => 4,
            Kind::Instruction => 5,
        }
    }

    /// Whether nodes of this kind have a value.
    pub fn has_value(self) -> bool
        ensures { result ≡ has_value self }
    {
        match self {
            Kind::Document | Kind::Element => false,
            Kind::Attribute | Kind::Text | Kind::Comment | Kind::Instruction => true,
        }
    }
}
