// Which chains of siblings are kids of a lawful node, by the kinds of their nodes: an automaton that runs upward.
ghost use Rattle.std.specs.Prelude.{◌≡◌, IfOk};
ghost use Rattle.grammar_file.specs.Chains.{behind_aside, behind_attribute, behind_element, behind_text, chain_algebra, document, is_empty, is_of_element, kinds_of};

use plain_tree::{Kind, Names};
use slt_grammar::{Rising, RunState};
use std::alloc::{AllocError, Global};

/// What a coded chain of siblings is, where each node below it has the kids that a lawful node has, but for attributes of equal
/// names.
#[derive(Clone, Copy, PartialEq, Eq, Hash, Drop)]
pub(crate) enum Chain {
    /// Neither kids of a lawful node nor one document.
    Broken,
    Empty,
    /// One document.
    Whole,
    /// Comments and instructions.
    Aside,
    /// One element, and comments and instructions.
    Rooted,
    /// Other kids of an element, none of them an attribute.
    Content,
    /// Kids of an element, with attributes at the front.
    Tagged,
}

impl RunState for Chain {
    fn copy(&self) -> Result<Chain, AllocError> {
        Ok(*self)
    }

    ghost use Rattle.grammar_file.specs.SameChains.{same_chain};

    ghost identical = { same_chain };
}

impl Chain {
    fn is_empty(&self) -> bool
        ensures { result ≡ is_empty self.now }
    {
        matches!(self, Chain::Empty)
    }

    // Whether these may be the kids of an element.
    fn is_of_element(&self) -> bool
        ensures { result ≡ is_of_element self.now }
    {
        !matches!(self, Chain::Broken | Chain::Whole)
    }

    // The chain with an element before it.
    fn behind_element(&self) -> Chain
        ensures { result ≡ behind_element self.now }
    {
        match self {
            Chain::Empty | Chain::Aside => Chain::Rooted,
            Chain::Rooted | Chain::Content => Chain::Content,
            Chain::Broken | Chain::Whole | Chain::Tagged => Chain::Broken,
        }
    }

    // The chain with a text before it.
    fn behind_text(&self) -> Chain
        ensures { result ≡ behind_text self.now }
    {
        match self {
            Chain::Empty | Chain::Aside | Chain::Rooted | Chain::Content => Chain::Content,
            Chain::Broken | Chain::Whole | Chain::Tagged => Chain::Broken,
        }
    }

    // The chain with a comment or an instruction before it.
    fn behind_aside(&self) -> Chain
        ensures { result ≡ behind_aside self.now }
    {
        match self {
            Chain::Empty | Chain::Aside => Chain::Aside,
            Chain::Rooted => Chain::Rooted,
            Chain::Content => Chain::Content,
            Chain::Broken | Chain::Whole | Chain::Tagged => Chain::Broken,
        }
    }

    // The chain with an attribute before it.
    fn behind_attribute(&self) -> Chain
        ensures { result ≡ behind_attribute self.now }
    {
        match self {
            Chain::Broken | Chain::Whole => Chain::Broken,
            _ => Chain::Tagged,
        }
    }
}

/// Tells which chain coded siblings are, by the kinds of their symbols.
#[derive(Drop)]
pub(crate) struct Chains {
    kinds: Vec<Kind>,
}

impl Chains {
    pub(crate) fn new(alloc: Global, names: &Names) -> Result<Chains, AllocError>
        ensures { IfOk result (λ chains. chains.kinds.items ≡ kinds_of names.now) }
    {
        let mut kinds = Vec::with_capacity(alloc, names.len())?;
        let mut place = 0;
        'names: while let Some((kind, _name)) = names.at(place) {
            kinds.push(kind)?;
            place += 1;
        }
        Ok(Chains { kinds })
    }
}

impl Rising for Chains {
    type State = Chain;

    ghost algebra = { λ c. chain_algebra c.kinds.items };

    fn bottom(&self) -> Result<Chain, AllocError> {
        Ok(Chain::Empty)
    }

    fn node(&self, symbol: usize, kids: &Chain, rest: &Chain) -> Result<Chain, AllocError> {
        let Some(kind) = self.kinds.get(symbol) else {
            return Ok(Chain::Broken);
        };
        match *kind {
            Kind::Document => Ok(document(kids, rest)),
            Kind::Element if kids.is_of_element() => Ok(rest.behind_element()),
            Kind::Attribute if kids.is_empty() => Ok(rest.behind_attribute()),
            Kind::Text if kids.is_empty() => Ok(rest.behind_text()),
            Kind::Comment | Kind::Instruction if kids.is_empty() => Ok(rest.behind_aside()),
            _ => Ok(Chain::Broken),
        }
    }
}

// A document with these kids, and this chain behind it.
fn document(kids: &Chain, rest: &Chain) -> Chain
    ensures { result ≡ document kids.now rest.now }
{
    match (kids, rest) {
        (Chain::Rooted, Chain::Empty) => Chain::Whole,
        _ => Chain::Broken,
    }
}
