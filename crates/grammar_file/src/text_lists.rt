// The nodes with a text, and where others stand between them, listed rule by rule: a list for each segment of a rule, made of marks
// and of earlier rules' lists.
ghost use Rattle.std.specs.Prelude.{◌≡◌, ◌<◌, ℕ, List, [], ◌∷◌, ◌++◌, length, slice_get, option_to_list, IfOk, OnOk, true};
ghost use Rattle.slt_grammar.specs.Bodies.{CallsBelow};
ghost use Rattle.slt_grammar.specs.Keyed.{IsKeyed, rules_of};
ghost use Rattle.slt_grammar.specs.Segments.{part_of};
ghost use Rattle.slt_grammar.specs.declared.rules.Rule.{Rule};
ghost use Rattle.grammar_file.specs.Listings.{Adds, EndsBare};
ghost use Rattle.grammar_file.specs.Marks.{mark_at};
ghost use Rattle.grammar_file.specs.TextLists.{AreSegments, AreTextLists, IsPartOf, parts_at};

use plain_tree::Names;
use read_steps::Steps;
use slt_grammar::{Grammar, Label, TourWalk};
use std::alloc::{AllocError, Global};
use std::mem;
use std::sync::ledger::Ledger;

/// What is listed of nodes.
#[derive(Clone, Copy, Drop)]
pub(crate) enum Mark {
    /// A node with a text, by its symbol.
    Valued(usize),
    /// Nodes without a text, one behind another.
    Bare,
}

/// A part of a list: a mark, or the list of an earlier rule's segment, which has a node with a text.
#[derive(Clone, Copy, Drop)]
pub(crate) enum Part {
    Node(Mark),
    Segment(usize, usize),
}

/// The parts of a rule's segments.
pub(crate) type Segments = Vec<Vec<Part>>;

/// The lists of all rules. Each is made of what its rule's body has: none is written out.
pub(crate) fn list_texts<L: Ledger>(
    alloc: Global,
    grammar: &Grammar,
    names: &Names,
    steps: &mut Steps<L>,
) -> Result<Vec<Segments>, AllocError>
    ensures { IfOk result (λ lists. AreTextLists names.now (rules_of grammar.now.rules) (length grammar.now.rules) lists.items) }
{
    // The call tells what is true of every grammar.
    let _limit = grammar.limit();
    let mut lists = Vec::new(alloc);
    'rules: for rule in 0..grammar.rules() {
        let segments = list_rule(alloc, grammar, names, lists.as_slice(), rule, steps)?;
        lists.push(segments)?;
    }
    Ok(lists)
}

// The parts of one rule's segments, along the tour of its body.
fn list_rule<L: Ledger>(
    alloc: Global,
    grammar: &Grammar,
    names: &Names,
    lists: &[Segments],
    rule: usize,
    steps: &mut Steps<L>,
) -> Result<Segments, AllocError>
    requires keyed { IsKeyed grammar.now }
    requires lists { AreTextLists names.now (rules_of grammar.now.rules) rule lists.now }
    requires rule { rule < length grammar.now.rules }
    ensures { IfOk result (λ segments. AreSegments names.now (rules_of grammar.now.rules) rule segments.items) }
{
    let mut walk = TourWalk::new(grammar, rule);
    let mut listing = Listing::new(alloc);
    'stops: loop {
        let site = grammar.site(walk.key, steps);
        let part = part_at(names, lists, site.label, walk.part);
        listing.add(alloc, site.label, part)?;
        if !walk.advance(grammar, &site, steps) {
            return listing.finish();
        }
    }
}

// The parts of the segments that are done, and those of the open one.
#[derive(Drop)]
struct Listing {
    done: Segments,
    begun: Vec<Part>,
}

impl Listing {
    fn new(alloc: Global) -> Listing
        ensures done { result.done.items ≡ [] }
        ensures begun { result.begun.items ≡ [] }
    {
        Listing {
            done: Vec::new(alloc),
            begun: Vec::new(alloc),
        }
    }

    // Takes in a label with its part: a parameter ends the segment.
    fn add(&mut self, alloc: Global, label: Label, part: Option<Part>) -> Result<(), AllocError>
        ensures { OnOk result (Adds label part self.old self.new) }
    {
        if let Label::Param = label {
            let parts = mem::replace(&mut self.begun, Vec::new(alloc));
            self.done.push(parts)?;
        } else if let Some(part) = part {
            if !is_bare(part) || !ends_bare(self.begun.as_slice()) {
                self.begun.push(part)?;
            }
        }
        Ok(())
    }

    fn finish(self) -> Result<Segments, AllocError>
        ensures { IfOk result (λ segments. segments.items ≡ self.done.items ++ self.begun ∷ []) }
    {
        let Listing { mut done, begun } = self;
        done.push(begun)?;
        Ok(done)
    }
}

fn is_bare(part: Part) -> bool
    ensures { result ≡ true → part ≡ Part.Node Mark.Bare }
{
    matches!(part, Part::Node(Mark::Bare))
}

// Whether the last part is of nodes without a text.
fn ends_bare(parts: &[Part]) -> bool
    ensures { result ≡ true → EndsBare parts.now }
{
    match parts.last() {
        Some(part) => is_bare(*part),
        None => false,
    }
}

// Whether the list is of nodes without a text alone.
fn are_bare(parts: &[Part]) -> bool
    ensures { result ≡ true → parts.now ≡ Part.Node Mark.Bare ∷ [] }
{
    parts.len() == 1 && is_bare(parts[0])
}

// What a stop of a tour adds to its list. A segment without a text is no list to be entered, but one mark.
fn part_at(names: &Names, lists: &[Segments], label: Label, part: usize) -> Option<Part>
    ensures { (G : List Rule) (rule : ℕ) → AreTextLists names.now G rule lists.now → CallsBelow rule (label ∷ []) → IsPartOf names.now G rule (part_of G label part) result }
{
    match (label, part) {
        (Label::Symbol(symbol), 0) => Some(Part::Node(mark_of(names, symbol)?)),
        (Label::Call(rule), _) => {
            let parts = parts_of(lists, rule, part);
            if parts.is_empty() {
                None
            } else if are_bare(parts) {
                Some(Part::Node(Mark::Bare))
            } else {
                Some(Part::Segment(rule, part))
            }
        }
        _ => None,
    }
}

// The mark of a symbol's nodes.
fn mark_of(names: &Names, symbol: usize) -> Option<Mark>
    ensures { option_to_list result ≡ mark_at (slice_get names.now symbol) symbol }
{
    let (kind, _name) = names.at(symbol)?;
    Some(if kind.has_value() {
        Mark::Valued(symbol)
    } else {
        Mark::Bare
    })
}

/// The parts of a rule's segment, and none where there is no such segment.
pub(crate) fn parts_of<'a>(lists: &'a [Segments], rule: usize, segment: usize) -> &'a [Part]
    ensures { result.now ≡ parts_at lists.now rule segment }
{
    match lists.get(rule) {
        Some(segments) => match segments.as_slice().get(segment) {
            Some(parts) => parts.as_slice(),
            None => &[],
        },
        None => &[],
    }
}
