// Bodies that are cut into parts, which become rules, and the nodes outside of them.
ghost use Rattle.std.specs.Prelude.{◌≡◌, ◌≢◌, ◌⊎◌, ◌+◌, ◌-◌, ◌<◌, ◌≤◌, ◌++◌, ◌∷◌, [], ℕ, List, length, max, suc, true, false, reverse, drop, slice_get, OnOk, IfOk, IsTrue, IsFalse};
ghost use Rattle.rule_arena.specs.Preorder.{AreTerms};
ghost use Rattle.rule_arena.specs.declared.label.Label.{Label};
ghost use Rattle.rule_arena.specs.declared.label.Label.TheVariants.{Param};
ghost use Rattle.slt_grammar.specs.Algebras.{ranks_of};
ghost use Rattle.slt_grammar.specs.Bodies.{arity, params, CallsBelow, IsTerm};
ghost use Rattle.slt_grammar.specs.Grammars.{body_at};
ghost use Rattle.slt_grammar.specs.Ranks.{greatest_rank};
ghost use Rattle.slt_grammar.specs.declared.rules.Rule.{Rule};
ghost use Rattle.border_repair.specs.Digrams.{IsEnd};
ghost use Rattle.border_repair.specs.declared.cutting.Mark.{Mark};
ghost use Rattle.border_repair.specs.Cutting.{AreClosed, CanClose, CanCloseKids, CanRead, HasParameterAt, Holds, HoldsKids, IsClosed, IsCutOff, IsRead, IsReadOn};
ghost use Rattle.border_repair.specs.PartRanks.{AreRanked, IsReadRanked};
ghost use Rattle.border_repair.specs.Sizes.{AreOff, IsCutSmall, IsReadSmall, free};
ghost use Rattle.border_repair.specs.Splitting.{grown};

use slt_grammar::{Body, Digram, Label, Rule, RuleList};
use std::alloc::{AllocError, Global};

// The mark of a piece of a body that is read from its end: a part, and terms in the places of the part's parameters.
#[derive(Clone, Copy, Drop)]
struct Mark {
    // Where its part begins, and where its arguments do.
    part: usize,
    args: usize,
    // The node at its front.
    top: Label,
    // Whether the part is a parameter alone, so that the piece is its one argument.
    bare: bool,
}

// The pieces of what was read, the last one's on top. The labels of their parts lie one piece's behind another's, each from its end,
// and so do those of their arguments.
#[derive(Drop)]
pub(crate) struct Cutter {
    marks: Vec<Mark>,
    parts: Vec<Label>,
    args: Vec<Label>,
}

impl Cutter {
    pub(crate) fn new(alloc: Global) -> Cutter {
        Cutter {
            marks: Vec::new(alloc),
            parts: Vec::new(alloc),
            args: Vec::new(alloc),
        }
    }

    // Cuts a body so that no part has the digram across its border, adds the parts as rules, and answers what is left: the nodes outside
    // of them over calls of these rules.
    pub(crate) fn cut(
        &mut self,
        alloc: Global,
        body: &[Label],
        digram: Digram,
        rules: &mut RuleList,
    ) -> Result<Body, AllocError>
        requires apart { digram.upper ≢ digram.lower }
        requires upper { IsEnd digram.upper }
        requires lower { IsEnd digram.lower }
        requires term { IsTerm (ranks_of rules.old) body.now }
        requires below { CallsBelow (length rules.old) body.now }
        requires place { digram.place ≤ arity [] digram.upper }
        ensures cut { IfOk result (IsCutOff digram rules.old rules.new body.now) }
        ensures small { IfOk result (IsCutSmall rules.old rules.new body.now) }
        ensures ranks { OnOk result (greatest_rank rules.new ≤ max (max 1 (params body.now)) (greatest_rank rules.old)) }
    {
        self.marks.clear();
        self.parts.clear();
        self.args.clear();
        let mut left = body.len();
        'labels: while left > 0 {
            left -= 1;
            read(alloc, self, body[left], left == 0, digram, rules)?;
        }
        let end = self.args.len();
        close(alloc, self, end, rules)?;
        let outside = from_its_end(alloc, self.args.as_slice())?;
        Ok(outside)
    }
}

// Reads the next label, where `root` says that it is the first one of the body.
fn read(
    alloc: Global,
    cutter: &mut Cutter,
    label: Label,
    root: bool,
    digram: Digram,
    rules: &mut RuleList,
) -> Result<(), AllocError>
    requires apart { digram.upper ≢ digram.lower }
    requires upper { IsEnd digram.upper }
    requires lower { IsEnd digram.lower }
    requires below { CallsBelow (length rules.old) (label ∷ []) }
    requires can { CanRead digram rules.old (reverse cutter.old.marks.items) (reverse cutter.old.parts.items) (reverse cutter.old.args.items) label }
    requires place { digram.place ≤ arity [] digram.upper }
    ensures read { OnOk result ((w : CanRead digram rules.old (reverse cutter.old.marks.items) (reverse cutter.old.parts.items) (reverse cutter.old.args.items) label)
        → IsReadOn digram root rules.old rules.new (reverse cutter.new.marks.items) (reverse cutter.new.parts.items) (reverse cutter.new.args.items) (label ∷ w.labels)) }
    ensures small { OnOk result (IsReadSmall root label rules.old rules.new cutter.old.marks.items cutter.new.marks.items cutter.old.parts.items cutter.new.parts.items cutter.old.args.items cutter.new.args.items) }
    ensures ranks { OnOk result (IsReadRanked root label rules.old rules.new cutter.new.marks.items cutter.old.parts.items cutter.new.parts.items) }
{
    if let Label::Param = label {
        let start = cutter.args.len();
        add_outer(cutter, label, start)?;
        return Ok(());
    }
    if is_exposed(cutter.marks.as_slice(), label, root, digram) {
        let start = close_kids(alloc, cutter, label, rules)?;
        add_outer(cutter, label, start)?;
        return Ok(());
    }
    let kids = arity_of(rules.as_slice(), label);
    add_inner(cutter, label, kids)?;
    Ok(())
}

// Closes the children of a symbol, and answers where the arguments of both begin.
fn close_kids(
    alloc: Global,
    cutter: &mut Cutter,
    label: Label,
    rules: &mut RuleList,
) -> Result<usize, AllocError>
    requires symbol { IsEnd label }
    requires kids { CanCloseKids rules.old (reverse cutter.old.marks.items) (reverse cutter.old.parts.items) (reverse cutter.old.args.items) (arity [] label) }
    ensures closed { IfOk result (λ start. (w : CanCloseKids rules.old (reverse cutter.old.marks.items) (reverse cutter.old.parts.items) (reverse cutter.old.args.items) (arity [] label))
        → AreClosed rules.old rules.new (reverse cutter.new.marks.items) (reverse cutter.new.parts.items) (reverse cutter.new.args.items) w.held.kids w.held.pieces start) }
    ensures off { OnOk result (AreOff (arity [] label) rules.old rules.new cutter.old.marks.items cutter.new.marks.items cutter.old.parts.items cutter.new.parts.items cutter.old.args.items cutter.new.args.items) }
    ensures ranks { OnOk result (AreRanked rules.old rules.new cutter.old.parts.items cutter.new.parts.items) }
{
    let end = cutter.args.len();
    if let Label::Symbol(_) = label {
        let middle = close(alloc, cutter, end, rules)?;
        let start = close(alloc, cutter, middle, rules)?;
        return Ok(start);
    }
    Ok(end)
}

// A parameter, or a node outside whose children were closed.
fn add_outer(cutter: &mut Cutter, label: Label, args: usize) -> Result<(), AllocError>
    ensures marks { OnOk result ((m : Mark) × (reverse cutter.new.marks.items ≡ m ∷ reverse cutter.old.marks.items) × (m.part ≡ length cutter.old.parts.items) × (m.args ≡ args) × (m.top ≡ label) × (m.bare ≡ true)) }
    ensures parts { OnOk result (reverse cutter.new.parts.items ≡ Param ∷ reverse cutter.old.parts.items) }
    ensures args { OnOk result (reverse cutter.new.args.items ≡ label ∷ reverse cutter.old.args.items) }
{
    let mark = Mark {
        part: cutter.parts.len(),
        args,
        top: label,
        bare: true,
    };
    cutter.marks.push(mark)?;
    cutter.parts.push(Label::Param)?;
    cutter.args.push(label)?;
    Ok(())
}

// A node in one part with its children's parts.
fn add_inner(cutter: &mut Cutter, label: Label, kids: usize) -> Result<(), AllocError>
    requires { label ≢ Param }
    ensures held { OnOk result ((w : HoldsKids (reverse cutter.old.marks.items) (reverse cutter.old.parts.items) (reverse cutter.old.args.items) kids)
        → Holds (reverse cutter.new.marks.items) (reverse cutter.new.parts.items) (reverse cutter.new.args.items) (grown label w.kids ∷ w.pieces)) }
    ensures small { OnOk result (IsReadSmall false label [] [] cutter.old.marks.items cutter.new.marks.items cutter.old.parts.items cutter.new.parts.items cutter.old.args.items cutter.new.args.items) }
    ensures ranks { OnOk result (params cutter.new.parts.items ≡ params cutter.old.parts.items) }
{
    let mut mark = Mark {
        part: cutter.parts.len(),
        args: cutter.args.len(),
        top: label,
        bare: false,
    };
    let mut left = kids;
    'kids: while left > 0 {
        left -= 1;
        let Some(kid) = cutter.marks.pop() else {
            return Ok(());
        };
        mark.part = kid.part;
        mark.args = kid.args;
    }
    cutter.marks.push(mark)?;
    cutter.parts.push(label)?;
    Ok(())
}

// Takes the piece on top off, whose arguments end at a place: its part becomes a rule, and a call of it comes before the arguments.
// Answers where they begin.
fn close(
    alloc: Global,
    cutter: &mut Cutter,
    end: usize,
    rules: &mut RuleList,
) -> Result<usize, AllocError>
    requires { CanClose rules.old (reverse cutter.old.marks.items) (reverse cutter.old.parts.items) (reverse cutter.old.args.items) end }
    ensures closed { IfOk result (λ start. (w : CanClose rules.old (reverse cutter.old.marks.items) (reverse cutter.old.parts.items) (reverse cutter.old.args.items) end)
        → IsClosed rules.old rules.new (reverse cutter.new.marks.items) (reverse cutter.new.parts.items) (reverse cutter.new.args.items) w.front w.piece w.pieces start) }
    ensures off { OnOk result (AreOff 1 rules.old rules.new cutter.old.marks.items cutter.new.marks.items cutter.old.parts.items cutter.new.parts.items cutter.old.args.items cutter.new.args.items) }
    ensures ranks { OnOk result (AreRanked rules.old rules.new cutter.old.parts.items cutter.new.parts.items) }
{
    let Some(mark) = cutter.marks.pop() else {
        return Ok(end);
    };
    if mark.bare {
        cutter.parts.truncate(mark.part);
        return Ok(mark.args);
    }
    let rule = rules.as_slice().len();
    let part = from_its_end(alloc, &cutter.parts.as_slice()[mark.part..])?;
    let rank = count_params(part.as_slice());
    rules.push(rank, part)?;
    cutter.args.insert(end, Label::Call(rule))?;
    cutter.parts.truncate(mark.part);
    Ok(mark.args)
}

// Whether a node is to stand outside, as it and a node across a border might be the digram.
fn is_exposed(marks: &[Mark], label: Label, root: bool, digram: Digram) -> bool
    requires upper { IsEnd digram.upper }
    requires lower { IsEnd digram.lower }
    ensures end { IsTrue result → IsEnd label }
    ensures upper { IsTrue result → root ≡ false → label ≡ digram.upper }
    ensures exposed { IsTrue result → ((label ≡ digram.upper) × HasParameterAt (reverse marks.now) digram.place) ⊎ ((root ≡ true) × (label ≡ digram.lower)) }
    ensures root { IsFalse result → root ≡ true → label ≢ digram.lower }
    ensures kept { IsFalse result → label ≡ digram.upper → HasParameterAt (reverse marks.now) digram.place → ⊥ }
    ensures parameter { IsTrue result → root ≡ false → suc (free (drop digram.place (reverse marks.now))) ≤ free (reverse marks.now) }
{
    if root && label == digram.lower {
        return true;
    }
    if label != digram.upper {
        return false;
    }
    is_parameter(marks, digram.place)
}

// Whether a child, from 1 on, of the node that comes next is a parameter.
fn is_parameter(marks: &[Mark], place: usize) -> bool
    ensures free { IsTrue result → suc (free (drop place (reverse marks.now))) ≤ free (reverse marks.now) }
    ensures there { IsTrue result → HasParameterAt (reverse marks.now) place }
    ensures none { IsFalse result → HasParameterAt (reverse marks.now) place → ⊥ }
{
    let Some(at) = marks.len().checked_sub(place) else {
        return false;
    };
    match mark_at(marks, at) {
        Some(mark) => mark.top == Label::Param,
        None => false,
    }
}

fn mark_at(marks: &[Mark], at: usize) -> Option<Mark>
    ensures { result ≡ slice_get marks.now at }
{
    marks.get(at).copied()
}

// A body from its labels, the last one first.
fn from_its_end(alloc: Global, labels: &[Label]) -> Result<Body, AllocError>
    ensures { IfOk result (λ b. b ≡ reverse labels.now) }
{
    let mut body = Body::new(alloc);
    let mut left = labels.len();
    'labels: while left > 0 {
        left -= 1;
        body.push(labels[left])?;
    }
    Ok(body)
}

// How many children a node has, by the rules.
pub(crate) fn arity_of(rules: &[Rule], label: Label) -> usize
    ensures { result ≡ arity (ranks_of rules.now) label }
{
    match label {
        Label::Bottom => 0,
        Label::Symbol(_) => 2,
        Label::Call(rule) => rules.get(rule).map_or(0, |r| r.rank),
        Label::Param => 0,
    }
}

// How many parameters there are.
fn count_params(labels: &[Label]) -> usize
    ensures { result ≡ params labels.now }
{
    let mut count = 0;
    for label in labels {
        if let Label::Param = *label {
            count += 1;
        }
    }
    count
}
