// A builder that folds what it gets.
ghost use Rattle.std.specs.Prelude.{◌≡◌, ◌≤◌, ◌*◌, [], List, length, max, true, IfOk};
ghost use Rattle.plain_tree.specs.Tree.{Tree, none, more};
ghost use Rattle.plain_tree.specs.Lawful.{IsDocument};
ghost use Rattle.xml_nodes.specs.Machine.{events};
ghost use Rattle.slt_grammar.specs.Coding.{Codes};
ghost use Rattle.slt_grammar.specs.Grammars.{IsGrammar, IsSwept, size};
ghost use Rattle.slt_grammar.specs.Keyed.{rules_of};
ghost use Rattle.slt_grammar.specs.Ranks.{greatest_rank};
ghost use Rattle.slt_grammar.specs.Standing.{StandsFor};
ghost use Rattle.slt_grammar.specs.Terms.{Term};
ghost use Rattle.fcns_encoding.specs.Interning.{Interns, pairs_of_tree};
ghost use Rattle.fcns_encoding.specs.Marks.{SharesTwice};
ghost use Rattle.fcns_encoding.specs.Subterms.{AreSubterms};

use crate::kids::take_kids;
use crate::leaf_rules::share_leaves;
use crate::pair_rules::{Frequent, share_pairs};
use crate::part::Part;
use crate::shared_rules::rules_of_table;
use crate::sharing::Sharing;
use crate::subterms::Subterms;
use crate::symbols::symbol;
use plain_tree::{Kind, Names};
use slt_grammar::{Grammar, GrammarError, RuleList, check};
use std::alloc::{AllocError, Global};
use std::marker::Model;
use text_list::{TextList, TextTable};
use xml_nodes::Builder;

/// A document, folded while its calls come; contracts see the calls that it got, whether one was refused, and how many elements
/// are open.
///
/// Each different subterm of the code of what is whole is kept once. The code of a node waits for the nodes behind it, so that
/// whole nodes stand on a stack, between the elements that were begun, until the element around them is closed.
#[derive(Drop)]
pub struct Folder {
    alloc: Global,
    names: Names,
    texts: TextTable,
    subterms: Subterms,
    stack: Vec<Part>,
    sound: bool,
}

/// What the calls of a document were folded into: a grammar with rules for subterms that are used often, the table of names, and
/// the texts.
#[derive(Drop)]
pub struct Folded {
    pub grammar: Grammar,
    pub names: Names,
    pub texts: TextList,
}

// The same, but for a check of the rules.
#[derive(Drop)]
struct Unchecked {
    rules: RuleList,
    names: Names,
    texts: TextList,
}

// How often a symbol must be a leaf for a rule of its own: a digram that stands less often becomes none.
const LEAVES: u32 = 3;

// How often a symbol must stand over a call in the start rule for a rule of both. Settling begins with what is so frequent, and makes such
// a rule where no other digram of the symbol stands more often: that is sure where most of its places have this call.
const PAIRS: Frequent = Frequent {
    times: 1_024,
    percent: 90,
};

impl Unchecked {
    // The same document with rules for leaves that stand often, and for pairs that are frequent in the start rule.
    fn with_frequent(self, alloc: Global) -> Result<Unchecked, AllocError>
        requires grammar { IsGrammar self.rules }
        requires swept { IsSwept self.rules }
        ensures stand { IfOk result (λ f. (t : Tree) → StandsFor self.rules self.names self.texts.texts t → StandsFor f.rules f.names f.texts.texts t) }
        ensures names { IfOk result (λ f. f.names ≡ self.names) }
        ensures grammar { IfOk result (λ f. IsGrammar f.rules) }
        ensures swept { IfOk result (λ f. IsSwept f.rules) }
        ensures ranks { IfOk result (λ f. greatest_rank f.rules ≤ max 1 (greatest_rank self.rules)) }
    {
        let leaves = share_leaves(alloc, self.rules, self.names.len(), LEAVES)?;
        let rules = share_pairs(alloc, leaves, self.names.len(), PAIRS)?;
        Ok(Unchecked { rules, ..self })
    }

    // The rules as a grammar.
    fn checked(self, alloc: Global) -> Result<Folded, AllocError>
        requires grammar { IsGrammar self.rules }
        requires swept { IsSwept self.rules }
        ensures rules { IfOk result (λ f. rules_of f.grammar.rules ≡ self.rules) }
        ensures names { IfOk result (λ f. f.names ≡ self.names) }
        ensures texts { IfOk result (λ f. f.texts ≡ self.texts) }
    {
        let grammar = grammar_of(alloc, self.rules)?;
        Ok(Folded {
            grammar,
            names: self.names,
            texts: self.texts,
        })
    }
}

impl Model for Folder {
    ghost use Rattle.xml_nodes.specs.Taking.{Built};
    ghost use Rattle.fcns_encoding.specs.Folding.{folded_by, IsFolder};

    ghost Value = { Built };

    ghost view = { λ f. folded_by f.names f.subterms f.texts f.stack.items f.sound };

    ghost invariant = { λ f. IsFolder f.names f.subterms f.texts f.stack.items f.sound };
}

impl Folder {
    /// A folder that got no calls. It takes no memory.
    pub fn new(alloc: Global) -> Folder
        ensures log { result.log ≡ [] }
        ensures sound { result.sound ≡ true }
        ensures depth { result.depth ≡ 0 }
    {
        Folder {
            alloc,
            names: Names::new(alloc),
            texts: TextTable::new(alloc),
            subterms: Subterms::new(alloc),
            stack: Vec::new(alloc),
            sound: true,
        }
    }

    /// The grammar of the document that has these calls, its names and its texts. It has at most three times as many nodes as the code has
    /// different subterms. That just the subterms that are used twice or more have a rule is promised by no clause. It is refused only for
    /// want of memory.
    pub fn finish(self) -> Result<Folded, AllocError>
        requires sound { self.sound ≡ true }
        requires depth { self.depth ≡ 0 }
        ensures stand { IfOk result (λ f. (t : Tree) → IsDocument t → self.log ≡ events t [] → StandsFor (rules_of f.grammar.rules) f.names f.texts.texts t) }
        ensures names { IfOk result (λ f. (t : Tree) → IsDocument t → self.log ≡ events t [] → Interns [] (pairs_of_tree t) f.names) }
        ensures grammar { IfOk result (λ f. IsGrammar (rules_of f.grammar.rules)) }
        ensures swept { IfOk result (λ f. IsSwept (rules_of f.grammar.rules)) }
        ensures size { IfOk result (λ f. (t : Tree) (term : Term) (terms : List Term) → IsDocument t → self.log ≡ events t []
            → Codes f.names (more t none) term → AreSubterms terms term → size (rules_of f.grammar.rules) ≤ 3 * length terms) }
    {
        let alloc = self.alloc;
        self.written(Sharing::of_uses(2))?.checked(alloc)
    }

    /// The same document with other rules, whose size is promised by no clause, and which they are neither: a subterm has a rule only
    /// where `sharing` says so, and else is written out where it is used; a symbol that stands over a bottom three times or more has a rule
    /// together with it, and so has a symbol with a call that is frequent in the start rule. With fewer rules more of the document is written
    /// out: settling has more to do, and finds digrams that reach into what would be rules. It is refused only for want of memory.
    pub fn finish_with(self, sharing: Sharing) -> Result<Folded, AllocError>
        requires sound { self.sound ≡ true }
        requires depth { self.depth ≡ 0 }
        ensures stand { IfOk result (λ f. (t : Tree) → IsDocument t → self.log ≡ events t [] → StandsFor (rules_of f.grammar.rules) f.names f.texts.texts t) }
        ensures names { IfOk result (λ f. (t : Tree) → IsDocument t → self.log ≡ events t [] → Interns [] (pairs_of_tree t) f.names) }
        ensures grammar { IfOk result (λ f. IsGrammar (rules_of f.grammar.rules)) }
        ensures swept { IfOk result (λ f. IsSwept (rules_of f.grammar.rules)) }
        ensures ranks { IfOk result (λ f. greatest_rank (rules_of f.grammar.rules) ≤ 1) }
    {
        let alloc = self.alloc;
        self.written(sharing)?.with_frequent(alloc)?.checked(alloc)
    }

    // The rules with one for each subterm that `sharing` gives one. They are few where two uses are enough.
    fn written(self, sharing: Sharing) -> Result<Unchecked, AllocError>
        requires sound { self.sound ≡ true }
        requires depth { self.depth ≡ 0 }
        ensures stand { IfOk result (λ f. (t : Tree) → IsDocument t → self.log ≡ events t [] → StandsFor f.rules f.names f.texts.texts t) }
        ensures names { IfOk result (λ f. (t : Tree) → IsDocument t → self.log ≡ events t [] → Interns [] (pairs_of_tree t) f.names) }
        ensures grammar { IfOk result (λ f. IsGrammar f.rules) }
        ensures swept { IfOk result (λ f. IsSwept f.rules) }
        ensures ranks { IfOk result (λ f. greatest_rank f.rules ≡ 0) }
        ensures size { SharesTwice sharing → IfOk result (λ f. (t : Tree) (term : Term) (terms : List Term) → IsDocument t → self.log ≡ events t []
            → Codes f.names (more t none) term → AreSubterms terms term → size f.rules ≤ 3 * length terms) }
    {
        let Folder {
            alloc,
            mut names,
            texts,
            mut subterms,
            mut stack,
            ..
        } = self;
        let kids = take_kids(&mut subterms, &mut stack)?;
        drop(stack);
        let None = kids.begun else { unreachable!() };
        let document = symbol(alloc, &mut names, Kind::Document, b"")?;
        subterms.node(document, kids.code, 0)?;
        let rules = rules_of_table(alloc, subterms, sharing)?;
        Ok(Unchecked {
            rules,
            names,
            texts: TextList::new(texts),
        })
    }
}

impl Builder for Folder {
    ghost log = { λ f. f.log };

    ghost sound = { λ f. f.sound };

    ghost depth = { λ f. f.depth };

    fn open(&mut self, kind: Kind, name: &[u8]) -> Result<(), AllocError> {
        self.sound = false;
        let symbol = symbol(self.alloc, &mut self.names, kind, name)?;
        self.stack.push(Part::Begun(symbol))?;
        self.sound = true;
        Ok(())
    }

    fn leaf(&mut self, kind: Kind, name: &[u8], value: &[u8]) -> Result<(), AllocError> {
        self.sound = false;
        let symbol = symbol(self.alloc, &mut self.names, kind, name)?;
        self.texts.push(value)?;
        self.stack.push(Part::Whole(symbol, 0))?;
        self.sound = true;
        Ok(())
    }

    fn close(&mut self) -> Result<(), AllocError> {
        self.sound = false;
        let kids = take_kids(&mut self.subterms, &mut self.stack)?;
        let Some(symbol) = kids.begun else {
            unreachable!()
        };
        self.stack.push(Part::Whole(symbol, kids.code))?;
        self.sound = true;
        Ok(())
    }
}

// The grammar of rules that have no fault. It is refused only for want of memory.
fn grammar_of(alloc: Global, rules: RuleList) -> Result<Grammar, AllocError>
    requires grammar { IsGrammar rules }
    requires swept { IsSwept rules }
    ensures { IfOk result (λ g. rules_of g.rules ≡ rules) }
{
    match check(alloc, rules) {
        Ok(grammar) => Ok(grammar),
        Err(fault) => match fault {
            GrammarError::Memory => Err(AllocError),
            _ => unreachable!(),
        },
    }
}
