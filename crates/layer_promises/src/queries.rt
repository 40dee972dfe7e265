// What the bytes of queries spell, and automata that hit what they select, as xpath_parser and selecting_automaton promise it.
ghost use Rattle.std.specs.Prelude.{◌≡◌, IfOk, ◌≤◌};
ghost use Rattle.plain_tree.specs.Tree.{Tree, none, more};
ghost use Rattle.slt_grammar.specs.Automata.{hits};
ghost use Rattle.slt_grammar.specs.Terms.{Term};
ghost use Rattle.text_list.specs.Marking.{mark_of};
ghost use Rattle.xpath_parser.specs.Comparing.{literals_of};
ghost use Rattle.xpath_parser.specs.Limits.{IsLarge};
ghost use Rattle.xpath_parser.specs.Meaning.{selected};
ghost use Rattle.xpath_parser.specs.Meant.{meant_paths};
ghost use Rattle.xpath_parser.specs.Shown.{paths_of};
ghost use Rattle.xpath_parser.specs.Spelled.{Spells};
ghost use Rattle.xpath_parser.specs.Trees.{Paths};
ghost use Rattle.value_tests.specs.MarkedCodes.{CodesMarked};
ghost use Rattle.selecting_automaton.specs.Bounds.{HasFewStates};
ghost use Rattle.selecting_automaton.specs.Sizes.{parts_inside, steps_outside};
ghost use Rattle.selecting_automaton.specs.Words.{word_algebra, word_downward};

use plain_tree::Names;
use selecting_automaton::{Selector, compile};
use std::alloc::{AllocError, Global};
use xpath_parser::{Query, QueryError, parse};

/// The query that bytes spell; Bad exactly where they spell none, Large where it passes the limits.
pub fn parse_told(alloc: Global, bytes: &[u8]) -> Result<Query, QueryError>
    ensures spelled { IfOk result (λ query. (ps : Paths) × Spells bytes.now ps × (paths_of query.paths ≡ meant_paths bytes.now ps)) }
    ensures small { IfOk result (λ query. (ps : Paths) → Spells bytes.now ps → IsLarge ps → ⊥) }
    ensures bad { result ≡ Err QueryError.Bad → (ps : Paths) → Spells bytes.now ps → ⊥ }
    ensures large { result ≡ Err QueryError.Large → ((ps : Paths) × Spells bytes.now ps) × ((ps : Paths) → Spells bytes.now ps → IsLarge ps) }
{
    parse(alloc, bytes)
}

/// The automaton of few states that hits what the query selects.
pub fn compile_told(alloc: Global, query: &Query, names: &Names) -> Result<Selector, AllocError>
    requires few { parts_inside (paths_of query.now.paths) ≤ 64 }
    requires short { steps_outside (paths_of query.now.paths) ≤ 64 }
    ensures selects { IfOk result (λ selector. (t : Tree) (term : Term) → CodesMarked names.now (mark_of (literals_of (paths_of query.now.paths))) (more t none) term → hits (word_algebra selector) (word_downward selector) term ≡ selected t (paths_of query.now.paths)) }
    ensures states { IfOk result (λ selector. HasFewStates (word_algebra selector) (word_downward selector) (parts_inside (paths_of query.now.paths)) (steps_outside (paths_of query.now.paths))) }
{
    compile(alloc, query, names)
}
