// Counts of nodes and texts, as segment_counts promises them.
ghost use Rattle.std.specs.Prelude.{◌≡◌, ◌<◌, ℕ, List, length, ◌+◌, ◌-◌, ◌*◌, ◌^◌, [], ◌∷◌, set};
ghost use Rattle.plain_tree.specs.declared.kind.Kind.{Kind};
ghost use Rattle.slt_grammar.specs.Grammars.{value};
ghost use Rattle.slt_grammar.specs.RuleValues.{HaveOtherValues};
ghost use Rattle.slt_grammar.specs.declared.rules.Rule.{Rule};
ghost use Rattle.segment_counts.specs.Changes.{HasMore, raised, start_weights};
ghost use Rattle.segment_counts.specs.Counting.{AreCounts, told};
ghost use Rattle.segment_counts.specs.Weights.{count, node_weight, text_weight};
ghost use Rattle.segment_counts.specs.declared.counts.Measure.TheVariants.{Nodes, Texts};

use segment_counts::Counts;

/// How many nodes a segment of a rule's value has.
pub fn nodes_told(counts: &Counts, rule: usize, segment: usize) -> u64
    ensures kept { result ≡ told Nodes counts.now.rows rule segment }
    ensures counts { (names : List (Kind × List ℕ)) (G : List Rule) → AreCounts names G counts.now → rule < length G → result ≡ count node_weight G rule segment }
{
    counts.nodes(rule, segment)
}

/// How many texts a segment of a rule's value has.
pub fn texts_told(counts: &Counts, rule: usize, segment: usize) -> u64
    ensures kept { result ≡ told Texts counts.now.rows rule segment }
    ensures counts { (names : List (Kind × List ℕ)) (G : List Rule) → AreCounts names G counts.now → rule < length G → result ≡ count (text_weight names) G rule segment }
{
    counts.texts(rule, segment)
}

/// The start has so many nodes and texts more.
pub fn raise_start_told(counts: &mut Counts, nodes: u64, texts: u64)
    requires some { 0 < counts.old.rules }
    requires all { (start_weights counts.old).all + 2 * nodes < 2 ^ 64 }
    requires nodes { (start_weights counts.old).nodes + nodes < 2 ^ 64 }
    requires texts { (start_weights counts.old).texts + texts < 2 ^ 64 }
    ensures rows { counts.new.rows ≡ set counts.old.rows (counts.old.rules - 1) (raised (start_weights counts.old) nodes texts ∷ []) }
    ensures rules { counts.new.rules ≡ counts.old.rules }
    ensures counts { (names : List (Kind × List ℕ)) (G H : List Rule) → AreCounts names G counts.old → HaveOtherValues (length G - 1) G H → HasMore names (value G) (value H) nodes texts → AreCounts names H counts.new }
{
    counts.raise_start(nodes, texts)
}
