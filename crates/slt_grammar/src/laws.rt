// What holds of grammars, whatever their rules mean. The bodies are empty: their contracts are the laws.
ghost use Rattle.slt_grammar.specs.Algebras.{Algebra};
ghost use Rattle.slt_grammar.specs.Laws.{InliningKeepsMeanings, SubstitutionsCompose, SharedRunIsExpandedRun, AddingKeepsMeanings, ValuesAreLinear, StandsForOne, ToursSpellValues};

/// A call that is replaced by its rule's body changes no rule's meaning, in any algebra over S.
pub fn inlining_keeps_meanings<S>()
    ensures { (A : Algebra S) → InliningKeepsMeanings A }
{}

/// Arguments put into a term's holes one after the other are arguments with arguments put in.
pub fn substitutions_compose()
    ensures { SubstitutionsCompose }
{}

/// What an algebra over S makes of a rule's value, all calls replaced, is what it makes of the rule along the shared rules.
pub fn shared_run_is_expanded_run<S>()
    ensures { (A : Algebra S) → SharedRunIsExpandedRun A }
{}

/// A rule that nobody calls, put in with renumbering, changes no other rule's meaning, in any algebra over S.
pub fn adding_keeps_meanings<S>()
    ensures { (A : Algebra S) → AddingKeepsMeanings A }
{}

/// The holes of a rule's value are its parameters, each once and in their order.
pub fn values_are_linear()
    ensures { ValuesAreLinear }
{}

/// Rules, names and texts stand for at most one document.
pub fn stands_for_one()
    ensures { StandsForOne }
{}

/// What the stops of a body's tour stand for, one after another, is the preorder of the rule's value. A part of a call stands for
/// a segment of the called rule's value.
pub fn tours_spell_values()
    ensures { ToursSpellValues }
{}
