// The laws. The bodies are empty: their contracts are the laws.
ghost use Rattle.std.specs.Prelude.{List, []};
ghost use Rattle.slt_grammar.specs.Keyed.{KeyedRule};
ghost use Rattle.start_fronts.specs.Before.{KeepsBefore};
ghost use Rattle.start_fronts.specs.Laws.{
  AlikeStartsKeepBefore,
  CallingKeepsBefore,
  ChangesCompose,
  DroppingKeepsBefore,
  FoldingKeepsBefore,
  InliningKeepsBefore,
  OtherRulesKeepBefore,
  PuttingKeepsBefore,
  SweepingKeepsBefore,
};

/// Where nothing changed, everything is kept; and what two changes keep one after the other is kept by both.
pub fn changes_compose()
    ensures none { (G : List KeyedRule) → KeepsBefore [] G G }
    ensures both { ChangesCompose }
{}

/// What changes elsewhere keeps what stands before each node of the start, where the start's nodes stand for what they stood for.
pub fn others_keep_before()
    ensures start { AlikeStartsKeepBefore }
    ensures rule { OtherRulesKeepBefore }
{}

/// Rules that come and go keep what stands before each node of the start, though calls get other numbers.
pub fn renumbering_keeps_before()
    ensures put { PuttingKeepsBefore }
    ensures dropped { DroppingKeepsBefore }
    ensures swept { SweepingKeepsBefore }
{}

/// A fold in any rule keeps what stands before each node of the start but the lower one.
pub fn folding_keeps_before()
    ensures { FoldingKeepsBefore }
{}

/// A call of any rule that is inlined keeps what stands before each node of the start but the call.
pub fn inlining_keeps_before()
    ensures { InliningKeepsBefore }
{}

/// A call that is made in any rule keeps what stands before each node of the start but those that it stands for.
pub fn calling_keeps_before()
    ensures { CallingKeepsBefore }
{}
