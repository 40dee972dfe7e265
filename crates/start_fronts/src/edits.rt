// The laws of edits. The bodies are empty: their contracts are the laws.
ghost use Rattle.start_fronts.specs.Edits.{
  HolesStandBehind,
  KeepingThenMoving,
  LiftingMovesBefore,
  MovingThenKeeping,
  NothingMoves,
  OldKeysGo,
  PlainBodiesHaveNone,
  RelabellingMovesBefore,
  SharingKeepsBefore,
  WrappingMovesBefore,
};
ghost use Rattle.start_fronts.specs.Isolating.{IsolatingBegins, IsolatingGoesOn};

/// Steps that keep the value and what stands before each node may come before a change, or behind it.
pub fn moves_compose()
    ensures kept { KeepingThenMoving }
    ensures moved { MovingThenKeeping }
    ensures none { NothingMoves }
    ensures fewer { OldKeysGo }
{}

/// The labels that the start's tour passes before a node are those before the hole of the term around it.
pub fn holes_stand_behind()
    ensures { HolesStandBehind }
{}

/// Where a call of the start is inlined, and then a copied call of its rule's body, and so on, all is kept that stands before each node of the
/// start but the first call.
pub fn isolating_keeps_before()
    ensures begins { IsolatingBegins }
    ensures goes_on { IsolatingGoesOn }
{}

/// A node of the start that gets another symbol moves nothing that stands before or behind it.
pub fn relabelling_moves_before()
    ensures { RelabellingMovesBefore }
{}

/// A node of the start that gives way to its second child moves what stands behind it, with that child.
pub fn lifting_moves_before()
    ensures { LiftingMovesBefore }
{}

/// A body that is put around a node of the start moves that node and what stands behind it.
pub fn wrapping_moves_before()
    ensures moves { WrappingMovesBefore }
    ensures plain { PlainBodiesHaveNone }
{}

/// A term of the start that becomes a rule of its own keeps what stands before each node of the start but those of the term.
pub fn sharing_keeps_before()
    ensures { SharingKeepsBefore }
{}
