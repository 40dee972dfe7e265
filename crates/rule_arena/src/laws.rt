// What holds of terms out of which a node is taken. The bodies are empty: their contracts are the laws.
ghost use Rattle.rule_arena.specs.Laws.{ChildrenStandApart, KeysBeforeStay, DissolvingMerges, DetachingIsCovered};

/// A node's child stands in its term between the children before it and those after it.
pub fn children_stand_apart()
    ensures { ChildrenStandApart }
{}

/// Where a node is taken out of a term, the keys before it stay in their places.
pub fn keys_before_stay()
    ensures { KeysBeforeStay }
{}

/// A child that is dissolved, and then another label for its parent, make one node of both, over the children of both.
pub fn dissolving_merges()
    ensures { DissolvingMerges }
{}

/// A child that is detached, and then another term in the place of its parent, make what that term alone makes.
pub fn detaching_is_covered()
    ensures { DetachingIsCovered }
{}
