// The laws. The bodies are empty: their contracts are the laws.
ghost use Rattle.start_marks.specs.Laws.{MarksStay, StopsWeighTheirLabels};
ghost use Rattle.start_marks.specs.Moving.{EarlyMarksStay, LateMarksMove, MarksAreLeft};

/// A mark of the start is one still where what stands before the start's nodes was kept and the mark's key isn't gone.
pub fn marks_stay()
    ensures { MarksStay }
{}

/// The stops that a rule's tour passes before a node weigh what the labels of the rule's value before it weigh.
pub fn stops_weigh_their_labels()
    ensures { StopsWeighTheirLabels }
{}

/// Where the value changed behind some number of nodes and bottoms, the marks before it stay, and those behind it move by what the value
/// has come to weigh more or less.
pub fn marks_move()
    ensures early { EarlyMarksStay }
    ensures late { LateMarksMove }
    ensures lists { MarksAreLeft }
{}
