// What holds of every tree, and of every edit. The bodies are empty: their contracts are the laws.
ghost use Rattle.plain_tree.specs.EditLaws.{EditsKeepDocuments, TextsJoinAtSeams, MergedTextsAreCounted, EditsKeepTextsJoined, EditsAreCounted, PlainEditsInTurn};
ghost use Rattle.plain_tree.specs.Laws.{NodesAreCounted, VisitsOpenNodes};

/// The numbers of a tree's nodes are those below its count.
pub fn nodes_are_counted()
    ensures { NodesAreCounted }
{}

/// A walk opens the nodes of its tree in document order.
pub fn visits_open_nodes()
    ensures { VisitsOpenNodes }
{}

/// A document is a document after an edit that is allowed.
pub fn edits_keep_documents()
    ensures { EditsKeepDocuments }
{}

/// Texts become one where an edit makes them neighbours, and nowhere else.
pub fn texts_join_at_seams()
    ensures { TextsJoinAtSeams }
{}

/// Each text that became one with the text before it is a node less.
pub fn merged_texts_are_counted()
    ensures { MergedTextsAreCounted }
{}

/// A document without neighbouring texts has none after an edit whose fragment has none.
pub fn edits_keep_texts_joined()
    ensures { EditsKeepTextsJoined }
{}

/// How many nodes a document has after an edit, but for texts that meet.
pub fn edits_are_counted()
    ensures { EditsAreCounted }
{}

/// An edit by which texts meet is edits by which none do, one after another.
pub fn plain_edits_in_turn()
    ensures { PlainEditsInTurn }
{}
