// What holds of cursors. The body is empty: its contract is the law.
ghost use Rattle.value_cursor.specs.Laws.{CursorsTellSubtrees};

/// Where a grammar's value is the code of a tree, the tokens of a cursor that begins at a number are those of the tree's node with
/// that number.
pub fn cursors_tell_subtrees()
    ensures { CursorsTellSubtrees }
{}
