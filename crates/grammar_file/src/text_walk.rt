// The marks of the nodes, told one after another in document order.
ghost use Rattle.std.specs.Prelude.{◌≡◌, ◌<◌, ◌+◌, ◌++◌, [], ◌∷◌, ℕ, List, drop, reverse, length, IfOk, OnOk, None, option_to_list};
ghost use Rattle.plain_tree.specs.declared.kind.Kind.{Kind};
ghost use Rattle.slt_grammar.specs.declared.rules.Rule.{Rule};
ghost use Rattle.grammar_file.specs.Marks.{Thins};
ghost use Rattle.grammar_file.specs.TextLists.{AreTextLists, Lists, parts_at, marks_of};
ghost use Rattle.grammar_file.specs.TextWalks.{AreUnfinished, coming, list_at};

use crate::text_lists::{Mark, Part, Segments, parts_of};
use std::alloc::{AllocError, Global};

/// A list that is being told, from its part number `next` on.
#[derive(Clone, Copy, Drop)]
pub(crate) struct Level {
    pub(crate) rule: usize,
    pub(crate) segment: usize,
    pub(crate) next: usize,
}

/// The levels that tell all of a rule's first segment.
pub(crate) fn first_levels(
    alloc: Global,
    lists: &[Segments],
    rule: usize,
) -> Result<Vec<Level>, AllocError>
    ensures unfinished { IfOk result (λ levels. AreUnfinished lists.now (reverse levels.items)) }
    ensures coming { IfOk result (λ levels. (names : List (Kind × List ℕ)) (G : List Rule) → coming lists.now names G (reverse levels.items) ≡ marks_of names G (parts_at lists.now rule 0)) }
{
    let mut levels = Vec::new(alloc);
    if !parts_of(lists, rule, 0).is_empty() {
        levels.push(Level {
            rule,
            segment: 0,
            next: 0,
        })?;
    }
    Ok(levels)
}

/// The next mark, or None where none is left; the levels keep the place. A level is left before its last part is told, so that
/// there are no more levels than rules.
pub(crate) fn next_mark(
    lists: &[Segments],
    levels: &mut Vec<Level>,
) -> Result<Option<Mark>, AllocError>
    requires lists { (names : List (Kind × List ℕ)) × (G : List Rule) × AreTextLists names G (length lists.now) lists.now }
    requires unfinished { AreUnfinished lists.now (reverse levels.old.items) }
    ensures next { IfOk result (λ mark. (names : List (Kind × List ℕ)) (G : List Rule) → AreTextLists names G (length lists.now) lists.now
        → Thins (option_to_list mark ++ coming lists.now names G (reverse levels.new.items)) (coming lists.now names G (reverse levels.old.items))) }
    ensures end { IfOk result (λ mark. mark ≡ None → reverse levels.old.items ≡ []) }
    ensures unfinished { OnOk result (AreUnfinished lists.now (reverse levels.new.items)) }
{
    let Some(mut level) = levels.pop() else {
        return Ok(None);
    };
    'levels: loop {
        let parts = parts_of(lists, level.rule, level.segment);
        let part = parts[level.next];
        leave_part(levels, level, parts.len())?;
        match part {
            Part::Node(mark) => return Ok(Some(mark)),
            Part::Segment(rule, segment) => {
                level = Level {
                    rule,
                    segment,
                    next: 0,
                };
            }
        }
    }
}

// Keeps the place behind a level's part, where its list of this many parts has more.
fn leave_part(levels: &mut Vec<Level>, level: Level, parts: usize) -> Result<(), AllocError>
    requires { level.next < parts }
    ensures rest { OnOk result ((lists : Lists) (names : List (Kind × List ℕ)) (G : List Rule) → length (list_at lists level) ≡ parts
        → coming lists names G (reverse levels.new.items) ≡ marks_of names G (drop (level.next + 1) (list_at lists level)) ++ coming lists names G (reverse levels.old.items)) }
    ensures unfinished { OnOk result ((lists : Lists) → length (list_at lists level) ≡ parts
        → AreUnfinished lists (reverse levels.old.items) → AreUnfinished lists (reverse levels.new.items)) }
{
    if level.next + 1 < parts {
        levels.push(Level {
            rule: level.rule,
            segment: level.segment,
            next: level.next + 1,
        })?;
    }
    Ok(())
}
