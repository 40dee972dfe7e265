// Bodies that are put into an arena.
ghost use Rattle.std.specs.Prelude.{◌≡◌, ◌+◌, ◌≤◌, ℕ, [], ◌∷◌, None, length, get_or};
ghost use Rattle.rule_arena.specs.Terms.{term_at};
ghost use Rattle.slt_grammar.specs.Algebras.{ranks_of};
ghost use Rattle.slt_grammar.specs.Bodies.{IsTerm};
ghost use Rattle.slt_grammar.specs.Building.{AreBuilt, TermsStay};

use crate::bodies::arity_of;
use crate::rules::Rule;
use rule_arena::{Arena, Key, Label};

// Puts a body into the arena, and returns its root. The stack is room for one key a label.
pub(crate) fn build_body(
    arena: &mut Arena,
    rules: &[Rule],
    body: &[Label],
    stack: &mut [Key],
) -> Key
    requires room { length body.now ≤ arena.old.spare }
    requires term { IsTerm (ranks_of rules.now) body.now }
    requires small { (q : ℕ) → get_or (ranks_of rules.now) q 0 ≤ 8 }
    requires stack { length body.now ≤ length stack.old }
    ensures vacant { term_at arena.old result.number ≡ None }
    ensures built { AreBuilt (ranks_of rules.now) arena.new (result ∷ []) body.now }
    ensures keeps { TermsStay arena.old arena.new }
    ensures spare { arena.new.spare + length body.now ≡ arena.old.spare }
{
    // From the end on: the roots of the terms so far lie in the stack from `top` on, the first one first.
    let mut top = stack.len();
    for i in (0..body.len()).rev() {
        let end = top + arity_of(rules, body[i]);
        let root = arena.add(body[i], &stack[top..end]);
        top = end - 1;
        stack[top] = root;
    }
    stack[top]
}
