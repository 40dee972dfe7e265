// A deep term that is freed.
ghost use Rattle.std.specs.Prelude.{◌<◌};
ghost use Rattle.rule_arena.specs.Terms.{IsRoot};

use rule_arena::Label::{Call, Param};
use rule_arena::{Arena, Key};
use std::test::Fail;

const DEPTH: usize = 1_000_000;

// Calls of one rule over one another, so many deep.
fn chain(arena: &mut Arena, depth: usize) -> Key
    requires { depth < arena.old.spare }
    ensures { IsRoot arena.new result }
{
    let mut root = arena.add(Param, &[]);
    for _i in 0..depth {
        root = arena.add(Call(7), &[root]);
    }
    root
}

#[test]
fn deep_chain_is_freed(rt: HostRuntime) -> Result<(), Fail> {
    let mut arena = Arena::new(rt.alloc());
    arena.reserve(DEPTH + 1)?;
    let limit = arena.limit();
    let root = chain(&mut arena, DEPTH);
    arena.cut(root);
    assert!(rt; arena.limit() == limit);
    Ok(())
}
