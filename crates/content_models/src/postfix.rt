// The postfix code of a model.
ghost use Rattle.std.specs.Prelude.{◌≡◌, ◌≤◌, ◌∷◌, []};
ghost use Rattle.content_models.specs.Postfix.{names_in_code};

use plain_tree::Bytes;

/// One operation of the postfix code.
#[derive(Drop)]
pub(crate) enum Op {
    Push(Bytes),
    PushNothing,
    Join,
    Choose,
    MakeOptional,
    MakeAny,
    MakeSome,
}

/// How many names stand in the code.
#[tactic(auto, using(crate::proofs::PostfixCode::names_first))]
pub(crate) fn names_in_code(code: &[Op]) -> usize
    ensures { result ≡ names_in_code code.now }
{
    let mut count = 0;
    'ops: for op in code {
        count += names_in(op);
    }
    count
}

fn names_in(op: &Op) -> usize
    ensures names { result ≡ names_in_code (op.now ∷ []) }
    ensures one { result ≤ 1 }
{
    match op {
        Op::Push(_) => 1,
        _ => 0,
    }
}
