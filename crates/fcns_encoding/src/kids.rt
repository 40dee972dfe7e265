// The kids of an element, taken from the stack.
ghost use Rattle.std.specs.Prelude.{◌≡◌, ◌∷◌, ◌+◌, List, ℕ, IfOk, is_some, if◌then◌else◌};
ghost use Rattle.xml_nodes.specs.Machine.{Event};
ghost use Rattle.fcns_encoding.specs.Cells.{terms_of, AreUsed};
ghost use Rattle.fcns_encoding.specs.Folding.{Builds, Taken, waiting, begun_in};
ghost use Rattle.fcns_encoding.specs.Interning.{Pair};

use crate::part::Part;
use crate::subterms::Subterms;
use std::alloc::AllocError;

// The kids of what was begun last.
#[derive(Drop)]
pub(crate) struct Kids {
    // the number of their code
    pub(crate) code: u32,
    // the symbol of the element around them, and none for the document
    pub(crate) begun: Option<u32>,
}

// Takes from the stack the whole nodes on top, and the element below them. From their end on: the code of a node stands over the
// code of its kids and the code of the nodes behind it.
pub(crate) fn take_kids(subterms: &mut Subterms, stack: &mut Vec<Part>) -> Result<Kids, AllocError>
    requires { (names : List Pair) × (log : List Event) × Builds names (terms_of subterms.old) stack.old.items log }
    ensures taken { (names : List Pair) (log : List Event) → Builds names (terms_of subterms.old) stack.old.items log
        → IfOk result (λ k. Taken names (terms_of subterms.new) stack.new.items log k.code k.begun) }
    ensures used { AreUsed subterms.old (waiting stack.old.items) → IfOk result (λ k. AreUsed subterms.new (k.code ∷ waiting stack.new.items)) }
    ensures depth { IfOk result (λ k. begun_in stack.old.items ≡ begun_in stack.new.items + (if is_some k.begun then 1 else 0)) }
{
    let mut code = 0;
    while let Some(part) = stack.pop() {
        match part {
            Part::Begun(symbol) => {
                return Ok(Kids {
                    code,
                    begun: Some(symbol),
                });
            }
            Part::Whole(symbol, below) => code = subterms.node(symbol, below, code)?,
        }
    }
    Ok(Kids { code, begun: None })
}
