// Symbols of nodes: places in the table of names.
ghost use Rattle.std.specs.Prelude.{◌≡◌, ◌++◌, [], ◌∷◌, List, ℕ, Some, slice_get, OnOk, IfOk};
ghost use Rattle.xml_nodes.specs.Machine.{Event};
ghost use Rattle.fcns_encoding.specs.Calls.{begun_pairs, started_pairs};
ghost use Rattle.fcns_encoding.specs.Folding.{KeepsPairs};
ghost use Rattle.fcns_encoding.specs.Interning.{Interns};

use crate::subterms::short;
use plain_tree::{Kind, Names};
use std::alloc::{AllocError, Global};

// The symbol of a node. The document's comes first. It is refused for want of memory, and where it would have more than 32 bits.
pub(crate) fn symbol(
    alloc: Global,
    names: &mut Names,
    kind: Kind,
    name: &[u8],
) -> Result<u32, AllocError>
    ensures place { IfOk result (λ i. slice_get names.new i ≡ Some (kind, name.now)) }
    ensures keeps { OnOk result (KeepsPairs names.old names.new) }
    ensures named { (log : List Event) → Interns [] (begun_pairs log) names.old → OnOk result (Interns [] (started_pairs log ++ (kind, name.now) ∷ []) names.new) }
{
    begin(alloc, names)?;
    let place = names.intern(alloc, kind, name)?;
    let symbol = short(place)?;
    Ok(symbol)
}

// Puts the document's pair in front of all others.
fn begin(alloc: Global, names: &mut Names) -> Result<(), AllocError>
    ensures keeps { OnOk result (KeepsPairs names.old names.new) }
    ensures started { (log : List Event) → Interns [] (begun_pairs log) names.old → OnOk result (Interns [] (started_pairs log) names.new) }
{
    if names.len() == 0 {
        names.intern(alloc, Kind::Document, b"")?;
    }
    Ok(())
}
