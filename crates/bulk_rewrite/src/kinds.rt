// The kinds of the symbols of a table of names.
ghost use Rattle.std.specs.Prelude.{◌≡◌, IfOk, map};
ghost use Rattle.bulk_rewrite.specs.Joining.{is_element, is_text};

use plain_tree::{Kind, Names};
use std::alloc::{AllocError, Global};

pub(crate) fn kinds_of(alloc: Global, names: &Names) -> Result<Vec<Kind>, AllocError>
    ensures { IfOk result (λ kinds. kinds.items ≡ map (λ p. p.0) names.now) }
{
    let mut kinds = Vec::new(alloc);
    'names: for symbol in 0..names.len() {
        let Some((kind, _)) = names.at(symbol) else {
            unreachable!()
        };
        kinds.push(kind)?;
    }
    Ok(kinds)
}

pub(crate) fn is_text(kind: Kind) -> bool
    ensures { result ≡ is_text kind }
{
    matches!(kind, Kind::Text)
}

pub(crate) fn is_element(kind: Kind) -> bool
    ensures { result ≡ is_element kind }
{
    matches!(kind, Kind::Element)
}
