// What the symbols of a table of names tell for a new name.
ghost use Rattle.std.specs.Prelude.{◌≡◌, ◌↔◌, ℕ, List, true, IfOk, IsTrue};
ghost use Rattle.std.specs.List.{AllZip};
ghost use Rattle.plain_tree.specs.Lawful.{IsLawfulName};
ghost use Rattle.bulk_rewrite.specs.NewNames.{IsRenamedSymbol, TellsKnown};
ghost use Rattle.bulk_rewrite.specs.Refusing.{IsSignFor, is_attribute, is_renamable};

use crate::refusing::Sign;
use plain_tree::{Kind, Names};
use std::alloc::{AllocError, Global};
use xml_nodes::is_lawful_name;

// For each symbol whether its nodes may have the name.
pub(crate) fn refusing_signs(
    alloc: Global,
    names: &Names,
    name: &[u8],
) -> Result<Vec<Sign>, AllocError>
    ensures { IfOk result (λ signs. AllZip (IsSignFor name.now) names.now signs.items) }
{
    let mut signs = Vec::new(alloc);
    'names: for symbol in 0..names.len() {
        let Some((kind, old)) = names.at(symbol) else {
            unreachable!()
        };
        signs.push(refusing_sign(kind, old, name))?;
    }
    Ok(signs)
}

fn refusing_sign(kind: Kind, old: &[u8], name: &[u8]) -> Sign
    ensures { IsSignFor name.now (kind, old.now) result }
{
    Sign {
        allowed: may_have(kind, name),
        attribute: is_attribute(kind),
        same: old == name,
    }
}

fn may_have(kind: Kind, name: &[u8]) -> bool
    ensures { IsTrue result ↔ ((is_renamable kind ≡ true) × IsLawfulName kind name.now) }
{
    match kind {
        Kind::Element | Kind::Attribute | Kind::Instruction => is_lawful_name(kind, name),
        Kind::Document | Kind::Text | Kind::Comment => false,
    }
}

fn is_attribute(kind: Kind) -> bool
    ensures { result ≡ is_attribute kind }
{
    matches!(kind, Kind::Attribute)
}

// For each symbol whether the table has its kind with the name.
pub(crate) fn known_signs(
    alloc: Global,
    names: &Names,
    name: &[u8],
) -> Result<Vec<Sign>, AllocError>
    ensures { IfOk result (λ signs. AllZip (TellsKnown names.now name.now) names.now signs.items) }
{
    let mut signs = Vec::new(alloc);
    'names: for symbol in 0..names.len() {
        let Some((kind, _)) = names.at(symbol) else {
            unreachable!()
        };
        signs.push(known_sign(names, kind, name))?;
    }
    Ok(signs)
}

fn known_sign(names: &Names, kind: Kind, name: &[u8]) -> Sign
    ensures { (old : List ℕ) → TellsKnown names.now name.now (kind, old) result }
{
    Sign {
        allowed: names.find(kind, name).is_some(),
        attribute: false,
        same: false,
    }
}

// For each symbol that of its kind with the name, where the table has it.
pub(crate) fn new_symbols(
    alloc: Global,
    names: &Names,
    name: &[u8],
) -> Result<Vec<usize>, AllocError>
    ensures { IfOk result (λ symbols. AllZip (IsRenamedSymbol names.now name.now) names.now symbols.items) }
{
    let mut symbols = Vec::new(alloc);
    'names: for symbol in 0..names.len() {
        let Some((kind, _)) = names.at(symbol) else {
            unreachable!()
        };
        symbols.push(new_symbol(names, kind, name, symbol))?;
    }
    Ok(symbols)
}

// That of the kind with the name, where the table has it, else this one.
fn new_symbol(names: &Names, kind: Kind, name: &[u8], symbol: usize) -> usize
    ensures { (old : List ℕ) → IsRenamedSymbol names.now name.now (kind, old) result }
{
    names.find(kind, name).unwrap_or(symbol)
}
