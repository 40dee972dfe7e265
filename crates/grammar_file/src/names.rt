// The names of a file.
ghost use Rattle.std.specs.Prelude.{◌≡◌, [], ◌∷◌};
ghost use Rattle.plain_tree.specs.Lawful.{IsLawfulName};
ghost use Rattle.plain_tree.specs.Tree.{kind_code};
ghost use Rattle.grammar_file.specs.FileBytes.{list_bytes, name_bytes};
ghost use Rattle.grammar_file.specs.Files.{AreNames};
ghost use Rattle.grammar_file.specs.Reading.{Reads, ReadsAs};

use crate::error::FileError;
use crate::scan::Scan;
use plain_tree::{Kind, Names};
use std::alloc::Global;
use xml_nodes::is_lawful_name;

/// The names, in order.
pub(crate) fn read_names(alloc: Global, scan: &mut Scan<'_>) -> Result<Names, FileError>
    ensures { Reads AreNames (list_bytes name_bytes) scan.old result scan.new }
{
    let count = scan.count()?;
    let mut names = Names::new(alloc);
    for _ in 0..count {
        let (kind, name) = read_name(scan)?;
        if names.find(kind, name).is_some() {
            return Err(FileError::Bad);
        }
        names.intern(alloc, kind, name)?;
    }
    Ok(names)
}

// A kind and a name that is lawful for it.
fn read_name<'a>(scan: &mut Scan<'a>) -> Result<(Kind, &'a [u8]), FileError>
    ensures { ReadsAs (λ (kind, name). (kind, name.now)) (λ (kind, name). IsLawfulName kind name) name_bytes scan.old result scan.new }
{
    let kind = read_kind(scan)?;
    let name = scan.text()?;
    if !is_lawful_name(kind, name) {
        return Err(FileError::Bad);
    }
    Ok((kind, name))
}

fn read_kind(scan: &mut Scan<'_>) -> Result<Kind, FileError>
    ensures { Reads (λ _. Unit {0}) (λ kind. kind_code kind ∷ []) scan.old result scan.new }
{
    match scan.byte()? {
        0 => Ok(Kind::Document),
        1 => Ok(Kind::Element),
        2 => Ok(Kind::Attribute),
        3 => Ok(Kind::Text),
        4 => Ok(Kind::Comment),
        5 => Ok(Kind::Instruction),
        _ => Err(FileError::Bad),
    }
}
