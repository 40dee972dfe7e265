// The calls of the document, kid by kid.
ghost use Rattle.std.specs.Prelude.{◌≡◌, ◌≤◌, ◌+◌, ◌*◌, ◌%◌, ◌∷◌, [], ◌++◌, true, OnOk, codes, decimal};
ghost use Rattle.plain_tree.specs.Tree.{trees};
ghost use Rattle.xml_nodes.specs.Machine.{events, events_all};
ghost use Rattle.record_generator.specs.Records.{digit, element, generated, record_of, tags_of, text};

use itoa::Buffer;
use plain_tree::Kind;
use std::alloc::AllocError;
use xml_nodes::Builder;

/// Makes the calls of the document with so many records, 0 to 200,000. It fails only where the builder does.
pub fn generate<B: Builder>(builder: &mut B, records: u64) -> Result<(), AllocError>
    requires few { records ≤ 200000 }
    requires sound { B.sound builder.old ≡ true }
    ensures calls { OnOk result (B.log builder.new ≡ B.log builder.old ++ events (generated records) []) }
    ensures depth { OnOk result (B.depth builder.new ≡ B.depth builder.old) }
    ensures sound { OnOk result (B.sound builder.new ≡ true) }
{
    builder.open(Kind::Element, b"records")?;
    for number in 0..records {
        put_record(builder, number)?;
    }
    builder.close()
}

/// The calls of one record.
fn put_record<B: Builder>(builder: &mut B, number: u64) -> Result<(), AllocError>
    requires few { number ≤ 200000 }
    requires sound { B.sound builder.old ≡ true }
    ensures calls { OnOk result (B.log builder.new ≡ B.log builder.old ++ events (record_of number) []) }
    ensures depth { OnOk result (B.depth builder.new ≡ B.depth builder.old) }
    ensures sound { OnOk result (B.sound builder.new ≡ true) }
{
    let mut buffer = Buffer::new();
    builder.open(Kind::Element, b"record")?;
    builder.leaf(Kind::Attribute, b"id", buffer.format(number).as_bytes())?;
    put_name(builder, number)?;
    put_tags(builder, number)?;
    put_value(builder, number)?;
    builder.close()
}

fn put_name<B: Builder>(builder: &mut B, number: u64) -> Result<(), AllocError>
    requires sound { B.sound builder.old ≡ true }
    ensures calls { OnOk result (B.log builder.new ≡ B.log builder.old ++ events (element (codes "name") (text (codes "n" ++ digit (number % 10)) ∷ [])) []) }
    ensures depth { OnOk result (B.depth builder.new ≡ B.depth builder.old) }
    ensures sound { OnOk result (B.sound builder.new ≡ true) }
{
    let name = [b'n', last_digit(number)];
    builder.open(Kind::Element, b"name")?;
    builder.leaf(Kind::Text, b"", &name)?;
    builder.close()
}

fn last_digit(number: u64) -> u8
    ensures { result ≡ 48 + number % 10 }
{
    b'0' + (number % 10) as u8
}

// An element without kids, at every third record.
fn put_tags<B: Builder>(builder: &mut B, number: u64) -> Result<(), AllocError>
    requires sound { B.sound builder.old ≡ true }
    ensures calls { OnOk result (B.log builder.new ≡ B.log builder.old ++ events_all (trees (tags_of number)) []) }
    ensures depth { OnOk result (B.depth builder.new ≡ B.depth builder.old) }
    ensures sound { OnOk result (B.sound builder.new ≡ true) }
{
    if number % 3 != 0 {
        return Ok(());
    }
    builder.open(Kind::Element, b"tag")?;
    builder.close()
}

fn put_value<B: Builder>(builder: &mut B, number: u64) -> Result<(), AllocError>
    requires few { number ≤ 200000 }
    requires sound { B.sound builder.old ≡ true }
    ensures calls { OnOk result (B.log builder.new ≡ B.log builder.old ++ events (element (codes "value") (text (decimal (number * 37 % 101)) ∷ [])) []) }
    ensures depth { OnOk result (B.depth builder.new ≡ B.depth builder.old) }
    ensures sound { OnOk result (B.sound builder.new ≡ true) }
{
    let mut buffer = Buffer::new();
    builder.open(Kind::Element, b"value")?;
    builder.leaf(Kind::Text, b"", buffer.format(number * 37 % 101).as_bytes())?;
    builder.close()
}
