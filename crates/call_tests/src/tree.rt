// Deep trees that are freed.
use std::alloc::{AllocError, Global};
use std::test::Fail;
use xml_profile::read_document;

// A document of so many levels, with what begins and ends each.
struct Shape {
    levels: usize,
    begins: &'static [u8],
    ends: &'static [u8],
}

// With leaves before and behind the deep kid of each node too. A stack that is used at each level would not hold the first.
static SHAPES: [Shape; 3] = [
    Shape {
        levels: 200_000,
        begins: b"<a>",
        ends: b"</a>",
    },
    Shape {
        levels: 50_000,
        begins: b"<a><b/>",
        ends: b"</a>",
    },
    Shape {
        levels: 50_000,
        begins: b"<a>",
        ends: b"<b/></a>",
    },
];

fn spelled(alloc: Global, shape: &Shape) -> Result<Vec<u8>, AllocError> {
    let mut bytes = Vec::new(alloc);
    for _ in 0..shape.levels {
        bytes.extend_from_slice(shape.begins)?;
    }
    for _ in 0..shape.levels {
        bytes.extend_from_slice(shape.ends)?;
    }
    Ok(bytes)
}

#[test]
fn deep_trees_are_freed(rt: HostRuntime) -> Result<(), Fail> {
    for shape in &SHAPES {
        let bytes = spelled(rt.alloc(), shape)?;
        let document = read_document(rt.alloc(), &bytes)?;
        assert!(rt; document.kids.len() == 1);
    }
    Ok(())
}
