// Bytes that are schemas, that are none, and that are at the limits.
use content_models::{SchemaError, read_schema};
use std::alloc::{AllocError, Global};
use std::test::Fail;

static GOOD: [&[u8]; 14] = [
    b"",
    b"\n\n",
    b" \t\r\n",
    b"# a comment",
    b" # with <signs> ( | \xC3\xA9\n",
    b"a = b",
    b" \ta=b\r\n",
    b"a = ()",
    b"a = ( ) ? , b",
    b"a = (b, c?)+ | d* | e",
    b"a = ((((b))))*",
    b"\xC3\xA9 = \xC3\xA8",
    b"a:b = _c-1.2",
    b"a = b\nb = a\n# a = c",
];

static BAD: [&[u8]; 24] = [
    b"a",
    b"a = ",
    b"a = (b",
    b"a = b)",
    b"a b",
    b"a = b c",
    b"a = b,",
    b"a = ,b",
    b"a = b |",
    b"a = | b",
    b"a = b?*",
    b"a = ?",
    b"a = (b,)",
    b"a = ()()",
    b"a = b = c",
    b"= b",
    b"1 = b",
    b"a = -",
    b"a = b # a comment",
    b"# \xFF",
    b"a = \xFF",
    b"a = b\na = b",
    b"a = b\n\n# c\na = c",
    b"(a) = b",
];

#[test]
fn schemas_are_told_from_other_bytes(rt: HostRuntime) {
    for &bytes in &GOOD {
        assert!(rt; read_schema(rt.alloc(), bytes).is_ok(), "{bytes:?}");
    }
    for &bytes in &BAD {
        let is_bad = read_schema(rt.alloc(), bytes).err() == Some(SchemaError::Bad);
        assert!(rt; is_bad, "{bytes:?}");
    }
}

// A schema with a part that is repeated.
struct Long {
    front: &'static [u8],
    part: &'static [u8],
    count: usize,
    middle: &'static [u8],
    later: &'static [u8],
    error: Option<SchemaError>,
}

static LIMITS: [Long; 6] = [
    // 64 names
    Long {
        front: b"a = b",
        part: b", b",
        count: 63,
        middle: b"",
        later: b"",
        error: None,
    },
    // 65
    Long {
        front: b"a = b",
        part: b", b",
        count: 64,
        middle: b"",
        later: b"",
        error: Some(SchemaError::Large),
    },
    // any number of empty parts
    Long {
        front: b"a = b",
        part: b", ()",
        count: 1000,
        middle: b"",
        later: b"",
        error: None,
    },
    // parentheses nested 64 deep
    Long {
        front: b"a = ",
        part: b"(",
        count: 64,
        middle: b"b",
        later: b")",
        error: None,
    },
    // 65
    Long {
        front: b"a = ",
        part: b"(",
        count: 65,
        middle: b"b",
        later: b")",
        error: Some(SchemaError::Large),
    },
    // what is bad behind a limit is bad
    Long {
        front: b"a = b",
        part: b", b",
        count: 64,
        middle: b"\na = b",
        later: b"",
        error: Some(SchemaError::Bad),
    },
];

fn written(alloc: Global, long: &Long) -> Result<Vec<u8>, AllocError> {
    let mut bytes = Vec::new(alloc);
    bytes.extend_from_slice(long.front)?;
    for _ in 0..long.count {
        bytes.extend_from_slice(long.part)?;
    }
    bytes.extend_from_slice(long.middle)?;
    for _ in 0..long.count {
        bytes.extend_from_slice(long.later)?;
    }
    Ok(bytes)
}

#[test]
fn limits_are_kept(rt: HostRuntime) -> Result<(), Fail> {
    for (at, long) in LIMITS.iter().enumerate() {
        let bytes = written(rt.alloc(), long)?;
        let error = read_schema(rt.alloc(), &bytes).err();
        assert!(rt; error == long.error, "row {at}");
    }
    Ok(())
}

// So many models, each of a name of its own.
fn models(alloc: Global, count: u8) -> Result<Vec<u8>, AllocError> {
    let mut bytes = Vec::new(alloc);
    for at in 0..count {
        bytes.push(b'a' + at / 16 % 16)?;
        bytes.push(b'a' + at % 16)?;
        bytes.extend_from_slice(b" = x\n")?;
    }
    Ok(bytes)
}

#[test]
fn a_schema_has_64_models(rt: HostRuntime) -> Result<(), Fail> {
    assert!(rt; read_schema(rt.alloc(), &models(rt.alloc(), 64)?).is_ok());
    let error = read_schema(rt.alloc(), &models(rt.alloc(), 65)?).err();
    assert!(rt; error == Some(SchemaError::Large));
    Ok(())
}
