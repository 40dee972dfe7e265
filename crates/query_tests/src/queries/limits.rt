// Queries at their limits, and long and deep ones.
use std::alloc::{AllocError, Global};
use std::test::Fail;
use xpath_parser::{QueryError, parse};

// A query with parts that are repeated: the front, so many times the first part, the middle, as often the second part, the end.
struct Long {
    front: &'static [u8],
    first: &'static [u8],
    count: usize,
    middle: &'static [u8],
    second: &'static [u8],
    end: &'static [u8],
    error: Option<QueryError>,
}

static LIMITS: [Long; 29] = [
    // 64 steps outside filters
    Long {
        front: b"a",
        first: b"/a",
        count: 63,
        middle: b"",
        second: b"",
        end: b"",
        error: None,
    },
    // 65
    Long {
        front: b"a",
        first: b"/a",
        count: 64,
        middle: b"",
        second: b"",
        end: b"",
        error: Some(QueryError::Large),
    },
    // // is two, with the step behind it
    Long {
        front: b"",
        first: b"//a",
        count: 32,
        middle: b"",
        second: b"",
        end: b"",
        error: None,
    },
    Long {
        front: b"",
        first: b"//a",
        count: 32,
        middle: b"",
        second: b"",
        end: b"/a",
        error: Some(QueryError::Large),
    },
    // paths count together, and | and / alone count nothing
    Long {
        front: b"/",
        first: b"|a",
        count: 64,
        middle: b"",
        second: b"",
        end: b"",
        error: None,
    },
    Long {
        front: b"/",
        first: b"|a",
        count: 65,
        middle: b"",
        second: b"",
        end: b"",
        error: Some(QueryError::Large),
    },
    // 64 parts in filters: 32 steps, 31 or, one true()
    Long {
        front: b"a[b",
        first: b" or b",
        count: 31,
        middle: b"",
        second: b"",
        end: b"][true()]",
        error: None,
    },
    Long {
        front: b"a[b",
        first: b" or b",
        count: 31,
        middle: b"",
        second: b"",
        end: b"][true()]/c[false()]",
        error: Some(QueryError::Large),
    },
    Long {
        front: b"a[b",
        first: b"|b",
        count: 31,
        middle: b"",
        second: b"",
        end: b"][c]",
        error: None,
    },
    Long {
        front: b"a[b",
        first: b"|b",
        count: 31,
        middle: b"",
        second: b"",
        end: b"][c/d]",
        error: Some(QueryError::Large),
    },
    Long {
        front: b"a[b",
        first: b"//b",
        count: 31,
        middle: b"",
        second: b"",
        end: b"/c]",
        error: None,
    },
    // not counts, parentheses count nothing
    Long {
        front: b"a[",
        first: b"not(",
        count: 63,
        middle: b"b",
        second: b")",
        end: b"]",
        error: None,
    },
    Long {
        front: b"a[",
        first: b"not(",
        count: 64,
        middle: b"b",
        second: b")",
        end: b"]",
        error: Some(QueryError::Large),
    },
    Long {
        front: b"a[",
        first: b"(",
        count: 1000,
        middle: b"b",
        second: b")",
        end: b"]",
        error: None,
    },
    // filters in filters
    Long {
        front: b"a",
        first: b"[b",
        count: 64,
        middle: b"",
        second: b"]",
        end: b"",
        error: None,
    },
    Long {
        front: b"a",
        first: b"[b",
        count: 65,
        middle: b"",
        second: b"]",
        end: b"",
        error: Some(QueryError::Large),
    },
    // each limit for itself
    Long {
        front: b"a",
        first: b"/a",
        count: 63,
        middle: b"[b",
        second: b"/b",
        end: b"]",
        error: None,
    },
    Long {
        front: b"a",
        first: b"/a",
        count: 63,
        middle: b"[b",
        second: b"/b",
        end: b"/b]",
        error: Some(QueryError::Large),
    },
    // what is bad is never large
    Long {
        front: b"a",
        first: b"/a",
        count: 1000,
        middle: b"",
        second: b"",
        end: b"/",
        error: Some(QueryError::Bad),
    },
    Long {
        front: b"a[b",
        first: b" or b",
        count: 1000,
        middle: b"",
        second: b"",
        end: b"",
        error: Some(QueryError::Bad),
    },
    // deep
    Long {
        front: b"",
        first: b"(",
        count: 100_000,
        middle: b"",
        second: b"",
        end: b"",
        error: Some(QueryError::Bad),
    },
    Long {
        front: b"a[",
        first: b"(",
        count: 10_000,
        middle: b"b",
        second: b")",
        end: b"]",
        error: None,
    },
    Long {
        front: b"",
        first: b"a[",
        count: 10_000,
        middle: b"b",
        second: b"]",
        end: b"",
        error: Some(QueryError::Large),
    },
    Long {
        front: b"a[",
        first: b"not(",
        count: 10_000,
        middle: b"b",
        second: b")",
        end: b"]",
        error: Some(QueryError::Large),
    },
    // long
    Long {
        front: b"a[b",
        first: b" or b",
        count: 25_000,
        middle: b"",
        second: b"",
        end: b"]",
        error: Some(QueryError::Large),
    },
    Long {
        front: b"a[b",
        first: b" or b",
        count: 10_000,
        middle: b"",
        second: b"",
        end: b"",
        error: Some(QueryError::Bad),
    },
    Long {
        front: b"a[b",
        first: b"]/c[d",
        count: 10_000,
        middle: b"",
        second: b"",
        end: b"]",
        error: Some(QueryError::Large),
    },
    // one long name, and much white space
    Long {
        front: b"a",
        first: b"b",
        count: 10_000,
        middle: b":c",
        second: b"d",
        end: b"",
        error: None,
    },
    Long {
        front: b"a",
        first: b" ",
        count: 10_000,
        middle: b"/",
        second: b" ",
        end: b"b",
        error: None,
    },
];

fn spelled(alloc: Global, long: &Long) -> Result<Vec<u8>, AllocError> {
    let mut query = long.front.to_vec(alloc)?;
    for _ in 0..long.count {
        query.extend_from_slice(long.first)?;
    }
    query.extend_from_slice(long.middle)?;
    for _ in 0..long.count {
        query.extend_from_slice(long.second)?;
    }
    query.extend_from_slice(long.end)?;
    Ok(query)
}

#[test]
fn queries_have_limits_and_take_no_stack(rt: HostRuntime) -> Result<(), Fail> {
    for (row, long) in LIMITS.iter().enumerate() {
        let query = spelled(rt.alloc(), long)?;
        let error = parse(rt.alloc(), &query).err();
        assert!(rt; error == long.error, "row {row}");
    }
    Ok(())
}
