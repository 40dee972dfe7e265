// Queries, each with what it is written out to, and bytes that are none.
use std::alloc::Global;
use xpath_parser::{QueryError, parse};

mod limits;

static GOOD: [(&[u8], &str); 82] = [
    // path
    (b"/", "/"),
    (b"/a", "/child::a"),
    (b"a", "/child::a"),
    (b"//a", "/descendant-or-self::node()/child::a"),
    (b"a/b", "/child::a/child::b"),
    (b"a//b", "/child::a/descendant-or-self::node()/child::b"),
    (b"a|b", "/child::a | /child::b"),
    (
        b"/|//a|b",
        "/ | /descendant-or-self::node()/child::a | /child::b",
    ),
    // step and axis
    (b".", "/self::node()"),
    (b"/.", "/self::node()"),
    (
        b".//a/.",
        "/self::node()/descendant-or-self::node()/child::a/self::node()",
    ),
    (b"@x", "/attribute::x"),
    (b"a/@*", "/child::a/attribute::*"),
    (b"child::a", "/child::a"),
    (b"descendant::a", "/descendant::a"),
    (b"descendant-or-self::a", "/descendant-or-self::a"),
    (b"self::a", "/self::a"),
    (b"following-sibling::a", "/following-sibling::a"),
    (b"attribute::a", "/attribute::a"),
    (b"self::node()[a]", "/self::node()[child::a]"),
    // test
    (b"*", "/child::*"),
    (b"node()", "/child::node()"),
    (b"text()", "/child::text()"),
    (b"comment()", "/child::comment()"),
    (
        b"@processing-instruction()",
        "/attribute::processing-instruction()",
    ),
    (b"a:b", "/child::a:b"),
    (b"descendant::a:b", "/descendant::a:b"),
    (b"_a-b.c1", "/child::_a-b.c1"),
    // names that are signs, tests, truths or axes elsewhere
    (b"or", "/child::or"),
    (b"and/or", "/child::and/child::or"),
    (b"not", "/child::not"),
    (b"text/true", "/child::text/child::true"),
    (b"child/self", "/child::child/child::self"),
    (b"child::child", "/child::child"),
    (b"or:and", "/child::or:and"),
    (b"@or", "/attribute::or"),
    // filter
    (b"a[b]", "/child::a[child::b]"),
    (
        b"a[b][c]/d[e]",
        "/child::a[child::b][child::c]/child::d[child::e]",
    ),
    (
        b"a[b/c//d]",
        "/child::a[child::b/child::c/descendant-or-self::node()/child::d]",
    ),
    (b"a[b|c]", "/child::a[child::b | child::c]"),
    (b"a[b[c]/d]", "/child::a[child::b[child::c]/child::d]"),
    (b"a[.]", "/child::a[self::node()]"),
    (
        b"a[.//@x]",
        "/child::a[self::node()/descendant-or-self::node()/attribute::x]",
    ),
    // or and and
    (b"a[b or c]", "/child::a[(child::b or child::c)]"),
    (b"a[b and c]", "/child::a[(child::b and child::c)]"),
    (
        b"a[b or c and d]",
        "/child::a[(child::b or (child::c and child::d))]",
    ),
    (
        b"a[b and c or d]",
        "/child::a[((child::b and child::c) or child::d)]",
    ),
    (
        b"a[b or c or d]",
        "/child::a[((child::b or child::c) or child::d)]",
    ),
    (
        b"a[b and c and d]",
        "/child::a[((child::b and child::c) and child::d)]",
    ),
    (
        b"a[b|c and d|e]",
        "/child::a[(child::b | child::c and child::d | child::e)]",
    ),
    (b"a[and]", "/child::a[child::and]"),
    (b"a[or or or]", "/child::a[(child::or or child::or)]"),
    (b"a[and and and]", "/child::a[(child::and and child::and)]"),
    (
        b"a[b[c]or d]",
        "/child::a[(child::b[child::c] or child::d)]",
    ),
    (b"a[*and*]", "/child::a[(child::* and child::*)]"),
    (b"a[b or(c)]", "/child::a[(child::b or child::c)]"),
    (b"a[b and(c)]", "/child::a[(child::b and child::c)]"),
    (b"a[(b)or(c)]", "/child::a[(child::b or child::c)]"),
    // unit
    (b"a[not(b)]", "/child::a[not(child::b)]"),
    (b"a[not(b or c)]", "/child::a[not((child::b or child::c))]"),
    (
        b"a[not(not(b))and c]",
        "/child::a[(not(not(child::b)) and child::c)]",
    ),
    (b"a[true()]", "/child::a[true()]"),
    (b"a[false()or true()]", "/child::a[(false() or true())]"),
    (b"a[(((b)))]", "/child::a[child::b]"),
    (
        b"a[(b or c) and d]",
        "/child::a[((child::b or child::c) and child::d)]",
    ),
    (b"a[not]", "/child::a[child::not]"),
    // white space
    (b" \t\r\n/ \n a ", "/child::a"),
    (b"a [ b ] / @ x", "/child::a[child::b]/attribute::x"),
    (b"child :: text ( ) | .", "/child::text() | /self::node()"),
    (
        b"a[ not ( true ( ) ) and\nb]",
        "/child::a[(not(true()) and child::b)]",
    ),
    // names of XML 1.0, 2.3, in UTF-8: e acute, a middle dot, the first and the last that may begin one
    (b"\xC3\xA9/a\xC2\xB7", "/child::\u{E9}/child::a\u{B7}"),
    (b"\xC3\x80:\xF3\xAF\xBF\xBF", "/child::\u{C0}:\u{EFFFF}"),
    (b"\xEF\xBB\xBFa", "/child::\u{FEFF}a"),
    (b"@\xE2\x82\xAC", "/attribute::\u{20AC}"),
    (
        b"a[\xE3\x80\x81 or b]",
        "/child::a[(child::\u{3001} or child::b)]",
    ),
    // comparison
    (b"a[text()='x']", "/child::a[child::text()=\"x\"]"),
    (b"a[ @ id = '\"' ]", "/child::a[attribute::id='\"']"),
    (
        b"a[child :: text ( ) = \"it's\"]",
        "/child::a[child::text()=\"it's\"]",
    ),
    (
        b"a[attribute::b:c=''and b]",
        "/child::a[(attribute::b:c=\"\" and child::b)]",
    ),
    (
        b"a[not(@or='&amp;]')]",
        "/child::a[not(attribute::or=\"&amp;]\")]",
    ),
    (
        b"a[@text='\xC3\xA4' or @b]",
        "/child::a[(attribute::text=\"\u{e4}\" or attribute::b)]",
    ),
    (b"a[(text()='1')]", "/child::a[child::text()=\"1\"]"),
];

static BAD: [&[u8]; 113] = [
    // path
    b"",
    b" ",
    b"//",
    b"/ /a",
    b"///a",
    b"a/",
    b"a//",
    b"/a//",
    b"|",
    b"a|",
    b"|a",
    b"a||b",
    b"a b",
    b"a/b c",
    // step and axis
    b"..",
    b"../a",
    b"a/..",
    b".a",
    b". a",
    b".[a]",
    b"a/.[b]",
    b"@",
    b"@@a",
    b"@.",
    b"@child::a",
    b"child::",
    b"child::.",
    b"child::@a",
    b"child::child::a",
    b"parent::a",
    b"foo::a",
    b"a:b::c",
    b"child: :a",
    b"::a",
    // test
    b"f()",
    b"a(b)",
    b"text(a)",
    b"text(",
    b"text()()",
    b"position()",
    b"processing-instruction('a')",
    b"**",
    b"a*",
    // names
    b":",
    b":a",
    b"a:",
    b"a: b",
    b"a :b",
    b"a:b:c",
    b"a:*",
    b"a:1",
    b"1",
    b"1a",
    b"-a",
    b"a\x00",
    b"\xC3",
    b"a\xC3",
    b"\xC3a",
    b"a\xC3(",
    b"\xC0\xAF",
    b"\xED\xA0\x80",
    b"\xC3\x97",
    b"a\xC3\x97",
    b"\xC2\xB7a",
    b"a:\xC2\xB7b",
    b"a\xC2\xA0/b",
    // filter
    b"a[",
    b"a]",
    b"a[]",
    b"[a]",
    b"a[b",
    b"a[b]]",
    b"a[/]",
    b"a[/b]",
    b"a[b|/c]",
    b"a[(b)|c]",
    b"a[1]",
    b"a[b='c']",
    b"a[b c]",
    b"a[b]c",
    // or, and, unit
    b"a[b or]",
    b"a[or(b)]",
    b"a[and b]",
    b"a[b or or(c)]",
    b"a or b",
    b"not(a)",
    b"a[not()]",
    b"a[(b]",
    b"a[b)]",
    // comparison
    b"a[@id=7]",
    b"a[@id='7]",
    b"a[@id=\"7']",
    b"a/@id='x'",
    b"a[b/@id='x']",
    b"a[./text()='x']",
    b"a[@*='x']",
    b"a[text()='x'/b]",
    b"a[text()='x'|b]",
    b"a[b|text()='x']",
    b"a[text()='\x01']",
    b"a[text()='\xC3']",
    b"a[text()=]",
    b"a[text()='x'[b]]",
    b"a[node()='x']",
    b"a[@text()='x']",
    b"text()='x'",
    b"a[.='x']",
    b"a[self::text()='x']",
    b"a[child::b='x']",
    b"a[text()='x'='y']",
    b"a['x'=text()]",
    b"a[text()!='x']",
    b"a['x']",
];

// Queries, each with the values that it compares with.
static LITERALS: [(&[u8], &[&[u8]]); 5] = [
    (b"a[b]", &[]),
    (b"a[text()='x']", &[b"x"]),
    (
        b"a[@id='y' or not(text()=\"x\")][@id='']",
        &[b"y", b"x", b""],
    ),
    (b"a[@b='x' and c[@d='y']]/e[@f='x']", &[b"x", b"y", b"x"]),
    (b"a[b | c[text()='&amp;']] | d[@e='\"']", &[b"&amp;", b"\""]),
];

// Whether a query compares with these values, in this order.
fn compares_with(alloc: Global, query: &[u8], values: &[&[u8]]) -> bool {
    let Ok(query) = parse(alloc, query) else {
        return false;
    };
    let literals = query.literals();
    if literals.len() != values.len() || query.compares() == values.is_empty() {
        return false;
    }
    for (at, value) in values.iter().enumerate() {
        if literals[at].as_slice() != *value {
            return false;
        }
    }
    true
}

// Whether a query is written out so.
fn is_written_as(alloc: Global, query: &[u8], text: &str) -> bool {
    let Ok(query) = parse(alloc, query) else {
        return false;
    };
    match format!(in alloc; "{query}") {
        Ok(out) => out.as_str() == text,
        Err(_) => false,
    }
}

// What a query is written out to is a query too, which is written out to itself.
#[test]
fn good_queries_are_written_out(rt: HostRuntime) {
    for &(query, text) in &GOOD {
        assert!(rt; is_written_as(rt.alloc(), query, text), "{text}");
        assert!(rt; is_written_as(rt.alloc(), text.as_bytes(), text), "{text}");
    }
}

#[test]
fn others_are_bad(rt: HostRuntime) {
    for &query in &BAD {
        let is_bad = parse(rt.alloc(), query).err() == Some(QueryError::Bad);
        assert!(rt; is_bad, "{query:?}");
    }
}

#[test]
fn queries_tell_what_they_compare_with(rt: HostRuntime) {
    for &(query, values) in &LITERALS {
        assert!(rt; compares_with(rt.alloc(), query, values), "{query:?}");
    }
}
