// Attributes: their quotes, their values, and that no name stands twice in a tag.
use super::vectors::Outcome::{Bad, Loaded};
use super::vectors::Vector;

pub(super) static VECTORS: [Vector; 39] = [
    (
        "Attribute (41)",
        b"<a b=\"1\" c='2'/>",
        Loaded(4, b"<a b=\"1\" c=\"2\"/>\n"),
    ),
    (
        "Attribute (41): at a start tag",
        b"<a b='1'><c d=''/></a>",
        Loaded(5, b"<a b=\"1\"><c d=\"\"/></a>\n"),
    ),
    (
        "Attribute (41): the order stays",
        b"<a c='1' b='2' a='3'></a>",
        Loaded(5, b"<a c=\"1\" b=\"2\" a=\"3\"/>\n"),
    ),
    (
        "Eq (25)",
        b"<a b = \"1\"\tc\n=\r\n'2' />",
        Loaded(4, b"<a b=\"1\" c=\"2\"/>\n"),
    ),
    (
        "AttValue (10): the other quote",
        b"<a b='\"' c=\"'\"/>",
        Loaded(4, b"<a b=\"&quot;\" c=\"'\"/>\n"),
    ),
    (
        "AttValue (10): > and ]]>",
        b"<a b=\"x>y]]>z\"/>",
        Loaded(3, b"<a b=\"x>y]]>z\"/>\n"),
    ),
    (
        "AttValue (10): beyond ASCII",
        b"<a \xC3\xA9=\"\xE2\x82\xAC\xF0\x9F\x98\x80\"/>",
        Loaded(3, b"<a \xC3\xA9=\"\xE2\x82\xAC\xF0\x9F\x98\x80\"/>\n"),
    ),
    (
        "AttValue (10): markup without <",
        b"<a b=\"/>\" c=\"--> ?>\"/>",
        Loaded(4, b"<a b=\"/>\" c=\"--> ?>\"/>\n"),
    ),
    (
        "3.3.3: white space",
        b"<a b='x\ty\nz w'/>",
        Loaded(3, b"<a b=\"x y z w\"/>\n"),
    ),
    (
        "3.3.3: line ends",
        b"<a b='\r\n' c='\r\r\n\n' d='\r'/>",
        Loaded(5, b"<a b=\" \" c=\"   \" d=\" \"/>\n"),
    ),
    (
        "3.3.3: nothing is trimmed",
        b"<a b=\"  x  y  \"/>",
        Loaded(3, b"<a b=\"  x  y  \"/>\n"),
    ),
    (
        "3.3.3: references to white space",
        b"<a b='&#9;&#10;&#13;&#32;'/>",
        Loaded(3, b"<a b=\"&#x9;&#xA;&#xD; \"/>\n"),
    ),
    (
        "3.3.3: a reference to #xD before #xA",
        b"<a b='&#xD;\n'/>",
        Loaded(3, b"<a b=\"&#xD; \"/>\n"),
    ),
    (
        "Reference (67)",
        b"<a b='&lt;&gt;&amp;&apos;&quot;&#x41;'/>",
        Loaded(3, b"<a b=\"&lt;>&amp;'&quot;A\"/>\n"),
    ),
    (
        "3.3.3: a reference is read once",
        b"<a b='&#38;lt;&amp;#65;'/>",
        Loaded(3, b"<a b=\"&amp;lt;&amp;#65;\"/>\n"),
    ),
    (
        "2.10: xml:space is an attribute",
        b"<a xml:space='preserve' xml:lang=''> </a>",
        Loaded(5, b"<a xml:space=\"preserve\" xml:lang=\"\"> </a>\n"),
    ),
    (
        "Unique Att Spec: case, prefixes",
        b"<a b='1' B='2' x:b='3' y:b='4'/>",
        Loaded(6, b"<a b=\"1\" B=\"2\" x:b=\"3\" y:b=\"4\"/>\n"),
    ),
    (
        "Unique Att Spec: two spellings of one sign",
        b"<a \xC3\xA9='1' e\xCC\x81='2'/>",
        Loaded(4, b"<a \xC3\xA9=\"1\" e\xCC\x81=\"2\"/>\n"),
    ),
    (
        "Unique Att Spec: another element",
        b"<a b='1'><a b='1'/></a>",
        Loaded(5, b"<a b=\"1\"><a b=\"1\"/></a>\n"),
    ),
    (
        "Unique Att Spec: twenty",
        b"<a a='' b='' c='' d='' e='' f='' g='' h='' i='' j='' k='' l='' m='' n='' o='' p='' q='' r='' s='' t=''/>",
        Loaded(
            22,
            b"<a a=\"\" b=\"\" c=\"\" d=\"\" e=\"\" f=\"\" g=\"\" h=\"\" i=\"\" j=\"\" k=\"\" l=\"\" m=\"\" n=\"\" o=\"\" p=\"\" q=\"\" r=\"\" s=\"\" t=\"\"/>\n",
        ),
    ),
    (
        "Unique Att Spec: twenty and the first",
        b"<a a='' b='' c='' d='' e='' f='' g='' h='' i='' j='' k='' l='' m='' n='' o='' p='' q='' r='' s='' t='' a=''/>",
        Bad(0),
    ),
    (
        "Unique Att Spec: one value",
        b"<a b='1' c='2' b='1'></a>",
        Bad(0),
    ),
    (
        "Unique Att Spec: inside",
        b"<a><b c='' d='' d=''/></a>",
        Bad(3),
    ),
    (
        "No < in Attribute Values: behind a reference",
        b"<a b='&lt;<'/>",
        Bad(0),
    ),
    ("AttValue (10): &", b"<a b='&'/>", Bad(0)),
    ("AttValue (10): no ;", b"<a b='&amp'/>", Bad(0)),
    ("Entity Declared", b"<a><b c='&d;'/></a>", Bad(3)),
    ("Legal Character", b"<a b='&#0;'/>", Bad(0)),
    ("AttValue (10): no quotes", b"<a b=1/>", Bad(0)),
    ("AttValue (10): two quotes", b"<a b=\"1'/>", Bad(0)),
    ("AttValue (10): none", b"<a b=/>", Bad(0)),
    ("AttValue (10): broken off", b"<a b='1", Bad(0)),
    ("Attribute (41): a name alone", b"<a b/>", Bad(0)),
    ("Attribute (41): a value alone", b"<a 'b'/>", Bad(0)),
    ("Attribute (41): no Name", b"<a 1=''/>", Bad(0)),
    ("Eq (25): two", b"<a b==''/>", Bad(0)),
    ("STag (40): no S between", b"<a b='1'c='2'>", Bad(0)),
    ("STag (40): no S in front", b"<a'1'/>", Bad(0)),
    (
        "EmptyElemTag (44): an attribute behind /",
        b"<a/b=''>",
        Bad(0),
    ),
];
