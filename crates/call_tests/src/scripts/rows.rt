// What the program's own stored run can't show of scripts: what is refused before anything is loaded, how they end where a call fails,
// whatever the pieces in which they are read, without a line feed at their end, and which bytes of a grammar file are saved.
use super::memory::{DONE, Fault, Row, assert_row};
use std::test::Fail;
use store_shell::Status;

const SAVED: &[u8] = b"<a><b/><b/></a>\n";

// Six `b` in an `a`. Rule 0 is `b(bottom, b(bottom, y1))`, and the start calls it three times, over one another.
const SIX: &[u8] =
    b"TGF2\x03\x00\x00\x01\x01a\x01\x01b\x02\x01\x02\x02\x00\x02\x02\x00\x01\x00\x02\x00\x02\x01\x03\x00\x03\x00\x03\x00\x00\x00\x00\x00\x00";

// The same in version 1.
const FIRST_SIX: &[u8] =
    b"TGF1\x03\x00\x00\x01\x01a\x01\x01b\x02\x01\x02\x02\x00\x02\x02\x00\x01\x00\x02\x00\x02\x01\x03\x00\x03\x00\x03\x00\x00\x00\x00\x00";

// A text, an attribute, a comment and an instruction; two texts side by side.
const KINDS: &[u8] =
    b"TGF2\x06\x00\x00\x01\x01a\x02\x01k\x03\x00\x04\x00\x05\x01p\x01\x00\x02\x00\x02\x01\x02\x02\x00\x02\x03\x00\x02\x03\x00\x02\x04\x00\x02\x05\x00\x00\x00\x00\x05\x01v\x01t\x01u\x01c\x00\x05\x00\x01\x02\x03\x04";

const FIRST_KINDS: &[u8] =
    b"TGF1\x06\x00\x00\x01\x01a\x02\x01k\x03\x00\x04\x00\x05\x01p\x01\x00\x02\x00\x02\x01\x02\x02\x00\x02\x03\x00\x02\x03\x00\x02\x04\x00\x02\x05\x00\x00\x00\x00\x05\x01v\x01t\x01u\x01c\x00";

// The document `EQUAL`, with two texts that are the same. Rule 0 is a text.
const EQUAL_TEXTS: &[u8] =
    b"TGF2\x05\x00\x00\x01\x01a\x01\x01b\x03\x00\x01\x01c\x02\x00\x02\x03\x00\x00\x00\x02\x00\x02\x01\x02\x02\x03\x00\x02\x02\x03\x00\x02\x04\x03\x00\x00\x00\x00\x02\x01x\x01y\x03\x00\x00\x01";

const EQUAL: &[u8] = b"<a><b>x</b><b>x</b><c>y</c></a>\n";

// An element below one of its name, an attribute, a text and a comment.
const NESTED: &[u8] = b"<a><b k=\"v\"><b/>t</b><!--c--></a>";

// What is done where no call fails. In pieces of seven bytes each read of the source takes one whole line.
const WHOLE: Row<'static> = Row {
    script: "load a\nsave c\nfly",
    pieces: &[7],
    printed: "ok nodes 4\nok bytes 16\n! bad-command\n",
    saved: SAVED,
    ..DONE
};

// The lines of the nodes are one write, and the last line is another.
const LISTED: Row<'static> = Row {
    script: "load a\nquery //b\nsave c\n",
    pieces: &[1000],
    status: Status::WriteFault,
    ..DONE
};

static ROWS: [Row<'static>; 38] = [
    Row {
        pieces: &[1, 2, 7, 1000],
        ..WHOLE
    },
    Row {
        document: b"<a></b>",
        script: "load a\nsave c\n",
        printed: "! bad-xml 3\n! no-document\n",
        ..DONE
    },
    // Nothing is loaded, and what can't be read loads nothing.
    Row {
        script: "save c\nsave-grammar c\nshow 0\nquery a[\nshow-all a[\ncount /\ncount /*[1]\nrepair\n",
        printed: "! no-document\n! no-document\n! no-document\n! no-document\n! no-document\n! no-document\n! no-document\n! no-document\n",
        ..DONE
    },
    Row {
        script: "rename 1 1a\ninsert 1 </b>\nappend 1 t\ndelete 1\nvalue 1 <\nattr 1 k v\ncopy 1\nrename-all 1a a[\ndelete-all a[\n",
        printed: "! no-document\n! no-document\n! no-document\n! no-document\n! no-document\n! no-document\n! no-document\n! no-document\n! no-document\n",
        ..DONE
    },
    Row {
        script: "load z\nload c\nload-grammar a\ncount /\n",
        printed: "! no-file\n! bad-xml 0\n! bad-grammar\n! no-document\n",
        ..DONE
    },
    DONE,
    Row {
        script: "load a\r\n\nsave c",
        printed: "ok nodes 4\nok bytes 16\n",
        saved: SAVED,
        ..DONE
    },
    Row {
        script: "load a\ncount /",
        printed: "ok nodes 4\nok selected 1\n",
        ..DONE
    },
    Row {
        script: "load a\nquit",
        printed: "ok nodes 4\n",
        ..DONE
    },
    Row {
        script: "load a\nquit\r\nfly\n",
        printed: "ok nodes 4\n",
        ..DONE
    },
    // Each node that a query selects is printed with all below it, also one below another.
    Row {
        document: NESTED,
        script: "load a\nquery //b\nshow-all //b\nshow-all //@k\nshow-all //text()\nshow-all //comment()\n",
        printed: "ok nodes 7\n2 element b\n4 element b\nok selected 2\n<b k=\"v\"><b/>t</b>\n<b/>\nok shown 2\nk=\"v\"\nok shown 1\nt\nok shown 1\n<!--c-->\nok shown 1\n",
        ..DONE
    },
    Row {
        document: NESTED,
        script: "load a\nshow-all /\nshow-all / | //@k\nshow-all //c\nshow-all a[\nshow-all\n",
        printed: "ok nodes 7\n<a><b k=\"v\"><b/>t</b><!--c--></a>\nok shown 1\n<a><b k=\"v\"><b/>t</b><!--c--></a>\nk=\"v\"\nok shown 2\nok shown 0\n! bad-query\n! bad-command\n",
        ..DONE
    },
    // Grammar files. What is read of version 1 is written in version 2.
    Row {
        document: b"<a/>",
        script: "load a\nrepair\nsave-grammar c\n",
        printed: "ok nodes 2\nok rules 1 size 5\nok rules 1 size 5 bytes 21\n",
        saved: b"TGF2\x02\x00\x00\x01\x01a\x01\x00\x02\x00\x02\x01\x00\x00\x00\x00\x00",
        ..DONE
    },
    Row {
        document: b"<a><b/><b/><b/><b/><b/><b/></a>",
        script: "load a\nsave-grammar c\n",
        printed: "ok nodes 8\nok rules 2 size 12 bytes 38\n",
        saved: SIX,
        ..DONE
    },
    Row {
        document: FIRST_SIX,
        script: "load-grammar a\nload-grammar c\nsave-grammar c\n",
        printed: "ok nodes 8\n! bad-grammar\nok rules 2 size 12 bytes 38\n",
        saved: SIX,
        ..DONE
    },
    Row {
        document: FIRST_KINDS,
        script: "load-grammar a\nsave-grammar c\n",
        printed: "ok nodes 7\nok rules 1 size 15 bytes 60\n",
        saved: KINDS,
        ..DONE
    },
    Row {
        document: KINDS,
        script: "load-grammar a\nsave-grammar c\n",
        printed: "ok nodes 7\nok rules 1 size 15 bytes 60\n",
        saved: KINDS,
        ..DONE
    },
    Row {
        document: EQUAL,
        script: "load a\nsave-grammar c\n",
        printed: "ok nodes 8\nok rules 2 size 14 bytes 53\n",
        saved: EQUAL_TEXTS,
        ..DONE
    },
    Row {
        document: EQUAL_TEXTS,
        script: "load-grammar a\nsave c\n",
        printed: "ok nodes 8\nok bytes 32\n",
        saved: EQUAL,
        ..DONE
    },
    // A read of the source fails.
    Row {
        faults: &[Fault::Read(0)],
        status: Status::ReadFault,
        printed: "",
        saved: b"old",
        ..WHOLE
    },
    Row {
        faults: &[Fault::Read(1)],
        status: Status::ReadFault,
        printed: "ok nodes 4\n",
        saved: b"old",
        ..WHOLE
    },
    Row {
        faults: &[Fault::Read(2), Fault::Read(3)],
        status: Status::ReadFault,
        printed: "ok nodes 4\nok bytes 16\n",
        ..WHOLE
    },
    Row {
        faults: &[Fault::Read(4)],
        ..WHOLE
    },
    // A write fails.
    Row {
        faults: &[Fault::Write(0)],
        status: Status::WriteFault,
        printed: "",
        saved: b"old",
        ..WHOLE
    },
    Row {
        faults: &[Fault::Write(1)],
        status: Status::WriteFault,
        printed: "ok nodes 4\n",
        ..WHOLE
    },
    Row {
        faults: &[Fault::Write(2)],
        status: Status::WriteFault,
        printed: "ok nodes 4\nok bytes 16\n",
        ..WHOLE
    },
    Row {
        faults: &[Fault::Write(3)],
        ..WHOLE
    },
    Row {
        script: "load a\nshow 1\nsave c",
        faults: &[Fault::Write(1)],
        status: Status::WriteFault,
        printed: "ok nodes 4\n",
        saved: b"old",
        ..WHOLE
    },
    Row {
        faults: &[Fault::Write(1)],
        printed: "ok nodes 4\n",
        ..LISTED
    },
    Row {
        faults: &[Fault::Write(2)],
        printed: "ok nodes 4\n2 element b\n3 element b\n",
        ..LISTED
    },
    // So it is with the nodes themselves.
    Row {
        script: "load a\nshow-all //b\nsave c\n",
        faults: &[Fault::Write(1)],
        printed: "ok nodes 4\n",
        ..LISTED
    },
    Row {
        script: "load a\nshow-all //b\nsave c\n",
        faults: &[Fault::Write(2)],
        printed: "ok nodes 4\n<b/>\n<b/>\n",
        ..LISTED
    },
    // Where none is selected there is no write for the lines.
    Row {
        script: "load a\nquery //c\nsave c\n",
        faults: &[Fault::Write(1)],
        printed: "ok nodes 4\n",
        ..LISTED
    },
    // `a` is opened, and read to its end.
    Row {
        faults: &[
            Fault::Shelf(0),
            Fault::Shelf(1),
            Fault::Shelf(2),
            Fault::Shelf(3),
            Fault::Shelf(4),
        ],
        printed: "! read-fault\n! no-document\n! bad-command\n",
        saved: b"old",
        ..WHOLE
    },
    // `c` is created and written. What is asked next is answered as ever, and a second saving is done.
    Row {
        faults: &[Fault::Shelf(5), Fault::Shelf(6), Fault::Shelf(7)],
        printed: "ok nodes 4\n! write-fault\n! bad-command\n",
        saved: b"old",
        ..WHOLE
    },
    Row {
        script: "load a\nsave c\nload z\ncount //b\nsave c\n",
        faults: &[Fault::Shelf(6)],
        printed: "ok nodes 4\n! write-fault\n! no-file\nok selected 2\nok bytes 16\n",
        ..WHOLE
    },
    Row {
        faults: &[Fault::Shelf(1000)],
        ..WHOLE
    },
    // Queries read no file.
    Row {
        script: "load a\nquery //b\ncount //b\n",
        faults: &[Fault::Shelf(5)],
        printed: "ok nodes 4\n2 element b\n3 element b\nok selected 2\nok selected 2\n",
        saved: b"old",
        ..WHOLE
    },
];

#[test]
fn scripts_end_as_their_rows_say(rt: HostRuntime) -> Result<(), Fail> {
    for row in &ROWS {
        assert_row(&rt, rt.alloc(), row, row.script)?;
    }
    Ok(())
}
