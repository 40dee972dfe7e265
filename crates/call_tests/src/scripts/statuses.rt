// How a program says a status: with which number it ends, and in which words.
use std::test::Fail;
use store_shell::Status;

static ROWS: [(Status, u8, &str); 6] = [
    (Status::Done, 0, "done"),
    (Status::Memory, 1, "memory"),
    (Status::Words, 2, "bad words"),
    (Status::ReadFault, 3, "read fault"),
    (Status::WriteFault, 4, "write fault"),
    (Status::LongScript, 5, "long script"),
];

#[test]
fn each_status_has_its_number_and_words(rt: HostRuntime) -> Result<(), Fail> {
    for &(status, number, words) in &ROWS {
        let said = format!(in rt.alloc(); "{status}")?;
        assert_eq!(rt; (status.exit_status(), said.as_str()), (number, words));
    }
    Ok(())
}
