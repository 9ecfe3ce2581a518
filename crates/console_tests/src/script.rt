// Scripts and numerals, table by table.
use console::{Console, decimal_number, hex_word};
use std::alloc::{AllocError, Global};
use std::test::Fail;

const HEX_WORDS: [(&str, Option<u32>); 14] = [
    ("00000000", Some(0)),
    ("FFFFFFFF", Some(0xffff_ffff)),
    ("ffffffff", Some(0xffff_ffff)),
    ("0123abcD", Some(0x0123_abcd)),
    ("89ABCDEF", Some(0x89ab_cdef)),
    ("", None),
    ("0000001", None),
    ("000000001", None),
    ("0000000G", None),
    ("0000000@", None),
    ("g0000000", None),
    ("0x000001", None),
    ("+0000001", None),
    ("0000 001", None),
];

const DECIMALS: [(&str, Option<u64>); 10] = [
    ("0", Some(0)),
    ("7", Some(7)),
    ("007", Some(7)),
    ("1000000", Some(1_000_000)),
    ("999999999999999999", Some(999_999_999_999_999_999)),
    ("0999999999999999999", None),
    ("", None),
    ("-1", None),
    ("1a", None),
    ("1:", None),
];

// A line, and its answer: no text for none.
const SCRIPT: [(&str, &str); 26] = [
    ("", ""),
    (" \t \r\n", ""),
    ("# admit", ""),
    ("admit", "refused: 1 reading node 0 place 0"),
    ("set 2\r\n", "set: 2"),
    ("\tset \t01 # the first\n", "set: 1"),
    ("set 3", "not understood"),
    ("set 1 1", "not understood"),
    ("SET 1", "not understood"),
    (
        "table 00000001 10010100 20000000 20000000",
        "table: 4 words",
    ),
    ("table 0000001", "not understood"),
    ("more 30000001 9000000", "not understood"),
    ("admit", "refused: 2 reading node 0 place 4"),
    ("more 30000001 90000000 c0000000", "table: 7 words"),
    ("admit", "read: 1 nodes"),
    ("admit 1", "not understood"),
    ("more", "table: 7 words"),
    ("more 10010100 20000000 200000C1", "table: 10 words"),
    ("admit", "refused: 2 reading node 1 place 10"),
    ("set 2", "set: 2"),
    ("admit", "refused: 4 reading node 0 place 0"),
    ("table 00000002#00000000", "table: 1 words"),
    ("admit", "refused: 2 reading node 0 place 1"),
    ("read 0", "not understood"),
    ("table", "table: 0 words"),
    ("admit", "refused: 1 reading node 0 place 0"),
];

fn said(heap: Global, console: &mut Console, line: &[u8]) -> Result<String, AllocError> {
    match console.answer(line)? {
        Some(answer) => format!(in heap; "{answer}"),
        None => Ok(String::new(heap)),
    }
}

#[test]
fn numerals(rt: HostRuntime) {
    for (text, word) in &HEX_WORDS {
        assert_eq!(rt; hex_word(text.as_bytes()), *word);
    }
    for (text, number) in &DECIMALS {
        assert_eq!(rt; decimal_number(text.as_bytes()), *number);
    }
}

#[test]
fn script(rt: HostRuntime) -> Result<(), Fail> {
    let mut console = Console::new(rt.alloc());
    for (line, answer) in &SCRIPT {
        let text = said(rt.alloc(), &mut console, line.as_bytes())?;
        assert_eq!(rt; text.as_str(), *answer);
    }
    Ok(())
}

#[test]
fn bytes_that_are_no_text(rt: HostRuntime) -> Result<(), Fail> {
    let mut console = Console::new(rt.alloc());
    assert_eq!(rt;
        said(rt.alloc(), &mut console, b"\xff\xfe")?.as_str(),
        "not understood"
    );
    assert_eq!(rt;
        said(rt.alloc(), &mut console, b"set 1\x00")?.as_str(),
        "not understood"
    );
    assert_eq!(rt;
        said(rt.alloc(), &mut console, b"set 1 # \xff")?.as_str(),
        "set: 1"
    );
    Ok(())
}
