// A small table, what a case changes in it, and what reading answers.
use reader::{Layer, scan_words};
use std::alloc::Global;
use std::process::Abort;
use std::test::Fail;

// A counter, and a node that calls it and restarts it, for set 1.
pub const BASE: [u32; 22] = [
    0x0000_0001, // 0: HEAD
    0x1001_0102, // 1: NODE 0, of one input, one output and two locals
    0x2000_0000, // 2: VARIABLE 0
    0x2100_0000, // 3: VARIABLE 1
    0x2100_0000, // 4: VARIABLE 2
    0x2100_0000, // 5: VARIABLE 3
    0x3000_0001, // 6: OPERATE by operator 0, of one operand
    0x9000_0002, // 7: TAKE
    0x3800_0003, // 8: OPERATE by operator 128, of two operands
    0x9000_0002, // 9: TAKE
    0xa100_0001, // 10: LITERAL
    0x7000_0002, // 11: DELAY
    0xa100_0000, // 12: its LITERAL
    0x9000_0003, // 13: TAKE
    0xc000_0000, // 14: END
    0x1001_0100, // 15: NODE 1, of one input and one output
    0x2000_0000, // 16: VARIABLE 0
    0x2100_0000, // 17: VARIABLE 1
    0x8000_8000, // 18: CALL of node 0, restarted by variable 0
    0x9000_0000, // 19: TAKE
    0xb000_0001, // 20: GIVE
    0xc000_0000, // 21: END
];

#[derive(Clone, Copy)]
pub enum Change {
    // The word at a place is another.
    Put(usize, u32),
    // The words at two places are others.
    PutTwo(usize, u32, usize, u32),
    // A word more, before the one at a place or behind the last.
    Insert(usize, u32),
}

#[derive(Clone, Copy, PartialEq, Debug)]
pub enum Answer {
    // So many nodes are read.
    Nodes(u8),
    // The fault's number, node and place.
    Fault(u8, u8, u16),
}

pub type Case = (Change, Answer);

fn put(words: &mut Vec<u32>, place: usize, w: u32) -> Result<(), Fail> {
    match words.get_mut(place) {
        Some(word) => {
            *word = w;
            Ok(())
        }
        None => Err(Fail::new("no such place")),
    }
}

fn changed(rt: &impl Abort, heap: Global, change: Change) -> Result<Vec<u32>, Fail> {
    let mut words = BASE.to_vec(heap)?;
    match change {
        Change::Put(place, w) => put(&mut words, place, w)?,
        Change::PutTwo(place, w, other, v) => {
            put(&mut words, place, w)?;
            put(&mut words, other, v)?;
        }
        Change::Insert(place, w) => {
            assert!(rt; place <= words.len());
            words.insert(place, w)?;
        }
    }
    Ok(words)
}

pub fn read(rt: &impl Abort, own: u8, words: &[u32]) -> Result<Answer, Fail> {
    match scan_words(own, words) {
        Ok(outline) => Ok(Answer::Nodes(outline.nodes)),
        Err(fault) => {
            let report = fault.report();
            assert!(rt; matches!(report.layer, Layer::Reading));
            Ok(Answer::Fault(report.number, report.node, report.place))
        }
    }
}

pub fn read_changed(
    rt: &impl Abort,
    heap: Global,
    own: u8,
    change: Change,
) -> Result<Answer, Fail> {
    let words = changed(rt, heap, change)?;
    read(rt, own, &words)
}

// Tells a case by its number.
pub fn check_case(rt: &impl Abort, case: usize, answer: Answer, expected: Answer) {
    assert_eq!(rt; (case, answer), (case, expected));
}

// Tells a case by its place and its word.
pub fn check_flag(rt: &impl Abort, place: usize, w: u32, flag: bool, expected: bool) {
    assert_eq!(rt; (place, w, flag), (place, w, expected));
}

pub fn check_cases(rt: &impl Abort, heap: Global, cases: &[Case]) -> Result<(), Fail> {
    for (i, (change, expected)) in cases.iter().enumerate() {
        check_case(rt, i, read_changed(rt, heap, 1, *change)?, *expected);
    }
    Ok(())
}
