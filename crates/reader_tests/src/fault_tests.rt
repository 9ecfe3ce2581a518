// Tables with one word wrong, or with a word that is wrong in two ways.
use crate::shared::{Answer, Case, Change, check_case, check_cases, read_changed};
use std::test::Fail;

// The number of the set that reads, and a HEAD.
const SETS: [(u8, u32, Answer); 13] = [
    (1, 0x0000_0001, Answer::Nodes(2)),
    (1, 0x0000_0000, Answer::Fault(4, 0, 0)),
    (1, 0x0000_0002, Answer::Fault(4, 0, 0)),
    (1, 0x0000_0081, Answer::Fault(4, 0, 0)),
    (1, 0x0000_00ff, Answer::Fault(4, 0, 0)),
    (0, 0x0000_0000, Answer::Nodes(2)),
    (0, 0x0000_0001, Answer::Fault(4, 0, 0)),
    (0, 0x0000_00ff, Answer::Fault(4, 0, 0)),
    (255, 0x0000_00ff, Answer::Nodes(2)),
    (255, 0x0000_0000, Answer::Fault(4, 0, 0)),
    (255, 0x0000_007f, Answer::Fault(4, 0, 0)),
    (255, 0x0000_01ff, Answer::Fault(3, 0, 0)),
    (2, 0x0000_0002, Answer::Nodes(2)),
];

const COUNTS: [Case; 23] = [
    // no input, 17 inputs, no output, 17 outputs, and none of all
    (Change::Put(1, 0x1000_0102), Answer::Fault(5, 0, 1)),
    (Change::Put(1, 0x1011_0102), Answer::Fault(5, 0, 1)),
    (Change::Put(1, 0x1001_0002), Answer::Fault(5, 0, 1)),
    (Change::Put(1, 0x1001_1102), Answer::Fault(5, 0, 1)),
    (Change::Put(1, 0x1000_0000), Answer::Fault(5, 0, 1)),
    // 65 variables twice, 257, and 765
    (Change::Put(1, 0x1001_013f), Answer::Fault(5, 0, 1)),
    (Change::Put(1, 0x1010_1021), Answer::Fault(5, 0, 1)),
    (Change::Put(1, 0x1001_01ff), Answer::Fault(5, 0, 1)),
    (Change::Put(1, 0x10ff_ffff), Answer::Fault(5, 0, 1)),
    // within the limits, so that it is a VARIABLE that lacks: 64 variables twice, 16 inputs, 16 outputs, five variables
    (Change::Put(1, 0x1001_013e), Answer::Fault(2, 0, 6)),
    (Change::Put(1, 0x1010_1020), Answer::Fault(2, 0, 6)),
    (Change::Put(1, 0x1010_0102), Answer::Fault(2, 0, 6)),
    (Change::Put(1, 0x1001_1002), Answer::Fault(2, 0, 6)),
    (Change::Put(1, 0x1001_0103), Answer::Fault(2, 0, 6)),
    // three variables, so that one is too many
    (Change::Put(1, 0x1001_0101), Answer::Fault(2, 0, 5)),
    // in a later node, and in one behind the table
    (Change::Put(15, 0x1000_0100), Answer::Fault(5, 1, 15)),
    (Change::Put(15, 0x1011_0100), Answer::Fault(5, 1, 15)),
    (Change::Put(15, 0x1001_0000), Answer::Fault(5, 1, 15)),
    (Change::Put(15, 0x1001_1100), Answer::Fault(5, 1, 15)),
    (Change::Put(15, 0x1001_013f), Answer::Fault(5, 1, 15)),
    (Change::Insert(15, 0x1001_0000), Answer::Fault(5, 1, 15)),
    (Change::Insert(22, 0x1000_0100), Answer::Fault(5, 2, 22)),
    (Change::Insert(22, 0x1001_0100), Answer::Fault(2, 2, 23)),
];

// Variables of a node with four variables, 0, and of one with two, 1.
const VARIABLES: [Case; 43] = [
    // samplers
    (Change::Put(2, 0x2000_0084), Answer::Fault(6, 0, 2)),
    (Change::Put(2, 0x2000_0083), Answer::Nodes(2)),
    (Change::Put(4, 0x2100_00c4), Answer::Fault(6, 0, 4)),
    (Change::Put(4, 0x2100_00c3), Answer::Nodes(2)),
    (Change::Put(5, 0x2100_00bf), Answer::Fault(6, 0, 5)),
    (Change::Put(17, 0x2100_0082), Answer::Fault(6, 1, 17)),
    (Change::Put(17, 0x2100_0081), Answer::Nodes(2)),
    // what an equation defines
    (Change::Put(6, 0x3000_0004), Answer::Fault(6, 0, 6)),
    (Change::Put(6, 0x3000_003f), Answer::Fault(6, 0, 6)),
    (Change::Put(6, 0x3000_0003), Answer::Nodes(2)),
    (Change::Put(8, 0x3800_0004), Answer::Fault(6, 0, 8)),
    (Change::Put(6, 0x4000_0004), Answer::Fault(6, 0, 6)),
    (Change::Put(6, 0x4000_0003), Answer::Nodes(2)),
    (Change::Put(8, 0x5000_0004), Answer::Fault(6, 0, 8)),
    (Change::Put(8, 0x6000_0004), Answer::Fault(6, 0, 8)),
    (Change::Put(11, 0x7000_0004), Answer::Fault(6, 0, 11)),
    (Change::Put(11, 0x7000_0003), Answer::Nodes(2)),
    (Change::Put(18, 0x3000_0002), Answer::Fault(6, 1, 18)),
    (Change::Put(21, 0x3000_0002), Answer::Fault(6, 1, 21)),
    // selectors
    (Change::Put(8, 0x5000_0403), Answer::Fault(6, 0, 8)),
    (Change::Put(8, 0x5000_3f00), Answer::Fault(6, 0, 8)),
    (Change::Put(8, 0x5000_0303), Answer::Nodes(2)),
    (Change::Put(8, 0x6000_0403), Answer::Fault(6, 0, 8)),
    (Change::Put(8, 0x6000_3f00), Answer::Fault(6, 0, 8)),
    (Change::Put(8, 0x6000_0303), Answer::Nodes(2)),
    // operands
    (Change::Put(7, 0x9000_0004), Answer::Fault(6, 0, 7)),
    (Change::Put(7, 0x9000_0003), Answer::Nodes(2)),
    (Change::Put(10, 0x9000_0004), Answer::Fault(6, 0, 10)),
    (Change::Put(13, 0x9000_0004), Answer::Fault(6, 0, 13)),
    (Change::Put(19, 0x9000_0002), Answer::Fault(6, 1, 19)),
    (Change::Put(19, 0x9000_003f), Answer::Fault(6, 1, 19)),
    (Change::Put(19, 0x9000_0001), Answer::Nodes(2)),
    // a LITERAL names no variable
    (Change::Put(7, 0xafff_ffff), Answer::Nodes(2)),
    (Change::Put(12, 0xafff_ffff), Answer::Nodes(2)),
    (Change::Put(19, 0xafff_ffff), Answer::Nodes(2)),
    // what a CALL gives
    (Change::Put(20, 0xb000_0002), Answer::Fault(6, 1, 20)),
    (Change::Put(20, 0xb000_003f), Answer::Fault(6, 1, 20)),
    (Change::Put(20, 0xb000_0000), Answer::Nodes(2)),
    // what restarts a CALL
    (Change::Put(18, 0x8000_8200), Answer::Fault(6, 1, 18)),
    (Change::Put(18, 0x8000_bf00), Answer::Fault(6, 1, 18)),
    (Change::Put(18, 0x8000_8100), Answer::Nodes(2)),
    (Change::Put(18, 0x8000_0000), Answer::Nodes(2)),
    (Change::Put(18, 0x8000_3f00), Answer::Fault(3, 1, 18)),
];

// A CALL of the own node, of a later one and of one that the table lacks.
const CALLS: [Case; 8] = [
    (Change::Put(6, 0x8000_0000), Answer::Fault(6, 0, 6)),
    (Change::Put(6, 0x8010_0000), Answer::Fault(6, 0, 6)),
    (Change::Put(14, 0x8000_8000), Answer::Fault(6, 0, 14)),
    (Change::Put(18, 0x8010_8000), Answer::Fault(6, 1, 18)),
    (Change::Put(18, 0x8010_0000), Answer::Fault(6, 1, 18)),
    (Change::Put(18, 0x8020_8000), Answer::Fault(6, 1, 18)),
    (Change::Put(18, 0x8ff0_8000), Answer::Fault(6, 1, 18)),
    (Change::Put(21, 0x8010_0000), Answer::Fault(6, 1, 21)),
];

// How many operands and GIVEs stand behind a head, by its kind and its operator.
const OPERANDS: [Case; 19] = [
    (Change::Put(6, 0x37f0_0001), Answer::Nodes(2)),
    (Change::Put(6, 0x3800_0001), Answer::Fault(2, 0, 8)),
    (Change::Put(8, 0x3ff0_0003), Answer::Nodes(2)),
    (Change::Put(8, 0x37f0_0003), Answer::Fault(2, 0, 10)),
    (Change::Put(6, 0x4000_0001), Answer::Nodes(2)),
    (Change::Put(8, 0x4000_0003), Answer::Fault(2, 0, 10)),
    (Change::Put(8, 0x5000_0003), Answer::Nodes(2)),
    (Change::Put(6, 0x5000_0001), Answer::Fault(2, 0, 8)),
    (Change::Put(8, 0x6000_0003), Answer::Nodes(2)),
    (Change::Put(6, 0x6000_0001), Answer::Fault(2, 0, 8)),
    (Change::Put(6, 0x7000_0001), Answer::Fault(2, 0, 7)),
    (Change::Put(11, 0x3800_0002), Answer::Nodes(2)),
    (Change::Put(11, 0x3000_0002), Answer::Fault(2, 0, 13)),
    (Change::Insert(7, 0x9000_0002), Answer::Fault(2, 0, 8)),
    (Change::Insert(12, 0x9000_0003), Answer::Fault(2, 0, 12)),
    (Change::Insert(14, 0xa100_0000), Answer::Fault(2, 0, 14)),
    (Change::Insert(20, 0x9000_0000), Answer::Fault(2, 1, 20)),
    (Change::Insert(20, 0xb000_0000), Answer::Fault(2, 1, 21)),
    (Change::Put(21, 0x3000_0000), Answer::Fault(2, 1, 22)),
];

// One word that is wrong in two ways or more: the smaller number. Two words that are wrong: the earlier one.
const TWICE_WRONG: [Case; 38] = [
    // HEAD: kind and bits, kind and set, bits and set
    (Change::Put(0, 0x1fff_ff01), Answer::Fault(2, 0, 0)),
    (Change::Put(0, 0x1000_0002), Answer::Fault(2, 0, 0)),
    (Change::Put(0, 0x0000_0102), Answer::Fault(3, 0, 0)),
    (Change::Put(0, 0x0800_00ff), Answer::Fault(3, 0, 0)),
    // NODE: kind and bits, bits and counts; only a word of its kind has the number of a node of its own
    (Change::Put(1, 0x2f00_0000), Answer::Fault(2, 0, 1)),
    (Change::Put(1, 0x1100_0102), Answer::Fault(3, 0, 1)),
    (Change::Put(1, 0x18ff_ffff), Answer::Fault(3, 0, 1)),
    (Change::Put(15, 0x0f00_0000), Answer::Fault(2, 0, 15)),
    (Change::Put(15, 0x1100_0100), Answer::Fault(3, 1, 15)),
    (Change::Insert(22, 0x2f00_0000), Answer::Fault(2, 1, 22)),
    (Change::Insert(22, 0x1f00_0000), Answer::Fault(3, 2, 22)),
    // VARIABLE: kind and sampler, bits and sampler
    (Change::Put(5, 0x3000_00bf), Answer::Fault(2, 0, 5)),
    (Change::Put(5, 0x2000_01bf), Answer::Fault(3, 0, 5)),
    (Change::Put(17, 0x2080_00bf), Answer::Fault(3, 1, 17)),
    (Change::Put(2, 0x2000_007f), Answer::Fault(3, 0, 2)),
    // heads: kind and variable, bits and variable, bits and called node
    (Change::Put(6, 0x9000_007f), Answer::Fault(2, 0, 6)),
    (Change::Put(6, 0x3000_007f), Answer::Fault(3, 0, 6)),
    (Change::Put(6, 0x4000_007f), Answer::Fault(3, 0, 6)),
    (Change::Put(8, 0x5000_7f3f), Answer::Fault(3, 0, 8)),
    (Change::Put(8, 0x6000_3fbf), Answer::Fault(3, 0, 8)),
    (Change::Put(11, 0x7800_003f), Answer::Fault(3, 0, 11)),
    (Change::Put(6, 0x8000_0001), Answer::Fault(3, 0, 6)),
    (Change::Put(18, 0x8ff8_bf00), Answer::Fault(3, 1, 18)),
    (Change::Put(18, 0x8ff0_ff00), Answer::Fault(3, 1, 18)),
    (Change::Put(18, 0x8ff0_3f00), Answer::Fault(3, 1, 18)),
    // operands, GIVE and END: kind and the rest, bits and variable
    (Change::Put(7, 0xb000_007f), Answer::Fault(2, 0, 7)),
    (Change::Put(7, 0x9000_007f), Answer::Fault(3, 0, 7)),
    (Change::Put(20, 0x9000_007f), Answer::Fault(2, 1, 20)),
    (Change::Put(20, 0xb000_007f), Answer::Fault(3, 1, 20)),
    (Change::Put(21, 0xd000_0001), Answer::Fault(2, 1, 21)),
    // two words
    (
        Change::PutTwo(0, 0x0000_0002, 1, 0x2000_0000),
        Answer::Fault(4, 0, 0),
    ),
    (
        Change::PutTwo(0, 0x0000_0101, 1, 0x2000_0000),
        Answer::Fault(3, 0, 0),
    ),
    (
        Change::PutTwo(1, 0x1000_0102, 2, 0xf000_0000),
        Answer::Fault(5, 0, 1),
    ),
    (
        Change::PutTwo(2, 0x2000_0084, 3, 0x2100_0001),
        Answer::Fault(6, 0, 2),
    ),
    (
        Change::PutTwo(6, 0x3000_0004, 7, 0xf000_0000),
        Answer::Fault(6, 0, 6),
    ),
    (
        Change::PutTwo(13, 0x9000_0004, 15, 0x1f00_0000),
        Answer::Fault(6, 0, 13),
    ),
    (
        Change::PutTwo(18, 0x8010_8000, 19, 0x9000_0040),
        Answer::Fault(6, 1, 18),
    ),
    (
        Change::PutTwo(20, 0xb000_0002, 21, 0xd000_0000),
        Answer::Fault(6, 1, 20),
    ),
];

#[test]
fn sets(rt: HostRuntime) -> Result<(), Fail> {
    for (i, (own, head, expected)) in SETS.iter().enumerate() {
        check_case(
            &rt,
            i,
            read_changed(&rt, rt.alloc(), *own, Change::Put(0, *head))?,
            *expected,
        );
    }
    Ok(())
}

#[test]
fn counts(rt: HostRuntime) -> Result<(), Fail> {
    check_cases(&rt, rt.alloc(), &COUNTS)
}

#[test]
fn variables(rt: HostRuntime) -> Result<(), Fail> {
    check_cases(&rt, rt.alloc(), &VARIABLES)
}

#[test]
fn calls(rt: HostRuntime) -> Result<(), Fail> {
    check_cases(&rt, rt.alloc(), &CALLS)
}

#[test]
fn operands(rt: HostRuntime) -> Result<(), Fail> {
    check_cases(&rt, rt.alloc(), &OPERANDS)
}

#[test]
fn twice_wrong(rt: HostRuntime) -> Result<(), Fail> {
    check_cases(&rt, rt.alloc(), &TWICE_WRONG)
}
