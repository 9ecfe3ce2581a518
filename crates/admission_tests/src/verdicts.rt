// What admission answers: the nodes and main's need, or the fault.
use admission::admit;
use integers::Integers;
use std::process::Abort;

/// What comes of a table for set 1: number 0, the nodes and main's need, or the fault's number, node and place.
fn verdict(words: &[u32]) -> (u8, u8, u16) {
    match admit::<Integers>(words) {
        Ok(plan) => {
            let nodes = plan.outline.nodes;
            let main = nodes.saturating_sub(1) as usize;
            (0, nodes, if main < 32 { plan.needs[main] } else { 0 })
        }
        Err(fault) => {
            let report = fault.report();
            (report.number, report.node, report.place)
        }
    }
}

fn comes_to(rt: &impl Abort, name: &str, words: &[u32], number: u8, node: u8, last: u16) {
    let got = verdict(words);
    assert_eq!(rt; got.0, number, "{}", name);
    assert_eq!(rt; got.1, node, "{}", name);
    assert_eq!(rt; got.2, last, "{}", name);
}

const COUNTER: [u32; 22] = [
    0x0000_0001,
    0x1001_0102,
    0x2000_0000,
    0x2100_0000,
    0x2100_0000,
    0x2100_0000,
    0x3000_0001,
    0x9000_0002,
    0x3800_0003,
    0x9000_0002,
    0xa100_0001,
    0x7000_0002,
    0xa100_0000,
    0x9000_0003,
    0xc000_0000,
    0x1001_0100,
    0x2000_0000,
    0x2100_0000,
    0x8000_8000,
    0x9000_0000,
    0xb000_0001,
    0xc000_0000,
];

// x2 is sampled by x0, and each later local by the one before it.
const EIGHT_SAMPLERS: [u32; 31] = [
    0x0000_0001,
    0x1001_0108,
    0x2000_0000,
    0x2000_0000,
    0x2000_00c0,
    0x2000_00c2,
    0x2000_00c3,
    0x2000_00c4,
    0x2000_00c5,
    0x2000_00c6,
    0x2000_00c7,
    0x2000_00c8,
    0x3000_0001,
    0x9000_0000,
    0x4000_0002,
    0x9000_0000,
    0x4000_0003,
    0x9000_0002,
    0x4000_0004,
    0x9000_0003,
    0x4000_0005,
    0x9000_0004,
    0x4000_0006,
    0x9000_0005,
    0x4000_0007,
    0x9000_0006,
    0x4000_0008,
    0x9000_0007,
    0x4000_0009,
    0x9000_0008,
    0xc000_0000,
];

const NINE_SAMPLERS: [u32; 34] = [
    0x0000_0001,
    0x1001_0109,
    0x2000_0000,
    0x2000_0000,
    0x2000_00c0,
    0x2000_00c2,
    0x2000_00c3,
    0x2000_00c4,
    0x2000_00c5,
    0x2000_00c6,
    0x2000_00c7,
    0x2000_00c8,
    0x2000_00c9,
    0x3000_0001,
    0x9000_0000,
    0x4000_0002,
    0x9000_0000,
    0x4000_0003,
    0x9000_0002,
    0x4000_0004,
    0x9000_0003,
    0x4000_0005,
    0x9000_0004,
    0x4000_0006,
    0x9000_0005,
    0x4000_0007,
    0x9000_0006,
    0x4000_0008,
    0x9000_0007,
    0x4000_0009,
    0x9000_0008,
    0x4000_000a,
    0x9000_0009,
    0xc000_0000,
];

// one input x0, one output x1 = x0, and locals of type 1
const SELF_DELAY: [u32; 11] = [
    0x0000_0001,
    0x1001_0101,
    0x2000_0000,
    0x2000_0000,
    0x2100_0000,
    0x3000_0001,
    0x9000_0000,
    0x7000_0002,
    0xa100_0000,
    0x9000_0002,
    0xc000_0000,
];

const TWO_DELAYS: [u32; 15] = [
    0x0000_0001,
    0x1001_0102,
    0x2000_0000,
    0x2000_0000,
    0x2100_0000,
    0x2100_0000,
    0x3000_0001,
    0x9000_0000,
    0x7000_0002,
    0xa100_0000,
    0x9000_0003,
    0x7000_0003,
    0xa100_0000,
    0x9000_0002,
    0xc000_0000,
];

const SELF_READ: [u32; 10] = [
    0x0000_0001,
    0x1001_0101,
    0x2000_0000,
    0x2000_0000,
    0x2100_0000,
    0x3000_0001,
    0x9000_0000,
    0x3000_0002,
    0x9000_0002,
    0xc000_0000,
];

const NO_TYPE: [u32; 7] = [
    0x0000_0001,
    0x1001_0100,
    0x2000_0000,
    0x2200_0000,
    0x3000_0001,
    0x9000_0000,
    0xc000_0000,
];

const NUMBER_FROM_BOOLEAN: [u32; 7] = [
    0x0000_0001,
    0x1001_0100,
    0x2000_0000,
    0x2100_0000,
    0x3000_0001,
    0x9000_0000,
    0xc000_0000,
];

const SAMPLED_OUTPUT: [u32; 7] = [
    0x0000_0001,
    0x1001_0100,
    0x2000_0000,
    0x2000_00c0,
    0x4000_0001,
    0x9000_0000,
    0xc000_0000,
];

const UNDEFINED: [u32; 5] = [
    0x0000_0001,
    0x1001_0100,
    0x2000_0000,
    0x2000_0000,
    0xc000_0000,
];

const DELAYED_OUTPUT: [u32; 8] = [
    0x0000_0001,
    0x1001_0100,
    0x2000_0000,
    0x2000_0000,
    0x7000_0001,
    0xa000_0000,
    0x9000_0000,
    0xc000_0000,
];

#[test]
fn admitted_tables(rt: HostRuntime) {
    comes_to(&rt, "the restarted counter", &COUNTER, 0, 2, 6);
    comes_to(&rt, "a chain of 8 samplers", &EIGHT_SAMPLERS, 0, 1, 10);
    comes_to(&rt, "a local delayed from itself", &SELF_DELAY, 0, 1, 3);
}

#[test]
fn refused_tables(rt: HostRuntime) {
    comes_to(&rt, "empty", &[], 1, 0, 0);
    comes_to(&rt, "a type that the set lacks", &NO_TYPE, 7, 0, 3);
    comes_to(
        &rt,
        "a number from a boolean",
        &NUMBER_FROM_BOOLEAN,
        7,
        0,
        4,
    );
    comes_to(&rt, "a chain of 9 samplers", &NINE_SAMPLERS, 8, 0, 12);
    comes_to(&rt, "a sampled output", &SAMPLED_OUTPUT, 8, 0, 3);
    comes_to(&rt, "an output without a definition", &UNDEFINED, 9, 0, 3);
    comes_to(&rt, "an output by a DELAY", &DELAYED_OUTPUT, 9, 0, 3);
    comes_to(&rt, "two delays fed by each other", &TWO_DELAYS, 10, 0, 1);
    comes_to(
        &rt,
        "an equation that reads its own variable",
        &SELF_READ,
        10,
        0,
        1,
    );
}
