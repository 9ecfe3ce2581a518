// Tables at their limits and just beyond, and what the outline says of a table.
use crate::shared::{Answer, BASE, check_case, read};
use reader::scan_words;
use std::process::Abort;
use std::test::Fail;

// What makes a table longer, and what is read then.
#[derive(Clone, Copy)]
enum Step {
    // An empty table.
    New,
    // A word, so many times.
    Words(usize, u32),
    // So many nodes of one input and one output, without equations: four words each.
    Nodes(usize),
    // So many equations of such a node: two words each.
    Equations(usize),
    // So many calls of node 0, where that has 16 inputs and 16 outputs, by a node of 32 variables: 33 words each.
    Calls(usize),
    // What reading answers with one word more, which is then taken away.
    Read(u32, Answer),
}

const NODE: [u32; 4] = [0x1001_0100, 0x2100_0000, 0x2100_0000, 0xc000_0000];

const EQUATION: [u32; 2] = [0x3000_0001, 0x9000_0000];

const NODES: [Step; 14] = [
    Step::Words(1, 0x0000_0001),
    Step::Nodes(31),
    Step::Read(0x1001_0100, Answer::Fault(2, 31, 126)),
    Step::Words(1, 0x1001_0100),
    Step::Words(2, 0x2100_0000),
    Step::Read(0xc000_0000, Answer::Nodes(32)),
    Step::Words(1, 0xc000_0000),
    // a 33rd
    Step::Read(0x1001_0100, Answer::Fault(5, 32, 129)),
    Step::Read(0x1000_0000, Answer::Fault(5, 32, 129)),
    Step::Read(0x1101_0100, Answer::Fault(3, 32, 129)),
    Step::Read(0x1800_0000, Answer::Fault(3, 32, 129)),
    Step::Read(0x2001_0100, Answer::Fault(2, 31, 129)),
    Step::Read(0xc000_0000, Answer::Fault(2, 31, 129)),
    Step::Read(0x0000_0001, Answer::Fault(2, 31, 129)),
];

// Behind 64 equations of the first node and of the 32nd. Some words name a variable or a node that is not there, too.
const EQUATIONS: [Step; 26] = [
    Step::Words(1, 0x0000_0001),
    Step::Words(1, 0x1001_0100),
    Step::Words(2, 0x2100_0000),
    Step::Equations(64),
    Step::Read(0xc000_0000, Answer::Nodes(1)),
    Step::Read(0x3000_0001, Answer::Fault(5, 0, 132)),
    Step::Read(0x3000_003f, Answer::Fault(5, 0, 132)),
    Step::Read(0x8000_0000, Answer::Fault(5, 0, 132)),
    Step::Read(0x3000_007f, Answer::Fault(3, 0, 132)),
    Step::Read(0x8000_0001, Answer::Fault(3, 0, 132)),
    Step::Read(0xc000_0001, Answer::Fault(3, 0, 132)),
    Step::Read(0x9000_003f, Answer::Fault(2, 0, 132)),
    Step::Read(0x1001_0100, Answer::Fault(2, 0, 132)),
    Step::New,
    Step::Words(1, 0x0000_0001),
    Step::Nodes(31),
    Step::Words(1, 0x1001_0100),
    Step::Words(2, 0x2100_0000),
    Step::Equations(64),
    Step::Read(0xc000_0000, Answer::Nodes(32)),
    Step::Read(0x8000_8100, Answer::Fault(5, 31, 256)),
    Step::Read(0x81f0_0000, Answer::Fault(5, 31, 256)),
    Step::Read(0x8000_bf00, Answer::Fault(5, 31, 256)),
    Step::Read(0x81f0_4000, Answer::Fault(3, 31, 256)),
    Step::Read(0xc800_0000, Answer::Fault(3, 31, 256)),
    Step::Read(0xb000_003f, Answer::Fault(2, 31, 256)),
];

// A node of 64 variables, the last of which samples, selects, is defined and taken.
const VARIABLES: [Step; 13] = [
    Step::Words(1, 0x0000_0001),
    Step::Words(1, 0x1001_013e),
    Step::Words(63, 0x2000_00bf),
    Step::Read(0xc000_0000, Answer::Fault(2, 0, 65)),
    Step::Read(0x2000_00bf, Answer::Fault(2, 0, 66)),
    Step::Words(1, 0x2000_00bf),
    Step::Read(0xc000_0000, Answer::Nodes(1)),
    Step::Read(0x2000_00bf, Answer::Fault(2, 0, 66)),
    Step::Words(1, 0x5000_3f3f),
    Step::Words(2, 0x9000_003f),
    Step::Read(0xc000_0000, Answer::Nodes(1)),
    Step::Read(0x3000_003f, Answer::Fault(2, 0, 70)),
    Step::Read(0x8000_bf00, Answer::Fault(6, 0, 69)),
];

// A CALL, at place 68, of a node of 16 inputs and 16 outputs.
const PORTS: [Step; 24] = [
    Step::Words(1, 0x0000_0001),
    Step::Words(1, 0x1010_1000),
    Step::Words(32, 0x2100_0000),
    Step::Read(0xc000_0000, Answer::Nodes(1)),
    Step::Words(1, 0xc000_0000),
    Step::Words(1, 0x1010_1000),
    Step::Words(32, 0x2100_0000),
    Step::Words(1, 0x8000_0000),
    // 15 operands, and then 16
    Step::Words(15, 0x9000_001f),
    Step::Read(0xb000_001f, Answer::Fault(2, 1, 84)),
    Step::Read(0x9000_0020, Answer::Fault(6, 1, 84)),
    Step::Words(1, 0xa100_0000),
    Step::Read(0x9000_001f, Answer::Fault(2, 1, 85)),
    Step::Read(0xb000_0020, Answer::Fault(6, 1, 85)),
    Step::Read(0xc000_0000, Answer::Fault(2, 1, 85)),
    // 15 GIVEs, and then 16
    Step::Words(15, 0xb000_001f),
    Step::Read(0xc000_0000, Answer::Fault(2, 1, 100)),
    Step::Read(0xb000_0020, Answer::Fault(6, 1, 100)),
    Step::Words(1, 0xb000_001f),
    Step::Read(0xc000_0000, Answer::Nodes(2)),
    Step::Read(0xb000_001f, Answer::Fault(2, 1, 101)),
    Step::Calls(1),
    Step::Read(0xc000_0000, Answer::Nodes(2)),
    Step::Read(0x3000_001f, Answer::Fault(2, 1, 135)),
];

const WORDS: [Step; 47] = [
    // HEAD and a node of 34 words
    Step::Words(1, 0x0000_0001),
    Step::Words(1, 0x1010_1000),
    Step::Words(32, 0x2100_0000),
    Step::Words(1, 0xc000_0000),
    // seven nodes of 34 words and 64 calls of 33
    Step::Words(1, 0x1010_1000),
    Step::Words(32, 0x2100_0000),
    Step::Calls(64),
    Step::Words(1, 0xc000_0000),
    Step::Words(1, 0x1010_1000),
    Step::Words(32, 0x2100_0000),
    Step::Calls(64),
    Step::Words(1, 0xc000_0000),
    Step::Words(1, 0x1010_1000),
    Step::Words(32, 0x2100_0000),
    Step::Calls(64),
    Step::Words(1, 0xc000_0000),
    Step::Words(1, 0x1010_1000),
    Step::Words(32, 0x2100_0000),
    Step::Calls(64),
    Step::Words(1, 0xc000_0000),
    Step::Words(1, 0x1010_1000),
    Step::Words(32, 0x2100_0000),
    Step::Calls(64),
    Step::Words(1, 0xc000_0000),
    Step::Words(1, 0x1010_1000),
    Step::Words(32, 0x2100_0000),
    Step::Calls(64),
    Step::Words(1, 0xc000_0000),
    Step::Words(1, 0x1010_1000),
    Step::Words(32, 0x2100_0000),
    Step::Calls(64),
    Step::Words(1, 0xc000_0000),
    // and 33 words, 39 calls of 33 and three equations of 2: 16,383 words
    Step::Words(1, 0x1010_1000),
    Step::Words(32, 0x2100_0000),
    Step::Calls(39),
    Step::Equations(3),
    Step::Read(0xc000_0000, Answer::Nodes(9)),
    Step::Read(0x3000_001f, Answer::Fault(2, 8, 16384)),
    Step::Read(0xc000_0001, Answer::Fault(3, 8, 16383)),
    Step::Read(0x9000_001f, Answer::Fault(2, 8, 16383)),
    Step::Words(1, 0xc000_0000),
    Step::Read(0x1001_0100, Answer::Fault(1, 0, 0)),
    // the length before any word
    Step::New,
    Step::Words(16383, 0x0000_0002),
    Step::Read(0xffff_ffff, Answer::Fault(4, 0, 0)),
    Step::Words(1, 0x0000_0002),
    Step::Read(0xffff_ffff, Answer::Fault(1, 0, 0)),
];

fn repeat(words: &mut Vec<u32>, times: usize, part: &[u32]) -> Result<(), Fail> {
    for _ in 0..times {
        words.extend_from_slice(part)?;
    }
    Ok(())
}

fn push_calls(words: &mut Vec<u32>, times: usize) -> Result<(), Fail> {
    for _ in 0..times {
        repeat(words, 1, &[0x8000_0000])?;
        repeat(words, 16, &[0x9000_001f])?;
        repeat(words, 16, &[0xb000_001f])?;
    }
    Ok(())
}

fn read_next(rt: &impl Abort, words: &mut Vec<u32>, w: u32) -> Result<Answer, Fail> {
    words.push(w)?;
    let answer = read(rt, 1, words)?;
    let _ = words.pop();
    Ok(answer)
}

fn check_steps(rt: &impl Abort, words: &mut Vec<u32>, steps: &[Step]) -> Result<(), Fail> {
    words.clear();
    for (i, step) in steps.iter().enumerate() {
        match *step {
            Step::New => words.clear(),
            Step::Words(times, w) => repeat(words, times, &[w])?,
            Step::Nodes(times) => repeat(words, times, &NODE)?,
            Step::Equations(times) => repeat(words, times, &EQUATION)?,
            Step::Calls(times) => push_calls(words, times)?,
            Step::Read(w, expected) => check_case(rt, i, read_next(rt, words, w)?, expected),
        }
    }
    Ok(())
}

#[test]
fn most_parts(rt: HostRuntime) -> Result<(), Fail> {
    let mut words = Vec::new(rt.alloc());
    check_steps(&rt, &mut words, &NODES)?;
    check_steps(&rt, &mut words, &EQUATIONS)?;
    check_steps(&rt, &mut words, &VARIABLES)?;
    check_steps(&rt, &mut words, &PORTS)
}

#[test]
fn most_words(rt: HostRuntime) -> Result<(), Fail> {
    let mut words = Vec::new(rt.alloc());
    check_steps(&rt, &mut words, &WORDS)
}

// The outline of the small table.
#[test]
fn outline(rt: HostRuntime) -> Result<(), Fail> {
    let Ok(o) = scan_words(1, &BASE) else {
        return Err(Fail::new("the table is refused"));
    };
    assert_eq!(rt; o.nodes, 2);
    assert_eq!(rt; [o.starts[0], o.starts[1]], [1, 15]);
    assert_eq!(rt; [o.inputs[0], o.outputs[0], o.equations[0]], [1, 1, 3]);
    assert_eq!(rt; [o.inputs[1], o.outputs[1], o.equations[1]], [1, 1, 1]);
    assert_eq!(rt;
        [o.heads[0], o.heads[1], o.heads[2], o.heads[64]],
        [6, 8, 11, 18]
    );
    Ok(())
}
