// Single words.
use words::{Clock, Operand, Word, decode, kind, spare_bits_zero};

// Where a word has no such field, or no such kind.
const NONE: u32 = 999;

// A word, whether the bits that must be zero are, and what it says: its kind, and its fields from the highest on.
const WORDS: [(u32, bool, [u32; 4]); 34] = [
    (0x0000_00a5, true, [0, 0xa5, 0, 0]),
    (0x0fff_ffa5, false, [0, 0xa5, 0, 0]),
    (0x1012_3456, true, [1, 0x12, 0x34, 0x56]),
    (0x1f12_3456, false, [1, 0x12, 0x34, 0x56]),
    // a sampled variable has its sampler and its sense, another neither
    (0x2b00_00ea, true, [2, 11, 42, 1]),
    (0x2500_0095, true, [2, 5, 21, 0]),
    (0x2f00_0000, true, [2, 15, NONE, 0]),
    (0x2f00_006a, false, [2, 15, NONE, 0]),
    (0x25ff_ff95, false, [2, 5, 21, 0]),
    (0x3a70_0015, true, [3, 0xa7, 21, 0]),
    (0x3a7f_ffd5, false, [3, 0xa7, 21, 0]),
    (0x4000_002c, true, [4, 44, 0, 0]),
    (0x4fff_ffec, false, [4, 44, 0, 0]),
    (0x5000_1b26, true, [5, 27, 38, 0]),
    (0x5fff_dbe6, false, [5, 27, 38, 0]),
    (0x6000_2d13, true, [6, 45, 19, 0]),
    (0x6fff_edd3, false, [6, 45, 19, 0]),
    (0x7000_0031, true, [7, 49, 0, 0]),
    (0x7fff_fff1, false, [7, 49, 0, 0]),
    // a CALL has the node and what restarts it
    (0x8c90_9700, true, [8, 0xc9, 23, 0]),
    (0x8c9f_d7ff, false, [8, 0xc9, 23, 0]),
    (0x8c90_0000, true, [8, 0xc9, NONE, 0]),
    (0x8c90_1700, false, [8, 0xc9, NONE, 0]),
    (0x9000_003e, true, [9, 62, 0, 0]),
    (0x9fff_fffe, false, [9, 62, 0, 0]),
    (0xad12_3456, true, [10, 13, 0x12_3456, 0]),
    (0xafff_ffff, true, [10, 15, 0xff_ffff, 0]),
    (0xb000_0009, true, [11, 9, 0, 0]),
    (0xbfff_ffc9, false, [11, 9, 0, 0]),
    (0xc000_0000, true, [12, 0, 0, 0]),
    (0xcfff_ffff, false, [12, 0, 0, 0]),
    (0xd000_0000, false, [NONE, 0, 0, 0]),
    (0xe123_4567, false, [NONE, 0, 0, 0]),
    (0xffff_ffff, false, [NONE, 0, 0, 0]),
];

fn parts(word: Word) -> [u32; 4] {
    match word {
        Word::Head(set) => [0, set as u32, 0, 0],
        Word::Node(p) => [1, p.inputs as u32, p.outputs as u32, p.locals as u32],
        Word::Variable(v) => match v.clock {
            Clock::Base => [2, v.ty as u32, NONE, 0],
            Clock::On(sampler, sense) => [2, v.ty as u32, sampler as u32, u32::from(sense)],
        },
        Word::Operate(op, x) => [3, op as u32, x as u32, 0],
        Word::Sample(x) => [4, x as u32, 0, 0],
        Word::Merge(selector, x) => [5, selector as u32, x as u32, 0],
        Word::Choose(selector, x) => [6, selector as u32, x as u32, 0],
        Word::Delay(x) => [7, x as u32, 0, 0],
        Word::Call(node, Some(r)) => [8, node as u32, r as u32, 0],
        Word::Call(node, None) => [8, node as u32, NONE, 0],
        Word::Operand(Operand::Take(x)) => [9, x as u32, 0, 0],
        Word::Operand(Operand::Literal(l)) => [10, l.ty as u32, l.payload, 0],
        Word::Give(x) => [11, x as u32, 0, 0],
        Word::End => [12, 0, 0, 0],
    }
}

#[test]
fn words_say(rt: HostRuntime) {
    for (w, spare_zero, expected) in &WORDS {
        let said = match decode(*w) {
            Some(word) => parts(word),
            None => [NONE, 0, 0, 0],
        };
        assert_eq!(rt; (*w, said), (*w, *expected));
        assert_eq!(rt; (*w, spare_bits_zero(*w)), (*w, *spare_zero));
        assert_eq!(rt; kind(*w) as u32, *w / 0x1000_0000);
    }
}
