// What may stand at each place of a table, and where it may end.
use crate::shared::{Answer, BASE, Change, check_case, check_flag, read, read_changed};
use std::test::Fail;
use words::spare_bits_zero;

// Sets of kinds, a bit for each: bit k for kind k.
const HEAD: u32 = 0x0001;

const NODE: u32 = 0x0002;

const VARIABLE: u32 = 0x0004;

// a head of an equation, of kinds 3 to 8, or END
const EQUATION: u32 = 0x11f8;

// TAKE or LITERAL
const OPERAND: u32 = 0x0600;

const LITERAL: u32 = 0x0400;

const GIVE: u32 = 0x0800;

// By place, the one behind the last too: the kinds that may stand there, and the node that another is reported with.
const KINDS: [(u32, u8); 23] = [
    (HEAD, 0),
    (NODE, 0),
    (VARIABLE, 0),
    (VARIABLE, 0),
    (VARIABLE, 0),
    (VARIABLE, 0),
    (EQUATION, 0),
    (OPERAND, 0),
    (EQUATION, 0),
    (OPERAND, 0),
    (OPERAND, 0),
    (EQUATION, 0),
    (LITERAL, 0),
    (OPERAND, 0),
    (EQUATION, 0),
    (NODE, 0),
    (VARIABLE, 1),
    (VARIABLE, 1),
    (EQUATION, 1),
    (OPERAND, 1),
    (GIVE, 1),
    (EQUATION, 1),
    (NODE, 1),
];

// A good word, with the place where it may stand, its node, and the bits below its kind that must be zero.
const SPARE_BITS: [(u32, u16, u8, u32); 24] = [
    (0x0000_0001, 0, 0, 0x0fff_ff00),
    (0x1001_0102, 1, 0, 0x0f00_0000),
    (0x1001_0100, 15, 1, 0x0f00_0000),
    (0x2000_0000, 2, 0, 0x00ff_ff7f),
    (0x2100_0000, 5, 0, 0x00ff_ff7f),
    (0x2100_0000, 17, 1, 0x00ff_ff7f),
    (0x2000_0080, 2, 0, 0x00ff_ff00),
    (0x2100_0080, 17, 1, 0x00ff_ff00),
    (0x3000_0001, 6, 0, 0x000f_ffc0),
    (0x3800_0003, 8, 0, 0x000f_ffc0),
    (0x4000_0001, 6, 0, 0x0fff_ffc0),
    (0x5000_0003, 8, 0, 0x0fff_c0c0),
    (0x6000_0003, 8, 0, 0x0fff_c0c0),
    (0x7000_0002, 11, 0, 0x0fff_ffc0),
    (0x8000_8000, 18, 1, 0x000f_40ff),
    (0x8000_0000, 18, 1, 0x000f_7fff),
    (0x9000_0002, 7, 0, 0x0fff_ffc0),
    (0x9000_0003, 13, 0, 0x0fff_ffc0),
    (0x9000_0000, 19, 1, 0x0fff_ffc0),
    (0xa100_0001, 10, 0, 0),
    (0xa100_0000, 12, 0, 0),
    (0xb000_0001, 20, 1, 0x0fff_ffc0),
    (0xc000_0000, 14, 0, 0x0fff_ffff),
    (0xc000_0000, 21, 1, 0x0fff_ffff),
];

// A wrong kind is refused whatever its other bits are.
#[test]
fn wrong_kinds(rt: HostRuntime) -> Result<(), Fail> {
    for (place, (kinds, node)) in KINDS.iter().enumerate() {
        let refused = Answer::Fault(2, *node, place as u16);
        for kind in 0..16u32 {
            for fields in [0, 0x0fff_ffff] {
                let w = (kind << 28) | fields;
                let change = if place < 22 {
                    Change::Put(place, w)
                } else {
                    Change::Insert(22, w)
                };
                let answer = read_changed(&rt, rt.alloc(), 1, change)?;
                check_flag(&rt, place, w, answer == refused, (*kinds >> kind) % 2 == 0);
            }
        }
    }
    Ok(())
}

#[test]
fn spare_bits(rt: HostRuntime) -> Result<(), Fail> {
    for (good, place, node, spare) in &SPARE_BITS {
        let at = *place as usize;
        let refused = Answer::Fault(3, *node, *place);
        for i in 0..28u32 {
            let w = *good ^ (1 << i);
            let answer = read_changed(&rt, rt.alloc(), 1, Change::Put(at, w))?;
            let is_spare = (*spare >> i) % 2 == 1;
            check_flag(&rt, at, w, answer == refused, is_spare);
            check_flag(&rt, at, w, spare_bits_zero(w), !is_spare);
        }
    }
    Ok(())
}

// A table that ends early is refused at its length, and may end behind each END.
#[test]
fn early_ends(rt: HostRuntime) -> Result<(), Fail> {
    for length in 0..=22usize {
        let expected = match length {
            0 => Answer::Fault(1, 0, 0),
            15 => Answer::Nodes(1),
            22 => Answer::Nodes(2),
            _ => Answer::Fault(2, if length < 16 { 0 } else { 1 }, length as u16),
        };
        check_case(&rt, length, read(&rt, 1, &BASE[0..length])?, expected);
    }
    Ok(())
}
