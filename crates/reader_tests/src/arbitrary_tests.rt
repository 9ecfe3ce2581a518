// Words as they come: whatever they are, reading answers, and always the same.
use crate::shared::{Answer, BASE, check_case, read};
use std::process::Abort;
use std::test::Fail;

// The next of a fixed row of numbers that look random.
fn next(x: u32) -> u32 {
    let y = x ^ (x << 13);
    let z = y ^ (y >> 17);
    z ^ (z << 5)
}

// A fault lies at a word from `first` on, or just behind the last.
fn check_answer(rt: &impl Abort, first: usize, words: &[u32]) -> Result<(), Fail> {
    let answer = read(rt, 1, words)?;
    check_case(rt, first, read(rt, 1, words)?, answer);
    assert!(rt;
        match answer {
            Answer::Nodes(nodes) => nodes >= 1 && nodes <= 32,
            Answer::Fault(number, node, place) => {
                number >= 1
                    && number <= 6
                    && node <= 32
                    && place as usize >= first
                    && place as usize <= words.len()
            }
        }
    );
    Ok(())
}

// The first few words are good ones, and the others come from the seed.
fn arbitrary(seed: u32, mask: u32, good: usize) -> [u32; 64] {
    let mut words = [0; 64];
    let mut x = seed;
    for i in 0..64usize {
        x = next(x);
        words[i] = if i < good && i < 22 {
            BASE[i]
        } else {
            x & mask
        };
    }
    words
}

// Tables of up to 64 words, half of them of small numbers alone.
#[test]
fn arbitrary_words(rt: HostRuntime) -> Result<(), Fail> {
    let mut x = 0x2545_f491;
    for round in 0..4000u32 {
        x = next(x);
        let length = (x % 65) as usize;
        let good = (round % 4) as usize;
        let mask = if round % 8 < 4 {
            0xf101_8103
        } else {
            0xffff_ffff
        };
        let words = arbitrary(x.wrapping_mul(0x9e37_79b9), mask, good);
        check_answer(&rt, good.min(length), &words[0..length])?;
    }
    Ok(())
}

// The small table with one word changed in a bit, or to another word of the table, or wholly.
#[test]
fn arbitrary_changes(rt: HostRuntime) -> Result<(), Fail> {
    let mut x = 0x9e37_79b9;
    for round in 0..6000u32 {
        x = next(x);
        let place = (x % 22) as usize;
        x = next(x);
        let mut words = BASE;
        words[place] = match round % 3 {
            0 => BASE[place] ^ (1 << (x % 32)),
            1 => BASE[(x % 22) as usize],
            _ => x,
        };
        check_answer(&rt, place, &words)?;
    }
    Ok(())
}
