// Listings, whole.
use listing::Listing;
use std::alloc::{AllocError, Global};
use std::test::Fail;

const RESTARTED_COUNTER: [u32; 22] = [
    0x00000001, 0x10010102, 0x20000000, 0x21000000, 0x21000000, 0x21000000, 0x30000001, 0x90000002,
    0x38000003, 0x90000002, 0xa1000001, 0x70000002, 0xa1000000, 0x90000003, 0xc0000000, 0x10010100,
    0x20000000, 0x21000000, 0x80008000, 0x90000000, 0xb0000001, 0xc0000000,
];

const RESTARTED_COUNTER_LISTED: &str = "table of 22 words for set 1 (integers), 2 nodes

node 0: 1 input, 1 output, 2 locals, 3 equations
  x0   input   bool     base
  x1   output  int      base
  x2   local   int      base
  x3   local   int      base
  equation 0   place 6      x1 = copy(x2)
  equation 1   place 8      x3 = add(x2, 1)
  equation 2   place 11     x2 = 0 fby x3

node 1 (main): 1 input, 1 output, 0 locals, 1 equation
  x0   input   bool     base
  x1   output  int      base
  equation 0   place 18     x1 = node0(x0) every x0
";

// Each form of an equation, of a literal, of a type and of a clock, for set 2.
const FORMS: [u32; 40] = [
    // node 0: two inputs, two outputs
    0x00000002, 0x10020200, 0x20000000, 0x22000000, 0x20000000, 0x22000000,
    // x2 = not(x0), x3 = operator 200(x1, -1)
    0x30100002, 0x90000000, 0x3c800003, 0x90000001, 0xa2ffffff, 0xc0000000,
    // node 1: two inputs, one output, six locals
    0x10020106, 0x20000000, 0x22000000, 0x22000000, 0x220000c0, 0x22000080, 0x22000000, 0x20000000,
    0x2f000000, 0x20000000,
    // x2 = merge x0 (x3) (x4), x3 = x1 when x0, x4 = 7 when not x0, x5 = if x0 then x1 else 7
    0x50000002, 0x90000003, 0x90000004, 0x40000003, 0x90000001, 0x40000004, 0xa2000007, 0x60000005,
    0x90000001, 0xa2000007,
    // (x6, x7) = node0(true, type 15 payload 9), x8 = x0 when base
    0x80000000, 0xa0000001, 0xaf000009, 0xb0000006, 0xb0000007, 0x40000008, 0x90000000, 0xc0000000,
];

const FORMS_LISTED: &str = "table of 40 words for set 2 (doubles), 2 nodes

node 0: 2 inputs, 2 outputs, 0 locals, 2 equations
  x0   input   bool     base
  x1   input   real     base
  x2   output  bool     base
  x3   output  real     base
  equation 0   place 6      x2 = not(x0)
  equation 1   place 8      x3 = operator 200(x1, -1)

node 1 (main): 2 inputs, 1 output, 6 locals, 6 equations
  x0   input   bool     base
  x1   input   real     base
  x2   output  real     base
  x3   local   real     on x0
  x4   local   real     on not x0
  x5   local   real     base
  x6   local   bool     base
  x7   local   type 15  base
  x8   local   bool     base
  equation 0   place 22     x2 = merge x0 (x3) (x4)
  equation 1   place 25     x3 = x1 when x0
  equation 2   place 27     x4 = 7 when not x0
  equation 3   place 29     x5 = if x0 then x1 else 7
  equation 4   place 32     (x6, x7) = node0(true, type 15 payload 9)
  equation 5   place 37     x8 = x0 when base
";

const REFUSALS: [(&[u32], &str); 8] = [
    (
        &[],
        "refused: 1 reading node 0 place 0\nThe table is empty.\n",
    ),
    (
        &[0xd0000000],
        "refused: 2 reading node 0 place 0\nThe word at place 0, D0000000 (no kind of a table), is of a kind that cannot stand there.\n",
    ),
    (
        &[1],
        "refused: 2 reading node 0 place 1\nThe table ends early: at place 1, behind its last word, another word is due.\n",
    ),
    (
        &[0x101],
        "refused: 3 reading node 0 place 0\nThe word at place 0, 00000101 (HEAD), has a bit set that must be zero.\n",
    ),
    (
        &[3],
        "refused: 4 reading node 0 place 0\nThe word at place 0, 00000003 (HEAD), names an operator set that is not known: there are sets 1 and 2.\n",
    ),
    (
        &[2, 0x10010140],
        "refused: 5 reading node 0 place 1\nThe word at place 1, 10010140 (NODE), goes beyond a limit: a table has at most 32 nodes, and a node 1 to 16 inputs, 1 to 16 outputs, at most 64 variables and at most 64 equations.\n",
    ),
    (
        &[1, 0x10010100, 0x20000000, 0x20000000, 0x80000000],
        "refused: 6 reading node 0 place 4\nThe word at place 4, 80000000 (CALL), calls a node that does not stand before its own, or is restarted by a variable that its node does not have.\n",
    ),
    (
        &[1, 0x10010100, 0x20000000, 0x20000082],
        "refused: 6 reading node 0 place 3\nThe word at place 3, 20000082 (VARIABLE), names a variable that its node does not have.\n",
    ),
];

fn listed(heap: Global, words: &[u32]) -> Result<String, AllocError> {
    let listing = Listing::of(words);
    format!(in heap; "{listing}")
}

#[test]
fn tables(rt: HostRuntime) -> Result<(), Fail> {
    assert_eq!(rt;
        listed(rt.alloc(), &RESTARTED_COUNTER)?.as_str(),
        RESTARTED_COUNTER_LISTED
    );
    assert_eq!(rt; listed(rt.alloc(), &FORMS)?.as_str(), FORMS_LISTED);
    Ok(())
}

#[test]
fn refusals(rt: HostRuntime) -> Result<(), Fail> {
    for (words, text) in &REFUSALS {
        assert_eq!(rt; listed(rt.alloc(), *words)?.as_str(), *text);
    }
    Ok(())
}
