// The fields of a word of code, as numbers to count and index with.
ghost use Rattle.std.specs.Prelude.{◌≡◌};
ghost use Rattle.words.specs.Bits.{field, is_set};

/// The variable that an OPERATE, a TAKE or a GIVE names.
pub fn variable(w: u32) -> usize
    ensures { result ≡ field w 0 6 }
{
    (w % 0x40) as usize
}

/// The operator in an OPERATE.
pub fn operator(w: u32) -> u8
    ensures { result ≡ field w 20 8 }
{
    ((w >> 20) % 0x100) as u8
}

/// The variable that an UNLESS tests.
pub fn tested(w: u32) -> usize
    ensures { result ≡ field w 14 6 }
{
    ((w >> 14) % 0x40) as usize
}

/// The sense in an UNLESS.
pub fn sense(w: u32) -> bool
    ensures { result ≡ is_set w 27 }
{
    (w >> 27) % 2 == 1
}

/// How many words an UNLESS or a SKIP passes over.
pub fn distance(w: u32) -> usize
    ensures { result ≡ field w 0 14 }
{
    (w % 0x4000) as usize
}

/// The node whose block a RESET or a STEP runs.
pub fn node(w: u32) -> usize
    ensures { result ≡ field w 20 8 }
{
    ((w >> 20) % 0x100) as usize
}

/// Where the segment of a RESET or a STEP begins.
pub fn offset(w: u32) -> usize
    ensures { result ≡ field w 0 13 }
{
    (w % 0x2000) as usize
}
