// A payload's bits as a signed number.
ghost use Rattle.std.specs.Prelude.{◌≡◌, ◌%◌, ◌^◌};
ghost use Rattle.opset.specs.Payload.{signed24 as extended};

// The payload's low 24 bits, sign-extended. Higher bits, which no payload has, say nothing.
pub fn signed24(payload: u32) -> i32
    ensures { result ≡ extended (payload % 2 ^ 24) }
{
    let bits = (payload % 0x100_0000) as i32;
    if bits < 0x80_0000 {
        bits
    } else {
        bits - 0x100_0000
    }
}
