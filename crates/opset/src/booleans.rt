// The operators of booleans: the same in every set. An operator that is not one of them answers its first operand.
ghost use Rattle.std.specs.Prelude.{◌≡◌};
ghost use Rattle.opset.specs.Scalars.{on_bool, on_bools};

pub fn on_bool(op: u8, p: bool) -> bool
    ensures { result ≡ on_bool op p }
{
    match op {
        1 => !p,
        _ => p,
    }
}

pub fn on_bools(op: u8, p: bool, q: bool) -> bool
    ensures { result ≡ on_bools op p q }
{
    match op {
        133 => p & q,
        134 => p | q,
        135 => p != q,
        _ => p,
    }
}
