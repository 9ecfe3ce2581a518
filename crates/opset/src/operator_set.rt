// What a set of operators is: six functions of their arguments alone, over a kind of value of the set's own.
ghost use Rattle.std.specs.Prelude.{◌≡◌, ℕ};
ghost use Rattle.opset.specs.Meaning.{Meaning, Laws};

// Types are numbered 0 to 15, and type 0 is the boolean one. A payload has 24 bits.
// Operators 0 to 127 take one operand, and 128 to 255 two: `b` is `None` where there is one.
pub trait OperatorSet {
    type Value: Copy + Drop;

    const NUMBER: u8;

    ghost numbered: { ℕ };

    ghost meaning: { Meaning Self.Value };

    // `NUMBER`, for contracts: a clause cannot read an associated constant.
    fn set_number() -> u8
        ensures { result ≡ numbered };

    fn has_type(ty: u8) -> bool
        ensures { result ≡ meaning.has_type ty };

    // The value of a type and a payload, if there is one.
    fn literal(ty: u8, payload: u32) -> Option<Self::Value>
        ensures { result ≡ meaning.literal ty payload };

    // The type of what `apply` answers on operands of these types. `None`: the operator is not for them.
    fn result_type(op: u8, a: u8, b: Option<u8>) -> Option<u8>
        ensures { result ≡ meaning.result_type op a b };

    // Total: where the operator is not for these operands, the first of them.
    fn apply(op: u8, a: Self::Value, b: Option<Self::Value>) -> Self::Value
        ensures { result ≡ meaning.apply op a b };

    fn truth(v: Self::Value) -> bool
        ensures { result ≡ meaning.truth v };

    fn belongs(v: Self::Value, ty: u8) -> bool
        ensures { result ≡ meaning.belongs v ty };

    ghost lawful: { Laws meaning };
}
