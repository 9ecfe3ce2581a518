// What the tests of every set share: its booleans, its result types, and what belongs to its types.
use opset::OperatorSet;
use std::process::Abort;
use std::test::Fail;

// An operator of two booleans, with its result.
const BOOLEANS: [(u8, bool, bool, bool); 15] = [
    (133, false, false, false),
    (133, false, true, false),
    (133, true, false, false),
    (133, true, true, true),
    (134, false, false, false),
    (134, false, true, true),
    (134, true, false, true),
    (134, true, true, true),
    (135, false, false, false),
    (135, false, true, true),
    (135, true, false, true),
    (135, true, true, false),
    // operators that are not of two booleans
    (128, true, false, true),
    (136, false, false, false),
    (255, true, false, true),
];

// An operator of one boolean, with its result.
const ONE_BOOLEAN: [(u8, bool, bool); 6] = [
    (0, false, false),
    (0, true, true),
    (1, false, true),
    (1, true, false),
    (2, true, true),
    (127, true, true),
];

// An operator, with its result type on two numbers and on two booleans.
pub type ResultTypes = (u8, Option<u8>, Option<u8>);

fn boolean<S: OperatorSet>(p: bool) -> Result<S::Value, Fail> {
    let v = S::literal(0, u32::from(p)).ok_or("a boolean has no literal")?;
    Ok(v)
}

pub fn check_booleans<S: OperatorSet>(rt: &impl Abort) -> Result<(), Fail> {
    for (op, p, q, r) in &BOOLEANS {
        let v = S::apply(*op, boolean::<S>(*p)?, Some(boolean::<S>(*q)?));
        assert_eq!(rt; S::truth(v), *r);
    }
    for (op, p, r) in &ONE_BOOLEAN {
        let v = S::apply(*op, boolean::<S>(*p)?, None);
        assert_eq!(rt; S::truth(v), *r);
    }
    assert!(rt; S::literal(0, 2).is_none());
    assert!(rt; S::literal(0, 0xff_ffff).is_none());
    Ok(())
}

// `other` is a type that the set lacks.
pub fn check_result_types<S: OperatorSet>(
    rt: &impl Abort,
    numeric: u8,
    other: u8,
    table: &[ResultTypes],
) {
    for (op, numbers, booleans) in table {
        assert_eq!(rt; S::result_type(*op, numeric, Some(numeric)), *numbers);
        assert_eq!(rt; S::result_type(*op, 0, Some(0)), *booleans);
        assert_eq!(rt; S::result_type(*op, 0, Some(numeric)), None);
        assert_eq!(rt; S::result_type(*op, numeric, Some(0)), None);
        assert_eq!(rt; S::result_type(*op, other, Some(other)), None);
    }
    for (op, number, boolean) in [
        (0, Some(numeric), Some(0)),
        (1, None, Some(0)),
        (2, Some(numeric), None),
        (128, None, None),
    ] {
        assert_eq!(rt; S::result_type(op, numeric, None), number);
        assert_eq!(rt; S::result_type(op, 0, None), boolean);
        assert_eq!(rt; S::result_type(op, other, None), None);
    }
}

pub fn check_types<S: OperatorSet>(rt: &impl Abort, numeric: u8) -> Result<(), Fail> {
    let number = S::literal(numeric, 1).ok_or("1 has no literal")?;
    assert!(rt; !S::truth(number));
    for ty in 0..16 {
        assert_eq!(rt; S::has_type(ty), ty == 0 || ty == numeric);
        assert_eq!(rt; S::belongs(boolean::<S>(true)?, ty), ty == 0);
        assert_eq!(rt; S::belongs(number, ty), ty == numeric);
    }
    Ok(())
}
