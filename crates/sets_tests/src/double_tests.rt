// Set 2 at work.
use crate::shared::{ResultTypes, check_booleans, check_result_types, check_types};
use doubles::Doubles;
use opset::{OperatorSet, Scalar};
use std::test::Fail;

const INF: f64 = f64::INFINITY;

const NAN: f64 = f64::NAN;

const NUMBERS: [(u8, f64, f64, f64); 29] = [
    (128, 1.5, 2.25, 3.75),
    (128, 0.1, 0.2, 0.30000000000000004),
    (128, f64::MAX, f64::MAX, INF),
    (128, INF, -INF, NAN),
    (128, NAN, 1.0, NAN),
    (128, 0.0, -0.0, 0.0),
    (128, -0.0, -0.0, -0.0),
    (129, 1.0, 2.5, -1.5),
    (129, INF, INF, NAN),
    (129, -f64::MAX, f64::MAX, -INF),
    (129, 1.0, 1.0, 0.0),
    (130, -1.5, 2.0, -3.0),
    (130, f64::MAX, 2.0, INF),
    (130, INF, 0.0, NAN),
    (130, -1.0, 0.0, -0.0),
    (130, f64::MIN_POSITIVE, f64::MIN_POSITIVE, 0.0),
    (131, 7.0, 2.0, 3.5),
    (131, 1.0, 3.0, 0.3333333333333333),
    (131, 1.0, 0.0, INF),
    (131, -1.0, 0.0, -INF),
    (131, 1.0, -0.0, -INF),
    (131, 0.0, 0.0, NAN),
    (131, INF, INF, NAN),
    (131, -1.0, INF, -0.0),
    // operators that are not of two numbers
    (132, 7.0, 2.0, 7.0),
    (132, NAN, 2.0, NAN),
    (133, 6.0, 3.0, 6.0),
    (139, -0.0, 3.0, -0.0),
    (255, 6.0, 3.0, 6.0),
];

// Two numbers, with whether they are equal, the first is less, and it is at most the second.
const COMPARISONS: [(f64, f64, bool, bool, bool); 10] = [
    (1.0, 1.0, true, false, true),
    (1.0, 1.5, false, true, true),
    (1.5, 1.0, false, false, false),
    (0.0, -0.0, true, false, true),
    (-0.0, 0.0, true, false, true),
    (-INF, INF, false, true, true),
    (INF, INF, true, false, true),
    (NAN, NAN, false, false, false),
    (NAN, 1.0, false, false, false),
    (1.0, NAN, false, false, false),
];

const ONE_NUMBER: [(u8, f64, f64); 7] = [
    (0, -0.0, -0.0),
    (0, NAN, NAN),
    (1, 2.5, 2.5),
    (2, 2.5, -2.5),
    (2, 0.0, -0.0),
    (2, -INF, INF),
    (2, NAN, NAN),
];

const LITERALS: [(u8, u32, Option<Scalar<f64>>); 12] = [
    (0, 0, Some(Scalar::Bool(false))),
    (0, 1, Some(Scalar::Bool(true))),
    (0, 2, None),
    (2, 0, Some(Scalar::Number(0.0))),
    (2, 1, Some(Scalar::Number(1.0))),
    (2, 2, Some(Scalar::Number(2.0))),
    (2, 0x7f_ffff, Some(Scalar::Number(8_388_607.0))),
    (2, 0x80_0000, Some(Scalar::Number(-8_388_608.0))),
    (2, 0xff_ffff, Some(Scalar::Number(-1.0))),
    (2, 0x100_0000, None),
    (1, 0, None),
    (15, 0, None),
];

const RESULT_TYPES: [ResultTypes; 15] = [
    (0, None, None),
    (127, None, None),
    (128, Some(2), None),
    (129, Some(2), None),
    (130, Some(2), None),
    (131, Some(2), None),
    (132, None, None),
    (133, None, Some(0)),
    (134, None, Some(0)),
    (135, None, Some(0)),
    (136, Some(0), None),
    (137, Some(0), None),
    (138, Some(0), None),
    (139, None, None),
    (255, None, None),
];

// The same value, where `==` tells no zeros apart and takes no NaN for itself.
fn is_number(v: Scalar<f64>, r: f64) -> bool {
    match v {
        Scalar::Bool(_) => false,
        Scalar::Number(x) => (x != x && r != r) || (x == r && 1.0 / x == 1.0 / r),
    }
}

#[test]
fn numbers(rt: HostRuntime) {
    for (op, x, y, r) in &NUMBERS {
        assert!(rt;
            is_number(
                Doubles::apply(*op, Scalar::Number(*x), Some(Scalar::Number(*y))),
                *r,
            )
        );
    }
    for (op, x, r) in &ONE_NUMBER {
        assert!(rt; is_number(Doubles::apply(*op, Scalar::Number(*x), None), *r));
    }
    assert!(rt;
        is_number(
            Doubles::apply(128, Scalar::Number(7.0), Some(Scalar::Bool(true))),
            7.0,
        )
    );
    assert_eq!(rt;
        Doubles::apply(133, Scalar::Bool(true), Some(Scalar::Number(7.0))),
        Scalar::Bool(true)
    );
}

#[test]
fn comparisons(rt: HostRuntime) {
    for (x, y, equal, less, at_most) in &COMPARISONS {
        let a = Scalar::Number(*x);
        let b = Some(Scalar::Number(*y));
        assert_eq!(rt; Doubles::apply(136, a, b), Scalar::Bool(*equal));
        assert_eq!(rt; Doubles::apply(137, a, b), Scalar::Bool(*less));
        assert_eq!(rt; Doubles::apply(138, a, b), Scalar::Bool(*at_most));
    }
}

#[test]
fn literals(rt: HostRuntime) -> Result<(), Fail> {
    for (ty, payload, v) in &LITERALS {
        assert_eq!(rt; Doubles::literal(*ty, *payload), *v);
    }
    let zero = Doubles::literal(2, 0).ok_or("payload 0 has no number")?;
    assert!(rt; is_number(zero, 0.0));
    Ok(())
}

#[test]
fn types(rt: HostRuntime) -> Result<(), Fail> {
    assert_eq!(rt; Doubles::set_number(), 2);
    check_booleans::<Doubles>(&rt)?;
    check_types::<Doubles>(&rt, 2)?;
    check_result_types::<Doubles>(&rt, 2, 1, &RESULT_TYPES);
    Ok(())
}
