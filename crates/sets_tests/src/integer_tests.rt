// Set 1 at work.
use crate::shared::{ResultTypes, check_booleans, check_result_types, check_types};
use integers::Integers;
use opset::{OperatorSet, Scalar};
use std::test::Fail;

const NUMBERS: [(u8, i32, i32, i32); 27] = [
    (128, 2, 3, 5),
    (128, -2, 3, 1),
    (128, i32::MAX, 1, i32::MIN),
    (128, i32::MIN, -1, i32::MAX),
    (129, 2, 3, -1),
    (129, i32::MIN, 1, i32::MAX),
    (129, i32::MAX, -1, i32::MIN),
    (130, -4, 3, -12),
    (130, 65536, 65536, 0),
    (130, 65536, 32768, i32::MIN),
    (130, i32::MIN, -1, i32::MIN),
    (131, 7, 2, 3),
    (131, -7, 2, -3),
    (131, 7, -2, -3),
    (131, -7, -2, 3),
    (131, 7, 0, 0),
    (131, i32::MIN, 0, 0),
    (131, i32::MIN, -1, i32::MIN),
    (132, 7, 2, 1),
    (132, -7, 2, -1),
    (132, 7, -2, 1),
    (132, -7, -2, -1),
    (132, 7, 0, 0),
    (132, i32::MIN, -1, 0),
    // operators that are not of two numbers
    (133, 6, 3, 6),
    (139, 6, 3, 6),
    (255, 6, 3, 6),
];

const COMPARISONS: [(u8, i32, i32, bool); 12] = [
    (136, 5, 5, true),
    (136, 5, -5, false),
    (136, i32::MIN, i32::MAX, false),
    (137, 4, 5, true),
    (137, 5, 5, false),
    (137, 5, 4, false),
    (137, -1, 0, true),
    (137, i32::MAX, i32::MIN, false),
    (138, 4, 5, true),
    (138, 5, 5, true),
    (138, 5, 4, false),
    (138, i32::MIN, i32::MAX, true),
];

const ONE_NUMBER: [(u8, i32, i32); 6] = [
    (0, -9, -9),
    (1, 7, 7),
    (2, 7, -7),
    (2, 0, 0),
    (2, i32::MIN, i32::MIN),
    (127, 7, 7),
];

const LITERALS: [(u8, u32, Option<Scalar<i32>>); 13] = [
    (0, 0, Some(Scalar::Bool(false))),
    (0, 1, Some(Scalar::Bool(true))),
    (0, 2, None),
    (0, 0xff_ffff, None),
    (1, 0, Some(Scalar::Number(0))),
    (1, 1, Some(Scalar::Number(1))),
    (1, 2, Some(Scalar::Number(2))),
    (1, 0x7f_ffff, Some(Scalar::Number(8_388_607))),
    (1, 0x80_0000, Some(Scalar::Number(-8_388_608))),
    (1, 0xff_ffff, Some(Scalar::Number(-1))),
    (1, 0x100_0000, None),
    (2, 0, None),
    (15, 0, None),
];

const RESULT_TYPES: [ResultTypes; 15] = [
    (0, None, None),
    (127, None, None),
    (128, Some(1), None),
    (129, Some(1), None),
    (130, Some(1), None),
    (131, Some(1), None),
    (132, Some(1), None),
    (133, None, Some(0)),
    (134, None, Some(0)),
    (135, None, Some(0)),
    (136, Some(0), None),
    (137, Some(0), None),
    (138, Some(0), None),
    (139, None, None),
    (255, None, None),
];

#[test]
fn numbers(rt: HostRuntime) {
    for (op, x, y, r) in &NUMBERS {
        assert_eq!(rt;
            Integers::apply(*op, Scalar::Number(*x), Some(Scalar::Number(*y))),
            Scalar::Number(*r)
        );
    }
    for (op, x, y, r) in &COMPARISONS {
        assert_eq!(rt;
            Integers::apply(*op, Scalar::Number(*x), Some(Scalar::Number(*y))),
            Scalar::Bool(*r)
        );
    }
    for (op, x, r) in &ONE_NUMBER {
        assert_eq!(rt;
            Integers::apply(*op, Scalar::Number(*x), None),
            Scalar::Number(*r)
        );
    }
    assert_eq!(rt;
        Integers::apply(128, Scalar::Number(7), Some(Scalar::Bool(true))),
        Scalar::Number(7)
    );
    assert_eq!(rt;
        Integers::apply(133, Scalar::Bool(true), Some(Scalar::Number(7))),
        Scalar::Bool(true)
    );
}

#[test]
fn literals(rt: HostRuntime) {
    for (ty, payload, v) in &LITERALS {
        assert_eq!(rt; Integers::literal(*ty, *payload), *v);
    }
}

#[test]
fn types(rt: HostRuntime) -> Result<(), Fail> {
    assert_eq!(rt; Integers::set_number(), 1);
    check_booleans::<Integers>(&rt)?;
    check_types::<Integers>(&rt, 1)?;
    check_result_types::<Integers>(&rt, 1, 2, &RESULT_TYPES);
    Ok(())
}
