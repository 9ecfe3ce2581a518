// Orders that are found, and waits that allow none.
use schedule::{Order, Waits, order_of};
use std::process::Abort;
use std::test::Fail;

// Pairs of equations of which the first comes before the second, with the order of as many equations as it has.
const ORDERS: [(&[(usize, usize)], &[u8]); 10] = [
    (&[], &[]),
    (&[], &[0]),
    (&[], &[0, 1, 2, 3, 4]),
    // a chain forwards, and one backwards
    (&[(0, 1), (1, 2), (2, 3)], &[0, 1, 2, 3]),
    (&[(1, 0), (2, 1), (3, 2)], &[3, 2, 1, 0]),
    // a diamond, and one upside down
    (&[(0, 1), (0, 2), (1, 3), (2, 3)], &[0, 1, 2, 3]),
    (&[(3, 1), (3, 2), (1, 0), (2, 0)], &[3, 1, 2, 0]),
    // what becomes ready nearer the front goes first
    (&[(2, 0)], &[1, 2, 0, 3]),
    (&[(1, 0), (4, 3)], &[1, 0, 2, 4, 3]),
    // only the equations that are asked for wait, and for each other
    (&[(4, 0), (64, 1), (0, 64)], &[0, 1, 2, 3]),
];

// Pairs that allow no order of so many equations.
const RINGS: [(&[(usize, usize)], usize); 5] = [
    (&[(0, 1), (1, 0)], 2),
    (&[(1, 2), (2, 1)], 4),
    (&[(0, 0)], 1),
    (&[(3, 3)], 4),
    (&[(0, 1), (1, 2), (2, 3), (3, 1)], 5),
];

fn waits_of(pairs: &[(usize, usize)]) -> Waits {
    let mut waits = Waits::none();
    for (i, j) in pairs {
        waits.set(*i, *j);
    }
    waits
}

// Each of 64 equations comes before the next, and the last before the first.
fn ring() -> Waits {
    let mut waits = Waits::none();
    for i in 0..64 {
        waits.set(i, (i + 1) % 64);
    }
    waits
}

// Each of 64 equations waits for the next.
fn backwards() -> Waits {
    let mut waits = Waits::none();
    for i in 0..63 {
        waits.set(i + 1, i);
    }
    waits
}

fn check_places(rt: &impl Abort, order: &Order, expected: &[u8]) {
    assert_eq!(rt; order.count as usize, expected.len());
    for (place, equation) in order.places.iter().zip(expected) {
        assert_eq!(rt; *place, *equation);
    }
}

#[test]
fn orders_are_found(rt: HostRuntime) -> Result<(), Fail> {
    for (pairs, expected) in &ORDERS {
        let order = order_of(&waits_of(pairs), expected.len()).ok_or("there is an order")?;
        check_places(&rt, &order, expected);
    }
    Ok(())
}

#[test]
fn rings_allow_none(rt: HostRuntime) {
    for (pairs, n) in &RINGS {
        assert!(rt; order_of(&waits_of(pairs), *n).is_none());
    }
}

#[test]
fn sixty_four_equations(rt: HostRuntime) -> Result<(), Fail> {
    let free = order_of(&Waits::none(), 64).ok_or("nothing waits")?;
    let turned = order_of(&backwards(), 64).ok_or("a chain has an order")?;
    for i in 0..64 {
        assert_eq!(rt; free.places[i] as usize, i);
        assert_eq!(rt; turned.places[i] as usize, 63 - i);
    }
    assert!(rt; order_of(&ring(), 64).is_none());
    // without the last the ring is a chain
    assert!(rt; order_of(&ring(), 63).is_some());
    assert!(rt; order_of(&Waits::none(), 65).is_none());
    Ok(())
}
