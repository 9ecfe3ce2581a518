// The order in which equations are executed.
ghost use Rattle.std.specs.Prelude.{◌≡◌, ◌<◌, ◌≤◌, IfSome, None};
ghost use Rattle.schedule.specs.Found.{holds_back, next_of, order_of};
ghost use Rattle.schedule.specs.Order.{Scheduled};
ghost use Rattle.schedule.specs.Placed.{is_placed, nothing_placed, with_next, written};
ghost use Rattle.schedule.specs.Waits.{comes_before};

use crate::waits::{MOST_EQUATIONS, Waits};

/// An order of equations: the first `count` places are their numbers, in the order of execution.
#[derive(Clone, Copy)]
pub struct Order {
    pub places: [u8; 64],
    pub count: u8,
}

/// The equations that are placed so far: their order, and a mark for each.
#[derive(Drop)]
struct Placed {
    order: Order,
    marks: [bool; 64],
}

impl Placed {
    fn none() -> Placed
        ensures { result ≡ nothing_placed }
    {
        let order = Order {
            places: [0; 64],
            count: 0,
        };
        Placed {
            order,
            marks: [false; 64],
        }
    }

    /// Places equation `j` next.
    fn put(&mut self, j: usize)
        requires { (j < 64) × (self.old.order.count < 64) }
        ensures { self.new ≡ with_next self.old j }
    {
        self.order.places[self.order.count as usize] = j as u8;
        self.order.count += 1;
        self.marks[j] = true;
    }
}

/// Equation `j` has to wait for equation `i`, which is not placed yet.
fn holds_back(waits: &Waits, placed: &Placed, i: usize, j: usize) -> bool
    requires { (i < 64) × (j < 64) }
    ensures { result ≡ holds_back (comes_before waits.now.marks) (is_placed placed.now.marks) i j }
{
    waits.has(i, j) && !placed.marks[i]
}

/// Of `n` equations the one nearest the front that is not placed and that none holds back.
fn next_ready(waits: &Waits, placed: &Placed, n: usize) -> Option<usize>
    requires { n ≤ 64 }
    ensures { result ≡ next_of (comes_before waits.now.marks) n (is_placed placed.now.marks) }
{
    let mut next = None;
    'scan: for j in 0..n {
        if placed.marks[j] {
            continue 'scan;
        }
        for i in 0..n {
            if holds_back(waits, placed, i, j) {
                continue 'scan;
            }
        }
        next = Some(j);
        break 'scan;
    }
    next
}

/// The order of the first `n` equations in which next is always the one nearest the front that is ready.
/// None where no order exists, and for more than 64 equations.
pub fn order_of(waits: &Waits, n: usize) -> Option<Order>
    ensures past { 64 < n → result ≡ None }
    ensures counted { IfSome result (λ o. o.count ≡ n) }
    ensures value { n ≤ 64 → written result ≡ order_of (comes_before waits.now.marks) n }
    ensures scheduled { n ≤ 64 → Scheduled (comes_before waits.now.marks) n (written result) }
{
    if n > MOST_EQUATIONS {
        return None;
    }
    let mut placed = Placed::none();
    for _ in 0..n {
        let j = next_ready(waits, &placed, n)?;
        placed.put(j);
    }
    Some(placed.order)
}
