// What admission finds out about a table that keeps the rules.
use reader::Outline;
use schedule::Order;

/// The outline of a table, and for each of its nodes the order of its equations and how many cells an instance needs.
#[derive(Clone, Copy)]
pub struct Plan {
    pub outline: Outline,
    pub orders: [Order; 32],
    pub needs: [u16; 32],
}
