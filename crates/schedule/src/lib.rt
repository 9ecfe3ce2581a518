// The order of a node's equations, and what an instance of it needs.
#![tactic(auto)]

ghost use Rattle.schedule.specs.Found.{OrderExists, OrderSame, OrderStands, OrderUnique};

mod order;
mod waits;

pub use order::{Order, order_of};
pub use waits::Waits;

/// For equations of which any come before any: the order that is found is the one that is meant, there is no other such order,
/// an order exists exactly when one is found, and only what comes before what among the equations matters.
pub fn order_stands() -> u8
    ensures meant { OrderStands }
    ensures unique { OrderUnique }
    ensures exists { OrderExists }
    ensures same { OrderSame }
{
    0
}
