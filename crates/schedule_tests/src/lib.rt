// The order of equations at work, table by table. A crate of its own, since a crate with tests is proved twice.
#![tactic(auto)]

#[cfg(test)]
mod order_tests;
