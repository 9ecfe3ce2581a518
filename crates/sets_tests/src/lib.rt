// The sets of operators at work, table by table. A crate of its own, since a crate with tests is proved twice.
#![tactic(auto)]

#[cfg(test)]
mod double_tests;
#[cfg(test)]
mod integer_tests;
#[cfg(test)]
mod shared;
