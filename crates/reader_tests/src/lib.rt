// The words of a table and its reading at work, case by case. A crate of its own, since a crate with tests is proved twice.
#![tactic(auto)]

#[cfg(test)]
mod arbitrary_tests;
#[cfg(test)]
mod fault_tests;
#[cfg(test)]
mod limit_tests;
#[cfg(test)]
mod place_tests;
#[cfg(test)]
mod shared;
#[cfg(test)]
mod word_tests;
