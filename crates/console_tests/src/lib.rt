// The tests of scripts and listings. They stand apart from the crates that they test, since a crate with tests is proved twice.
#![tactic(auto)]

#[cfg(test)]
mod listings;
#[cfg(test)]
mod script;
