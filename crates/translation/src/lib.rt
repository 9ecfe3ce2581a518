// Translation: the code of an admitted table, written into the caller's buffer.
#![tactic(auto)]

mod faults;
mod whole;
mod write;

pub use faults::TranslateFault;
pub use whole::translate;
