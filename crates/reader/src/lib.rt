// Reading a table front to back: its outline, or the first fault.
#![tactic(auto)]

mod faults;
mod outline;
mod scan;
mod whole;

pub use faults::{Layer, ReadFault, Report, Site};
pub use outline::Outline;
pub use whole::scan_words;
