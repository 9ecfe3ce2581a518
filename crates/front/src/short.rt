// Whether the code of a table is short enough for its buffer.
ghost use Rattle.admission.specs.Planned.{Planned};
ghost use Rattle.front.specs.Whole.{PlacedIf};

use admission::Plan;
use blocks::{Places, measure};

/// The most words that code has.
const MOST_WORDS: usize = 16384;

/// The places of the blocks in the code of a table; None where the code is longer than code may be, or than a buffer of `room` words.
pub fn places_within(words: &[u32], plan: &Plan, room: usize) -> Option<Places>
    requires { Planned words.now plan.now }
    ensures { PlacedIf words.now room result }
{
    let places = measure(words, plan);
    if places.length > MOST_WORDS || places.length > room {
        None
    } else {
        Some(places)
    }
}
