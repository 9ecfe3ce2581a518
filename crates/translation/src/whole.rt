// The translation of an admitted table.
ghost use Rattle.std.specs.Prelude.{◌≡◌};
ghost use Rattle.front.specs.Whole.{table_code};
ghost use Rattle.translation.specs.Faults.{translate_answer, translated_buffer};

use crate::faults::TranslateFault;
use crate::write::{write_blocks, write_front};
use admission::Admitted;
use front::places_within;

/// Writes the code of an admitted table at the front of a buffer, and answers its length. Code that is too long is refused, and
/// then nothing is written.
pub fn translate(table: &Admitted, buffer: &mut [u32]) -> Result<usize, TranslateFault>
    ensures answer { result ≡ translate_answer (table_code table.now.words.now) buffer.old }
    ensures stands { buffer.new ≡ translated_buffer (table_code table.now.words.now) buffer.old }
{
    let words = table.words();
    let plan = table.plan();
    match places_within(words, plan, buffer.len()) {
        None => Err(TranslateFault::TooLong),
        Some(places) => {
            let next = write_front(words, plan, &places, buffer);
            Ok(write_blocks(words, plan, next, buffer))
        }
    }
}
