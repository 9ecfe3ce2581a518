// A whole table, word by word.
ghost use Rattle.std.specs.Prelude.{◌≡◌};
ghost use Rattle.reader.specs.Whole.{scan_of};

use crate::faults::ReadFault;
use crate::outline::Outline;
use crate::scan::Scan;

const MOST_WORDS: usize = 16384;

/// The outline of a table that is written for the operator set of number `own`, or the first fault.
pub fn scan_words(own: u8, words: &[u32]) -> Result<Outline, ReadFault>
    ensures { result ≡ scan_of own words.now }
{
    if words.is_empty() || words.len() > MOST_WORDS {
        return Err(ReadFault::Length);
    }
    let mut scan = Scan::start();
    'words: for (at, w) in words.iter().enumerate() {
        scan.feed(own, at as u16, *w)?;
    }
    if scan.may_end() {
        Ok(scan.outline)
    } else {
        Err(ReadFault::Kind(scan.site(words.len() as u16)))
    }
}
