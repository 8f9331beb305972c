// What the searches of a run found, from the text of their replies.
use cache_outside::{OutError, Sink};
use std::str;

/// A sink that adds up the hits of the replies that are written to it, each line whole, and keeps none of them.
#[derive(Drop)]
pub(crate) struct HitSums {
    /// How many documents matched, over all replies.
    pub(crate) total: u64,
    /// The sum over all hits shown of the document's number plus 1.
    pub(crate) sum: u64,
}

/// The number of a document and 1, by the word `SEGMENT/DOC`; 0 for any other word.
fn document_of(word: &str) -> u64 {
    let Some((_, number)) = word.split_once('/') else {
        return 0;
    };
    match number.parse::<u64>() {
        Ok(number) => number.saturating_add(1),
        Err(_) => 0,
    }
}

impl HitSums {
    pub(crate) fn new() -> HitSums {
        HitSums { total: 0, sum: 0 }
    }

    /// Adds the hits of a line `NUMBER hits TOTAL SEGMENT/DOC ..`; another line has none.
    fn add(&mut self, line: &str) {
        let Some((_, shown)) = line.split_once(" hits ") else {
            return;
        };
        let mut words = shown.split_whitespace();
        let Some(total) = words.next() else {
            return;
        };
        if let Ok(total) = total.parse::<u64>() {
            self.total = self.total.saturating_add(total);
        }
        for word in words {
            self.sum = self.sum.saturating_add(document_of(word));
        }
    }
}

impl Sink for HitSums {
    ghost use Rattle.std.specs.Prelude.{None};

    ghost view = { λ s. record { faults = 0; written = None } };

    fn write(&mut self, piece: &[u8]) -> Result<usize, OutError> {
        if let Ok(line) = str::from_utf8(piece) {
            self.add(line);
        }
        Ok(piece.len())
    }
}
