//! What is said of a refusal.
use crate::place::Place;
use rif_values::OutOfMemory;
use std::alloc::Global;

/// How many related places are told at most.
const MOST_RELATED: usize = 8;

/// Another place that has to do with a refusal, and what it has to do with it.
#[derive(Debug, Drop)]
pub struct Related {
    pub place: Place,
    /// A text in UTF-8, without a line feed.
    pub words: Vec<u8>,
}

/// What is said of a refusal: its place, if it has one, and in one sentence what is wrong there; further places; and
/// how it may be mended. Each text is in UTF-8, without a line feed.
#[derive(Debug, Drop)]
pub struct Explanation {
    pub place: Option<Place>,
    pub sentence: Vec<u8>,
    pub related: Vec<Related>,
    /// How many more places there are.
    pub untold: u64,
    pub hint: Option<Vec<u8>>,
}

impl Explanation {
    /// A sentence alone, at its place.
    pub fn new(alloc: Global, place: Option<Place>, sentence: Vec<u8>) -> Explanation {
        Explanation {
            place,
            sentence,
            related: Vec::new(alloc),
            untold: 0,
            hint: None,
        }
    }

    /// Adds another place. Of more than eight, the number alone is kept.
    pub fn relate(&mut self, place: Place, words: Vec<u8>) -> Result<(), OutOfMemory> {
        if self.related.len() < MOST_RELATED {
            self.related.push(Related { place, words })?;
        } else {
            self.untold = self.untold.saturating_add(1);
        }
        Ok(())
    }
}
