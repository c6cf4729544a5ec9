//! Places from which a search still has to go on.

ghost use Rattle.std.specs.Prelude.{◌<◌};

use std::alloc::{AllocError, Global};

/// A bit for each place, set while the place is pending.
#[derive(Drop)]
pub struct Pending {
    words: Vec<u64>,
}

impl Pending {
    /// None of so many places is pending.
    pub fn none_of(alloc: Global, places: usize) -> Result<Pending, AllocError> {
        let words = vec![in alloc; 0u64; places / 64 + 1]?;
        Ok(Pending { words })
    }

    /// How many words the bits take.
    pub fn words(&self) -> usize {
        self.words.len()
    }

    /// Makes a place pending.
    pub fn add(&mut self, place: u32) {
        if let Some(word) = self.words.get_mut((place / 64) as usize) {
            *word |= 1u64 << (place % 64);
        }
    }

    /// Whether no place is pending.
    pub fn is_empty(&self) -> bool {
        self.words.iter().all(|word| *word == 0)
    }

    /// Makes no place pending.
    pub fn clear(&mut self) {
        'words: for word in self.words.iter_mut() {
            *word = 0;
        }
    }

    /// The least pending place of a word, which is pending no more.
    pub fn take(&mut self, word: usize) -> Option<u32> {
        let bits = self.words.get_mut(word)?;
        if *bits == 0 {
            return None;
        }
        let bit = bits.trailing_zeros();
        *bits &= bits.wrapping_sub(1);
        let place = word.saturating_mul(64).saturating_add(bit as usize);
        u32::try_from(place).ok()
    }
}
