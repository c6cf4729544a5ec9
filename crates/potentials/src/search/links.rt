//! The rules at each place, in one list with the places where each part begins.

use std::alloc::{AllocError, Global};

/// A rule as one of its ends sees it: the place at its other end, and its number, delay and offset.
#[derive(Clone, Copy)]
pub struct Link {
    pub place: u32,
    pub rule: u32,
    pub delay: u32,
    pub offset: u32,
}

/// Links by the place that sees them.
#[derive(Drop)]
pub struct Links {
    begins: Vec<u32>,
    items: Vec<Link>,
}

impl Links {
    /// Room for the links of places, by how many each place has.
    pub fn with_counts(alloc: Global, counts: &[u32]) -> Result<Links, AllocError> {
        let mut begins = Vec::with_capacity(alloc, counts.len())?;
        let mut sum: u32 = 0;
        'places: for count in counts {
            begins.push(sum)?;
            sum = sum.saturating_add(*count);
        }
        begins.push(sum)?;
        let blank = Link {
            place: 0,
            rule: 0,
            delay: 0,
            offset: 0,
        };
        let items = vec![in alloc; blank; sum as usize]?;
        Ok(Links { begins, items })
    }

    /// Writes a link of a place, where `next` holds for each place how many of its links are written.
    pub fn put(&mut self, place: u32, link: Link, next: &mut [u32]) {
        let Some(begin) = self.begins.get(place as usize) else {
            return;
        };
        let Some(written) = next.get_mut(place as usize) else {
            return;
        };
        let at = begin.saturating_add(*written);
        *written = written.saturating_add(1);
        if let Some(slot) = self.items.get_mut(at as usize) {
            *slot = link;
        }
    }

    /// The links of a place.
    pub fn at(&self, place: u32) -> &[Link] {
        let Some(begin) = self.begins.get(place as usize) else {
            return &[];
        };
        let Some(end) = self.begins.get(place as usize + 1) else {
            return &[];
        };
        self.items
            .get(*begin as usize..*end as usize)
            .unwrap_or(&[])
    }

    /// Where each place's part begins, and the end of the last.
    pub fn begins(&self) -> &[u32] {
        &self.begins
    }

    /// All links, place by place.
    pub fn all(&self) -> &[Link] {
        &self.items
    }
}
