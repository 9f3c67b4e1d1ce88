//! Counts the coalitions of ten chairs by going through all of them.
use council_core::{MAX_TOTAL, Sheet};
use majority_rule::{Majority, wins};

/// Ten open chairs, and a majority. A coalition is a number below 1,024 whose bits are its chairs.
#[derive(Drop)]
pub(crate) struct TenChairs<'a> {
    pub(crate) sheet: &'a Sheet,
    pub(crate) weights: &'a [u64; 10],
    pub(crate) majority: Majority,
}

impl TenChairs<'_> {
    fn is_winning(&self, coalition: u32) -> bool {
        let (mut weight, mut size, mut rest) = (0u64, 0u8, coalition);
        for own in self.weights {
            if rest % 2 == 1 {
                weight = weight.saturating_add(*own);
                size = size.saturating_add(1);
            }
            rest /= 2;
        }
        weight <= MAX_TOTAL && wins(self.majority, self.sheet, weight, size)
    }

    /// The number of winning coalitions.
    pub(crate) fn winning(&self) -> usize {
        (0..1024u32)
            .filter(|coalition| self.is_winning(*coalition))
            .count()
    }

    /// The number of winning coalitions that have the chair of this bit and lose without it.
    pub(crate) fn swings(&self, bit: u32) -> usize {
        (0..1024u32)
            .filter(|coalition| *coalition & bit != 0)
            .filter(|coalition| self.is_winning(*coalition) && !self.is_winning(*coalition ^ bit))
            .count()
    }
}
