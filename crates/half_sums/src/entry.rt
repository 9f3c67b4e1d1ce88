//! Entries: the sets of a half's chairs, each as a sum and a mask.

/// A set of chairs of one half: a subset sum in the terms of Horowitz and Sahni (1974).
#[derive(Clone, Copy, Debug, PartialEq, Eq, Hash)]
pub struct Entry {
    /// The sum of the votes of the set's chairs.
    pub sum: u64,
    /// The bit set of the chairs: bit `s` is set if the chair at slot `s`, from 0 to 15, is in the
    /// set.
    pub mask: u16,
}
