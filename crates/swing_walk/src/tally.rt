//! Amounts per chair, stored by the two bytes of the masks to which they belong.
ghost use Rattle.std.specs.Prelude.{◌≡◌, ℕ, ◌+◌, ◌*◌, ◌^◌, ◌<◌, ◌≤◌, slice_index, take, drop};
ghost use Rattle.std.specs.List.{sum_by};
ghost use Rattle.std.specs.Int.{bit_at};
ghost use Rattle.swing_walk.specs.Tables.{weighted_sum, low_weight};

use half_sums::SLOTS;

// The number of bits of a byte.
const BITS: usize = 8;

// The number of values of a byte.
const BYTES: u16 = 256;

// An amount for each value of a byte.
type ByteTable = [u64; BYTES as usize];

// Amounts by mask: for each value of the masks' low byte, and for each value of their high byte.
#[derive(Clone, Copy)]
pub(crate) struct MaskTally {
    pub(crate) low: ByteTable,
    pub(crate) high: ByteTable,
    ghost same_sum: { sum_by (λ n. n) high ≡ sum_by (λ n. n) low },
}

impl MaskTally {
    ghost use Rattle.swing_walk.specs.Tallies.{slot_amount, tally_total};

    // The tally without amounts.
    pub(crate) fn new() -> MaskTally
        ensures none { (slot : ℕ) → slot_amount slot result ≡ 0 }
        ensures total { tally_total result ≡ 0 }
    {
        MaskTally {
            low: [0; BYTES as usize],
            high: [0; BYTES as usize],
        }
    }

    // Adds an amount that belongs to this mask.
    pub(crate) fn add(&mut self, mask: u16, amount: u64)
        requires room { tally_total self.old + amount < 2 ^ 64 }
        ensures marked { (slot : ℕ)
            → slot_amount slot self.new ≡ slot_amount slot self.old + bit_at mask slot * amount }
        ensures total { tally_total self.new ≡ tally_total self.old + amount }
    {
        self.low[usize::from(mask % BYTES)] += amount;
        self.high[usize::from(mask / BYTES)] += amount;
    }

    // Adds the amounts of another tally.
    pub(crate) fn join(&mut self, other: &MaskTally)
        requires room { tally_total self.old + tally_total other.now < 2 ^ 64 }
        ensures total { tally_total self.new ≡ tally_total self.old + tally_total other.now }
        ensures marked { (slot : ℕ)
            → slot_amount slot self.new ≡ slot_amount slot self.old + slot_amount slot other.now }
    {
        add_table(&mut self.low, &other.low);
        add_table(&mut self.high, &other.high);
    }

    // The sum of all amounts.
    pub(crate) fn total(&self) -> u64
        requires room { tally_total self.now < 2 ^ 64 }
        ensures total { result ≡ tally_total self.now }
    {
        let mut total = 0;
        for byte in 0..BYTES as usize {
            total += self.low[byte];
        }
        total
    }

    // For each slot, the sum of the amounts whose masks have it.
    pub(crate) fn by_slot(&self) -> [u64; SLOTS]
        requires room { tally_total self.now < 2 ^ 63 }
        ensures marked { (slot : ℕ) → slot < SLOTS → slice_index result slot ≡ slot_amount slot self.now }
    {
        let mut totals = [0; SLOTS];
        totals[..BITS].copy_from_slice(&by_bit(&self.low));
        totals[BITS..].copy_from_slice(&by_bit(&self.high));
        totals
    }
}

// Adds the amounts of another table.
fn add_table(table: &mut ByteTable, other: &ByteTable)
    requires room { sum_by (λ n. n) table.old + sum_by (λ n. n) other.now < 2 ^ 64 }
    ensures total { sum_by (λ n. n) table.new ≡ sum_by (λ n. n) table.old + sum_by (λ n. n) other.now }
    ensures each { (weight : ℕ → ℕ)
        → weighted_sum weight 0 table.new ≡ weighted_sum weight 0 table.old + weighted_sum weight 0 other.now }
{
    for byte in 0..BYTES as usize {
        table[byte] += other[byte];
    }
}

// For each bit, the sum of the amounts of the bytes that have it. The bytes with the highest bit are
// the upper half of a table. Once this half is added to the lower one, that is a table over the bits
// that are left.
fn by_bit(table: &ByteTable) -> [u64; BITS]
    requires room { sum_by (λ n. n) table.now < 2 ^ 64 }
    ensures each { (bit : ℕ) → bit < BITS → slice_index result bit ≡ weighted_sum (low_weight bit) 0 table.now }
{
    let mut folded = *table;
    let mut totals = [0; BITS];
    let mut bit = BITS;
    while bit > 0 {
        bit -= 1;
        totals[bit] = fold(&mut folded, 1 << bit);
    }
    totals
}

// Adds the second `half` amounts of a table to the first ones, and returns their sum.
fn fold(table: &mut ByteTable, half: usize) -> u64
    requires half { half + half ≤ BYTES }
    requires room { sum_by (λ n. n) (take (half + half) table.old) < 2 ^ 64 }
    ensures upper { result ≡ sum_by (λ n. n) (take half (drop half table.old)) }
    ensures folded { (weight : ℕ → ℕ) → weighted_sum weight 0 (take half table.new)
        ≡ weighted_sum weight 0 (take half table.old) + weighted_sum weight 0 (take half (drop half table.old)) }
{
    let mut total = 0;
    for index in 0..half {
        let amount = table[half + index];
        total += amount;
        table[index] += amount;
    }
    total
}
