//! The fields of a record by number.
ghost use Rattle.std.specs.Prelude.{◌≡◌};
ghost use Rattle.std.specs.Str.{bytes_eq};
ghost use Rattle.csv.specs.Records.{fields_of};
ghost use Rattle.board_text.specs.Fields.{AreFields};

use csv::ByteRecord;

/// The fields of a record that has one to four of them.
#[derive(Clone, Copy, Debug)]
pub enum Fields<'a> {
    /// One field.
    One(&'a [u8]),
    /// Two fields, in order.
    Two(&'a [u8], &'a [u8]),
    /// Three fields, in order.
    Three(&'a [u8], &'a [u8], &'a [u8]),
    /// Four fields, in order.
    Four(&'a [u8], &'a [u8], &'a [u8], &'a [u8]),
    /// Any other record: no field, or more than four.
    Other,
}

/// The fields of a record.
pub fn fields_in(row: &ByteRecord) -> Fields<'_>
    ensures { AreFields result (fields_of row.now) }
{
    let Some(first) = row.get(0) else {
        return Fields::Other;
    };
    let Some(second) = row.get(1) else {
        return Fields::One(first);
    };
    let Some(third) = row.get(2) else {
        return Fields::Two(first, second);
    };
    let Some(fourth) = row.get(3) else {
        return Fields::Three(first, second, third);
    };
    if row.len() > 4 {
        return Fields::Other;
    }
    Fields::Four(first, second, third, fourth)
}

/// Whether a field is this word.
pub fn is_word(field: &[u8], word: &str) -> bool
    ensures { result ≡ bytes_eq field.now word.now }
{
    field == word.as_bytes()
}
