//! Reads the records of a text one at a time.
ghost use Rattle.std.specs.Prelude.{◌≡◌, ◌∷◌, [], true, false, List, ℕ, IfOk, IfErr, MatchBool, length};
ghost use Rattle.std.specs.Prelude.{◌+◌, ◌≤◌, ◌⊎◌, ◌↔◌};
ghost use Rattle.csv.specs.Reading.{default_config, error_kind, has_failed, is_flexible, reader_config, reader_trim};
ghost use Rattle.csv.specs.Reading.{records, Ready, strip_bom};
ghost use Rattle.csv.specs.Records.{fields_of};
ghost use Rattle.csv.specs.declared.reader.Trim.TheVariants as trim;
ghost use Rattle.csv.specs.declared.error.ErrorKind.TheVariants as kind;
ghost use Rattle.board_text.specs.Script.{IsMemoryOrRead, records_left};
ghost use Rattle.board_text.specs.declared.stops.Stop.TheVariants as stop;

use crate::stops::Stop;
use csv::{ByteRecord, Error, ErrorKind, Reader, ReaderBuilder};
use std::alloc::Global;
use std::fmt;
use std::fmt::{Debug, Formatter};
use std::marker::Model;

/// A reader of the CSV records of a text. In contracts, it is the list of the records that are
/// left.
#[derive(Drop)]
pub struct Script<'a> {
    reader: Reader<&'a [u8]>,
}

impl<'a> Model for Script<'a> {
    ghost Value = { List (List (List ℕ)) };

    ghost view = { λ s. records_left s.reader };

    ghost invariant = { λ s. has_failed s.reader ≡ false
        → (reader_trim s.reader ≡ trim.None) × (reader_config s.reader ≡ default_config)
        × (is_flexible s.reader ≡ true) × Ready s.reader };
}

impl Debug for Script<'_> {
    fn fmt<W: fmt::Write>(&self, f: &mut Formatter<W>) -> fmt::Result {
        f.debug_struct("Script").finish_non_exhaustive()
    }
}

impl<'a> Script<'a> {
    /// A script over the records of `text`, without a byte order mark at its start. The first record
    /// is returned like any other, and records may differ in their number of fields.
    ///
    /// ```rust
    /// let mut script = Script::new(alloc, b"member,votes\nAAA,10\nscript\n");
    /// let mut row = ByteRecord::new(alloc);
    /// let found = script.next(&mut row)?; // true, and `row` is `member,votes`
    /// ```
    pub fn new(alloc: Global, text: &'a [u8]) -> Script<'a>
        ensures records { result ≡ records default_config (strip_bom text.entry.now) }
        ensures count { length result ≤ length text.entry.now + 1 }
    {
        let reader = ReaderBuilder::new()
            .has_headers(false)
            .flexible(true)
            .from_reader(alloc, text);
        Script { reader }
    }

    /// Reads the next record into `row`. Returns `false` if there is none; `row` then has no
    /// promised contents.
    ///
    /// # Errors
    ///
    /// `Stop::OutOfMemory` or `Stop::ReadFault`. Nothing is promised of `row` or of the records
    /// that are left.
    pub fn next(&mut self, row: &mut ByteRecord) -> Result<bool, Stop>
        ensures causes { IfErr result (λ e. (e ≡ stop.OutOfMemory) ⊎ (e ≡ stop.ReadFault)) }
        ensures read { IfOk result
            (λ found. MatchBool found (self.old ≡ fields_of row.new ∷ self.new) (self.old ≡ [])) }
    {
        match self.reader.read_byte_record(row) {
            Ok(found) => return Ok(found),
            Err(e) => return Err(cause_of(&e)),
        }
    }
}

// The cause of an error of csv. Of all its kinds only these two can occur in a reader of bytes that
// accepts records of any length.
fn cause_of(e: &Error) -> Stop
    requires { IsMemoryOrRead (error_kind e.now) }
    ensures causes { (result ≡ stop.OutOfMemory) ⊎ (result ≡ stop.ReadFault) }
    ensures memory { (result ≡ stop.OutOfMemory) ↔ (error_kind e.now ≡ kind.OutOfMemory) }
{
    match e.kind() {
        ErrorKind::OutOfMemory => Stop::OutOfMemory,
        ErrorKind::Io(_) => Stop::ReadFault,
        _ => unreachable!(),
    }
}
