//! One line of output in a buffer of fixed size, without allocation.
ghost use Rattle.std.specs.Prelude.{◌≡◌, ◌≤◌, ◌+◌, ◌∷◌, ◌++◌, [], List, ℕ, length, decimal};
ghost use Rattle.power_index.specs.Indices.{fraction};
ghost use Rattle.board_text.specs.Lines.{fraction_if_any};

use arrayvec::ArrayString;
use itoa::Buffer;
use power_index::Fraction;
use std::marker::Model;

/// The most bytes of a line, including its line end.
pub const LINE: usize = 256;

// The most bytes of a comma and a number.
const NUMBER: usize = 21;

// The most bytes of a comma and a fraction.
const FRACTION: usize = 2 * NUMBER;

/// A line of at most `LINE` bytes. In contracts, it is the list of its bytes.
#[derive(Debug, Drop)]
pub struct Line {
    text: ArrayString<LINE>,
}

impl Model for Line {
    ghost Value = { List ℕ };

    ghost view = { λ l. l.text.bytes };
}

impl Line {
    /// A line that starts with a word, which takes at most `LINE` bytes.
    pub fn new(word: &str) -> Line
        requires { length word.now ≤ LINE }
        ensures { result ≡ word.now }
    {
        let mut text = ArrayString::new();
        text.push_str(word);
        Line { text }
    }

    /// Appends a text, without a comma.
    pub fn text(&mut self, text: &str)
        requires { length self.old + length text.now ≤ LINE }
        ensures { self.new ≡ self.old ++ text.now }
    {
        self.text.push_str(text);
    }

    /// Appends a comma and a word.
    pub fn word(&mut self, word: &str)
        requires { length self.old + length word.now + 1 ≤ LINE }
        ensures bytes { self.new ≡ self.old ++ 44 ∷ word.now }
        ensures len { length self.new ≤ length self.old + length word.now + 1 }
    {
        self.text.push_str(",");
        self.text.push_str(word);
    }

    /// Appends a comma and a number, in decimal without leading zeros.
    pub fn number(&mut self, number: u64)
        requires { length self.old + NUMBER ≤ LINE }
        ensures bytes { self.new ≡ self.old ++ 44 ∷ decimal number }
        ensures len { length self.new ≤ length self.old + NUMBER }
    {
        let mut digits = Buffer::new();
        self.text.push_str(",");
        self.text.push_str(digits.format(number));
    }

    /// Appends a comma and a fraction, `NUM/DEN`, not reduced.
    pub fn fraction(&mut self, value: Fraction)
        requires { length self.old + FRACTION ≤ LINE }
        ensures bytes { self.new ≡ self.old ++ 44 ∷ fraction value }
        ensures len { length self.new ≤ length self.old + FRACTION }
    {
        let mut digits = Buffer::new();
        self.number(value.num);
        self.text.push_str("/");
        self.text.push_str(digits.format(value.den));
    }

    /// Appends a comma and a fraction, or a comma and `-` if it is absent.
    pub fn fraction_if_any(&mut self, value: Option<Fraction>)
        requires { length self.old + FRACTION ≤ LINE }
        ensures bytes { self.new ≡ self.old ++ 44 ∷ fraction_if_any value }
        ensures len { length self.new ≤ length self.old + FRACTION }
    {
        match value {
            Some(value) => self.fraction(value),
            None => self.word("-"),
        }
    }

    /// Appends the line end, LF.
    pub fn end(&mut self)
        requires { length self.old + 1 ≤ LINE }
        ensures { self.new ≡ self.old ++ 10 ∷ [] }
    {
        self.text.push_str("\n");
    }

    /// The bytes of the line so far.
    pub fn as_bytes(&self) -> &[u8]
        ensures { result.now ≡ self.now }
    {
        self.text.as_str().as_bytes()
    }
}
