// Texts put into lent bytes: a byte, a word, a number in shortest digits, a number with the byte after it. Each is put from a place
// on where there is room for it, gives back the place after it, and leaves every other byte as it was (specs/Put.antt).
#![tactic(auto)]

ghost use Rattle.std.specs.Prelude.{◌≡◌, ℕ, List, [], ◌∷◌, ◌++◌, ◌+◌, ◌≤◌, ◌<◌, length, take};
ghost use Rattle.model.specs.Decimal.{decimal};
ghost use Rattle.text.specs.Put.{Put};
ghost use Rattle.text.specs.Padded.{Padded, padded, bytes_in};
ghost use Rattle.text.specs.PaddedLaws.{padded_back, text_long};

use std::marker::Model;

const ZERO: u8 = 48;

// One byte at a place; the place after it.
pub fn put_byte(out: &mut [u8], at: usize, byte: u8) -> usize
    requires { at < length out.old }
    ensures { Put out.old out.new at (byte ∷ []) result }
{
    out[at] = byte;
    at + 1
}

// A word from a place on; the place after it. Byte by byte, so that an archive for C needs no memmove.
pub fn put_word(out: &mut [u8], at: usize, word: &[u8]) -> usize
    requires { at + length word.now ≤ length out.old }
    ensures { Put out.old out.new at word.now result }
{
    for i in 0..word.len() {
        out[at + i] = word[i];
    }
    at + word.len()
}

// A number in shortest digits from a place on; the place after it.
pub fn put_decimal(out: &mut [u8], at: usize, number: u64) -> usize
    requires { at + length (decimal number) ≤ length out.old }
    ensures { Put out.old out.new at (decimal number) result }
{
    if number < 10 {
        return put_byte(out, at, ZERO + number as u8);
    }
    let last = put_decimal(out, at, number / 10);
    put_byte(out, last, ZERO + (number % 10) as u8)
}

// A number and the byte after it.
pub fn put_field(out: &mut [u8], at: usize, number: u64, after: u8) -> usize
    requires { at + length (decimal number) + 1 ≤ length out.old }
    ensures { Put out.old out.new at (decimal number ++ (after ∷ [])) result }
{
    let last = put_decimal(out, at, number);
    put_byte(out, last, after)
}

// A text of at most N bytes, in an array of its own, with zeros behind it.
#[derive(Clone, Copy)]
pub struct Line<const N: usize> {
    bytes: [u8; N],
    length: usize,
}

// Clauses see the text, which tells the whole array.
impl<const N: usize> Model for Line<N> {
    ghost Value = { List ℕ };

    ghost view = { λ line. take line.length line.bytes };

    ghost invariant = { λ line. Padded N line.length line.bytes };

    ghost inverse = { λ text. record { bytes = padded N text; length = bytes_in text } };

    ghost inverse_ok = { λ line held i. record { bytes = padded_back held i; length = text_long held i } };
}

impl<const N: usize> Line<N> {
    pub fn new() -> Self
        ensures { result ≡ [] }
    {
        Line {
            bytes: [0; N],
            length: 0,
        }
    }

    // The text.
    pub fn as_bytes(&self) -> &[u8]
        ensures same { result.now ≡ self.now }
        ensures short { length result.now ≤ N }
    {
        &self.bytes[..self.length]
    }

    // The whole array: the text, and zeros behind it.
    pub fn array(&self) -> [u8; N]
        ensures { result ≡ padded N self.now }
    {
        self.bytes
    }

    // One byte more.
    pub fn push_byte(&mut self, byte: u8)
        requires { length self.old < N }
        ensures { self.new ≡ self.old ++ (byte ∷ []) }
    {
        self.length = put_byte(&mut self.bytes, self.length, byte);
    }

    // A word more.
    pub fn push_word(&mut self, word: &[u8])
        requires { length self.old + length word.now ≤ N }
        ensures { self.new ≡ self.old ++ word.now }
    {
        self.length = put_word(&mut self.bytes, self.length, word);
    }

    // A number more, in shortest digits.
    pub fn push_decimal(&mut self, number: u64)
        requires { length self.old + length (decimal number) ≤ N }
        ensures { self.new ≡ self.old ++ decimal number }
    {
        self.length = put_decimal(&mut self.bytes, self.length, number);
    }

    // A number and the byte after it.
    pub fn push_field(&mut self, number: u64, after: u8)
        requires { length self.old + length (decimal number) + 1 ≤ N }
        ensures { self.new ≡ self.old ++ (decimal number ++ (after ∷ [])) }
    {
        self.push_decimal(number);
        self.push_byte(after);
    }
}
