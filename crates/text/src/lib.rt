// Texts (specs/Text.antt): bytes, numbers in decimal and in hexadecimal, numbers that line up.
#![tactic(auto)]

ghost use Rattle.std.specs.Prelude.{◌≡◌, ℕ, List, ◌∷◌, [], ◌++◌, ◌+◌, ◌-◌, ◌≤◌, ◌<◌, ◌^◌, length, take, drop, replicate};
ghost use Rattle.io.specs.Digits.{last_digits};
ghost use Rattle.text.specs.Text.{Put, decimal, padded};

use std::marker::Model;

// Puts a text into a lent buffer at a place, and answers the place after it.
pub fn put(out: &mut [u8], at: usize, text: &[u8]) -> usize
    requires { at + length text.now ≤ length out.old }
    ensures { Put out.old at text.now result out.new }
{
    let end = at + text.len();
    out[at..end].copy_from_slice(text);
    end
}

// The decimal digits of a number, where there is room for them.
pub fn put_decimal(out: &mut [u8], at: usize, n: u64) -> usize
    requires { at + length (decimal n) ≤ length out.old }
    ensures { Put out.old at (decimal n) result out.new }
{
    let mut digits = [0u8; 20];
    let k = io::decimal(n, &mut digits);
    put(out, at, &digits[..k])
}

// The same where there is room for 20, the most that there are.
pub fn put_number(out: &mut [u8], at: usize, n: u64) -> usize
    requires { at + 20 ≤ length out.old }
    ensures { Put out.old at (decimal n) result out.new × (result ≤ at + 20) }
{
    put_decimal(out, at, n)
}

// A text of at most N bytes. Its methods put bytes and numbers behind what is written; each contract says the text that
// is added, which `write!` and Display do not say.
#[derive(Drop)]
pub struct Text<const N: usize> {
    bytes: [u8; N],
    len: usize,
}

// Clauses see the bytes that are written so far; behind them stand zeros.
impl<const N: usize> Model for Text<N> {
    ghost Value = { List ℕ };

    ghost view = { λ t. take t.len t.bytes };

    ghost invariant = { λ t. (t.len ≤ N) × (drop t.len t.bytes ≡ replicate (N - t.len) 0) };
}

impl<const N: usize> Text<N> {
    pub fn new() -> Self
        ensures { result ≡ [] }
    {
        Text {
            bytes: [0; N],
            len: 0,
        }
    }

    pub fn as_bytes(&self) -> &[u8]
        ensures { result.now ≡ self.now }
    {
        &self.bytes[..self.len]
    }

    // The text with the zeros behind it.
    pub fn as_padded(&self) -> &[u8; N]
        ensures { result.now ≡ self.now ++ replicate (N - length self.now) 0 }
    {
        &self.bytes
    }

    pub fn put(&mut self, bytes: &[u8])
        requires room { length self.old + length bytes.now ≤ N }
        ensures { self.new ≡ self.old ++ bytes.now }
    {
        let room = &mut self.bytes[..];
        let end = self.len + bytes.len();
        room[self.len..end].copy_from_slice(bytes);
        self.len = end;
    }

    pub fn put_byte(&mut self, byte: u8)
        requires room { length self.old < N }
        ensures { self.new ≡ self.old ++ byte ∷ [] }
    {
        self.bytes[self.len] = byte;
        self.len += 1;
    }

    // The decimal digits of a number, where there is room for them.
    pub fn put_decimal(&mut self, n: u64)
        requires room { length self.old + length (decimal n) ≤ N }
        ensures { self.new ≡ self.old ++ decimal n }
    {
        let mut digits = [0u8; 20];
        let k = io::decimal(n, &mut digits);
        self.put(&digits[..k]);
    }

    // The same where there is room for 20, the most that there are.
    pub fn put_number(&mut self, n: u64)
        requires room { length self.old + 20 ≤ N }
        ensures text { self.new ≡ self.old ++ decimal n }
        ensures bound { length self.new ≤ length self.old + 20 }
    {
        self.put_decimal(n);
    }

    // A number in so many hexadecimal digits, which hold it.
    pub fn put_hex(&mut self, n: u64, width: usize)
        requires room { length self.old + width ≤ N }
        requires digits { (0 < width) × (width ≤ 16) × (n < 16 ^ width) }
        ensures text { self.new ≡ self.old ++ last_digits 16 width n }
        ensures bound { length self.new ≡ length self.old + width }
    {
        let mut digits = [0u8; 16];
        let k = io::hex(n, width, &mut digits);
        self.put(&digits[..k]);
    }

    // The decimal digits of a number, with blanks before them up to a width.
    pub fn put_padded(&mut self, n: u64, width: usize)
        requires room { length self.old + 20 ≤ N }
        requires narrow { width ≤ 20 }
        ensures text { self.new ≡ self.old ++ padded width n }
        ensures bound { length self.new ≤ length self.old + 20 }
    {
        let mut digits = [0u8; 20];
        let k = io::decimal(n, &mut digits);
        let blanks = [b' '; 20];
        self.put(&blanks[..width.saturating_sub(k)]);
        self.put(&digits[..k]);
    }
}
