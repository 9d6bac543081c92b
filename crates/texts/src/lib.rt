// Texts of a fixed room: words, decimal numbers, and the lines of an input.
#![tactic(auto)]

ghost use Rattle.std.specs.Prelude.{◌≡◌, ℕ, ◌+◌, ◌-◌, ◌≤◌, List, [], ◌∷◌, ◌++◌, length, take, drop, min, ◌<◌, ◌≢◌, MatchOption, EachIndex, slice_index};
ghost use Rattle.std.proofs.lemmas.List.Edits.{sets};
ghost use Rattle.texts.specs.Lines.{up_to};
ghost use Rattle.texts.specs.Texts.{decimal_of, signed_of, line_of, signed_line_of, field_line_of};

use std::fmt;
use std::marker::Model;

// As many of the bytes as there is room for are written from at on; the index after them. By an index, since a replay's
// answers go into a slice that its caller lends.
#[tactic(auto, using(crate::proofs::Fills::put_in_place))]
pub fn fill(out: &mut [u8], at: usize, bytes: &[u8]) -> usize
    ensures written { out.new ≡ sets out.old at (take (length out.old - at) bytes.now) }
    ensures behind { result ≡ at + length (take (length out.old - at) bytes.now) }
    ensures within { result ≤ at + (length out.old - at) }
{
    if out.len() < at {
        return at;
    }
    let n = bytes.len().min(out.len() - at);
    let end = at + n;
    out[at..end].copy_from_slice(&bytes[..n]);
    end
}

// The bytes are written from at on; the index after them.
pub fn word(out: &mut [u8], at: usize, bytes: &[u8]) -> usize
    requires { at + length bytes.now ≤ length out.old }
    ensures { (out.new ≡ sets out.old at bytes.now) × (result ≡ at + length bytes.now) }
{
    fill(out, at, bytes)
}

// Where the first newline stands.
fn newline(input: &[u8]) -> Option<usize>
    ensures { MatchOption result (EachIndex input.now (λ k. slice_index input.now k ≢ 10)) (λ i. (i < length input.now) × (slice_index input.now i ≡ 10) × ((k : ℕ) → k < i → slice_index input.now k ≢ 10)) }
{
    input.iter().position(|b| *b == b'\n')
}

// How many bytes stand before the first newline.
#[tactic(auto, using(crate::proofs::Lines::up_to_length))]
fn line_len(bytes: &[u8]) -> usize
    ensures value { result ≡ length (up_to bytes.now) }
    ensures within { result ≤ length bytes.now }
{
    newline(bytes).unwrap_or(bytes.len())
}

// The decimal digits of x, at the end of the array; where they begin, so that it goes down by an index.
fn write_digits(x: u64, out: &mut [u8; 20]) -> usize
    ensures within { result ≤ 20 }
    ensures value { drop result out.new ≡ decimal_of x }
{
    let mut rest = x;
    for at in (0..20).rev() {
        out[at] = b'0' + (rest % 10) as u8;
        rest /= 10;
        if rest == 0 {
            return at;
        }
    }
    0
}

// A text of at most N bytes, which is written at its end. What finds no room is cut. It begins as N blanks, and its end
// at their front: an end that moves on to a column leaves what stands there, blanks where nothing was written.
#[derive(Drop)]
pub struct Text<const N: usize> {
    bytes: [u8; N],
    len: usize,
}

impl<const N: usize> Model for Text<N> {
    ghost Value = { List ℕ };

    ghost view = { λ t. take t.len t.bytes };

    ghost invariant = { λ t. t.len ≤ N };
}

impl<const N: usize> Text<N> {
    pub fn new() -> Self
        ensures { result ≡ [] }
    {
        Text {
            bytes: [b' '; N],
            len: 0,
        }
    }

    pub fn len(&self) -> usize
        ensures len { result ≡ length self.now }
        ensures within { result ≤ N }
    {
        self.len
    }

    pub fn as_bytes(&self) -> &[u8]
        ensures { result.now ≡ self.now }
    {
        &self.bytes[..self.len]
    }

    pub fn clear(&mut self)
        ensures { self.new ≡ [] }
    {
        self.len = 0;
    }

    // The end moves to a column, or behind the last one. What stands between is as it was.
    pub fn go_to(&mut self, column: usize)
        ensures column { length self.new ≡ min column N }
        ensures front { take (length self.old) self.new ≡ take column self.old }
    {
        self.len = column.min(N);
    }

    #[tactic(auto, using(crate::proofs::Fills::filled))]
    pub fn say(&mut self, words: &[u8])
        ensures { self.new ≡ take N (self.old ++ words.now) }
    {
        self.len = fill(&mut self.bytes, self.len, words);
    }

    // By an index and not by `say`: a line of numbers would take a sixth more instructions.
    #[tactic(auto, using(crate::specs::LineLaws::kept_more, crate::specs::LineLaws::kept_full))]
    pub fn put(&mut self, byte: u8)
        ensures { self.new ≡ take N (self.old ++ byte ∷ []) }
    {
        if self.len < N {
            self.bytes[self.len] = byte;
            self.len += 1;
        }
    }

    #[tactic(auto, using(crate::proofs::Digits::decimal_digit, crate::proofs::Room::whole, crate::proofs::Room::within, crate::proofs::Room::decimal_most))]
    pub fn number(&mut self, x: u64)
        ensures text { self.new ≡ take N (self.old ++ decimal_of x) }
        ensures whole { length self.old + 20 ≤ N → self.new ≡ self.old ++ decimal_of x }
        ensures within { length self.new ≤ length self.old + 20 }
    {
        // Most numbers of a listing have one digit.
        if x < 10 {
            return self.put(b'0' + x as u8);
        }
        let mut digits = [0u8; 20];
        let at = write_digits(x, &mut digits);
        self.say(&digits[at..]);
    }

    // x stands for the signed number of the same 64 bits.
    #[tactic(auto, unfolding(crate::specs::Texts::signed_of), using(crate::proofs::Room::whole, crate::proofs::Room::within, crate::proofs::Room::signed_most))]
    pub fn signed(&mut self, x: u64)
        ensures text { self.new ≡ take N (self.old ++ signed_of x) }
        ensures whole { length self.old + 21 ≤ N → self.new ≡ self.old ++ signed_of x }
        ensures within { length self.new ≤ length self.old + 21 }
    {
        let n = x.cast_signed();
        if n < 0 {
            self.put(b'-');
        }
        self.number(n.unsigned_abs());
    }

    // A line: a name and a number.
    #[tactic(auto, using(crate::proofs::Room::whole, crate::proofs::Room::within, crate::proofs::Room::line_most))]
    pub fn line(&mut self, name: &[u8], x: u64)
        ensures text { self.new ≡ take N (self.old ++ line_of name.now x) }
        ensures whole { length self.old + (length name.now + 21) ≤ N → self.new ≡ self.old ++ line_of name.now x }
        ensures within { length self.new ≤ length self.old + (length name.now + 21) }
    {
        self.say(name);
        self.number(x);
        self.put(b'\n');
    }

    // The same with a signed number.
    #[tactic(auto, using(crate::proofs::Room::whole, crate::proofs::Room::within, crate::proofs::Room::signed_line_most))]
    pub fn signed_line(&mut self, name: &[u8], x: u64)
        ensures text { self.new ≡ take N (self.old ++ signed_line_of name.now x) }
        ensures whole { length self.old + (length name.now + 22) ≤ N → self.new ≡ self.old ++ signed_line_of name.now x }
        ensures within { length self.new ≤ length self.old + (length name.now + 22) }
    {
        self.say(name);
        self.signed(x);
        self.put(b'\n');
    }

    // A line: a name, the number of what it names, a field of that and its content.
    #[tactic(auto, using(crate::proofs::Room::whole, crate::proofs::Room::within, crate::proofs::Room::field_line_most))]
    pub fn field_line(&mut self, name: &[u8], id: u64, field: &[u8], x: u64)
        ensures text { self.new ≡ take N (self.old ++ field_line_of name.now id field.now x) }
        ensures whole { length self.old + (length name.now + length field.now + 41) ≤ N → self.new ≡ self.old ++ field_line_of name.now id field.now x }
        ensures within { length self.new ≤ length self.old + (length name.now + length field.now + 41) }
    {
        self.say(name);
        self.number(id);
        self.line(field, x);
    }

    // The input's bytes up to its first newline; how many stand before that.
    #[tactic(auto, using(crate::proofs::Lines::up_to_first))]
    pub fn gather(&mut self, input: &[u8]) -> usize
        ensures text { self.new ≡ take N (self.old ++ up_to input.now) }
        ensures taken { result ≡ length (up_to input.now) }
        ensures within { result ≤ length input.now }
    {
        let n = line_len(input);
        self.say(&input[..n]);
        n
    }
}

impl<const N: usize> fmt::Write for Text<N> {
    ghost write_str_gives = { λ s bytes t. t ≡ take N (s ++ bytes) };

    fn write_str(&mut self, s: &str) -> fmt::Result {
        self.say(s.as_bytes());
        Ok(())
    }
}
