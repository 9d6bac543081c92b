// Standard input by blocks and by lines, and standard output through a buffer.
#![tactic(auto)]

ghost use Rattle.std.specs.Prelude.{◌≡◌, ◌≢◌, ◌+◌, ◌-◌, ◌<◌, ◌≤◌, [], length, take, drop, ◌↔◌, IsTrue, false, None, Some};
ghost use Rattle.std.specs.Borrow.{sem};
ghost use Rattle.std.specs.Io.BufRead.{Rests};
ghost use Rattle.std.specs.Io.KnownBytes.{Appends, append_known};
ghost use Rattle.texts.specs.Lines.{up_to};
ghost use Rattle.streams.specs.contracts.Input.{the_row};
ghost use Rattle.streams.specs.declared.End.{End};

use std::io::{Read, Write};
use std::marker::Model;
use texts::Text;

// An input, and of the block that was read from it the part that is not yet taken.
#[derive(Drop)]
pub struct Input<R, const N: usize> {
    from: R,
    bytes: [u8; N],
    at: usize,
    end: usize,
}

// It stands for the bytes that were read and are not yet taken.
impl<R, const N: usize> Model for Input<R, N> {
    ghost use Rattle.std.specs.Prelude.{ℕ, ◌-◌, ◌≤◌, List, take, drop};

    ghost Value = { List ℕ };

    ghost view = { λ i. take (i.end - i.at) (drop i.at i.bytes) };

    ghost invariant = { λ i. (i.at ≤ i.end) × (i.end ≤ N) };
}

// How a line of the input ends.
#[derive(Clone, Copy, PartialEq, Eq)]
pub enum End {
    Newline,
    Input,
}

impl<R: Read, const N: usize> Input<R, N> {
    pub fn new(from: R) -> Self
        ensures { result ≡ [] }
    {
        Input {
            from,
            bytes: [0; N],
            at: 0,
            end: 0,
        }
    }

    // Whether all that was read is taken.
    pub fn is_taken(&self) -> bool
        ensures { IsTrue result ↔ (self.now ≡ []) }
    {
        self.at == self.end
    }

    // What is read and not yet taken. More is read where nothing is; it stays empty at the end of the input, and where a
    // read fails.
    pub fn fill(&mut self) -> &[u8]
        ensures* held { sem 𝓛 (Rests (the_row R.row N.row) self.entry (λ new. result.now ≡ new)) }
        ensures left { self.old ≢ [] → result.now ≡ self.old }
    {
        if self.is_taken() {
            let n = self.from.read(&mut self.bytes).unwrap_or(0);
            self.at = 0;
            self.end = n;
        }
        let input = &*self;
        let bytes = &input.bytes[..];
        &bytes[input.at..input.end]
    }

    // The first n bytes of it are taken.
    pub fn take(&mut self, n: usize)
        ensures { self.new ≡ drop n self.old }
    {
        self.at += n.min(self.end - self.at);
    }

    // The next line is in the text, cut to its room. At the end of the input there is none.
    #[tactic(auto, using(crate::proofs::Lines::front_first))]
    pub fn read_line<const L: usize>(&mut self, line: &mut Text<L>) -> Option<End>
        ensures none { result ≡ None → line.new ≡ [] }
        ensures rest { result ≡ Some End.Input → 0 < length line.new }
        ensures taken { result ≢ Some End.Newline → self.new ≡ [] }
        ensures front { take (length (up_to self.old)) line.new ≡ take L (up_to self.old) }
        ensures left { length (up_to self.old) < length self.old → (result ≡ Some End.Newline) × (line.new ≡ take L (up_to self.old)) × (self.new ≡ drop (length (up_to self.old) + 1) self.old) }
    {
        line.clear();
        // A loop that waits on input has no other measure; no line has so many blocks.
        for _ in 0..u64::MAX {
            let block = self.fill();
            if block.is_empty() {
                break;
            }
            let n = line.gather(block);
            let is_whole = n < block.len();
            self.take(n + is_whole as usize);
            if is_whole {
                return Some(End::Newline);
            }
        }
        if line.len() == 0 {
            None
        } else {
            Some(End::Input)
        }
    }
}

// An output, and what is to be written to it.
#[derive(Drop)]
pub struct Output<W, const N: usize> {
    to: W,
    pub text: Text<N>,
    // Whether the output still takes any.
    is_open: bool,
}

impl<W: Write, const N: usize> Output<W, N> {
    pub fn new(to: W) -> Self
        ensures { (result.text ≡ []) × IsTrue result.is_open }
    {
        Output {
            to,
            text: Text::new(),
            is_open: true,
        }
    }

    pub fn is_open(&self) -> bool
        ensures { result ≡ self.now.is_open }
    {
        self.is_open
    }

    // What the buffer holds is written out. Where a write fails the output takes no more.
    pub fn flush(&mut self)
        ensures text { self.new.text ≡ [] }
        ensures written { IsTrue self.new.is_open → Appends (W.contents self.old.to) (W.contents self.new.to) self.old.text }
        ensures closed { self.old.is_open ≡ false → self.new.is_open ≡ false }
    {
        if self.is_open {
            self.is_open = self.to.write_all(self.text.as_bytes()).is_ok();
        }
        self.text.clear();
    }

    // Room for n bytes, if the buffer has so many: it is written out where fewer are left.
    pub fn room(&mut self, n: usize)
        ensures room { length self.new.text ≤ N - n }
        ensures kept { n ≤ N - length self.old.text → self.new ≡ self.old }
        ensures none_lost { IsTrue self.new.is_open → Appends (W.contents self.old.to) (append_known (W.contents self.new.to) self.new.text) self.old.text }
        ensures closed { self.old.is_open ≡ false → self.new.is_open ≡ false }
    {
        if N - self.text.len() < n {
            self.flush();
        }
    }
}
