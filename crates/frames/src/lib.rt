// The lines of the replay program: frames, read and written, and answers.
#![tactic(auto)]

ghost use Rattle.std.specs.Prelude.{◌≡◌, true, [], ◌∷◌, ◌+◌, ◌≤◌, ◌<◌, length, get_or};
ghost use Rattle.std.proofs.lemmas.List.Edits.{sets};
ghost use Rattle.base.specs.Pick.{pick};
ghost use Rattle.frames.specs.Hex.{digit_of, hex_of, all_digits, number_of, digits_of};
ghost use Rattle.frames.specs.Frames;
ghost use Rattle.frames.specs.Frames.{Fit, fields_in, unused, kinds, framed, line_of, start_fields, fields_of, text_of, frame_of, answer_of};

use rules::Operation;
use rules::kind::Kind;

// A line of the input: a step, a start, or no frame.
#[derive(Clone, Copy)]
pub enum Line {
    Step { thread: u32, flag: bool, clock: u64 },
    Start { thread: u32, operation: Operation },
    Bad,
}

// The numbers of a frame.
#[derive(Clone, Copy)]
pub struct Fields {
    pub kind: u64,
    pub thread: u64,
    pub a: u64,
    pub b: u64,
    pub c: u64,
}

// What a byte is worth as a digit, 16 if it is none, as the rules of frames have it.
#[tactic(auto, unfolding(crate::specs::Hex::digit_of))]
fn digit(b: u8) -> u64
    ensures { result ≡ digit_of b }
{
    match b {
        b'0'..=b'9' => u64::from(b - b'0'),
        b'a'..=b'f' => u64::from(b - b'a') + 10,
        _ => 16,
    }
}

fn all_digits(bytes: &[u8]) -> bool
    ensures { result ≡ all_digits bytes.now }
{
    bytes.iter().all(|b| digit(*b) < 16)
}

// The number of these digits.
fn number(digits: &[u8]) -> u64
    requires { (length digits.now ≤ 16) × (all_digits digits.now ≡ true) }
    ensures { result ≡ number_of digits.now }
{
    let mut v = 0;
    for b in digits {
        v = v * 16 + digit(*b);
    }
    v
}

// The byte of a digit.
#[tactic(auto, unfolding(crate::specs::Hex::hex_of))]
fn hex(d: u64) -> u8
    requires { d < 16 }
    ensures { result ≡ hex_of d }
{
    if d < 10 {
        b'0' + d as u8
    } else {
        b'a' + (d - 10) as u8
    }
}

// The last n digits of x are written from at on. An iterator over the part would not say what becomes of the rest.
fn put(out: &mut [u8], at: usize, n: usize, x: u64)
    requires { at + n ≤ length out.old }
    ensures { out.new ≡ sets out.old at (digits_of n x) }
{
    let mut rest = x;
    for k in (0..n).rev() {
        out[at + k] = hex(rest % 16);
        rest /= 16;
    }
}

// The numbers that stand in 28 digits.
#[tactic(auto, unfolding(crate::specs::Frames::fields_in))]
fn fields_in(bytes: &[u8]) -> Fields
    requires { (length bytes.now ≡ 28) × (all_digits bytes.now ≡ true) }
    ensures { result ≡ fields_in bytes.now }
{
    Fields {
        kind: number(&bytes[..2]),
        thread: number(&bytes[2..4]),
        a: number(&bytes[4..8]),
        b: number(&bytes[8..12]),
        c: number(&bytes[12..]),
    }
}

// Kind 00.
fn step(thread: u32, a: u64, b: u64, c: u64) -> Line
    ensures { result ≡ get_or (kinds thread a b c) 0 Line.Bad }
{
    if a < 2 && b == 0 {
        Line::Step {
            thread,
            flag: a == 1,
            clock: c,
        }
    } else {
        Line::Bad
    }
}

// A start that does not use x, y and z.
fn starts(x: u64, y: u64, z: u64, thread: u32, operation: Operation) -> Line
    ensures { result ≡ unused (x ∷ y ∷ z ∷ []) (Line.Start thread operation) }
{
    if x == 0 && y == 0 && z == 0 {
        Line::Start { thread, operation }
    } else {
        Line::Bad
    }
}

// The line of a frame's numbers, by its kind.
#[tactic(auto, unfolding(crate::specs::Frames::framed))]
pub fn line_by_kind(kind: u32, t: u32, a: u32, b: u32, c: u64) -> Line
    ensures { result ≡ framed (Frames.fields kind t a b c) }
{
    let x = a as u64;
    let y = b as u64;
    let rec = a;
    let source = b;
    if kind == 0 {
        return step(t, x, y, c);
    }
    let Ok(kind) = Kind::try_from(kind) else {
        return Line::Bad;
    };
    match kind {
        Kind::Acquire => starts(x, y, c, t, Operation::Acquire),
        Kind::Release => starts(0, y, c, t, Operation::Release { rec }),
        Kind::Protect => starts(0, 0, c, t, Operation::Protect { rec, source }),
        Kind::Try => starts(
            0,
            0,
            0,
            t,
            Operation::Try {
                rec,
                source,
                node: c,
            },
        ),
        Kind::TryProtect => starts(
            0,
            0,
            0,
            t,
            Operation::TryProtect {
                rec,
                source,
                node: c,
            },
        ),
        Kind::Reset => starts(0, y, c, t, Operation::Reset { rec }),
        Kind::Raw => starts(0, y, 0, t, Operation::Raw { rec, node: c }),
        Kind::Swap => starts(x, 0, 0, t, Operation::Swap { source, node: c }),
        Kind::Retire => starts(
            0,
            y,
            0,
            t,
            Operation::Retire {
                node: x,
                address: c,
            },
        ),
        Kind::Eager => starts(x, y, c, t, Operation::Eager),
        Kind::Cleanup => starts(x, y, c, t, Operation::Cleanup),
        Kind::Shutdown => starts(x, y, c, t, Operation::Shutdown),
    }
}

fn framed(f: Fields) -> Line
    requires { Fit f }
    ensures { result ≡ framed f }
{
    line_by_kind(f.kind as u32, f.thread as u32, f.a as u32, f.b as u32, f.c)
}

// The line of these bytes, its newline cut off.
#[tactic(auto, unfolding(crate::specs::Frames::line_of))]
pub fn read_line(bytes: &[u8]) -> Line
    ensures { result ≡ line_of bytes.now }
{
    if bytes.len() == 28 && all_digits(bytes) {
        framed(fields_in(bytes))
    } else {
        Line::Bad
    }
}

// A frame's digits and newline.
fn text(f: Fields) -> [u8; 29]
    ensures { result ≡ text_of f }
{
    let mut out = [b'\n'; 29];
    put(&mut out, 0, 2, f.kind);
    put(&mut out, 2, 2, f.thread);
    put(&mut out, 4, 4, f.a);
    put(&mut out, 8, 4, f.b);
    put(&mut out, 12, 16, f.c);
    out
}

fn fields_at(kind: u32, thread: u32, a: u64, b: u32, c: u64) -> Fields
    ensures { result ≡ Frames.fields kind thread a b c }
{
    Fields {
        kind: u64::from(kind),
        thread: u64::from(thread),
        a,
        b: u64::from(b),
        c,
    }
}

fn start_of(t: u32, o: Operation) -> Fields
    ensures { result ≡ start_fields t o }
{
    match o {
        Operation::Acquire => fields_at(Kind::Acquire as u32, t, 0, 0, 0),
        Operation::Release { rec } => fields_at(Kind::Release as u32, t, rec as u64, 0, 0),
        Operation::Protect { rec, source } => fields_at(
            Kind::Protect as u32,
            t,
            rec as u64,
            source,
            0,
        ),
        Operation::Try { rec, source, node } => fields_at(
            Kind::Try as u32,
            t,
            rec as u64,
            source,
            node,
        ),
        Operation::TryProtect { rec, source, node } => fields_at(
            Kind::TryProtect as u32,
            t,
            rec as u64,
            source,
            node,
        ),
        Operation::Reset { rec } => fields_at(Kind::Reset as u32, t, rec as u64, 0, 0),
        Operation::Raw { rec, node } => fields_at(Kind::Raw as u32, t, rec as u64, 0, node),
        Operation::Swap { source, node } => fields_at(Kind::Swap as u32, t, 0, source, node),
        Operation::Retire { node, address } => fields_at(Kind::Retire as u32, t, node, 0, address),
        Operation::Eager => fields_at(Kind::Eager as u32, t, 0, 0, 0),
        Operation::Cleanup => fields_at(Kind::Cleanup as u32, t, 0, 0, 0),
        Operation::Shutdown => fields_at(Kind::Shutdown as u32, t, 0, 0, 0),
    }
}

// The numbers of a line; 255 is no kind.
#[tactic(auto, unfolding(crate::specs::Frames::fields_of))]
fn fields_of(l: Line) -> Fields
    ensures { result ≡ fields_of l }
{
    match l {
        Line::Step {
            thread,
            flag,
            clock,
        } => fields_at(0, thread, u64::from(flag), 0, clock),
        Line::Start { thread, operation } => start_of(thread, operation),
        Line::Bad => fields_at(255, 0, 0, 0, 0),
    }
}

// The frame of a line, with its newline.
pub fn write_frame(l: Line) -> [u8; 29]
    ensures { result ≡ frame_of l }
{
    text(fields_of(l))
}

// An answer's digits and newline.
pub fn answer_line(number: u32, thread: u32, value: u64) -> [u8; 21]
    ensures { result ≡ answer_of number thread value }
{
    let mut out = [b'\n'; 21];
    put(&mut out, 0, 2, number as u64);
    put(&mut out, 2, 2, thread as u64);
    put(&mut out, 4, 16, value);
    out
}
