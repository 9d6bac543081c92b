// One word of a lent table, or of a part of it, read or written by an index that may be past its end.
ghost use Rattle.std.specs.Prelude.{◌≡◌, ◌+◌, ◌%◌, ◌^◌, ◌<◌, take, drop, nat_lt, slice_index, slice_index_or, slice_set};
ghost use Rattle.base.specs.Pick.{pick};
ghost use Rattle.rules.specs.Step.{part};

use rules::{COUNTER_CELLS, FROM_RECORDS, FROM_SOURCES, HEAD_CELLS, RECORD_CELLS, SOURCE_CELLS};

// What the tables hold: words of 32 and of 64 bits.
pub trait Word: Copy {
    ghost ZERO: { Self };

    const ZERO: Self;
}

impl Word for u32 {
    ghost ZERO = { 0 };

    const ZERO: u32 = 0;
}

impl Word for u64 {
    ghost ZERO = { 0 };

    const ZERO: u64 = 0;
}

// A word of a table, 0 past its end.
pub fn item<T: Word>(t: &[T], at: usize) -> T
    ensures { result ≡ slice_index_or t.now at T.ZERO }
{
    t.get(at).copied().unwrap_or(T::ZERO)
}

// A word of a table becomes v; nothing is written past its end. (`get_mut` says nothing of what the slice ends as.)
pub fn put<T: Word>(t: &mut [T], at: usize, v: T)
    ensures { t.new ≡ slice_set t.old at v }
{
    if at < t.len() {
        t[at] = v;
    }
}

// A word of what a table holds from `from` on, 0 past its end.
pub fn item_from<T: Word>(t: &[T], from: usize, at: usize) -> T
    ensures { result ≡ slice_index_or (drop from t.now) at T.ZERO }
{
    match t.get(from..) {
        Some(rest) => item(rest, at),
        None => T::ZERO,
    }
}

// A part of a table: n words from `from` on.
#[derive(Clone, Copy)]
pub struct Part {
    pub from: usize,
    pub n: usize,
}

impl Part {
    // Those of the table of ids.
    pub const HEADS: Part = Part {
        from: 0,
        n: HEAD_CELLS,
    };

    pub const SOURCES: Part = Part {
        from: FROM_SOURCES,
        n: SOURCE_CELLS,
    };

    pub const RECORDS: Part = Part {
        from: FROM_RECORDS,
        n: RECORD_CELLS,
    };

    // The counters, in the table of words.
    pub const COUNTERS: Part = Part {
        from: 0,
        n: COUNTER_CELLS,
    };
}

// A word of a part, 0 past its end.
pub fn item_in<T: Word>(t: &[T], part: Part, at: usize) -> T
    ensures { result ≡ slice_index_or (take part.n (drop part.from t.now)) at T.ZERO }
{
    if at < part.n {
        item_from(t, part.from, at)
    } else {
        T::ZERO
    }
}

// A word of a part becomes v; nothing is written past the part's end.
pub(crate) fn put_in<T: Word>(t: &mut [T], part: Part, at: usize, v: T)
    requires { part.from + part.n < 2 ^ 64 }
    ensures { t.new ≡ pick (nat_lt at part.n) (slice_set t.old (part.from + at) v) t.old }
{
    if at < part.n {
        put(t, part.from + at, v);
    }
}

// Where the number of steps taken stands among the counters.
pub const STEPS_TAKEN: u32 = 4;

// A counter, by its place: a number is what it promises for.
#[tactic(auto, unfolding(rules::specs::Step::part))]
pub fn counter(words: &[u64], at: u32) -> u64
    ensures { result ≡ slice_index (part 0 5 words.now) at }
{
    item_in(words, Part::COUNTERS, at as usize)
}

// A content, cut to an id.
pub fn cut(v: u64) -> u32
    ensures { result ≡ v % 2 ^ 32 }
{
    (v % 4294967296) as u32
}
