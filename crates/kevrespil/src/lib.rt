// The machine for C and for Rust: `start` and `step` by plain numbers, over the five tables that the caller
// lends. include/kevrespil.h says it in C's words, and the crate kevrespil_c exports them.
#![tactic(auto)]

ghost use Rattle.std.specs.Prelude.{◌≡◌};
ghost use Rattle.rules.specs.Sizes.{base};
ghost use Rattle.rules.specs.Step.{lent, out, answer, step_of};
ghost use Rattle.rules.specs.Answers.{answer_of};
ghost use Rattle.tables.specs.Lent.{held, AreSame};
ghost use Rattle.frames.specs.Frames.{fields, framed};
ghost use Rattle.kevrespil.specs.Call.{begun};

use frames::Line;
use machine::start::start;
use machine::step::step;
use rules::answer::{Answer, Outcome, Refusal};
use tables::Lent;

// What comes back: an answer's number and value, by numbers since C reads it.
#[repr(C)]
#[derive(Drop)]
pub struct Reply {
    pub number: u32,
    pub value: u64,
}

impl From<Result<Outcome, Refusal>> for Reply {
    ghost use Rattle.std.specs.Prelude.{◌≡◌};
    ghost use Rattle.rules.specs.Answers.{answer, answer_of};

    ghost from_gives = { λ r a. answer a.number a.value ≡ answer_of r };

    fn from(r: Result<Outcome, Refusal>) -> Reply {
        let Answer { number, value } = Answer::from(r);
        Reply { number, value }
    }
}

// A line that is no start is refused as a bad frame is.
#[tactic(auto, unfolding(crate::specs::Call::begun))]
fn begin(tables: &mut Lent, l: Line) -> Result<Outcome, Refusal>
    ensures begin { out (answer_of result) (held tables.new) ≡ begun base (held tables.old) l }
    ensures same { AreSame tables.old tables.new }
{
    match l {
        Line::Start { thread, operation } => start(tables, thread, operation),
        Line::Step { .. } | Line::Bad => Err(Refusal::NoOperation),
    }
}

// The start of an operation by the numbers of its frame.
pub fn kevrespil_start(
    ids: &mut [u32],
    next: &mut [u32],
    state: &mut [u32],
    words: &mut [u64],
    guards: &mut [u64],
    thread: u32,
    kind: u32,
    a: u32,
    b: u32,
    c: u64,
) -> Reply
    ensures { out (answer result.number result.value) (lent ids.new next.new state.new words.new guards.new) ≡ begun base (lent ids.old next.old state.old words.old guards.old) (framed (fields kind thread a b c)) }
{
    let mut tables = Lent {
        ids,
        next,
        state,
        words,
        guards,
    };
    let l = frames::line_by_kind(kind, thread, a, b, c);
    Reply::from(begin(&mut tables, l))
}

// One step of a thread.
pub fn kevrespil_step(
    ids: &mut [u32],
    next: &mut [u32],
    state: &mut [u32],
    words: &mut [u64],
    guards: &mut [u64],
    thread: u32,
    flag: bool,
    clock: u64,
) -> Reply
    ensures { out (answer result.number result.value) (lent ids.new next.new state.new words.new guards.new) ≡ step_of base (lent ids.old next.old state.old words.old guards.old) thread flag clock }
{
    let mut tables = Lent {
        ids,
        next,
        state,
        words,
        guards,
    };
    Reply::from(step(&mut tables, thread, flag, clock))
}
