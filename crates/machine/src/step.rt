// One step of a thread.
ghost use Rattle.std.specs.Prelude.{◌≡◌, ◌*◌, eqb, ltb, leb, slice_index};
ghost use Rattle.base.specs.Pick.{both, pick};
ghost use Rattle.rules.specs.Answers.{answer, answer_of, refusal_of};
ghost use Rattle.rules.specs.Sizes.{base, threads, steps, row32};
ghost use Rattle.rules.specs.Pc.{code};
ghost use Rattle.rules.specs.Step.{sizes, out, given, take_of, step_of};
ghost use Rattle.tables.specs.Lent.{held, AreSame};
ghost use Rattle.machine.specs.Told.{Told};

use crate::guards::{WORDS, guards_given};
use crate::look::{Turn, look};
use rows::{ROW32, ROW64};
use rules::answer::{Outcome, Refusal};
use rules::pc::Pc;
use rules::{COUNTER_CELLS, Cell, Effect, FROM_ROWS, NODES, STEPS, THREADS};
use tables::{Lent, STEPS_TAKEN, accessed, counter};

// The sizes of the tables.
pub const IDS: usize = FROM_ROWS + ROW32 * THREADS as usize;

pub const NODE_CELLS: usize = NODES as usize;

pub const SUMS: usize = COUNTER_CELLS + ROW64 * THREADS as usize;

pub const GUARD_WORDS: usize = WORDS * THREADS as usize;

// Whether the tables have their sizes. It is promised for any five lengths, also of tables that nobody lends.
pub fn sized(ids: usize, next: usize, state: usize, words: usize, guards: usize) -> bool
    ensures { result ≡ both (eqb ids 4507) (both (eqb next 4096) (both (eqb state 4096) (both (eqb words 85) (eqb guards 1024)))) }
{
    ids == IDS
        && next == NODE_CELLS
        && state == NODE_CELLS
        && words == SUMS
        && guards == GUARD_WORDS
}

// The tables are to have their sizes, and the thread to be one.
pub(crate) fn admit(tables: &Lent, t: u32) -> Result<(), Refusal>
    ensures { refusal_of result ≡ pick (sizes (held tables.now)) (pick (ltb t threads) 0 17) 16 }
{
    let fit = sized(
        tables.ids.len(),
        tables.next.len(),
        tables.state.len(),
        tables.words.len(),
        tables.guards.len(),
    );
    if !fit {
        return Err(Refusal::TableSize);
    }
    if t >= THREADS {
        return Err(Refusal::Thread);
    }
    Ok(())
}

// There are to be steps left, and the thread is to be inside an operation.
#[tactic(auto, unfolding(rules::specs::Step::lent, rules::specs::Step::part))]
fn ready(tables: &Lent, t: u32) -> Result<(), Refusal>
    ensures { refusal_of result ≡ pick (leb steps (slice_index (held tables.now).cells.counters 4)) 19 (pick (eqb (slice_index (held tables.now).rows32 (t * row32)) (code Pc.Idle)) 21 0) }
{
    if counter(tables.words, STEPS_TAKEN) >= STEPS {
        return Err(Refusal::StepLimit);
    }
    if rows::place(tables.readable(), t) == Pc::Idle as u32 {
        return Err(Refusal::Idle);
    }
    Ok(())
}

// A step's effect is applied to the tables.
#[tactic(auto, unfolding(rules::specs::Step::given, rules::specs::Step::lent))]
fn give(tables: &mut Lent, t: u32, c: Cell, e: Effect)
    ensures does { held tables.new ≡ given (held tables.old) t c e }
    ensures same { AreSame tables.old tables.new }
{
    tables.cells_given(c, e);
    rows::store_row(tables, t, e.row);
    guards_given(tables.guards, t, e.guards);
}

// What an effect answers. It has its numbers, since theorems speak of any rules::Effect.
fn told(e: Effect) -> Result<Outcome, Refusal>
    requires { Told e }
    ensures { answer_of result ≡ answer e.number e.value }
{
    match e.number {
        0 => Ok(Outcome::Stepped),
        2 => Ok(Outcome::Done(e.value)),
        3 => Ok(Outcome::Retry(e.value)),
        4 => Ok(Outcome::Reclaimed(e.value)),
        n if n == Refusal::NotRetirable as u32 => Err(Refusal::NotRetirable),
        n if n == Refusal::NoRecords as u32 => Err(Refusal::NoRecords),
        n if n == Refusal::OutOfRange as u32 => Err(Refusal::OutOfRange),
        _ => unreachable!(),
    }
}

// A step of a thread that is inside an operation.
#[tactic(auto, unfolding(rules::specs::Step::take_of, rules::specs::Step::lent))]
fn take(tables: &mut Lent, turn: Turn) -> Result<Outcome, Refusal>
    ensures does { out (answer_of result) (held tables.new) ≡ take_of base (held tables.old) turn.thread turn.flag turn.clock }
    ensures same { AreSame tables.old tables.new }
{
    let r = rows::load_row(tables.readable(), turn.thread);
    let c = accessed(places::access(r));
    let e = look(tables, turn, r);
    if e.number == Refusal::OutOfRange as u32 {
        return Err(Refusal::OutOfRange);
    }
    give(tables, turn.thread, c, e);
    told(e)
}

// The step of a thread.
#[tactic(auto, unfolding(rules::specs::Step::step_of, rules::specs::Step::step_in))]
pub fn step(tables: &mut Lent, t: u32, flag: bool, clock: u64) -> Result<Outcome, Refusal>
    ensures step { out (answer_of result) (held tables.new) ≡ step_of base (held tables.old) t flag clock }
    ensures same { AreSame tables.old tables.new }
{
    admit(tables, t)?;
    ready(tables, t)?;
    let turn = Turn {
        thread: t,
        flag,
        clock,
    };
    take(tables, turn)
}
