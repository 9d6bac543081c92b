// What a thread's step reads, whether that is in range, and what the step then does.
ghost use Rattle.std.specs.Prelude.{◌≡◌};
ghost use Rattle.base.specs.Pick.{pick};
ghost use Rattle.rules.specs.Sizes.{base};
ghost use Rattle.rules.specs.Step.{seen, read_by, judged, look_of};
ghost use Rattle.tables.specs.Lent.{held};
ghost use Rattle.machine.specs.Told.{Told};

use crate::guards::guarded_at;
use rules::answer::Refusal;
use rules::{Cell, Effect, Row, Seen};
use tables::{Lent, accessed, address, cut, in_range};

// A step as it is asked for: whose it is, its flag, and the clock.
#[derive(Clone, Copy)]
pub struct Turn {
    pub thread: u32,
    pub flag: bool,
    pub clock: u64,
}

fn seen(x: u64, y: u64, untaken: u32, guarded: bool, turn: Turn) -> Seen
    ensures { result ≡ seen x y untaken guarded turn.thread turn.flag turn.clock }
{
    Seen {
        x,
        v: cut(x),
        y,
        w: cut(y),
        untaken,
        guarded,
        thread: turn.thread,
        flag: turn.flag,
        clock: turn.clock,
    }
}

// The row's step reads its cell c, and l beside it.
#[tactic(auto, unfolding(rules::specs::Step::read_by, rules::specs::Step::lent))]
fn read(tables: &Lent, turn: Turn, r: Row, c: Cell, l: Cell, untaken: u32) -> Seen
    ensures { result ≡ read_by (held tables.now) turn.thread turn.flag turn.clock r c l untaken }
{
    let guarded = guarded_at(tables.guards, turn.thread, places::first(r));
    seen(tables.fetch(c), tables.fetch(l), untaken, guarded, turn)
}

// Damage where something that the step reads is out of its range, or a cell that it needs is none; a swap of a waiting
// node and a want of records come before it.
#[tactic(auto, unfolding(rules::specs::Step::judged))]
fn judged(r: Row, fits: bool, c: Cell, l: Cell, i: Seen, e: Effect) -> Effect
    ensures { result ≡ judged r fits c l i e }
{
    let ends = e.number == Refusal::NotRetirable as u32 || e.number == Refusal::NoRecords as u32;
    let sound = fits
        && in_range(c.class, i.x)
        && in_range(l.class, i.y)
        && in_range(address(e.also).class, 0);
    if ends || sound {
        e
    } else {
        effects::damaged(r)
    }
}

// What the step of a thread with this row does.
#[tactic(auto, unfolding(rules::specs::Step::look_of, rules::specs::Step::look_by, rules::specs::Step::lent))]
pub fn look(tables: &Lent, turn: Turn, r: Row) -> Effect
    ensures does { result ≡ look_of base (held tables.now) turn.thread turn.flag turn.clock r }
    ensures told { Told result }
{
    let untaken = rows::untaken(tables.ids, r.place);
    let c = accessed(places::access(r));
    let l = address(places::follow(r, untaken));
    let i = read(tables, turn, r, c, l, untaken);
    judged(
        r,
        rows::row_fits(tables.ids, turn.thread),
        c,
        l,
        i,
        places::effect(r, i),
    )
}
