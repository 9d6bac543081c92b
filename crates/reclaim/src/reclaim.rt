// Reclaim: the passes of `do_reclamation`, and the wait of cleanup.
ghost use Rattle.std.specs.Prelude.{◌≡◌};
ghost use Rattle.rules.specs.Sizes.{base};
ghost use Rattle.rules.specs.Pc;
ghost use Rattle.rules.specs.Places.{does};
ghost use Rattle.rules.specs.Rows.{stealing};

use effects::{also_stores, becomes, clears_guards, damaged, finishes, guarding, reclaims, stores};
use passes::{emptied, examine_from, examined, freed, new_pass, next_stolen, passed, reclaimed};
use rules::kind::Kind;
use rules::pc::Pc;
use rules::{Done, Effect, Named, Row, SHARDS, Seen};

// B1: `nbulk_reclaims` + 1.
pub fn b1(r: Row, i: Seen) -> Effect
    ensures { result ≡ does base Pc.B1 r i }
{
    stores(i.x.wrapping_add(1), becomes(new_pass(r)))
}

// The row with v as the list stolen from its shard.
fn stealing(r: Row, v: u32) -> Row
    ensures { result ≡ stealing v r }
{
    let mut stolen = r.stolen;
    stolen[r.shard_in() as usize] = v;
    Row { stolen, ..r }
}

// Steal: swap a shard's head with null; after the last, the scan, or the end of an empty pass.
pub fn steal(r: Row, i: Seen) -> Effect
    ensures { result ≡ does base Pc.Steal r i }
{
    let taken = stealing(r, i.v);
    let next = r.shard_in() + 1;
    let on = if next != SHARDS {
        Row {
            shard: next,
            ..taken
        }
    } else if next_stolen(taken.stolen, 0) == SHARDS {
        passed(Row {
            done: Done::Empty as u32,
            ..taken
        })
    } else {
        taken.go_to(Pc::H1)
    };
    stores(0, becomes(on))
}

// H1: clear the guarded set and load the record list's head.
pub fn h1(r: Row, i: Seen) -> Effect
    ensures { result ≡ does base Pc.H1 r i }
{
    if i.v == 0 {
        clears_guards(examine_from(r, 0))
    } else {
        clears_guards(Row {
            rec: i.v,
            ..r.go_to(Pc::H2)
        })
    }
}

// H2: load a record's hazard, guard it, and go to the next record.
pub fn h2(r: Row, i: Seen) -> Effect
    ensures { result ≡ does base Pc.H2 r i }
{
    if i.w == 0 {
        guarding(i.v, examine_from(r, 0))
    } else {
        guarding(i.v, Row { rec: i.w, ..r })
    }
}

// Examine the first stolen node: guarded, on the front of the kept list, else on that of the reclaim list.
pub fn examine(r: Row, i: Seen) -> Effect
    ensures { result ≡ does base Pc.Examine r i }
{
    let node = r.first();
    let rest = stealing(r, i.v);
    if i.guarded {
        let kept = Row {
            unreclaimed: node,
            tail: if r.unreclaimed == 0 { node } else { r.tail },
            ..rest
        };
        stores(r.unreclaimed as u64, becomes(examined(kept, i.v)))
    } else {
        let free = Row {
            reclaimable: node,
            ..rest
        };
        stores(r.reclaimable as u64, becomes(examined(free, i.v)))
    }
}

// Reclaim the first node of the reclaim list.
pub fn reclaim(r: Row, i: Seen) -> Effect
    ensures { result ≡ does base Pc.Reclaim r i }
{
    let rest = Row {
        reclaimable: i.v,
        rcount: r.rcount.wrapping_sub(1),
        ..r
    };
    reclaims(r.reclaimable, reclaimed(freed(rest), i.v))
}

// Empty: load the shards' heads up to the first that is not null.
pub fn empty(r: Row, i: Seen) -> Effect
    ensures { result ≡ does base Pc.Empty r i }
{
    let next = r.shard_in() + 1;
    if i.v != 0 {
        becomes(emptied(Row {
            done: Done::Left as u32,
            ..r
        }))
    } else if next == SHARDS {
        becomes(emptied(Row {
            done: Done::Empty as u32,
            ..r
        }))
    } else {
        becomes(Row { shard: next, ..r })
    }
}

// Push1: load the head of shard 0.
pub fn push1(r: Row, i: Seen) -> Effect
    ensures { result ≡ does base Pc.Push1 r i }
{
    becomes(Row {
        seen: i.v,
        ..r.go_to(Pc::Push2)
    })
}

// Push2: weak exchange that puts the kept list in front of shard 0.
pub fn push2(r: Row, i: Seen) -> Effect
    ensures { result ≡ does base Pc.Push2 r i }
{
    if r.unreclaimed == 0 {
        return damaged(r);
    }
    let next = Named::NodeNext(r.tail);
    if i.v == r.seen && !i.flag {
        let pushed = passed(Row {
            unreclaimed: 0,
            tail: 0,
            ..r
        });
        let linked = also_stores(next, r.seen as u64, becomes(pushed));
        stores(r.unreclaimed as u64, linked)
    } else {
        also_stores(next, r.seen as u64, becomes(Row { seen: i.v, ..r }))
    }
}

// C1: what was not reclaimed goes back to `count`.
pub fn c1(r: Row, i: Seen) -> Effect
    ensures { result ≡ does base Pc.C1 r i }
{
    let given_back = Row {
        rcount: 0,
        ..r.go_to(Pc::K1)
    };
    stores(i.x.wrapping_add(r.rcount), becomes(given_back))
}

// C3: `nbulk_reclaims` - 1; cleanup waits.
pub fn c3(r: Row, i: Seen) -> Effect
    ensures { result ≡ does base Pc.C3 r i }
{
    let less = i.x.wrapping_sub(1);
    if r.operation == Kind::Cleanup as u32 {
        stores(less, becomes(r.go_to(Pc::Wait)))
    } else {
        stores(less, finishes(r.total))
    }
}

// Wait: load `nbulk_reclaims` until it is 0.
pub fn wait(r: Row, i: Seen) -> Effect
    ensures { result ≡ does base Pc.Wait r i }
{
    if i.x == 0 { finishes(0) } else { becomes(r) }
}
