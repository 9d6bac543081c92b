// Retire: T1 to T3 push the node, K1 to K4 check the count, E1 to E3 the time.
#![tactic(auto)]

ghost use Rattle.std.specs.Prelude.{◌≡◌};
ghost use Rattle.rules.specs.Sizes.{base};
ghost use Rattle.rules.specs.Pc;
ghost use Rattle.rules.specs.Places.{does};

use effects::{also_stores, becomes, finishes, stores};
use passes::checked;
use rules::pc::Pc;
use rules::{Effect, Named, Row, Seen};

// T1: load the shard's head.
pub fn t1(r: Row, i: Seen) -> Effect
    ensures { result ≡ does base Pc.T1 r i }
{
    becomes(Row {
        seen: i.v,
        ..r.go_to(Pc::T2)
    })
}

// T2: weak exchange of the head; the node's `next` is written, won or lost.
pub fn t2(r: Row, i: Seen) -> Effect
    ensures { result ≡ does base Pc.T2 r i }
{
    let next = Named::NodeNext(r.lone);
    if i.v == r.seen && !i.flag {
        let pushed = Row {
            lone: 0,
            ..r.go_to(Pc::T3)
        };
        let linked = also_stores(next, r.seen as u64, becomes(pushed));
        stores(r.lone as u64, linked)
    } else {
        also_stores(next, r.seen as u64, becomes(Row { seen: i.v, ..r }))
    }
}

// T3: `count` + 1.
pub fn t3(r: Row, i: Seen) -> Effect
    ensures { result ≡ does base Pc.T3 r i }
{
    stores(i.x.wrapping_add(1), becomes(r.go_to(Pc::K1)))
}

// K1: load `count`.
pub fn k1(r: Row, i: Seen) -> Effect
    ensures { result ≡ does base Pc.K1 r i }
{
    becomes(Row {
        count: i.x,
        ..r.go_to(Pc::K2)
    })
}

// K2: load the record count; not above the threshold gives 0.
pub fn k2(r: Row, i: Seen) -> Effect
    ensures { result ≡ does base Pc.K2 r i }
{
    if counts::over(r.count, i.x) {
        becomes(r.go_to(Pc::K3))
    } else {
        becomes(checked(Row { rcount: 0, ..r }))
    }
}

// K3: weak exchange of `count` with 0.
pub fn k3(r: Row, i: Seen) -> Effect
    ensures { result ≡ does base Pc.K3 r i }
{
    if i.x == r.count && !i.flag {
        let taken = Row {
            rcount: r.count,
            ..r.go_to(Pc::K4)
        };
        stores(0, becomes(taken))
    } else {
        becomes(Row {
            count: i.x,
            ..r.go_to(Pc::K2)
        })
    }
}

// K4: store the new due time.
pub fn k4(r: Row, i: Seen) -> Effect
    ensures { result ≡ does base Pc.K4 r i }
{
    stores(counts::due_time(i.clock), becomes(checked(r)))
}

// E1: load `due_time`; not due gives 0.
pub fn e1(r: Row, i: Seen) -> Effect
    ensures { result ≡ does base Pc.E1 r i }
{
    if counts::is_due(i.clock, i.x) {
        becomes(Row {
            due: i.x,
            clock: i.clock,
            ..r.go_to(Pc::E2)
        })
    } else {
        finishes(0)
    }
}

// E2: strong exchange of the value E1 saw to E1's clock + 2,000,000,000.
pub fn e2(r: Row, i: Seen) -> Effect
    ensures { result ≡ does base Pc.E2 r i }
{
    if i.x == r.due {
        stores(counts::due_time(r.clock), becomes(r.go_to(Pc::E3)))
    } else {
        finishes(0)
    }
}

// E3: swap `count` with 0; a negative one is something to do too.
pub fn e3(r: Row, i: Seen) -> Effect
    ensures { result ≡ does base Pc.E3 r i }
{
    if i.x == 0 {
        stores(0, finishes(0))
    } else {
        let taken = Row {
            rcount: i.x,
            ..r.go_to(Pc::B1)
        };
        stores(0, becomes(taken))
    }
}
