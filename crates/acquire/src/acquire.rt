// Acquire: A1 to A6 take a record from the available list, N1 to N3 link a new one.
ghost use Rattle.std.specs.Prelude.{◌≡◌};
ghost use Rattle.rules.specs.Sizes.{base};
ghost use Rattle.rules.specs.Pc;
ghost use Rattle.rules.specs.Places.{does};

use effects::{also_stores, becomes, damaged, ends, finishes, stores};
use rules::answer::Refusal;
use rules::pc::Pc;
use rules::{Effect, Holder, Named, Row, Seen};

// A1: load `head_available`; locked, again; null, a new record.
pub fn a1(r: Row, i: Seen) -> Effect
    ensures { result ≡ does base Pc.A1 r i }
{
    if i.v & 1 == 1 {
        becomes(r)
    } else if i.v == 0 {
        becomes(r.go_to(Pc::N1))
    } else {
        becomes(Row {
            rec: i.v / 2,
            ..r.go_to(Pc::A2)
        })
    }
}

// A2: weak exchange to set the lock.
pub fn a2(r: Row, i: Seen) -> Effect
    ensures { result ≡ does base Pc.A2 r i }
{
    if r.rec == 0 {
        return damaged(r);
    }
    let unlocked = r.rec as u64 * 2;
    if i.v as u64 == unlocked && !i.flag {
        stores(unlocked | 1, becomes(r.go_to(Pc::A3)))
    } else {
        becomes(r.go_to(Pc::A1))
    }
}

// A3: load the record's `available_next`.
pub fn a3(r: Row, i: Seen) -> Effect
    ensures { result ≡ does base Pc.A3 r i }
{
    becomes(Row {
        next: i.v,
        ..r.go_to(Pc::A4)
    })
}

// A4: store it into `head_available`, unlocked.
pub fn a4(r: Row, i: Seen) -> Effect
    ensures { result ≡ does base Pc.A4 r i }
{
    stores(r.next as u64 * 2, becomes(r.go_to(Pc::A5)))
}

// A5: store null to the record's `available_next`.
pub fn a5(r: Row, i: Seen) -> Effect
    ensures { result ≡ does base Pc.A5 r i }
{
    stores(0, becomes(r.go_to(Pc::A6)))
}

// A6: load it; the record is the thread's.
pub fn a6(r: Row, i: Seen) -> Effect
    ensures { result ≡ does base Pc.A6 r i }
{
    let held = Holder::Thread(i.thread).number();
    also_stores(Named::Holder(r.rec), held, finishes(r.rec as u64))
}

// N1: take the lowest unused row and load the list head.
pub fn n1(r: Row, i: Seen) -> Effect
    ensures { result ≡ does base Pc.N1 r i }
{
    if i.untaken == 0 {
        return ends(Refusal::NoRecords);
    }
    let taken = Row {
        rec: i.untaken,
        next: i.v,
        ..r.go_to(Pc::N2)
    };
    also_stores(
        Named::Holder(i.untaken),
        Holder::Nobody.number(),
        becomes(taken),
    )
}

// N2: weak exchange of the head; the record's `next` is written, won or lost.
pub fn n2(r: Row, i: Seen) -> Effect
    ensures { result ≡ does base Pc.N2 r i }
{
    let next = Named::RecordNext(r.rec);
    if i.v == r.next && !i.flag {
        let linked = also_stores(next, r.next as u64, becomes(r.go_to(Pc::N3)));
        stores(r.rec as u64, linked)
    } else {
        also_stores(next, r.next as u64, becomes(Row { next: i.v, ..r }))
    }
}

// N3: one record more; it is the thread's.
pub fn n3(r: Row, i: Seen) -> Effect
    ensures { result ≡ does base Pc.N3 r i }
{
    let held = Holder::Thread(i.thread).number();
    let owned = also_stores(Named::Holder(r.rec), held, finishes(r.rec as u64));
    stores(i.x.wrapping_add(1), owned)
}
