// Release: D1 and D2 clear the record, P1 to P3 push it on the available list.
ghost use Rattle.std.specs.Prelude.{◌≡◌};
ghost use Rattle.rules.specs.Sizes.{base};
ghost use Rattle.rules.specs.Pc;
ghost use Rattle.rules.specs.Places.{does};

use effects::{becomes, damaged, finishes, stores};
use rules::pc::Pc;
use rules::{Effect, Row, Seen};

// D1: store null to the hazard.
pub fn d1(r: Row, i: Seen) -> Effect
    ensures { result ≡ does base Pc.D1 r i }
{
    stores(0, becomes(r.go_to(Pc::D2)))
}

// D2: load `available_next`, which is null.
pub fn d2(r: Row, i: Seen) -> Effect
    ensures { result ≡ does base Pc.D2 r i }
{
    if i.v == 0 {
        becomes(r.go_to(Pc::P1))
    } else {
        damaged(r)
    }
}

// P1: load `head_available`; locked, again.
pub fn p1(r: Row, i: Seen) -> Effect
    ensures { result ≡ does base Pc.P1 r i }
{
    if i.v & 1 == 1 {
        becomes(r)
    } else {
        becomes(Row {
            next: i.v / 2,
            ..r.go_to(Pc::P2)
        })
    }
}

// P2: store it to `available_next`.
pub fn p2(r: Row, i: Seen) -> Effect
    ensures { result ≡ does base Pc.P2 r i }
{
    stores(r.next as u64, becomes(r.go_to(Pc::P3)))
}

// P3: weak exchange of the head.
pub fn p3(r: Row, i: Seen) -> Effect
    ensures { result ≡ does base Pc.P3 r i }
{
    if r.rec == 0 {
        damaged(r)
    } else if i.v as u64 == r.next as u64 * 2 && !i.flag {
        stores(r.rec as u64 * 2, finishes(0))
    } else {
        becomes(r.go_to(Pc::P1))
    }
}
