// Protect and the tries, reset and raw; and the swap of a source. A row keeps kinds, and a cell states, as numbers, which
// the rules speak of.
#![tactic(auto)]

ghost use Rattle.std.specs.Prelude.{◌≡◌};
ghost use Rattle.rules.specs.Sizes.{base};
ghost use Rattle.rules.specs.Pc;
ghost use Rattle.rules.specs.Places.{does};

use effects::{also_stores, becomes, ends, finishes, retry, stores};
use rules::answer::Refusal;
use rules::kind::Kind;
use rules::pc::Pc;
use rules::{Effect, Named, NodeState, Row, Seen};

// V0: load the source.
pub fn v0(r: Row, i: Seen) -> Effect
    ensures { result ≡ does base Pc.V0 r i }
{
    becomes(Row {
        node: i.v,
        ..r.go_to(Pc::V1)
    })
}

// V1: store the node as hazard.
pub fn v1(r: Row, i: Seen) -> Effect
    ensures { result ≡ does base Pc.V1 r i }
{
    stores(r.node as u64, becomes(r.go_to(Pc::V2)))
}

// V2: load the source again; equal, the node is protected.
pub fn v2(r: Row, i: Seen) -> Effect
    ensures { result ≡ does base Pc.V2 r i }
{
    if i.v == r.node {
        finishes(i.v as u64)
    } else {
        becomes(Row {
            seen: i.v,
            ..r.go_to(Pc::V3)
        })
    }
}

// V3: store null; protect goes on with the value seen, a try answers it.
pub fn v3(r: Row, i: Seen) -> Effect
    ensures { result ≡ does base Pc.V3 r i }
{
    if r.operation == Kind::Protect as u32 {
        let again = Row {
            node: r.seen,
            ..r.go_to(Pc::V1)
        };
        stores(0, becomes(again))
    } else {
        stores(0, retry(r.seen as u64))
    }
}

// Reset: store null to the hazard.
pub fn reset(r: Row, i: Seen) -> Effect
    ensures { result ≡ does base Pc.Reset r i }
{
    stores(0, finishes(0))
}

// Raw: store the node, unvalidated.
pub fn raw(r: Row, i: Seen) -> Effect
    ensures { result ≡ does base Pc.Raw r i }
{
    stores(r.node as u64, finishes(0))
}

// Swap: w is the new node's state; a free node becomes live, a waiting one is refused.
pub fn swap(r: Row, i: Seen) -> Effect
    ensures { result ≡ does base Pc.Swap r i }
{
    if i.w == NodeState::Waiting as u32 {
        return ends(Refusal::NotRetirable);
    }
    let swapped = stores(r.node as u64, finishes(i.v as u64));
    if r.node != 0 && i.w == NodeState::Free as u32 {
        also_stores(Named::NodeState(r.node), NodeState::Live as u64, swapped)
    } else {
        swapped
    }
}
