// Shutdown: the shards are taken and reclaimed without a scan, then the records go.
ghost use Rattle.std.specs.Prelude.{◌≡◌};
ghost use Rattle.rules.specs.Sizes.{base};
ghost use Rattle.rules.specs.Pc;
ghost use Rattle.rules.specs.Places.{does};

use effects::{becomes, closing, reclaims, stores};
use passes::{freed, shut_next, shut_reclaimed};
use rules::pc::Pc;
use rules::{Effect, Row, Seen};

// S1: swap a shard's head with null.
pub fn s1(r: Row, i: Seen) -> Effect
    ensures { result ≡ does base Pc.S1 r i }
{
    if i.v == 0 {
        stores(0, becomes(shut_next(r)))
    } else {
        let taken = Row {
            reclaimable: i.v,
            ..r.go_to(Pc::S2)
        };
        stores(0, becomes(taken))
    }
}

// S2: reclaim the list's first node.
pub fn s2(r: Row, i: Seen) -> Effect
    ensures { result ≡ does base Pc.S2 r i }
{
    let rest = Row {
        reclaimable: i.v,
        ..r
    };
    reclaims(r.reclaimable, shut_reclaimed(freed(rest), i.v))
}

// S3: clear the record table and both record heads.
pub fn s3(r: Row, i: Seen) -> Effect
    ensures { result ≡ does base Pc.S3 r i }
{
    closing(r.total)
}
