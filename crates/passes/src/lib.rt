// Where a pass goes on: the rows between Check, the stolen lists and the test for done.
#![tactic(auto)]

ghost use Rattle.std.specs.Prelude.{◌≡◌, ◌-◌, ◌==◌};
ghost use Rattle.rules.specs.Sizes.{base};
ghost use Rattle.rules.specs.Places.{checked, passed, emptied, examine_from, examined, after_free, shut_next, new_pass};
ghost use Rattle.rules.specs.Rows.{stolen_from, freed};
ghost use Rattle.base.specs.Pick.{pick};

use rules::pc::Pc;
use rules::{Done, Row, SHARDS};

// A new pass steals from shard 0 on.
pub fn new_pass(r: Row) -> Row
    ensures { result ≡ new_pass r }
{
    Row {
        shard: 0,
        ..r.go_to(Pc::Steal)
    }
}

// After Check, whose value is the row's rcount: a retire before its Reclaim, or the end of a pass.
#[tactic(auto, unfolding(rules::specs::Places::checked))]
pub fn checked(r: Row) -> Row
    ensures { result ≡ checked r }
{
    if r.done == Done::NotYet as u32 {
        r.go_to(if r.rcount == 0 { Pc::E1 } else { Pc::B1 })
    } else if r.rcount == 0 && r.done == Done::Empty as u32 {
        r.go_to(Pc::C3)
    } else {
        new_pass(r)
    }
}

// C1 only if there is something to give back.
#[tactic(auto, unfolding(rules::specs::Places::passed))]
pub fn passed(r: Row) -> Row
    ensures { result ≡ passed r }
{
    r.go_to(if r.rcount == 0 { Pc::K1 } else { Pc::C1 })
}

// The kept list, if any, is pushed first.
#[tactic(auto, unfolding(rules::specs::Places::emptied))]
pub fn emptied(r: Row) -> Row
    ensures { result ≡ emptied r }
{
    if r.unreclaimed == 0 {
        passed(r)
    } else {
        r.go_to(Pc::Push1)
    }
}

// The first shard from `from` on with a stolen list; past the last, if there is none: a number, as the rules' search has it.
pub fn next_stolen(stolen: [u32; 8], from: u32) -> u32
    ensures { result ≡ stolen_from stolen from (8 - from) }
{
    (from..SHARDS)
        .find(|&k| stolen[k as usize] != 0)
        .unwrap_or(from.max(SHARDS))
}

// The next shard with a stolen list, from `from` on; after the last, the test for done.
#[tactic(auto, unfolding(rules::specs::Places::examine_from))]
pub fn examine_from(r: Row, from: u32) -> Row
    ensures { result ≡ examine_from base from r }
{
    match next_stolen(r.stolen, from) {
        SHARDS => Row {
            shard: 0,
            ..r.go_to(Pc::Empty)
        },
        shard => Row {
            shard,
            ..r.go_to(Pc::Examine)
        },
    }
}

// A node was examined, and `rest` is what is left of its list.
#[tactic(auto, unfolding(rules::specs::Places::examined))]
pub fn examined(r: Row, rest: u32) -> Row
    ensures { result ≡ examined base rest r }
{
    if rest != 0 {
        r
    } else if r.reclaimable != 0 {
        r.go_to(Pc::Reclaim)
    } else {
        examine_from(r, r.shard_in() + 1)
    }
}

// One node more in the total that the operation answers.
pub fn freed(r: Row) -> Row
    ensures { result ≡ freed r }
{
    Row {
        total: r.total.wrapping_add(1),
        ..r
    }
}

// A node was reclaimed, and `rest` is what is left of its list.
#[tactic(auto, unfolding(rules::specs::Places::after_free))]
pub fn reclaimed(r: Row, rest: u32) -> Row
    ensures { result ≡ after_free base rest r }
{
    if rest == 0 {
        examine_from(r, r.shard_in() + 1)
    } else {
        r
    }
}

// Shutdown's next shard, or its last step.
#[tactic(auto, unfolding(rules::specs::Places::shut_next))]
pub fn shut_next(r: Row) -> Row
    ensures { result ≡ shut_next base r }
{
    match r.shard_in() + 1 {
        SHARDS => r.go_to(Pc::S3),
        shard => Row {
            shard,
            ..r.go_to(Pc::S1)
        },
    }
}

// A node was reclaimed by shutdown.
pub fn shut_reclaimed(r: Row, rest: u32) -> Row
    ensures { result ≡ pick (rest == 0) (shut_next base r) r }
{
    if rest == 0 { shut_next(r) } else { r }
}
