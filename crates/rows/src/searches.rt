// The searches of the lent tables.
ghost use Rattle.std.specs.Prelude.{◌≡◌, ◌+◌, ◌*◌, ◌<◌, drop};
ghost use Rattle.rules.specs.Sizes.{records, sources, nodes, row32, threads, from_sources, from_records, from_rows};
ghost use Rattle.rules.specs.Step.{part, untaken_from, untaken_for};
ghost use Rattle.rules.specs.Start.{any_is, any_above};

use crate::row::ROW32;
use rules::pc::Pc;
use rules::{
    FROM_RECORDS, FROM_ROWS, FROM_SOURCES, NODES, RECORDS, SOURCE_CELLS, SOURCES, THREADS,
};
use tables::{Part, item_from, item_in};

// The largest holder that a record's row may have; 0 is an unused row's.
const HOLDER: u32 = THREADS + 1;

// The first record row that is not taken, from 1; 0 if all are, as the rules have it (`untaken_from`). By `find` the proof
// did not close.
fn lowest(ids: &[u32]) -> u32
    ensures { result ≡ untaken_from (part from_records (4 * records) ids.now) 0 records }
{
    for i in 0..RECORDS {
        let holder = item_in(ids, Part::RECORDS, i as usize * 4 + 3);
        if holder == 0 || HOLDER < holder {
            return i + 1;
        }
    }
    0
}

// The row that N1 would take; no other place looks for one.
#[tactic(auto, unfolding(rules::specs::Step::untaken_for))]
pub fn untaken(ids: &[u32], place: u32) -> u32
    ensures { result ≡ untaken_for (part from_records (4 * records) ids.now) place }
{
    if place == Pc::N1 as u32 {
        lowest(ids)
    } else {
        0
    }
}

// Whether a source holds n.
pub fn linked(ids: &[u32], n: u32) -> bool
    ensures { result ≡ any_is (part from_sources sources ids.now) n 0 sources }
{
    (0..SOURCE_CELLS).any(|i| item_in(ids, Part::SOURCES, i) == n)
}

// Whether word k of one of n rows of w words is above m, the rows being those from `from` on.
fn any_above(ids: &[u32], from: usize, m: u32, w: usize, k: usize, n: u32) -> bool
    requires { n * w + k < 18446744073709551616 }
    ensures { result ≡ any_above (drop from ids.now) m w k 0 n }
{
    (0..n).any(|i| m < item_from(ids, from, i as usize * w + k))
}

// Whether a source is damaged.
pub fn unsound(ids: &[u32]) -> bool
    ensures { result ≡ any_above (part from_sources sources ids.now) nodes 1 0 0 sources }
{
    any_above(ids, FROM_SOURCES, NODES, 1, 0, SOURCES)
}

// Whether a thread is inside an operation.
pub fn inside(ids: &[u32]) -> bool
    ensures { result ≡ any_above (drop from_rows ids.now) 0 row32 0 0 threads }
{
    any_above(ids, FROM_ROWS, 0, ROW32, 0, THREADS)
}

// Whether a record is owned.
pub fn owned(ids: &[u32]) -> bool
    ensures { result ≡ any_above (part from_records (4 * records) ids.now) 1 4 3 0 records }
{
    any_above(ids, FROM_RECORDS, 1, 4, 3, RECORDS)
}
