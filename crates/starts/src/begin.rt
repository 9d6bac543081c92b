// What a start writes: the thread's row, and one cell.
ghost use Rattle.std.specs.Prelude.{◌≡◌};
ghost use Rattle.rules.specs.Sizes.{base};
ghost use Rattle.rules.specs.Pc.{code};
ghost use Rattle.rules.specs.Kind.{kind};
ghost use Rattle.rules.specs.Start.{begins, entry, fresh_at, narrow, of_null};

use crate::refuse::cut;
use rules::kind::Kind;
use rules::pc::Pc;
use rules::{Entry, Holder, Mark, Named, NodeState, Operation, Row};

// The row of an operation at its first place.
fn fresh(k: Kind, first: Pc) -> Row
    ensures { result ≡ fresh_at (kind k) (code first) 0 0 0 0 0 }
{
    Row {
        operation: k as u32,
        place: first as u32,
        ..Row::IDLE
    }
}

// Only the row is written.
fn quietly(row: Row) -> Entry
    ensures { result ≡ entry row Named.Nothing 0 }
{
    Entry {
        row,
        cell: Named::Nothing,
        put: 0,
    }
}

// A release gives up the record, a retire makes its node waiting, and a shutdown sets the mark.
#[tactic(auto, unfolding(rules::specs::Start::begins))]
pub fn begin(o: Operation) -> Entry
    ensures { result ≡ begins base o }
{
    match o {
        Operation::Acquire => quietly(fresh(Kind::Acquire, Pc::A1)),
        Operation::Release { rec } => Entry {
            row: Row {
                rec,
                ..fresh(Kind::Release, Pc::D1)
            },
            cell: Named::Holder(rec),
            put: Holder::Nobody.number(),
        },
        Operation::Protect { rec, source } => quietly(Row {
            rec,
            source,
            ..fresh(Kind::Protect, Pc::V0)
        }),
        Operation::Try { rec, source, node } => quietly(Row {
            rec,
            source,
            node: cut(node),
            ..fresh(Kind::Try, Pc::V1)
        }),
        Operation::TryProtect { rec, source, node } => quietly(Row {
            rec,
            source,
            node: cut(node),
            ..fresh(Kind::TryProtect, Pc::V1)
        }),
        Operation::Reset { rec } => quietly(Row {
            rec,
            ..fresh(Kind::Reset, Pc::Reset)
        }),
        Operation::Raw { rec, node } => quietly(Row {
            rec,
            node: cut(node),
            ..fresh(Kind::Raw, Pc::Raw)
        }),
        Operation::Swap { source, node } => quietly(Row {
            source,
            node: cut(node),
            ..fresh(Kind::Swap, Pc::Swap)
        }),
        Operation::Retire { node, address } => {
            let lone = cut(node);
            Entry {
                row: Row {
                    lone,
                    shard: bits::shard(address),
                    ..fresh(Kind::Retire, Pc::T1)
                },
                cell: Named::NodeState(lone),
                put: NodeState::Waiting as u64,
            }
        }
        Operation::Eager => quietly(fresh(Kind::Eager, Pc::B1)),
        Operation::Cleanup => quietly(fresh(Kind::Cleanup, Pc::B1)),
        Operation::Shutdown => Entry {
            row: fresh(Kind::Shutdown, Pc::S1),
            cell: Named::Shutdown,
            put: Mark::Closing as u64,
        },
    }
}

// `try_protect` of null is done at once.
pub fn of_null(e: Entry) -> bool
    ensures { result ≡ of_null e }
{
    e.row.operation == Kind::TryProtect as u32 && e.row.node == 0
}
