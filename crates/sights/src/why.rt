// Why a line was refused. Of a step that is answered NotRetirable or NoRecords, which ends its operation, the row as it
// was before says all.
ghost use Rattle.std.specs.Prelude.{◌≡◌, ◌<◌, true, false, length};

use rows::{load_row, place};
use rules::answer::Refusal;
use rules::pc::Pc;
use rules::{Mark, Named, NodeState, Operation, RECORDS, Row, SOURCES, THREADS};
use std::fmt;
use tables::{Readable, address, cut};
use words::names;
use words::told::Told;

#[derive(Clone, Copy)]
pub enum Why {
    // What is wrong with a line that is none.
    TooShort,
    TooLong,
    WrongField,
    NoDigits,
    NoEnd,
    TableSize,
    OutOfRange,
    // The things that a line may name and that are not there.
    NoThread(u32),
    NoRecord(u32),
    NoSource(u32),
    NoNode,
    NothingToRetire,
    ShuttingDown,
    ShutDown,
    StepLimit,
    Idle,
    Inside {
        operation: u32,
        place: Pc,
    },
    // A record, and what stands as its holder.
    Record {
        rec: u32,
        holder: u64,
    },
    // A node, its state, and the source that it is in.
    Node {
        node: u64,
        state: u64,
        source: Option<u32>,
    },
    NodeWaits(u64),
    NoRecords,
    // The first thread that is inside an operation.
    InUse {
        thread: u32,
        operation: u32,
    },
}

impl fmt::Display for Why {
    fn fmt<W: fmt::Write>(&self, f: &mut fmt::Formatter<W>) -> fmt::Result {
        match *self {
            Why::TooShort => f.write_str("fewer than 28 characters"),
            Why::TooLong => f.write_str("more than 28 characters"),
            Why::WrongField => f.write_str("wrong kind or field"),
            Why::NoDigits => f.write_str("not hexadecimal digits"),
            Why::NoEnd => f.write_str("the line has no end"),
            Why::TableSize => f.write_str("a table has a wrong size"),
            Why::OutOfRange => f.write_str("a cell is out of range"),
            Why::NoThread(t) => write!(f, "there is no thread {t}"),
            Why::NoRecord(r) => write!(f, "there is no record {r}"),
            Why::NoSource(b) => write!(f, "there is no source {b}"),
            Why::NoNode => f.write_str("nodes end at 4096"),
            Why::NothingToRetire => f.write_str("no node to retire"),
            Why::ShuttingDown => f.write_str("shutdown is under way"),
            Why::ShutDown => f.write_str("shutdown is over"),
            Why::StepLimit => f.write_str("2^40 steps were taken"),
            Why::Idle => f.write_str("the thread is idle"),
            Why::Inside { operation, place } => write!(
                f,
                "inside {}, at {}",
                names::operation(operation),
                names::place(place)
            ),
            // A holder is a number, which may be any where a table is damaged: 0 of a row that is not taken, 1 of nobody,
            // t + 2 of thread t.
            Why::Record { rec, holder: 0 } => write!(f, "record {rec} is not in use"),
            Why::Record { rec, holder: 1 } => write!(f, "record {rec} is nobody's"),
            Why::Record { rec, holder } => {
                let thread = holder.wrapping_sub(2);
                write!(f, "record {rec} is thread {thread}'s")
            }
            Why::Node {
                node,
                source: Some(source),
                ..
            } => write!(f, "node {node} is in source {source}"),
            Why::Node {
                node,
                state,
                source: None,
            } if state == NodeState::Free as u64 => write!(f, "node {node} is free"),
            Why::Node { node, .. } => write!(f, "node {node} is waiting"),
            Why::NodeWaits(node) => write!(f, "node {node} waits"),
            Why::NoRecords => f.write_str("no record left"),
            Why::InUse { thread, operation } => {
                write!(f, "thread {thread} is in {}", names::operation(operation))
            }
        }
    }
}

fn cell(tables: Readable, c: Named) -> u64 {
    tables.fetch(address(c))
}

impl Why {
    // Why a step was refused.
    pub fn of_step(thread: u32, row: Row, refusal: Refusal) -> Why
        ensures thread { refusal ≡ Refusal.Thread → result ≡ Why.NoThread thread }
        ensures waits { refusal ≡ Refusal.NotRetirable → result ≡ Why.NodeWaits row.node }
        ensures idle { refusal ≡ Refusal.Idle → result ≡ Why.Idle }
    {
        match refusal {
            Refusal::Thread => Why::NoThread(thread),
            Refusal::StepLimit => Why::StepLimit,
            Refusal::Idle => Why::Idle,
            Refusal::NotRetirable => Why::NodeWaits(u64::from(row.node)),
            Refusal::NoRecords => Why::NoRecords,
            Refusal::OutOfRange => Why::OutOfRange,
            _ => Why::TableSize,
        }
    }

    // Why a start was refused.
    pub fn of_start(tables: Readable, thread: u32, o: Operation, row: Row, refusal: Refusal) -> Why
        ensures thread { refusal ≡ Refusal.Thread → result ≡ Why.NoThread thread }
    {
        let told = Told::from(o);
        match refusal {
            Refusal::Thread => Why::NoThread(thread),
            Refusal::ShutDown if cell(tables, Named::Shutdown) == Mark::Closing as u64 =>
                Why::ShuttingDown,
            Refusal::ShutDown => Why::ShutDown,
            Refusal::Inside => Why::Inside {
                operation: row.operation,
                place: Pc::from(row.place),
            },
            Refusal::Record => Why::of_record(tables, told.rec),
            Refusal::Source => Why::NoSource(told.source),
            Refusal::Node if told.node == 0 => Why::NothingToRetire,
            Refusal::Node => Why::NoNode,
            Refusal::NotRetirable => Why::of_node(tables, told.node),
            Refusal::InUse => Why::of_shutdown(tables),
            Refusal::OutOfRange => Why::OutOfRange,
            _ => Why::TableSize,
        }
    }

    // The record, and whose it is.
    fn of_record(tables: Readable, rec: u32) -> Why {
        if rec == 0 || RECORDS < rec {
            Why::NoRecord(rec)
        } else {
            Why::Record {
                rec,
                holder: cell(tables, Named::Holder(rec)),
            }
        }
    }

    // What keeps a node from being retired.
    fn of_node(tables: Readable, node: u64) -> Why {
        let state = cell(tables, Named::NodeState(cut(node)));
        let source = if state == NodeState::Live as u64 {
            (1..=SOURCES).find(|b| cell(tables, Named::Source(*b)) == node)
        } else {
            None
        };
        Why::Node {
            node,
            state,
            source,
        }
    }

    // What a shutdown has to wait for.
    fn of_shutdown(tables: Readable) -> Why {
        if let Some(thread) = (0..THREADS).find(|t| place(tables, *t) != Pc::Idle as u32) {
            return Why::InUse {
                thread,
                operation: load_row(tables, thread).operation,
            };
        }
        match (1..=RECORDS).find(|r| 1 < cell(tables, Named::Holder(*r))) {
            Some(rec) => Why::of_record(tables, rec),
            // A shutdown is refused for a thread or a record: one of them is found.
            None => Why::NoRecord(0),
        }
    }

    // What is wrong with a line that is none.
    pub fn of_bytes(bytes: &[u8], is_whole: bool) -> Why
        ensures no_end { is_whole ≡ false → result ≡ Why.NoEnd }
        ensures short { is_whole ≡ true → length bytes.now < 28 → result ≡ Why.TooShort }
        ensures long { is_whole ≡ true → 28 < length bytes.now → result ≡ Why.TooLong }
    {
        if !is_whole {
            return Why::NoEnd;
        }
        match bytes.len() {
            0..=27 => Why::TooShort,
            28
                if bytes
                    .iter()
                    .all(|b| matches!(*b, b'0'..=b'9' | b'a'..=b'f')) => Why::WrongField,
            28 => Why::NoDigits,
            _ => Why::TooLong,
        }
    }
}
