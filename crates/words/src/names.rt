// The names of operations, places and cells, and a few words on what each place is for.
ghost use Rattle.std.specs.Prelude.{◌≡◌, ◌↔◌, ℕ};
ghost use Rattle.rules.specs.declared.Access.{Access};
ghost use Rattle.rules.specs.declared.Named.{Named};

use rules::kind::{Kind, NoKind};
use rules::pc::Pc;
use rules::{Access, Named, Operation};
use std::fmt;

// An operation by its kind in a frame, which may be none.
pub fn operation(kind: u32) -> &'static str {
    match Kind::try_from(kind) {
        Ok(Kind::Acquire) => "acquire",
        Ok(Kind::Release) => "release",
        Ok(Kind::Protect) => "protect",
        Ok(Kind::Try) => "try",
        Ok(Kind::TryProtect) => "try_protect",
        Ok(Kind::Reset) => "reset",
        Ok(Kind::Raw) => "raw",
        Ok(Kind::Swap) => "swap",
        Ok(Kind::Retire) => "retire",
        Ok(Kind::Eager) => "eager",
        Ok(Kind::Cleanup) => "cleanup",
        Ok(Kind::Shutdown) => "shutdown",
        Err(NoKind(0)) => "none",
        Err(_) => "",
    }
}

// A place by document 01's name.
pub fn place(p: Pc) -> &'static str {
    match p {
        Pc::Idle => "step",
        Pc::A1 => "A1",
        Pc::A2 => "A2",
        Pc::A3 => "A3",
        Pc::A4 => "A4",
        Pc::A5 => "A5",
        Pc::A6 => "A6",
        Pc::N1 => "N1",
        Pc::N2 => "N2",
        Pc::N3 => "N3",
        Pc::D1 => "D1",
        Pc::D2 => "D2",
        Pc::P1 => "P1",
        Pc::P2 => "P2",
        Pc::P3 => "P3",
        Pc::V0 => "V0",
        Pc::V1 => "V1",
        Pc::V2 => "V2",
        Pc::V3 => "V3",
        Pc::Reset => "Reset",
        Pc::Raw => "Raw",
        Pc::Swap => "Swap",
        Pc::T1 => "T1",
        Pc::T2 => "T2",
        Pc::T3 => "T3",
        Pc::K1 => "K1",
        Pc::K2 => "K2",
        Pc::K3 => "K3",
        Pc::K4 => "K4",
        Pc::E1 => "E1",
        Pc::E2 => "E2",
        Pc::E3 => "E3",
        Pc::B1 => "B1",
        Pc::Steal => "Steal",
        Pc::H1 => "H1",
        Pc::H2 => "H2",
        Pc::Examine => "Examine",
        Pc::Reclaim => "Reclaim",
        Pc::Empty => "Empty",
        Pc::Push1 => "Push1",
        Pc::Push2 => "Push2",
        Pc::C1 => "C1",
        Pc::C3 => "C3",
        Pc::Wait => "Wait",
        Pc::S1 => "S1",
        Pc::S2 => "S2",
        Pc::S3 => "S3",
        Pc::Unknown => "",
    }
}

// What a place is for.
pub fn purpose(p: Pc) -> &'static str {
    match p {
        Pc::Idle | Pc::Unknown => "",
        Pc::A1 => "look for a record",
        Pc::A2 => "lock the list",
        Pc::A3 => "see what is behind",
        Pc::A4 => "take it, unlock",
        Pc::A5 => "cut its link",
        Pc::A6 => "check its link",
        Pc::N1 => "take a new record",
        Pc::N2 => "put it in the list",
        Pc::N3 => "count the record",
        Pc::D1 => "clear the hazard",
        Pc::D2 => "check its link",
        Pc::P1 => "see the list",
        Pc::P2 => "link to the list",
        Pc::P3 => "put it in front",
        Pc::V0 => "read the source",
        Pc::V1 => "announce the node",
        Pc::V2 => "read source again",
        Pc::V3 => "changed: withdraw",
        Pc::Reset => "clear the hazard",
        Pc::Raw => "set the hazard",
        Pc::Swap => "put the node in",
        Pc::T1 => "see the list",
        Pc::T2 => "put it in front",
        Pc::T3 => "count the node",
        Pc::K1 => "see the count",
        Pc::K2 => "are there enough?",
        Pc::K3 => "take the count",
        Pc::K4 => "set next due time",
        Pc::E1 => "is it time?",
        Pc::E2 => "set next due time",
        Pc::E3 => "take the count",
        Pc::B1 => "begin to reclaim",
        Pc::Steal => "take the list",
        Pc::H1 => "begin the scan",
        Pc::H2 => "scan one hazard",
        Pc::Examine => "is it guarded?",
        Pc::Reclaim => "reclaim the node",
        Pc::Empty => "is it still empty?",
        Pc::Push1 => "see the list",
        Pc::Push2 => "put kept ones back",
        Pc::C1 => "give the rest back",
        Pc::C3 => "end of reclaiming",
        Pc::Wait => "wait for others",
        Pc::S1 => "take the list",
        Pc::S2 => "reclaim the node",
        Pc::S3 => "clear all records",
    }
}

// What a start asks for: an operation's name and its arguments.
#[derive(Clone, Copy)]
pub struct Asked(pub Operation);

impl fmt::Display for Asked {
    fn fmt<W: fmt::Write>(&self, f: &mut fmt::Formatter<W>) -> fmt::Result {
        match self.0 {
            Operation::Acquire => f.write_str("acquire"),
            Operation::Release { rec } => write!(f, "release record {rec}"),
            Operation::Protect { rec, source } => {
                write!(f, "protect record {rec} source {source}")
            }
            Operation::Try { rec, source, node } => {
                write!(f, "try record {rec} source {source} node {node}")
            }
            Operation::TryProtect { rec, source, node } => {
                write!(f, "try_protect record {rec} source {source} node {node}")
            }
            Operation::Reset { rec } => write!(f, "reset record {rec}"),
            Operation::Raw { rec, node } => write!(f, "raw record {rec} node {node}"),
            Operation::Swap { source, node } => write!(f, "swap source {source} node {node}"),
            Operation::Retire { node, address } => {
                let shard = bits::shard(address);
                write!(f, "retire node {node} shard {shard} at 0x{address:x}")
            }
            Operation::Eager => f.write_str("eager"),
            Operation::Cleanup => f.write_str("cleanup"),
            Operation::Shutdown => f.write_str("shutdown"),
        }
    }
}

// A cell's name, and which of the cells of that name it is.
#[derive(Clone, Copy)]
pub struct Cell(pub Named);

impl fmt::Display for Cell {
    fn fmt<W: fmt::Write>(&self, f: &mut fmt::Formatter<W>) -> fmt::Result {
        match self.0 {
            Named::Nothing => Ok(()),
            Named::RecordHead => f.write_str("record_head"),
            Named::HeadAvailable => f.write_str("head_available"),
            Named::Shutdown => f.write_str("shutdown"),
            Named::RecordCount => f.write_str("record_count"),
            Named::Count => f.write_str("count"),
            Named::DueTime => f.write_str("due_time"),
            Named::BulkReclaims => f.write_str("nbulk_reclaims"),
            Named::ShardHead(k) => write!(f, "shard {k}"),
            Named::Hazard(r) => write!(f, "hazard {r}"),
            Named::AvailableNext(r) => write!(f, "available_next {r}"),
            Named::RecordNext(r) => write!(f, "next of record {r}"),
            Named::Holder(r) => write!(f, "holder {r}"),
            Named::Source(b) => write!(f, "source {b}"),
            Named::NodeNext(n) => write!(f, "next of node {n}"),
            Named::NodeState(n) => write!(f, "state of node {n}"),
        }
    }
}

// An access that reads and writes: which it is goes by the place.
fn update(p: Pc) -> &'static str {
    match p {
        Pc::N3 | Pc::T3 | Pc::B1 | Pc::C1 => "add to",
        Pc::C3 => "lower",
        Pc::Swap | Pc::E3 | Pc::Steal | Pc::S1 => "swap",
        _ => "exchange",
    }
}

// What the step at a place accesses.
#[derive(Clone, Copy)]
pub struct Accessed {
    pub place: Pc,
    pub access: Access,
}

impl fmt::Display for Accessed {
    fn fmt<W: fmt::Write>(&self, f: &mut fmt::Formatter<W>) -> fmt::Result {
        match self.access {
            Access::Load(c) | Access::Private(c) => write!(f, "load {}", Cell(c)),
            Access::Store(c) | Access::HazardStore(c) => write!(f, "store {}", Cell(c)),
            Access::Update(c) => write!(f, "{} {}", update(self.place), Cell(c)),
        }
    }
}

// The record whose hazard an access stores to.
pub fn hazard(access: Access) -> Option<u32>
    ensures { (r : ℕ) → result ≡ Some r ↔ access ≡ Access.HazardStore (Named.Hazard r) }
{
    match access {
        Access::HazardStore(Named::Hazard(r)) => Some(r),
        _ => None,
    }
}
