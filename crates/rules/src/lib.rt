// The types of the rules and the sizes of the tables. The rules themselves are the antt files of specs/.
#![tactic(auto)]

pub mod answer;
pub mod kind;
pub mod pc;

use crate::pc::Pc;

pub const RECORDS: u32 = 1024;

pub const SOURCES: u32 = 64;

pub const NODES: u32 = 4096;

pub const THREADS: u32 = 16;

pub const SHARDS: u32 = 8;

// The heads with the mark, the counters, the sources, and the record rows of four words.
pub const HEAD_CELLS: usize = 11;

pub const COUNTER_CELLS: usize = 5;

pub const SOURCE_CELLS: usize = SOURCES as usize;

pub const RECORD_CELLS: usize = RECORDS as usize * 4;

// Where the parts of the table of ids begin behind its heads.
pub const FROM_SOURCES: usize = HEAD_CELLS;

pub const FROM_RECORDS: usize = FROM_SOURCES + SOURCE_CELLS;

pub const FROM_ROWS: usize = FROM_RECORDS + RECORD_CELLS;

// Steps after which every step is refused: 2^40.
pub const STEPS: u64 = 1099511627776;

// A node's states, which its cell holds as their numbers.
#[derive(Clone, Copy, PartialEq, Eq)]
pub enum NodeState {
    Free,
    Live,
    Waiting,
}

// Who holds a record, which its cell holds as a number: its row is unused, it is used and nobody's, or a thread's.
#[derive(Clone, Copy, PartialEq, Eq)]
pub enum Holder {
    Unused,
    Nobody,
    Thread(u32),
}

impl Holder {
    ghost use Rattle.std.specs.Prelude.{◌≡◌};
    ghost use Rattle.rules.specs.Holder.{held_by};

    pub fn number(self) -> u64
        ensures { result ≡ held_by self }
    {
        match self {
            Holder::Unused => 0,
            Holder::Nobody => 1,
            Holder::Thread(t) => u64::from(t) + 2,
        }
    }
}

// What the shutdown's cell holds.
#[derive(Clone, Copy, PartialEq, Eq)]
pub enum Mark {
    Open,
    Closing,
    Closed,
}

// What the test for done saw at the end of a pass, which a row keeps as its number: no pass has ended, a shard had nodes
// left, all were empty.
#[derive(Clone, Copy, PartialEq, Eq)]
pub enum Done {
    NotYet,
    Left,
    Empty,
}

// What a start asks for. A node is compared at 64 bits before it is narrowed.
#[derive(Clone, Copy)]
pub enum Operation {
    Acquire,
    Release { rec: u32 },
    Protect { rec: u32, source: u32 },
    Try { rec: u32, source: u32, node: u64 },
    TryProtect { rec: u32, source: u32, node: u64 },
    Reset { rec: u32 },
    Raw { rec: u32, node: u64 },
    Swap { source: u32, node: u64 },
    Retire { node: u64, address: u64 },
    Eager,
    Cleanup,
    Shutdown,
}

// A thread's row between two steps; all 0 while the thread is idle.
#[derive(Clone, Copy)]
pub struct Row {
    // The program place and the operation, as `Pc` and `Kind`.
    pub place: u32,
    pub operation: u32,
    // The record that is acquired, released, stored to or scanned; the record seen at a head or behind it.
    pub rec: u32,
    pub next: u32,
    pub source: u32,
    // The node to protect or to put into the source; the node seen in the source or at a shard's head.
    pub node: u32,
    pub seen: u32,
    pub shard: u32,
    // The node of a retire that has not won T2; the reclaim list; the kept list and its last node.
    pub lone: u32,
    pub reclaimable: u32,
    pub unreclaimed: u32,
    pub tail: u32,
    // What the test for done saw last, as `Done`.
    pub done: u32,
    pub stolen: [u32; 8],
    // `count` as K1 or K3 saw it; what was taken from it, less what has been reclaimed since; all that was reclaimed.
    pub count: u64,
    pub rcount: u64,
    pub total: u64,
    // `due_time` as E1 saw it, and E1's clock.
    pub due: u64,
    pub clock: u64,
}

impl Row {
    ghost use Rattle.std.specs.Prelude.{◌≡◌};
    ghost use Rattle.rules.specs.Rows.{go_to, shard_in, first};

    // The row of a thread that is inside no operation.
    pub const IDLE: Row = Row {
        place: 0,
        operation: 0,
        rec: 0,
        next: 0,
        source: 0,
        node: 0,
        seen: 0,
        shard: 0,
        lone: 0,
        reclaimable: 0,
        unreclaimed: 0,
        tail: 0,
        done: 0,
        stolen: [0; 8],
        count: 0,
        rcount: 0,
        total: 0,
        due: 0,
        clock: 0,
    };

    // The row's shard; a row whose shard is out of range is refused as damaged in any case.
    pub fn shard_in(self) -> u32
        ensures { result ≡ shard_in self }
    {
        self.shard % SHARDS
    }

    // The first stolen node of its shard.
    pub fn first(self) -> u32
        ensures { result ≡ first self }
    {
        self.stolen[self.shard_in() as usize]
    }

    // The row of a thread that goes on at a place.
    pub fn go_to(self, p: Pc) -> Row
        ensures { result ≡ go_to p self }
    {
        Row {
            place: p as u32,
            ..self
        }
    }
}

// A shared cell by name. 0 is no record, source or node.
#[derive(Clone, Copy)]
pub enum Named {
    Nothing,
    RecordHead,
    HeadAvailable,
    ShardHead(u32),
    Shutdown,
    RecordCount,
    Count,
    DueTime,
    BulkReclaims,
    Hazard(u32),
    AvailableNext(u32),
    RecordNext(u32),
    Holder(u32),
    Source(u32),
    NodeNext(u32),
    NodeState(u32),
}

// A step's access, with its kind: a load; a store, which does not read; a store to a hazard; an exchange, swap or add;
// a load and a store of a node that no other thread can reach.
#[derive(Clone, Copy)]
pub enum Access {
    Load(Named),
    Store(Named),
    HazardStore(Named),
    Update(Named),
    Private(Named),
}

// What a cell may hold; the cell of an id that is none holds nothing.
#[derive(Clone, Copy)]
pub enum Class {
    Anything,
    ARecord,
    ANode,
    AnAvailable,
    AState,
    AHolder,
    NoCell,
}

// Where a cell stands, and the class of what it may hold.
#[derive(Clone, Copy)]
pub struct Cell {
    pub table: u32,
    pub at: u32,
    pub class: Class,
}

// What a step saw: its cell (x, as an id v), the second cell (y, as an id w), the lowest row that is not taken,
// whether the node to examine is guarded; and the step's thread, flag and clock.
#[derive(Clone, Copy)]
pub struct Seen {
    pub x: u64,
    pub v: u32,
    pub y: u64,
    pub w: u32,
    pub untaken: u32,
    pub guarded: bool,
    pub thread: u32,
    pub flag: bool,
    pub clock: u64,
}

// What becomes of the thread's guarded set.
#[derive(Clone, Copy)]
pub enum Guards {
    Keep,
    Clear,
    Set(u32),
}

// What a step does: the row after it, its answer, whether its cell becomes `put`, that the cell `also` becomes `to`,
// what becomes of the guarded set, and whether the record table is cleared.
#[derive(Clone, Copy)]
pub struct Effect {
    pub row: Row,
    pub number: u32,
    pub value: u64,
    pub writes: bool,
    pub put: u64,
    pub also: Named,
    pub to: u64,
    pub guards: Guards,
    pub closes: bool,
}

// What a start writes: the thread's row, and one cell.
#[derive(Clone, Copy)]
pub struct Entry {
    pub row: Row,
    pub cell: Named,
    pub put: u64,
}
