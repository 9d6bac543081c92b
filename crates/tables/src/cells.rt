// Where each shared cell stands, and whether a content is in its range.
ghost use Rattle.std.specs.Prelude.{◌≡◌, ◌+◌, ◌*◌, ◌<◌};
ghost use Rattle.rules.specs.Cells.{address, accessed, in_range, cell_at, word_of, unread};
ghost use Rattle.rules.specs.Step.{at_in};
ghost use Rattle.tables.specs.Tables.{number_of, Decodes};

use rules::{Access, Cell, Class, NODES, Named, RECORDS, SHARDS, SOURCES, THREADS};

// The tables and their parts, by the numbers that a cell has for them.
#[derive(Clone, Copy, PartialEq, Eq)]
pub enum Table {
    Nowhere,
    Heads,
    Counters,
    Records,
    Sources,
    Next,
    State,
}

// A number that is no table's stands for none.
impl From<u32> for Table {
    ghost from_gives = { Decodes };

    fn from(n: u32) -> Table {
        match n {
            1 => Table::Heads,
            2 => Table::Counters,
            3 => Table::Records,
            4 => Table::Sources,
            5 => Table::Next,
            6 => Table::State,
            _ => Table::Nowhere,
        }
    }
}

// The cell of an id that is none.
const NOWHERE: Cell = Cell {
    table: Table::Nowhere as u32,
    at: 0,
    class: Class::NoCell,
};

fn cell_at(table: Table, at: u32, class: Class) -> Cell
    ensures { result ≡ cell_at (number_of table) at class }
{
    Cell {
        table: table as u32,
        at,
        class,
    }
}

// Word k of row id in a table of n rows of w words.
fn word_of(table: Table, n: u32, w: u32, id: u32, k: u32, class: Class) -> Cell
    requires { n * w + k < 4294967296 }
    ensures { result ≡ word_of (number_of table) n w id k class }
{
    if id == 0 || n < id {
        NOWHERE
    } else {
        cell_at(table, (id - 1) * w + k, class)
    }
}

// Where a cell stands.
#[tactic(auto, unfolding(rules::specs::Cells::address))]
pub fn address(n: Named) -> Cell
    ensures { result ≡ address n }
{
    match n {
        Named::Nothing => cell_at(Table::Nowhere, 0, Class::Anything),
        Named::RecordHead => cell_at(Table::Heads, 0, Class::ARecord),
        Named::HeadAvailable => cell_at(Table::Heads, 1, Class::AnAvailable),
        Named::Shutdown => cell_at(Table::Heads, 2, Class::AState),
        Named::ShardHead(k) if k < SHARDS => cell_at(Table::Heads, k + 3, Class::ANode),
        Named::ShardHead(_) => NOWHERE,
        Named::RecordCount => cell_at(Table::Counters, 0, Class::Anything),
        Named::Count => cell_at(Table::Counters, 1, Class::Anything),
        Named::DueTime => cell_at(Table::Counters, 2, Class::Anything),
        Named::BulkReclaims => cell_at(Table::Counters, 3, Class::Anything),
        Named::Hazard(r) => word_of(Table::Records, RECORDS, 4, r, 0, Class::ANode),
        Named::AvailableNext(r) => word_of(Table::Records, RECORDS, 4, r, 1, Class::ARecord),
        Named::RecordNext(r) => word_of(Table::Records, RECORDS, 4, r, 2, Class::ARecord),
        Named::Holder(r) => word_of(Table::Records, RECORDS, 4, r, 3, Class::AHolder),
        Named::Source(b) => word_of(Table::Sources, SOURCES, 1, b, 0, Class::ANode),
        Named::NodeNext(n) => word_of(Table::Next, NODES, 1, n, 0, Class::ANode),
        Named::NodeState(n) => word_of(Table::State, NODES, 1, n, 0, Class::AState),
    }
}

// A store does not read its cell, so that any content will do.
fn unread(c: Cell) -> Cell
    ensures { result ≡ unread c }
{
    if in_range(c.class, 0) {
        Cell {
            class: Class::Anything,
            ..c
        }
    } else {
        c
    }
}

// The cell of an access.
#[tactic(auto, unfolding(rules::specs::Cells::accessed))]
pub fn accessed(a: Access) -> Cell
    ensures { result ≡ accessed a }
{
    match a {
        Access::Load(c) | Access::Update(c) | Access::Private(c) => address(c),
        Access::Store(c) | Access::HazardStore(c) => unread(address(c)),
    }
}

// Whether a cell of the class may hold x; `head_available` is 0 or from 2 on.
#[tactic(auto, unfolding(rules::specs::Cells::in_range))]
pub fn in_range(class: Class, x: u64) -> bool
    ensures { result ≡ in_range class x }
{
    match class {
        Class::Anything => true,
        Class::ARecord => x <= RECORDS as u64,
        Class::ANode => x <= NODES as u64,
        Class::AnAvailable => x != 1 && x <= 2 * RECORDS as u64 + 1,
        Class::AState => x <= 2,
        Class::AHolder => x <= THREADS as u64 + 1,
        Class::NoCell => false,
    }
}

// Where the cell stands in table k; past every table's end if it is of another. k is any number, as a cell's table is.
pub fn at_in(c: Cell, k: u32) -> u32
    ensures { result ≡ at_in c k }
{
    if c.table == k { c.at } else { u32::MAX }
}
