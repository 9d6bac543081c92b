// The five tables that a caller lends, as one value: a cell read and written, and what a step makes of the shared cells.
ghost use Rattle.std.specs.Prelude.{◌≡◌, ◌*◌, ◌%◌, ◌^◌, replicate, slice_index, slice_set};
ghost use Rattle.base.specs.Pick.{pick};
ghost use Rattle.rules.specs.Sizes.{records, from_records};
ghost use Rattle.rules.specs.Cells.{nothing};
ghost use Rattle.rules.specs.Rows.{stored_from};
ghost use Rattle.rules.specs.Step.{fetched, at_in, written, cells_given};
ghost use Rattle.rules.specs.Words.{plus};
ghost use Rattle.tables.specs.PartLaws.{on_cells};
ghost use Rattle.tables.specs.CellLaws.{ids_put};
ghost use Rattle.tables.specs.Tables.{number_of};
ghost use Rattle.tables.specs.Lent.{held, shown, AreSame};

use crate::cells::{Table, address, at_in};
use crate::items::{Part, STEPS_TAKEN, cut, item, item_in, put, put_in};
use rules::{Cell, Class, Effect, FROM_RECORDS, RECORD_CELLS};

#[derive(Drop)]
pub struct Lent<'a> {
    pub ids: &'a mut [u32],
    pub next: &'a mut [u32],
    pub state: &'a mut [u32],
    pub words: &'a mut [u64],
    pub guards: &'a mut [u64],
}

// The same as what only reads them takes: a caller shares them, and who has not all of them shares those that are read.
#[derive(Clone, Copy)]
pub struct Readable<'a> {
    pub ids: &'a [u32],
    pub next: &'a [u32],
    pub state: &'a [u32],
    pub words: &'a [u64],
    pub guards: &'a [u64],
}

// What a step that writes nothing has for its cell: with an `if` around the store the proof did not close, since the
// borrows of both branches join behind it.
const NOTHING: Cell = Cell {
    table: Table::Nowhere as u32,
    at: 0,
    class: Class::Anything,
};

// Where the cell stands in a table; past its end if it is of another.
fn place(c: Cell, table: Table) -> usize
    ensures { result ≡ at_in c (number_of table) }
{
    at_in(c, table as u32) as usize
}

// The cell becomes v in the table of ids.
#[tactic(auto, unfolding(crate::specs::CellLaws::ids_put, crate::specs::PartLaws::set_in))]
fn write_ids(ids: &mut [u32], c: Cell, v: u32)
    ensures { ids.new ≡ ids_put c v ids.old }
{
    put_in(ids, Part::HEADS, place(c, Table::Heads), v);
    put_in(ids, Part::RECORDS, place(c, Table::Records), v);
    put_in(ids, Part::SOURCES, place(c, Table::Sources), v);
}

// Every record cell becomes 0. By an index: a table that is too short has no such part that `fill` could take.
fn clear_records(ids: &mut [u32])
    ensures { ids.new ≡ stored_from ids.old from_records (replicate (4 * records) 0) }
{
    for i in 0..RECORD_CELLS {
        put(ids, FROM_RECORDS + i, 0);
    }
}

// The end of a shutdown clears the records, their list and the available list; the test stands here and not around the
// call, for the same reason as above.
fn close(ids: &mut [u32], closes: bool)
    ensures { ids.new ≡ pick closes (stored_from (slice_set (slice_set ids.old 0 0) 1 0) from_records (replicate (4 * records) 0)) ids.old }
{
    if closes {
        put(ids, 0, 0);
        put(ids, 1, 0);
        clear_records(ids);
    }
}

// One step more was taken.
fn tick(words: &mut [u64])
    ensures { words.new ≡ slice_set words.old 4 (plus (slice_index words.old 4) 1) }
{
    let at = STEPS_TAKEN as usize;
    put(words, at, item(words, at).wrapping_add(1));
}

impl Readable<'_> {
    // The cell's content.
    #[tactic(auto, unfolding(rules::specs::Step::fetched, rules::specs::Step::lent, rules::specs::Step::part))]
    pub fn fetch(self, c: Cell) -> u64
        ensures { result ≡ fetched (shown self.entry).cells c }
    {
        let at = c.at as usize;
        match Table::from(c.table) {
            Table::Nowhere => 0,
            Table::Heads => item_in(self.ids, Part::HEADS, at) as u64,
            Table::Counters => item_in(self.words, Part::COUNTERS, at),
            Table::Records => item_in(self.ids, Part::RECORDS, at) as u64,
            Table::Sources => item_in(self.ids, Part::SOURCES, at) as u64,
            Table::Next => item(self.next, at) as u64,
            Table::State => item(self.state, at) as u64,
        }
    }
}

impl Lent<'_> {
    // The tables for what only reads them.
    pub fn readable(&self) -> Readable<'_>
        ensures { shown result ≡ held self.now }
    {
        Readable {
            ids: self.ids,
            next: self.next,
            state: self.state,
            words: self.words,
            guards: self.guards,
        }
    }

    // The cell's content.
    pub fn fetch(&self, c: Cell) -> u64
        ensures { result ≡ fetched (held self.now).cells c }
    {
        self.readable().fetch(c)
    }

    // The cell becomes v. The rules' `written` is this: a store to each table, at the cell's place or past its end.
    pub fn write(&mut self, c: Cell, v: u64)
        ensures holds { held self.new ≡ on_cells (λ s. written s c v) (held self.old) }
        ensures same { AreSame self.old self.new }
    {
        let id = cut(v);
        write_ids(self.ids, c, id);
        put(self.next, place(c, Table::Next), id);
        put(self.state, place(c, Table::State), id);
        put_in(self.words, Part::COUNTERS, place(c, Table::Counters), v);
    }

    // What a step's effect makes of the shared cells, c being the cell that it accessed.
    pub fn cells_given(&mut self, c: Cell, e: Effect)
        ensures holds { held self.new ≡ on_cells (λ s. cells_given s c e) (held self.old) }
        ensures same { AreSame self.old self.new }
    {
        let d = if e.writes { c } else { NOTHING };
        self.write(d, e.put);
        self.write(address(e.also), e.to);
        close(self.ids, e.closes);
        tick(self.words);
    }
}
