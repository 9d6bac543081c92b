// Runs a replay and writes behind each answer the shared cells that its line changed. What a line does is the
// library's; this compares the tables with what they held before, and moves bytes.
#![tactic(auto)]

ghost use Rattle.std.specs.Prelude.{◌≡◌, ◌+◌, ◌-◌, ◌≤◌, ◌<◌, length, drop};

use machine::step::{GUARD_WORDS, IDS, NODE_CELLS, SUMS};
use replays::runner;
use rules::{FROM_RECORDS, FROM_ROWS, FROM_SOURCES};
use std::io::Stdout;
use streams::{Input, Output};
use tables::Lent;

// The output's buffer, and the room for the longest line.
const BUFFER: usize = 65536;

const ROOM: usize = 128;

// How many cells are compared at a time.
const BLOCK: usize = 64;

// What a compared cell is of. A name and not a slice, since the seen cells and the output are of one struct, which a
// line borrows whole.
#[derive(Clone, Copy)]
enum Cells {
    Ids,
    Next,
    State,
}

// What was seen of the tables, and the output.
#[derive(Drop)]
struct Trace {
    ids: [u32; FROM_ROWS],
    next: [u32; NODE_CELLS],
    state: [u32; NODE_CELLS],
    counters: [u64; 4],
    out: Output<Stdout, BUFFER>,
}

// Where the block that begins at `at` ends: not behind `to`.
fn block_end(at: usize, to: usize) -> usize
    ensures behind { at ≤ to → at ≤ result }
    ensures within { result ≤ to }
{
    to.min(at.saturating_add(BLOCK))
}

// Whether two runs of cells differ. All are compared, which takes less than to stop at the first that does.
fn is_apart(cells: &[u32], seen: &[u32]) -> bool {
    let mut bits = 0;
    for (x, y) in cells.iter().zip(seen) {
        bits |= *x ^ *y;
    }
    bits != 0
}

// Whether the cells from `at` to `end` differ from what was seen. By where they stand, since a cell that differs has its
// name from that.
fn differs(cells: &[u32], seen: &[u32], at: usize, end: usize) -> bool {
    match (cells.get(at..end), seen.get(at..end)) {
        (Some(cells), Some(seen)) => is_apart(cells, seen),
        _ => true,
    }
}

// Each line takes at most ROOM bytes and is written only where there is so much room: a text cuts what finds none.
impl Trace {
    // Head i holds x. The shutdown mark is not written. Heads, words and counters go by number: where a cell stands in its
    // table is what a comparison gives.
    fn head_line(&mut self, i: usize, x: u64)
        requires { length self.old.out.text + 128 ≤ 65536 }
        ensures { length self.new.out.text ≤ length self.old.out.text + 128 }
    {
        match i {
            0 => self.out.text.line(b" record_head ", x),
            1 => self.out.text.line(b" head_available ", x),
            2 => (),
            _ => self.out.text.field_line(b" shard ", i as u64 - 3, b" ", x),
        }
    }

    // Word k of a record holds x. Its holder is not written.
    fn record_line(&mut self, record: u64, k: usize, x: u64)
        requires { length self.old.out.text + 128 ≤ 65536 }
        ensures { length self.new.out.text ≤ length self.old.out.text + 128 }
    {
        match k {
            0 => self
                .out
                .text
                .field_line(b" record ", record, b" hazard ", x),
            1 => self
                .out
                .text
                .field_line(b" record ", record, b" available_next ", x),
            2 => self.out.text.field_line(b" record ", record, b" next ", x),
            _ => (),
        }
    }

    // Word i of the table of ids holds x.
    fn id_line(&mut self, i: usize, x: u64)
        requires { length self.old.out.text + 128 ≤ 65536 }
        ensures { length self.new.out.text ≤ length self.old.out.text + 128 }
    {
        match i {
            0..FROM_SOURCES => self.head_line(i, x),
            FROM_SOURCES..FROM_RECORDS => {
                let source = (i - FROM_SOURCES) as u64 + 1;
                self.out.text.field_line(b" source ", source, b" ", x);
            }
            _ => {
                let k = i - FROM_RECORDS;
                self.record_line((k / 4) as u64 + 1, k % 4, x);
            }
        }
    }

    // Counter i holds x. The steps taken are not written.
    fn counter_line(&mut self, i: usize, x: u64)
        requires { length self.old.out.text + 128 ≤ 65536 }
        ensures { length self.new.out.text ≤ length self.old.out.text + 128 }
    {
        match i {
            0 => self.out.text.line(b" record_count ", x),
            1 => self.out.text.signed_line(b" count ", x),
            2 => self.out.text.line(b" due_time ", x),
            3 => self.out.text.line(b" nbulk_reclaims ", x),
            _ => (),
        }
    }

    fn cell_line(&mut self, cells: Cells, i: usize, x: u64)
        requires { length self.old.out.text + 128 ≤ 65536 }
        ensures { length self.new.out.text ≤ length self.old.out.text + 128 }
    {
        let node = (i as u64).wrapping_add(1);
        match cells {
            Cells::Ids => self.id_line(i, x),
            Cells::Next => self.out.text.field_line(b" node ", node, b" next ", x),
            Cells::State => self.out.text.field_line(b" node ", node, b" state ", x),
        }
    }

    // What was seen of these cells.
    fn seen(&mut self, cells: Cells) -> &mut [u32] {
        match cells {
            Cells::Ids => &mut self.ids,
            Cells::Next => &mut self.next,
            Cells::State => &mut self.state,
        }
    }

    // Cell i may have changed.
    fn change(&mut self, cells: Cells, now: &[u32], i: usize)
        requires { i < length now.now }
    {
        let x = now[i];
        if let Some(y) = self.seen(cells).get_mut(i)
            && *y != x
        {
            *y = x;
            self.out.room(ROOM);
            self.cell_line(cells, i, u64::from(x));
        }
    }

    // The ids from `from` to `to` that differ from what was seen.
    fn id_changes(&mut self, ids: &[u32], from: usize, to: usize) {
        let part = &ids[..to.min(ids.len())];
        for at in (from..part.len()).step_by(BLOCK) {
            let end = block_end(at, part.len());
            if differs(part, &self.ids, at, end) {
                for i in at..end {
                    self.change(Cells::Ids, part, i);
                }
            }
        }
    }

    fn node_changes(&mut self, next: &[u32], state: &[u32]) {
        let cells = next.len().min(state.len());
        for at in (0..cells).step_by(BLOCK) {
            let end = block_end(at, cells);
            if differs(next, &self.next, at, end) || differs(state, &self.state, at, end) {
                for i in at..end {
                    self.change(Cells::Next, next, i);
                    self.change(Cells::State, state, i);
                }
            }
        }
    }

    fn counter_changes(&mut self, words: &[u64]) {
        for i in 0..4 {
            let x = tables::item(words, i);
            if self.counters[i] != x {
                self.counters[i] = x;
                self.out.room(ROOM);
                self.counter_line(i, x);
            }
        }
    }

    // Every cell that differs from what was seen, in the order of their names.
    fn report(&mut self, tables: &Lent) {
        self.id_changes(tables.ids, 0, FROM_SOURCES);
        self.counter_changes(tables.words);
        self.id_changes(tables.ids, FROM_RECORDS, FROM_ROWS);
        self.id_changes(tables.ids, FROM_SOURCES, FROM_RECORDS);
        self.node_changes(tables.next, tables.state);
    }

    // An answer stands whole at the end of the output.
    fn answer(&mut self, text: &[u8])
        requires { length text.now ≤ 128 }
        ensures { drop (length self.new.out.text - length text.now) self.new.out.text ≡ text.now }
    {
        self.out.room(ROOM);
        self.out.text.say(text);
    }
}

fn main(rt: HostRuntime) {
    let mut ids = [0u32; IDS];
    let mut next = [0u32; NODE_CELLS];
    let mut state = [0u32; NODE_CELLS];
    let mut words = [0u64; SUMS];
    let mut guards = [0u64; GUARD_WORDS];
    let mut tables = Lent {
        ids: &mut ids,
        next: &mut next,
        state: &mut state,
        words: &mut words,
        guards: &mut guards,
    };
    let mut input = Input::<_, 16384>::new(rt.stdin());
    let mut trace = Trace {
        ids: [0; FROM_ROWS],
        next: [0; NODE_CELLS],
        state: [0; NODE_CELLS],
        counters: [0; 4],
        out: Output::new(rt.stdout()),
    };
    let mut text = [0u8; runner::ANSWER];
    let mut kept = runner::begun(1);
    // No input has so many lines.
    for _ in 0..u64::MAX {
        // Before the program waits for more input.
        if input.is_taken() {
            trace.out.flush();
        }
        if !trace.out.is_open() {
            break;
        }
        let part = input.fill();
        if part.is_empty() {
            break;
        }
        let b = runner::run_block(&mut tables, kept, part, &mut text);
        kept = b.kept;
        input.take(b.taken);
        trace.answer(&text[..b.used]);
        trace.report(&tables);
    }
    if let Some(last) = runner::finish(kept) {
        trace.answer(&last);
    }
    trace.out.flush();
}
