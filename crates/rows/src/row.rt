// A thread's row in the tables of ids and words.
ghost use Rattle.std.specs.Prelude.{◌≡◌, ◌+◌, ◌*◌, ◌<◌, ◌^◌, length, drop, slice_index};
ghost use Rattle.rules.specs.Sizes.{base, counter_cells, from_rows, row32};
ghost use Rattle.rules.specs.Rows.{row_at, row_fits};
ghost use Rattle.rows.specs.CopyLaws.{stores};
ghost use Rattle.rows.specs.RowLaws.{with_row};
ghost use Rattle.tables.specs.Lent.{held, shown, AreSame};

use rules::kind::Kind;
use rules::pc::Pc;
use rules::{COUNTER_CELLS, Done, FROM_ROWS, NODES, RECORDS, Row, SHARDS, SOURCES};
use tables::{Lent, Readable, Word, item_from, put};

// The words of a row in each of its tables.
pub const ROW32: usize = 21;

pub const ROW64: usize = 5;

// The place of a thread; 0, which is that of an idle one, past the table's end.
#[tactic(auto, unfolding(rules::specs::Step::lent))]
pub fn place(tables: Readable, t: u32) -> u32
    ensures { result ≡ slice_index (shown tables.entry).rows32 (t * row32) }
{
    item_from(tables.ids, FROM_ROWS, t as usize * ROW32)
}

// A thread's row; the words past a table's end are 0.
#[tactic(auto, unfolding(rules::specs::Rows::row_at, rules::specs::Step::lent))]
pub fn load_row(tables: Readable, t: u32) -> Row
    ensures { result ≡ row_at (shown tables.entry).rows32 (shown tables.entry).rows64 t }
{
    let b = t as usize * ROW32;
    let d = t as usize * ROW64;
    let id = |k: usize| item_from(tables.ids, FROM_ROWS, b + k);
    let word = |k: usize| item_from(tables.words, COUNTER_CELLS, d + k);
    Row {
        place: id(0),
        operation: id(1),
        rec: id(2),
        next: id(3),
        source: id(4),
        node: id(5),
        seen: id(6),
        shard: id(7),
        lone: id(8),
        reclaimable: id(9),
        unreclaimed: id(10),
        tail: id(11),
        done: id(12),
        stolen: [
            id(13),
            id(14),
            id(15),
            id(16),
            id(17),
            id(18),
            id(19),
            id(20),
        ],
        count: word(0),
        rcount: word(1),
        total: word(2),
        due: word(3),
        clock: word(4),
    }
}

// The words ws are stored from b on, as far as the table goes; `copy_from_slice` would want all of them inside it.
fn put_all<T: Word>(t: &mut [T], b: usize, ws: &[T])
    requires { b + length ws.now < 2 ^ 64 }
    ensures { t.new ≡ stores t.old b ws.now }
{
    for (i, w) in ws.iter().enumerate() {
        put(t, b + i, *w);
    }
}

// A thread's row becomes r.
pub fn store_row(tables: &mut Lent, t: u32, r: Row)
    ensures holds { held tables.new ≡ with_row t r (held tables.old) }
    ensures same { AreSame tables.old tables.new }
{
    let [s0, s1, s2, s3, s4, s5, s6, s7] = r.stolen;
    let ids = [
        r.place,
        r.operation,
        r.rec,
        r.next,
        r.source,
        r.node,
        r.seen,
        r.shard,
        r.lone,
        r.reclaimable,
        r.unreclaimed,
        r.tail,
        r.done,
        s0,
        s1,
        s2,
        s3,
        s4,
        s5,
        s6,
        s7,
    ];
    let words = [r.count, r.rcount, r.total, r.due, r.clock];
    put_all(tables.ids, FROM_ROWS + t as usize * ROW32, &ids);
    put_all(tables.words, COUNTER_CELLS + t as usize * ROW64, &words);
}

// The largest content of each of the 21 words.
const MOST: [u32; ROW32] = [
    Pc::S3 as u32,
    Kind::Shutdown as u32,
    RECORDS,
    RECORDS,
    SOURCES,
    NODES,
    NODES,
    SHARDS - 1,
    NODES,
    NODES,
    NODES,
    NODES,
    Done::Empty as u32,
    NODES,
    NODES,
    NODES,
    NODES,
    NODES,
    NODES,
    NODES,
    NODES,
];

// Whether each word of a thread's row is in its range.
pub fn row_fits(ids: &[u32], t: u32) -> bool
    ensures { result ≡ row_fits base (drop from_rows ids.now) t }
{
    let b = t as usize * ROW32;
    MOST.iter()
        .zip(b..b + ROW32)
        .all(|(most, at)| item_from(ids, FROM_ROWS, at) <= *most)
}
