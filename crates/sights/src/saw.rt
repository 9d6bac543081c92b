// What a step that goes on saw: what it loaded, or what the thread's row after it holds of what a swap took and of what
// became of a node.
ghost use Rattle.std.specs.Prelude.{◌≡◌};
ghost use Rattle.rules.specs.Pc.{pc_of};

use rules::pc::Pc;
use rules::{Access, Named, Row};
use std::fmt;
use tables::{Readable, address};

#[derive(Clone, Copy)]
pub enum Saw {
    Nothing,
    Node(u64),
    Record(u64),
    Locked,
    Number(u64),
    Signed(i64),
    Examined { is_guarded: bool },
}

impl fmt::Display for Saw {
    fn fmt<W: fmt::Write>(&self, f: &mut fmt::Formatter<W>) -> fmt::Result {
        match *self {
            Saw::Nothing => Ok(()),
            Saw::Node(0) | Saw::Record(0) => f.write_str(", saw none"),
            Saw::Node(n) => write!(f, ", saw node {n}"),
            Saw::Record(r) => write!(f, ", saw record {r}"),
            Saw::Locked => f.write_str(", saw it locked"),
            Saw::Number(x) => write!(f, ", saw {x}"),
            Saw::Signed(x) => write!(f, ", saw {x}"),
            Saw::Examined { is_guarded: true } => f.write_str(", guarded"),
            Saw::Examined { is_guarded: false } => f.write_str(", not guarded"),
        }
    }
}

impl Saw {
    // A cell's content. A due time has too many digits.
    fn content(c: Named, x: u64) -> Saw {
        match c {
            // Twice a record, and the lock.
            Named::HeadAvailable if x % 2 == 1 => Saw::Locked,
            Named::HeadAvailable => Saw::Record(x / 2),
            Named::RecordHead | Named::AvailableNext(_) => Saw::Record(x),
            Named::ShardHead(_) | Named::Hazard(_) | Named::Source(_) => Saw::Node(x),
            Named::Count => Saw::Signed(x.cast_signed()),
            Named::DueTime => Saw::Nothing,
            _ => Saw::Number(x),
        }
    }

    // What a step saw, by its access, and its thread's row before and after it. The examined node is guarded where it
    // heads the kept list then.
    pub fn of(tables: Readable, access: Access, row: Row, after: Row) -> Saw
        ensures { pc_of row.place ≡ Pc.S1 → result ≡ Saw.Node after.reclaimable }
    {
        match (Pc::from(row.place), access) {
            (Pc::Steal, _) => match after.stolen.get(row.shard as usize) {
                Some(head) => Saw::Node(u64::from(*head)),
                None => Saw::Nothing,
            },
            (Pc::S1, _) => Saw::Node(u64::from(after.reclaimable)),
            (Pc::Examine, Access::Private(Named::NodeNext(n))) => Saw::Examined {
                is_guarded: n == after.unreclaimed,
            },
            (_, Access::Load(c)) => Saw::content(c, tables.fetch(address(c))),
            _ => Saw::Nothing,
        }
    }
}
