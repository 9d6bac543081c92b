// What an operation names, as numbers.
ghost use Rattle.std.specs.Prelude.{◌≡◌, ◌↔◌, ℕ, Bool, IsNone};
ghost use Rattle.frames.specs.declared.Line.{Line};
ghost use Rattle.rules.specs.declared.Operation.{Operation};

use frames::Line;
use rules::kind::Kind;
use rules::{Operation, Row};

// The operation's kind in a frame, as a row holds it, and the record, source and node that it names; 0 for none.
#[derive(Clone, Copy)]
pub struct Told {
    pub kind: u32,
    pub rec: u32,
    pub source: u32,
    pub node: u64,
}

impl Told {
    pub const NOTHING: Told = Told {
        kind: 0,
        rec: 0,
        source: 0,
        node: 0,
    };
}

impl From<Operation> for Told {
    fn from(o: Operation) -> Told {
        match o {
            Operation::Acquire => Told {
                kind: Kind::Acquire as u32,
                ..Told::NOTHING
            },
            Operation::Release { rec } => Told {
                kind: Kind::Release as u32,
                rec,
                ..Told::NOTHING
            },
            Operation::Protect { rec, source } => Told {
                kind: Kind::Protect as u32,
                rec,
                source,
                ..Told::NOTHING
            },
            Operation::Try { rec, source, node } => Told {
                kind: Kind::Try as u32,
                rec,
                source,
                node,
            },
            Operation::TryProtect { rec, source, node } => Told {
                kind: Kind::TryProtect as u32,
                rec,
                source,
                node,
            },
            Operation::Reset { rec } => Told {
                kind: Kind::Reset as u32,
                rec,
                ..Told::NOTHING
            },
            Operation::Raw { rec, node } => Told {
                kind: Kind::Raw as u32,
                rec,
                node,
                ..Told::NOTHING
            },
            Operation::Swap { source, node } => Told {
                kind: Kind::Swap as u32,
                source,
                node,
                ..Told::NOTHING
            },
            Operation::Retire { node, .. } => Told {
                kind: Kind::Retire as u32,
                node,
                ..Told::NOTHING
            },
            Operation::Eager => Told {
                kind: Kind::Eager as u32,
                ..Told::NOTHING
            },
            Operation::Cleanup => Told {
                kind: Kind::Cleanup as u32,
                ..Told::NOTHING
            },
            Operation::Shutdown => Told {
                kind: Kind::Shutdown as u32,
                ..Told::NOTHING
            },
        }
    }
}

impl From<Row> for Told {
    fn from(row: Row) -> Told {
        Told {
            kind: row.operation,
            rec: row.rec,
            source: row.source,
            node: u64::from(row.node),
        }
    }
}

impl Told {
    // What a line tells; a step's operation stands in its thread's row.
    pub fn by_line(line: Line, row: Row) -> Told {
        match line {
            Line::Step { .. } => Told::from(row),
            Line::Start { operation, .. } => Told::from(operation),
            Line::Bad => Told::NOTHING,
        }
    }
}

// The thread that a line is of.
pub fn thread(line: Line) -> Option<u32>
    ensures bad { IsNone result ↔ (line ≡ Line.Bad) }
    ensures step { (t : ℕ) (flag : Bool) (clock : ℕ) → line ≡ Line.Step t flag clock → result ≡ Some t }
    ensures start { (t : ℕ) (o : Operation) → line ≡ Line.Start t o → result ≡ Some t }
{
    match line {
        Line::Step { thread, .. } | Line::Start { thread, .. } => Some(thread),
        Line::Bad => None,
    }
}
