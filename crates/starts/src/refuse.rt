// What a start refuses.
ghost use Rattle.std.specs.Prelude.{◌≡◌, ◌*◌, drop};
ghost use Rattle.rules.specs.Answers.{refusal_of};
ghost use Rattle.rules.specs.Start.{or_else, not_owned, not_source, not_node, not_retirable, busy, refusal, refuse_of};
ghost use Rattle.rules.specs.Step.{part};
ghost use Rattle.rules.specs.Sizes.{records, sources, from_sources, from_records, from_rows};
ghost use Rattle.tables.specs.Lent.{shown};

use rules::answer::Refusal;
use rules::pc::Pc;
use rules::{Holder, Mark, NODES, Named, NodeState, Operation, SOURCES};
use tables::{Part, Readable, Table, address, at_in, item, item_in};

// A node is narrowed after it was compared.
pub use tables::cut;

// The record is to be the thread's. Its cell is read by its place: the rules look an id that is none up there too.
#[tactic(auto, unfolding(rules::specs::Start::not_owned, rules::specs::Step::part))]
fn not_owned(ids: &[u32], t: u32, rec: u32) -> Result<(), Refusal>
    ensures { refusal_of result ≡ not_owned (part from_records (4 * records) ids.now) t rec }
{
    let at = at_in(address(Named::Holder(rec)), Table::Records as u32);
    let holder = item_in(ids, Part::RECORDS, at as usize);
    if holder as u64 == Holder::Thread(t).number() {
        Ok(())
    } else {
        Err(Refusal::Record)
    }
}

// There is to be such a source.
fn not_source(source: u32) -> Result<(), Refusal>
    ensures { refusal_of result ≡ not_source source }
{
    if source == 0 || source > SOURCES {
        Err(Refusal::Source)
    } else {
        Ok(())
    }
}

// There is to be such a node, or null.
fn not_node(node: u64) -> Result<(), Refusal>
    ensures { refusal_of result ≡ not_node node }
{
    if node > NODES as u64 {
        Err(Refusal::Node)
    } else {
        Ok(())
    }
}

// The node is to be one, null is not; it is to be live and in no source, and no source may be damaged.
#[tactic(auto, unfolding(rules::specs::Start::not_retirable))]
fn not_retirable(ids: &[u32], state: &[u32], node: u64) -> Result<(), Refusal>
    ensures { refusal_of result ≡ not_retirable (part from_sources sources ids.now) state.now node }
{
    if node == 0 || node > NODES as u64 {
        return Err(Refusal::Node);
    }
    let n = cut(node);
    let at = at_in(address(Named::NodeState(n)), Table::State as u32);
    if item(state, at as usize) != NodeState::Live as u32 || rows::linked(ids, n) {
        Err(Refusal::NotRetirable)
    } else if rows::unsound(ids) {
        Err(Refusal::OutOfRange)
    } else {
        Ok(())
    }
}

// No thread may be inside an operation, and no record be owned.
#[tactic(auto, unfolding(rules::specs::Start::busy))]
fn busy(ids: &[u32]) -> Result<(), Refusal>
    ensures { refusal_of result ≡ busy (drop from_rows ids.now) (part from_records (4 * records) ids.now) }
{
    if rows::inside(ids) || rows::owned(ids) {
        Err(Refusal::InUse)
    } else {
        Ok(())
    }
}

// The refusal of the operation itself.
#[tactic(auto, unfolding(rules::specs::Start::refusal))]
fn refusal(ids: &[u32], state: &[u32], t: u32, o: Operation) -> Result<(), Refusal>
    ensures { refusal_of result ≡ refusal (part from_records (4 * records) ids.now) (part from_sources sources ids.now) state.now (drop from_rows ids.now) t o }
{
    match o {
        Operation::Acquire | Operation::Eager | Operation::Cleanup => Ok(()),
        Operation::Release { rec } | Operation::Reset { rec } => not_owned(ids, t, rec),
        Operation::Protect { rec, source } => {
            not_owned(ids, t, rec)?;
            not_source(source)
        }
        Operation::Try { rec, source, node } | Operation::TryProtect { rec, source, node } => {
            not_owned(ids, t, rec)?;
            not_source(source)?;
            not_node(node)
        }
        Operation::Raw { rec, node } => {
            not_owned(ids, t, rec)?;
            not_node(node)
        }
        Operation::Swap { source, node } => {
            not_source(source)?;
            not_node(node)
        }
        Operation::Retire { node, address: _ } => not_retirable(ids, state, node),
        Operation::Shutdown => busy(ids),
    }
}

// The refusal of a start. A damaged shutdown mark comes last.
#[tactic(auto, unfolding(rules::specs::Start::refuse_of, rules::specs::Step::fetched, rules::specs::Cells::address, rules::specs::Step::lent, rules::specs::Step::part))]
pub fn refuse(tables: Readable, t: u32, o: Operation) -> Result<(), Refusal>
    ensures { refusal_of result ≡ refuse_of (shown tables.entry) t o }
{
    let mark = tables.fetch(address(Named::Shutdown));
    if mark == Mark::Closing as u64 || mark == Mark::Closed as u64 {
        return Err(Refusal::ShutDown);
    }
    if rows::place(tables, t) != Pc::Idle as u32 {
        return Err(Refusal::Inside);
    }
    refusal(tables.ids, tables.state, t, o)?;
    if mark > Mark::Closed as u64 {
        Err(Refusal::OutOfRange)
    } else {
        Ok(())
    }
}
