// Blocks of a replay's lines.
ghost use Rattle.std.specs.Prelude.{◌≡◌, ◌≤◌, length};
ghost use Rattle.rules.specs.Sizes.{base};
ghost use Rattle.tables.specs.Lent.{held, AreSame};
ghost use Rattle.replays.specs.Runner.{left, block_of, standing, Begins, Ends, ending};

pub use crate::kept::Kept;
use crate::{Reply, reply_to};
use tables::Lent;
use texts::Text;

// The bytes of an answer.
pub const ANSWER: usize = 21;

// What a block leaves: how many bytes of the input were run, how many bytes of answers there are, and what is kept.
#[derive(Drop)]
pub struct Block {
    pub taken: usize,
    pub used: usize,
    pub kept: Kept,
}

// Before the first block: the first line has this number.
pub fn begun(number: u64) -> Kept
    ensures { Begins number result }
{
    Kept {
        line: Text::new(),
        number,
    }
}

// The lines of a block are run, and their answers are put at the front of `out`, until there is no room for one more: a
// loop from newline to newline, which an iterator over lines could not leave where the room ends.
pub fn run_block(tables: &mut Lent, kept: Kept, input: &[u8], out: &mut [u8]) -> Block
    ensures block { left out.new result.used result.taken (standing (held tables.new) result.kept) ≡ block_of base (standing (held tables.old) kept) input.now out.old }
    ensures room { result.used ≤ length out.new }
    ensures same { AreSame tables.old tables.new }
{
    let mut line = kept.line;
    let mut number = kept.number;
    let mut used = 0usize;
    let mut at = line.gather(input);
    while at < input.len() {
        if out.len() - used < ANSWER {
            break;
        }
        let reply = reply_to(tables, number, frames::read_line(line.as_bytes()));
        texts::word(out, used, &reply.text());
        used += ANSWER;
        number = number.wrapping_add(1);
        line.clear();
        at += 1 + line.gather(&input[at + 1..]);
    }
    Block {
        taken: at,
        used,
        kept: Kept { line, number },
    }
}

// What the end of an input answers: a last line without its newline, if one is begun.
pub fn finish(kept: Kept) -> Option<[u8; ANSWER]>
    ensures { Ends (ending result) kept }
{
    if kept.line.len() == 0 {
        return None;
    }
    let bad = Reply::Bad { line: kept.number };
    Some(bad.text())
}
