// A replay, run on the lent tables: one line, and in `runner` blocks of them.
#![tactic(auto)]

ghost use Rattle.std.specs.Prelude.{◌≡◌};
ghost use Rattle.rules.specs.Sizes.{base};
ghost use Rattle.tables.specs.Lent.{held, AreSame};
ghost use Rattle.frames.specs.Frames.{answer_of};
ghost use Rattle.replays.specs.Replay.{replied, reply_to, line_in};
ghost use Rattle.replays.specs.Told.{told};

use frames::Line;
use machine::start::start;
use machine::step::step;
use rules::answer::{Answer, Outcome, Refusal};
use tables::Lent;

pub mod kept;
pub mod runner;

// What a line comes to: what its thread's start or step is answered, or that it is none.
#[derive(Clone, Copy)]
pub enum Reply {
    Thread {
        thread: u32,
        answer: Result<Outcome, Refusal>,
    },
    Bad {
        line: u64,
    },
}

impl Reply {
    // Its digits and newline.
    pub fn text(self) -> [u8; 21]
        ensures { result ≡ answer_of (told self).number (told self).thread (told self).value }
    {
        match self {
            Reply::Thread { thread, answer } => {
                let a = Answer::from(answer);
                frames::answer_line(a.number, thread, a.value)
            }
            Reply::Bad { line } => frames::answer_line(Refusal::NoOperation.number(), 0, line),
        }
    }
}

// A last line without its newline is bad.
pub fn line_in(bytes: &[u8], whole: bool) -> Line
    ensures { result ≡ line_in bytes.now whole }
{
    if whole {
        frames::read_line(bytes)
    } else {
        Line::Bad
    }
}

// What a line answers; the n-th, where it is bad.
pub fn reply_to(tables: &mut Lent, n: u64, l: Line) -> Reply
    ensures reply { replied (told result) (held tables.new) ≡ reply_to base (held tables.old) n l }
    ensures same { AreSame tables.old tables.new }
{
    match l {
        Line::Step {
            thread,
            flag,
            clock,
        } => Reply::Thread {
            thread,
            answer: step(tables, thread, flag, clock),
        },
        Line::Start { thread, operation } => Reply::Thread {
            thread,
            answer: start(tables, thread, operation),
        },
        Line::Bad => Reply::Bad { line: n },
    }
}
