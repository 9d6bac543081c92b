// Runs named cases of replays from standard input, and says of each on standard output whether its answers are the
// expected ones. What a line answers is the library's; this moves bytes and compares.
//
// A line `# NAME` begins a case, with all tables zero and line number 1. A line of one dot runs the line before once
// more. Of any other line the last 21 bytes are a blank and the expected answer, and what stands before them is the
// line of the replay, whatever its bytes. A last line without newline is run as one. After the first difference the
// rest of a case is passed over.
#![tactic(auto)]

use machine::step::{GUARD_WORDS, IDS, NODE_CELLS, SUMS};
use replays::{Reply, runner};
use std::io::{Stdin, Stdout, Write};
use streams::{End, Input};
use tables::Lent;
use texts::Text;

// How long a line may be, and how many bytes the blank and the expected answer at its end are.
const LINE: usize = 400;

const BEHIND: usize = 21;

// A case that is under way: its name, how many lines it had, which all agreed, and the last line that was run.
#[derive(Drop)]
struct Case {
    name: Text<LINE>,
    lines: u64,
    last: Text<LINE>,
}

// How a line differs from what is expected of it.
enum Difference<'a> {
    NoExpected,
    Answered {
        expected: &'a [u8],
        answer: [u8; runner::ANSWER],
    },
}

// Where the cases are reported, and the case that is under way: none before the first, or behind a line that differed.
#[derive(Drop)]
struct Cases {
    stdout: Stdout,
    case: Option<Case>,
}

// What a line is answered. A last line without newline is answered at the end of the input.
fn answered(tables: &mut Lent, number: u64, line: &[u8], is_whole: bool) -> [u8; runner::ANSWER] {
    let mut block = Text::<LINE>::new();
    block.say(line);
    if is_whole {
        block.put(b'\n');
    }
    let mut text = [0u8; runner::ANSWER];
    let b = runner::run_block(tables, runner::begun(number), block.as_bytes(), &mut text);
    if is_whole {
        text
    } else {
        runner::finish(b.kept).unwrap_or(Reply::Bad { line: number }.text())
    }
}

impl Case {
    fn new(name: &[u8]) -> Self {
        let mut text = Text::new();
        text.say(name);
        Case {
            name: text,
            lines: 0,
            last: Text::new(),
        }
    }

    // One more line, which a line of one dot leaves as it was.
    fn add(&mut self, line: &[u8]) {
        self.lines = self.lines.wrapping_add(1);
        if !matches!(line, b".") {
            self.last.clear();
            self.last.say(line);
        }
    }

    // Whether the last line gets its expected answer.
    fn run(&self, tables: &mut Lent, is_whole: bool) -> Result<(), Difference> {
        let Some((line, behind)) = self.last.as_bytes().split_last_chunk::<BEHIND>() else {
            return Err(Difference::NoExpected);
        };
        let expected = &behind[1..];
        let answer = answered(tables, self.lines, line, is_whole);
        if answer.starts_with(expected) {
            Ok(())
        } else {
            Err(Difference::Answered { expected, answer })
        }
    }
}

impl Cases {
    // The end of a case: how many of its lines agreed, if all did.
    fn close(&mut self) {
        if let Some(case) = &self.case {
            let lines = case.lines;
            let _ = self.stdout.write_all(case.name.as_bytes());
            let _ = writeln!(self.stdout, ": {lines} lines agree");
        }
    }

    fn begin(&mut self, name: &[u8]) {
        self.close();
        self.case = Some(Case::new(name));
    }

    // One more line, where a case is under way; its first difference is said, and ends it.
    fn run_line(&mut self, tables: &mut Lent, line: &[u8], is_whole: bool) {
        let Some(case) = &mut self.case else {
            return;
        };
        case.add(line);
        let Err(difference) = case.run(tables, is_whole) else {
            return;
        };
        let number = case.lines;
        let _ = self.stdout.write_all(case.name.as_bytes());
        let _ = write!(self.stdout, ": line {number}");
        match difference {
            Difference::NoExpected => {
                let _ = self.stdout.write_all(b": no expected answer\n");
            }
            Difference::Answered { expected, answer } => {
                let _ = self.stdout.write_all(b": expected ");
                let _ = self.stdout.write_all(expected);
                let _ = self.stdout.write_all(b", answered ");
                let _ = self.stdout.write_all(&answer);
            }
        }
        self.case = None;
    }
}

// One case, up to the name of the next; whether there is one.
fn run(input: &mut Input<Stdin, 16384>, cases: &mut Cases) -> bool {
    let mut ids = [0u32; IDS];
    let mut next = [0u32; NODE_CELLS];
    let mut state = [0u32; NODE_CELLS];
    let mut words = [0u64; SUMS];
    let mut guards = [0u64; GUARD_WORDS];
    let mut tables = Lent {
        ids: &mut ids,
        next: &mut next,
        state: &mut state,
        words: &mut words,
        guards: &mut guards,
    };
    let mut line = Text::<LINE>::new();
    // No input has so many lines.
    for _ in 0..u64::MAX {
        let Some(end) = input.read_line(&mut line) else {
            break;
        };
        match line.as_bytes() {
            [b'#', b' ', name @ ..] => {
                cases.begin(name);
                return true;
            }
            bytes => cases.run_line(&mut tables, bytes, end == End::Newline),
        }
    }
    cases.close();
    false
}

fn main(rt: HostRuntime) {
    let mut input = Input::new(rt.stdin());
    let mut cases = Cases {
        stdout: rt.stdout(),
        case: None,
    };
    // No input has so many cases.
    for _ in 0..u64::MAX {
        if !run(&mut input, &mut cases) {
            break;
        }
    }
}
