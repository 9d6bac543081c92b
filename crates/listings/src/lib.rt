// One line of the listing, and one line of numbers.
#![tactic(auto)]

use frames::Line;
use rows::load_row;
use rules::answer::{Answer, Outcome, Refusal};
use rules::kind::Kind;
use rules::pc::Pc;
use rules::{Access, Named, Row};
use sights::saw::Saw;
use sights::why::Why;
use std::fmt;
use std::fmt::Write;
use tables::{Readable, address};
use texts::Text;
use words::names;
use words::names::{Accessed, Asked};
use words::told::{Told, thread};

// The columns, from 0.
const LINE: usize = 1;

const LINE_END: usize = 6;

const THREAD: usize = 7;

const THREAD_END: usize = 10;

const NAME: usize = 11;

const PURPOSE: usize = 19;

const ACCESS: usize = 38;

const ANSWER: usize = 62;

const ANSWER_END: usize = 64;

const WORDS: usize = 65;

// How long a line of the listing may be.
const LISTED: usize = 100;

// A line that was run: its number, its bytes and whether it has its newline; what it tells; its thread's row before it,
// and what the row's step accesses; what the line was answered, and the steps that the thread's operation has taken.
// Whether it is whole is a flag beside the bytes, since `replays::line_in` promises of such a flag.
#[derive(Clone, Copy)]
pub struct Ran<'a> {
    pub number: u64,
    pub bytes: &'a [u8],
    pub is_whole: bool,
    pub line: Line,
    pub row: Row,
    pub access: Access,
    pub answer: Result<Outcome, Refusal>,
    pub steps: u64,
}

// A node, which may be none.
#[derive(Clone, Copy)]
struct Node(u64);

impl fmt::Display for Node {
    fn fmt<W: fmt::Write>(&self, f: &mut fmt::Formatter<W>) -> fmt::Result {
        match self.0 {
            0 => f.write_str("no node"),
            n => write!(f, "node {n}"),
        }
    }
}

// How many steps an operation took.
#[derive(Clone, Copy)]
struct Steps(u64);

impl fmt::Display for Steps {
    fn fmt<W: fmt::Write>(&self, f: &mut fmt::Formatter<W>) -> fmt::Result {
        match self.0 {
            1 => f.write_str(" (1 step)"),
            n => write!(f, " ({n} steps)"),
        }
    }
}

// What an operation gives.
#[derive(Clone, Copy)]
struct Given {
    kind: u32,
    value: u64,
}

impl fmt::Display for Given {
    fn fmt<W: fmt::Write>(&self, f: &mut fmt::Formatter<W>) -> fmt::Result {
        let value = self.value;
        match Kind::try_from(self.kind) {
            Ok(Kind::Acquire) => write!(f, ": record {value}"),
            Ok(Kind::Protect | Kind::Try | Kind::TryProtect) => write!(f, ": {}", Node(value)),
            Ok(Kind::Swap) => write!(f, ": {} came out", Node(value)),
            Ok(Kind::Retire | Kind::Eager | Kind::Shutdown) if value == 0 => {
                f.write_str(": none reclaimed")
            }
            Ok(Kind::Retire | Kind::Eager | Kind::Shutdown) => write!(f, ": {value} reclaimed"),
            _ => Ok(()),
        }
    }
}

// What a person can see of a byte.
fn visible(b: u8) -> u8 {
    match b {
        b' '..=b'~' => b,
        _ => b'?',
    }
}

// A number that ends before the column `end`, or begins at `column` where it is too long for that.
fn right<const N: usize>(text: &mut Text<N>, column: usize, end: usize, x: u64) {
    let mut digits = Text::<20>::new();
    digits.number(x);
    text.go_to(column.max(end.saturating_sub(digits.len())));
    text.say(digits.as_bytes());
}

impl Ran<'_> {
    // The answer's number and value. The value of a bad line is its own number.
    fn numbered(&self) -> Answer {
        match self.line {
            Line::Bad => Answer {
                number: Refusal::NoOperation.number(),
                value: self.number,
            },
            _ => Answer::from(self.answer),
        }
    }

    // What stands to the left of the answer. What is too long for that ends with dots.
    fn question(&self) -> Text<ANSWER> {
        let mut text = Text::new();
        if self.answer.is_err() {
            text.put(b'*');
        }
        right(&mut text, LINE, LINE_END, self.number);
        if let Some(t) = thread(self.line) {
            right(&mut text, THREAD, THREAD_END, u64::from(t));
        }
        text.go_to(NAME);
        match self.line {
            Line::Start { operation, .. } => {
                text.say(b"start");
                text.go_to(PURPOSE);
                let _ = write!(text, "{}", Asked(operation));
            }
            Line::Step { .. } => {
                let place = Pc::from(self.row.place);
                text.say(names::place(place).as_bytes());
                text.go_to(PURPOSE);
                text.say(names::purpose(place).as_bytes());
                text.go_to(ACCESS);
                if place != Pc::Idle {
                    let access = self.access;
                    let _ = write!(text, "{}", Accessed { place, access });
                }
            }
            Line::Bad => {
                for b in self.bytes {
                    text.put(visible(*b));
                }
            }
        }
        if text.len() == ANSWER {
            text.go_to(ANSWER - 3);
            text.say(b".. ");
        }
        text.go_to(ANSWER);
        text
    }

    // Why the line was refused.
    fn why(&self, tables: Readable, refusal: Refusal) -> Why {
        match self.line {
            Line::Bad => Why::of_bytes(self.bytes, self.is_whole),
            Line::Start { thread, operation } => {
                Why::of_start(tables, thread, operation, self.row, refusal)
            }
            Line::Step { thread, .. } => Why::of_step(thread, self.row, refusal),
        }
    }

    // What the line was answered. Of a step, where it goes on and what it saw; of a refusal that ends an operation, how
    // many steps that took.
    fn say_answer(&self, tables: Readable, text: &mut Text<LISTED>) -> fmt::Result {
        let steps = Steps(self.steps);
        match self.answer {
            Ok(Outcome::Stepped) => {
                let after = load_row(tables, thread(self.line).unwrap_or(0));
                write!(text, "goes on to {}", names::place(Pc::from(after.place)))?;
                match self.line {
                    Line::Step { flag: true, .. } => text.write_str(" (failure asked)"),
                    _ => write!(text, "{}", Saw::of(tables, self.access, self.row, after)),
                }
            }
            Ok(Outcome::Started) => text.write_str("started"),
            Ok(Outcome::Done(value)) => {
                let kind = Told::by_line(self.line, self.row).kind;
                write!(text, "done{}{steps}", Given { kind, value })
            }
            Ok(Outcome::Retry(value)) => write!(text, "retry: {} seen{steps}", Node(value)),
            Ok(Outcome::Reclaimed(value)) => write!(text, "node {value} reclaimed"),
            Err(refusal) if self.steps == 0 => {
                write!(text, "REFUSED {}", self.why(tables, refusal))
            }
            Err(refusal) => write!(text, "REFUSED {}{steps}", self.why(tables, refusal)),
        }
    }

    // One line of the listing. A refusal changes nothing, and what a step loads it leaves, so that the tables behind the
    // line show what it saw.
    pub fn listed(&self, tables: Readable) -> Text<LISTED> {
        let mut text = Text::new();
        text.say(self.question().as_bytes());
        right(
            &mut text,
            ANSWER,
            ANSWER_END,
            u64::from(self.numbered().number),
        );
        text.go_to(WORDS);
        // A text takes all that is written to it.
        let _ = self.say_answer(tables, &mut text);
        text
    }

    // One line of numbers.
    pub fn number_line<const N: usize>(&self, tables: Readable, text: &mut Text<N>) {
        let told = Told::by_line(self.line, self.row);
        let answer = self.numbered();
        let form = match self.line {
            Line::Step { .. } => 0,
            Line::Start { .. } => 1,
            Line::Bad => 2,
        };
        let (place, hazard) = match self.line {
            Line::Step { .. } if self.answer.is_ok() => {
                (self.row.place, names::hazard(self.access).unwrap_or(0))
            }
            Line::Step { .. } => (self.row.place, 0),
            _ => (0, 0),
        };
        let others = [
            u64::from(thread(self.line).unwrap_or(0)),
            form,
            u64::from(told.kind),
            u64::from(place),
            u64::from(told.rec),
            u64::from(told.source),
            told.node,
            u64::from(hazard),
            u64::from(answer.number),
            answer.value,
            tables.fetch(address(Named::Count)),
            tables.fetch(address(Named::RecordCount)),
        ];
        text.number(self.number);
        for x in others {
            text.put(b' ');
            text.number(x);
        }
    }
}
