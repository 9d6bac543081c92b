// Lists a replay in words: standard input to standard output. What a line does and answers is the library's; this says
// it in words. docs/LISTING.md describes the columns.
//
// A line that begins `#!` begins a new replay: `#! [from N] [to N] [thread N] [data] [title]`. Any other line that begins
// `#` is a comment, and is written as it is. Every other line is a line of a replay.
//
// With `data` a line is 13 numbers: line number; thread; 1 a start, 0 a step, 2 a bad line; operation; place; record;
// source; node; the record whose hazard was stored to; answer number; answer value; `count`; record count.
#![tactic(auto)]

mod lister;
mod options;

use crate::lister::Lister;
use frames::Line;
use listings::Ran;
use machine::step::{GUARD_WORDS, IDS, NODE_CELLS, SUMS};
use replays::Reply;
use rows::load_row;
use rules::answer::{Outcome, Refusal};
use std::io::Stdin;
use streams::{End, Input};
use tables::Lent;
use texts::Text;
use words::told::thread;

// The steps that a thread's operation has taken, this line's among them; 0 where the line was none.
fn counted(steps: &mut [u64; 16], line: Line, answer: Result<Outcome, Refusal>) -> u64 {
    match (line, answer) {
        (Line::Start { thread, .. }, Ok(Outcome::Started)) => {
            if let Some(n) = steps.get_mut(thread as usize) {
                *n = 0;
            }
            0
        }
        (Line::Step { thread, .. }, Ok(_) | Err(Refusal::NotRetirable | Refusal::NoRecords)) => {
            match steps.get_mut(thread as usize) {
                Some(n) => {
                    *n = n.wrapping_add(1);
                    *n
                }
                None => 0,
            }
        }
        _ => 0,
    }
}

// A line of a replay is run.
fn run_line<'a>(
    tables: &mut Lent,
    steps: &mut [u64; 16],
    number: u64,
    bytes: &'a [u8],
    is_whole: bool,
) -> Ran<'a> {
    let line = replays::line_in(bytes, is_whole);
    let row = load_row(tables.readable(), thread(line).unwrap_or(0));
    let answer = match replays::reply_to(tables, number, line) {
        Reply::Thread { answer, .. } => answer,
        Reply::Bad { .. } => Err(Refusal::NoOperation),
    };
    Ran {
        number,
        bytes,
        is_whole,
        line,
        row,
        access: places::access(row),
        answer,
        steps: counted(steps, line, answer),
    }
}

// A replay, up to the line that begins the next; whether there is one.
fn run(input: &mut Input<Stdin, 16384>, lister: &mut Lister) -> bool {
    let mut ids = [0u32; IDS];
    let mut next = [0u32; NODE_CELLS];
    let mut state = [0u32; NODE_CELLS];
    let mut words = [0u64; SUMS];
    let mut guards = [0u64; GUARD_WORDS];
    let mut tables = Lent {
        ids: &mut ids,
        next: &mut next,
        state: &mut state,
        words: &mut words,
        guards: &mut guards,
    };
    let mut steps = [0u64; 16];
    let mut line = Text::<512>::new();
    // No input has so many lines.
    for _ in 0..u64::MAX {
        let Some(end) = input.read_line(&mut line) else {
            return false;
        };
        if !lister.is_open() {
            return false;
        }
        match line.as_bytes() {
            [b'#', b'!', asked @ ..] => {
                lister.begin(asked);
                return true;
            }
            [b'#', ..] => lister.comment(line.as_bytes()),
            bytes => {
                let is_whole = end == End::Newline;
                let ran = run_line(&mut tables, &mut steps, lister.number(), bytes, is_whole);
                lister.report(&ran, tables.readable());
            }
        }
    }
    false
}

fn main(rt: HostRuntime) {
    let mut input = Input::new(rt.stdin());
    let mut lister = Lister::new(rt.stdout());
    // No input has so many replays.
    for _ in 0..u64::MAX {
        if !run(&mut input, &mut lister) {
            break;
        }
    }
    lister.end();
}
