// What is written of the replays: which lines, with their headings, through the output's buffer.
use crate::options::Options;
use listings::Ran;
use std::io::Stdout;
use streams::Output;
use tables::Readable;
use texts::Text;
use words::told::thread;

// Room for the longest line.
const ROOM: usize = 1024;

// How many characters of a comment or a title are written.
const CHARACTERS: usize = 100;

// Over standard output, since a struct that owns any writer would owe that it is not too large. The output; what is
// asked for of the replay, and its next line's number; whether the replay's heading is written, and
// whether anything is.
#[derive(Drop)]
pub struct Lister {
    out: Output<Stdout, 16384>,
    options: Options,
    number: u64,
    is_headed: bool,
    is_begun: bool,
}

// A byte of a character that is not its first.
fn is_inner(b: u8) -> bool {
    matches!(b, 128..=191)
}

// The first n characters of a text.
fn characters(text: &[u8], n: usize) -> &[u8] {
    let over = text
        .iter()
        .enumerate()
        .filter(|(_, b)| !is_inner(**b))
        .nth(n);
    match over {
        Some((i, _)) => text.get(..i).unwrap_or(text),
        None => text,
    }
}

// The text without the blanks at its end.
fn trimmed(text: &[u8]) -> &[u8] {
    match text.iter().rposition(|b| *b != b' ') {
        Some(last) => &text[..=last],
        None => &[],
    }
}

impl Lister {
    pub fn new(to: Stdout) -> Self {
        Lister {
            out: Output::new(to),
            options: Options::ALL,
            number: 1,
            is_headed: false,
            is_begun: false,
        }
    }

    pub fn is_open(&self) -> bool {
        self.out.is_open()
    }

    pub fn number(&self) -> u64 {
        self.number
    }

    // The text without the blanks at its end, as a line.
    fn emit(&mut self, text: &[u8]) {
        self.out.room(ROOM);
        self.out.text.say(trimmed(text));
        self.out.text.put(b'\n');
        self.is_begun = true;
    }

    // The names of the columns, once for a replay.
    fn head(&mut self) {
        if !self.is_headed {
            self.emit(b"  line thr what                       access                  no answer");
            self.is_headed = true;
        }
    }

    // A replay begins, with the rest of its line `#!`. A title begins a part of the listing.
    pub fn begin(&mut self, asked: &[u8]) {
        let (options, title) = Options::read(asked);
        self.options = options;
        self.number = 1;
        self.is_headed = false;
        if options.data {
            return;
        }
        if self.is_begun {
            self.emit(b"");
        }
        if !title.is_empty() {
            let mut text = Text::<512>::new();
            text.say(b"== ");
            text.say(title);
            self.emit(characters(text.as_bytes(), CHARACTERS));
        }
    }

    // Whether the next line's number is among those that are asked for.
    fn is_within(&self) -> bool {
        self.options.from <= self.number && self.number <= self.options.to
    }

    pub fn comment(&mut self, line: &[u8]) {
        if !self.options.data && self.is_within() {
            self.head();
            self.emit(characters(line, CHARACTERS));
        }
    }

    // Whether a line is asked for; a bad one is of every thread.
    fn is_shown(&self, ran: &Ran) -> bool {
        self.is_within()
            && match (self.options.thread, thread(ran.line)) {
                (Some(asked), Some(t)) => asked == u64::from(t),
                _ => true,
            }
    }

    // A line that was run is written.
    pub fn report(&mut self, ran: &Ran, tables: Readable) {
        if self.is_shown(ran) {
            if self.options.data {
                self.out.room(ROOM);
                ran.number_line(tables, &mut self.out.text);
                self.out.text.put(b'\n');
                self.is_begun = true;
            } else {
                self.head();
                self.emit(ran.listed(tables).as_bytes());
            }
        }
        self.number = self.number.wrapping_add(1);
    }

    pub fn end(&mut self) {
        self.out.flush();
    }
}
