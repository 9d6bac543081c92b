// What a line `#!` asks: `#! [from N] [to N] [thread N] [data] [title]`.

// No thread has this number, which asks for every one: a line may say so, and what a line asks stays as it is.
const EVERY: u64 = 256;

// The lines that are asked for, by their numbers and their thread; and whether as numbers.
#[derive(Clone, Copy)]
pub struct Options {
    pub from: u64,
    pub to: u64,
    pub thread: Option<u64>,
    pub data: bool,
}

// The text without the blanks at its front.
fn skip(text: &[u8]) -> &[u8] {
    let n = text.iter().position(|b| *b != b' ').unwrap_or(text.len());
    &text[n..]
}

// What is behind a word that the text begins with, and that ends there.
fn behind<'a>(text: &'a [u8], word: &[u8]) -> Option<&'a [u8]> {
    match text.strip_prefix(word)? {
        rest @ ([] | [b' ', ..]) => Some(rest),
        _ => None,
    }
}

// A number with one more digit; one that is very large stays as it is.
fn grown(x: u64, digit: u8) -> u64 {
    if x < 1000000000000000000 {
        x * 10 + u64::from(digit.wrapping_sub(b'0'))
    } else {
        x
    }
}

// The number that the text begins with behind its blanks, if it ends with the word, and what is behind it.
fn number(text: &[u8]) -> Option<(u64, &[u8])> {
    let text = skip(text);
    let n = text
        .iter()
        .position(|b| !b.is_ascii_digit())
        .unwrap_or(text.len());
    let rest = behind(text, &text[..n])?;
    if n == 0 {
        return None;
    }
    let x = text[..n].iter().fold(0, |x, b| grown(x, *b));
    Some((x, rest))
}

impl Options {
    pub const ALL: Options = Options {
        from: 0,
        to: u64::MAX,
        thread: None,
        data: false,
    };

    // With one more option, where the text begins with one; and what is behind it.
    fn and(self, text: &[u8]) -> Option<(Options, &[u8])> {
        let text = skip(text);
        if let Some(rest) = behind(text, b"from") {
            let (from, rest) = number(rest)?;
            Some((Options { from, ..self }, rest))
        } else if let Some(rest) = behind(text, b"to") {
            let (to, rest) = number(rest)?;
            Some((Options { to, ..self }, rest))
        } else if let Some(rest) = behind(text, b"thread") {
            let (thread, rest) = number(rest)?;
            let thread = if thread == EVERY { None } else { Some(thread) };
            Some((Options { thread, ..self }, rest))
        } else {
            let rest = behind(text, b"data")?;
            Some((Options { data: true, ..self }, rest))
        }
    }

    // The options of a line, and its title.
    pub fn read(line: &[u8]) -> (Options, &[u8]) {
        let mut options = Options::ALL;
        let mut rest = line;
        for _ in 0..4 {
            match options.and(rest) {
                Some(more) => (options, rest) = more,
                None => break,
            }
        }
        (options, skip(rest))
    }
}
