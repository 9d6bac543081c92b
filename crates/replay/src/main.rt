// Runs a replay: standard input to standard output, in blocks. What a block writes is the library's; this moves bytes.
#![tactic(auto)]

use machine::step::{GUARD_WORDS, IDS, NODE_CELLS, SUMS};
use replays::runner;
use std::io::Write;
use streams::Input;
use tables::Lent;

fn main(rt: HostRuntime) {
    let mut ids = [0u32; IDS];
    let mut next = [0u32; NODE_CELLS];
    let mut state = [0u32; NODE_CELLS];
    let mut words = [0u64; SUMS];
    let mut guards = [0u64; GUARD_WORDS];
    let mut tables = Lent {
        ids: &mut ids,
        next: &mut next,
        state: &mut state,
        words: &mut words,
        guards: &mut guards,
    };
    let mut input = Input::<_, 16384>::new(rt.stdin());
    let mut stdout = rt.stdout();
    let mut out = [0u8; 21504];
    let mut kept = runner::begun(1);
    // No input has so many blocks.
    for _ in 0..u64::MAX {
        let part = input.fill();
        let is_end = part.is_empty();
        let b = runner::run_block(&mut tables, kept, part, &mut out);
        kept = b.kept;
        input.take(b.taken);
        let is_written = stdout.write_all(&out[..b.used]).is_ok();
        if is_end || !is_written {
            break;
        }
    }
    if let Some(last) = runner::finish(kept) {
        let _ = stdout.write_all(&last);
    }
}
