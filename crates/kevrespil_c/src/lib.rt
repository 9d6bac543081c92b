// The archive for C and for Rust: the two functions of the crate kevrespil under the names that C links, each with its contract, which an export
// states by itself.
#![tactic(auto)]

ghost use Rattle.std.specs.Prelude.{◌≡◌};
ghost use Rattle.rules.specs.Sizes.{base};
ghost use Rattle.rules.specs.Step.{lent, out, answer, step_of};
ghost use Rattle.frames.specs.Frames.{fields, framed};
ghost use Rattle.kevrespil.specs.Call.{begun};

use kevrespil::Reply;

// The start of an operation by the numbers of its frame.
#[unsafe(no_mangle)]
pub extern "C" fn kevrespil_start(
    ids: &mut [u32],
    next: &mut [u32],
    state: &mut [u32],
    words: &mut [u64],
    guards: &mut [u64],
    thread: u32,
    kind: u32,
    a: u32,
    b: u32,
    c: u64,
) -> Reply
    ensures { out (answer result.number result.value) (lent ids.new next.new state.new words.new guards.new) ≡ begun base (lent ids.old next.old state.old words.old guards.old) (framed (fields kind thread a b c)) }
{
    kevrespil::kevrespil_start(ids, next, state, words, guards, thread, kind, a, b, c)
}

// One step of a thread.
#[unsafe(no_mangle)]
pub extern "C" fn kevrespil_step(
    ids: &mut [u32],
    next: &mut [u32],
    state: &mut [u32],
    words: &mut [u64],
    guards: &mut [u64],
    thread: u32,
    flag: bool,
    clock: u64,
) -> Reply
    ensures { out (answer result.number result.value) (lent ids.new next.new state.new words.new guards.new) ≡ step_of base (lent ids.old next.old state.old words.old guards.old) thread flag clock }
{
    kevrespil::kevrespil_step(ids, next, state, words, guards, thread, flag, clock)
}
