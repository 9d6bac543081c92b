// A thread's guarded set: its words are the part of the shared table that begins at word 64 x thread.
ghost use Rattle.std.specs.Prelude.{◌≡◌, ◌+◌, ◌*◌, min, length};
ghost use Rattle.rules.specs.Step.{guards_after, guards_of, guards_given};
ghost use Rattle.rules.specs.Words.{is_guarded};

use rules::Guards;

// The 64-bit words of a guarded set.
pub const WORDS: usize = 64;

// What becomes of one set.
#[tactic(auto, unfolding(rules::specs::Step::guards_after))]
fn give(set: &mut [u64], g: Guards)
    ensures { set.new ≡ guards_after set.old g }
{
    match g {
        Guards::Keep => {}
        Guards::Clear => bits::clear(set),
        Guards::Set(n) => bits::guard(set, n),
    }
}

// What becomes of a thread's set; only as far as the words go.
#[tactic(auto, unfolding(rules::specs::Step::guards_given))]
pub fn guards_given(guards: &mut [u64], t: u32, g: Guards)
    ensures { guards.new ≡ guards_given guards.old t g }
{
    let a = (t as usize * WORDS).min(guards.len());
    let z = (a + WORDS).min(guards.len());
    give(&mut guards[a..z], g);
}

pub fn guarded_at(guards: &[u64], t: u32, n: u32) -> bool
    ensures { result ≡ is_guarded (guards_of guards.now t) n }
{
    let a = (t as usize * WORDS).min(guards.len());
    let z = (a + WORDS).min(guards.len());
    bits::is_guarded(&guards[a..z], n)
}
