// The guarded set, a bit a node over any number of words, and the shard of an address.
#![tactic(auto)]

ghost use Rattle.std.specs.Prelude.{◌≡◌};
ghost use Rattle.rules.specs.Sizes.{base};
ghost use Rattle.rules.specs.Words.{is_guarded, guarded_also, none_guarded, shard_of};

// Total in n and in the number of words, so that no caller owes a range: 0 and an id past the last word are in no set.
#[tactic(auto, unfolding(rules::specs::Words::is_guarded))]
pub fn is_guarded(set: &[u64], n: u32) -> bool
    ensures { result ≡ is_guarded set.now n }
{
    let Some(bit) = n.checked_sub(1) else {
        return false;
    };
    let Some(word) = set.get((bit >> 6) as usize) else {
        return false;
    };
    (word >> (bit & 63)) & 1 == 1
}

// By an index under a test: std's `get_mut` says nothing of what the slice ends as.
#[tactic(auto, unfolding(rules::specs::Words::guarded_also))]
pub fn guard(set: &mut [u64], n: u32)
    ensures { set.new ≡ guarded_also set.old n }
{
    let Some(bit) = n.checked_sub(1) else {
        return;
    };
    let word = (bit >> 6) as usize;
    if word < set.len() {
        set[word] |= 1 << (bit & 63);
    }
}

#[tactic(auto, unfolding(rules::specs::Words::none_guarded))]
pub fn clear(set: &mut [u64])
    ensures { set.new ≡ none_guarded set.old }
{
    set.fill(0);
}

pub fn shard(address: u64) -> u32
    ensures { result ≡ shard_of base address }
{
    ((address >> 8) & 7) as u32
}
