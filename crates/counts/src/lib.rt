// The trigger and the due time. `count` is a signed number kept as a word: one with its top bit set is negative.
#![tactic(auto)]

ghost use Rattle.std.specs.Prelude.{◌≡◌};
ghost use Rattle.rules.specs.Sizes.{base};
ghost use Rattle.rules.specs.Words.{threshold, over, due_time};

// The threshold's least value.
const FLOOR: i64 = 1000;
// How long after a clock the next pass is due, in nanoseconds.
const PERIOD: u64 = 2_000_000_000;

// Doubling wraps, as the crate's does, so that the double may be negative.
#[tactic(auto, unfolding(rules::specs::Words::threshold))]
pub fn threshold(records: u64) -> u64
    ensures { result ≡ threshold base records }
{
    let doubled = records.wrapping_add(records).cast_signed();
    doubled.max(FLOOR).cast_unsigned()
}

#[tactic(auto, unfolding(rules::specs::Words::over, rules::specs::Words::threshold))]
pub fn over(count: u64, records: u64) -> bool
    ensures { result ≡ over base count records }
{
    threshold(records).cast_signed() < count.cast_signed()
}

pub fn due_time(clock: u64) -> u64
    ensures { result ≡ due_time clock }
{
    clock.wrapping_add(PERIOD)
}

pub fn is_due(clock: u64, due_time: u64) -> bool
    ensures { result ≡ base.due clock due_time }
{
    due_time <= clock
}
