// What is kept between two blocks of a replay.
ghost use Rattle.std.specs.Prelude.{◌≤◌, length};

use texts::Text;

// The first bytes of the line begun, and the line's number.
#[derive(Drop)]
pub struct Kept {
    pub line: Text<29>,
    pub number: u64,
    ghost within: { length line ≤ 29 },
}
