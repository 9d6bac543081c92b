// The shared cells: where each stands, whether a content is in its range, and one cell read or written in the lent tables.
#![tactic(auto)]

pub mod cells;
pub mod items;
pub mod lent;

pub use cells::{Table, accessed, address, at_in, in_range};
pub use items::{Part, STEPS_TAKEN, Word, counter, cut, item, item_from, item_in, put};
pub use lent::{Lent, Readable};
