// A thread's row in the tables of ids and words, and the searches of the lent tables.
#![tactic(auto)]

pub mod row;
pub mod searches;

pub use row::{ROW32, ROW64, load_row, place, row_fits, store_row};
pub use searches::{inside, linked, owned, unsound, untaken};
