// What the tables show of a line that was run: what its step saw, and why it was refused. A load leaves its cell as it
// was, so that the cell still holds what the step saw; a refusal changes nothing, so that the tables still are what they
// were before the line.
#![tactic(auto)]

pub mod saw;
pub mod why;
