// The text of each line that the runner writes (document 01, "The runner").
// Added by us; nothing here is ported.
#![tactic(auto)]

pub mod inner;

// No line is longer than this.
pub const LINE: usize = 80;
