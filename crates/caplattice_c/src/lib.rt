// The static library for callers in C and Rust: the functions of the crate `caplattice`, exported under their names. Each promises what
// the function of its name promises there, and calls it.
// Added by us; nothing here is ported. The other files are made by tools/boundary/make.
#![tactic(auto)]

pub mod chains;
pub mod coding;
pub mod leaves;
pub mod version;
