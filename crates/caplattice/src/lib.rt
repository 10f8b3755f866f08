// The entries for callers in C and Rust. Each function returns 0 or the number of a refusal; one that has more to say writes six
// numbers over the answer that it is lent. A slice is a pointer and then a length.
// Added by us; nothing here is ported. A caller gets what include/caplattice.h says, and its targets as the entry leaves them.
#![tactic(auto)]

mod answer;
pub mod chains;
pub mod coding;
pub mod leaves;
pub mod version;
