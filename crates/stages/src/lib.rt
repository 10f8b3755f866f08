// The stages that the chains share, between the mother code and the air: puncturing, moving to places and scrambling, and all of them undone.
// Mode, count, step and start are parameters. Our own crates call the stages (`inner`); a caller of the library gets them through the chains.
#![tactic(auto)]

pub mod inner;
