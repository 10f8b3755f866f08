// The runner of document 01 as a library: a recording comes in pieces of any sizes, and lines go out.
// Added by us; nothing here is ported.
// specs/Runner.antt says what the lines of a recording are. Everything here asks something of its
// caller; a program comes to it through `reading`.
#![tactic(auto)]

pub mod inner;
