// Linear maps over GF(2) on numbers: theory with no code, for block codes that are given by a table.
// Added by us. specs/ says what a map, a word with a wrong bit and a place are; proofs/ holds the laws that a code's crate cites.
#![tactic(auto)]
