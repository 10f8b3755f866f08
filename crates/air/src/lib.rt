// Channels: theory with no code, over any symbols, any costs and any way to read the air. Demand 3 is proved here once for all of them.
// How a distance passes through the stages of a chain stands in `stages`. The laws stand in proofs/.
#![tactic(auto)]
