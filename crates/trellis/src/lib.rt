// The nearest word of a convolutional code with four delays, and the trellis that finds it: theory with no code,
// over any code's outputs and any strengths of the received symbols. The definitions stand in specs/, their laws in proofs/.
#![tactic(auto)]
