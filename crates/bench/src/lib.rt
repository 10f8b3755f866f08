// The values that document 01 marks to be proved, in one table. No code: the definitions alone give them.
#![tactic(auto)]
