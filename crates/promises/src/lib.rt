// The three demands, stated of the calls that C makes. There is no code here: the statements stand in specs/, their proofs in proofs/.
#![tactic(auto)]
