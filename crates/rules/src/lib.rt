// The check's rules as statements about the machine's state, and that every call keeps them. There is no code here: the statements stand in
// specs/, their proofs in specs/ and proofs/.
#![tactic(auto)]
