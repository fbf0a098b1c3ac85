// What holds of every history of calls. There is no code here: definitions and laws stand in specs/, the demands and the proofs that rest on
// the refusal table in proofs/.
#![tactic(auto)]
