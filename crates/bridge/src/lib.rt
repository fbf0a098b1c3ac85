// The words of a pool do what the rule book's machine does. There is no code here: the statements and their proofs stand in specs/.
#![tactic(auto)]
