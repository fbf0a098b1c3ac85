// The layout of a pool's words: what they say, what a call sees of them, what doing an act leaves. There is no code here: the
// definitions and their laws stand in specs/, the functions on the words in crate pool.
#![tactic(auto)]
