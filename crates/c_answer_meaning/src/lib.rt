// What the numbers of an answer mean to C: no code, only definitions and laws (specs/).
#![tactic(auto)]
