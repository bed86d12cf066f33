// Words in definitions: see specs/Words.antt.
#![tactic(auto)]
