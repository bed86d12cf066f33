// Theorems alone: see specs/Causes.antt.
#![tactic(auto)]
