// The search by disjoint cores, by which nearest searches: definitions and theorems (specs).
#![tactic(auto)]
