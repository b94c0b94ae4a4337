// What document 02, A6, says of the row of a set and of its row steps, over the definitions of the calls: no code.

#![tactic(auto)]
