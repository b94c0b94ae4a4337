// What demand 3 states and what is proved of it, over the definitions of the calls: no code.

#![tactic(auto)]
