// What holds of board keys and what is proved of it, over the definitions of the calls: no code.

#![tactic(auto)]
