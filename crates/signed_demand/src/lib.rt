// What holds of corrections and signed constants and what is proved of it, over the definitions of the calls: no code.

#![tactic(auto)]
