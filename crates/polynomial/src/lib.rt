// Polynomials modulo a prime: definitions and laws, no code.

#![tactic(auto)]
