// Gauss-Jordan elimination modulo a prime on matrices: its definition, its row steps, and what it keeps; no code.

#![tactic(auto)]
