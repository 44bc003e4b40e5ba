// Algebra in rings and fields of characteristic 2: definitions and theorems in specs/, and no code.
#![tactic(auto)]
