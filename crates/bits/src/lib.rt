// Laws of exclusive or, and tests that the prover computes: definitions and theorems in specs/, and no code.
#![tactic(auto)]
