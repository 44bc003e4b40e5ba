// What a stripe means, and the theorems about it: definitions and theorems in specs/, and no code.
#![tactic(auto)]
