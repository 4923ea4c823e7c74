// Demand 3: the machine and the rules meet. Definitions and theorems only.
#![tactic(auto)]
