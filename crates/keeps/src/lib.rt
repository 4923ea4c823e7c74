// Every accepted event keeps the state rules, and the put right after an "again" answers an address. Theorems only.
#![tactic(auto)]
