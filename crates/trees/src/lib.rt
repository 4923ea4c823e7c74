// What the state rules say of the shadow tables, as a statement one can reason with, and that every step keeps it.
// Theorems only.
#![tactic(auto)]
