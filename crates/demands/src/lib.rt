// The three demands and the uniqueness of every public call, each theorem with its whole statement. Theorems only.
#![tactic(auto)]
