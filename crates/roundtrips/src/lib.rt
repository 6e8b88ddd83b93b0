// No code: the theorems are about the contracts of `read` and `write`.
#![tactic(auto)]
