// No code: the cases are theorems about the definitions of crate grammar.
#![tactic(auto)]
