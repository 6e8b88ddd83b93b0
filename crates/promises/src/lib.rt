// No code: the promises are about the contracts of the functions of every library.
#![tactic(auto)]
