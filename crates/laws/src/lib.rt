// No code: what holds over any sequence of calls is said and proved beside this file.

#![tactic(auto)]
