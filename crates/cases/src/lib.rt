// No code: the four calls computed on document 01's marked cases and on others, said and proved beside this file.

#![tactic(auto)]
