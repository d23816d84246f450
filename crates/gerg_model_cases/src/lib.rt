// The cases of document 01 on reducing values and on rows 3 and 4, as theorems; no code runs.
#![tactic(auto)]
