// No code: how far exp, ln and sqrt of `elementary` are from the exact values. specs/Distances.antt states it, proofs/ has the proofs.
#![tactic(auto)]
