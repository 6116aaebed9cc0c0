// The mathematics of chain complexes over fields of codes.
#![tactic(auto)]
