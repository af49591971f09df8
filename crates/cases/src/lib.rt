// The starred cases and the whole listing, as one table of definitions; no code.
#![tactic(auto)]
