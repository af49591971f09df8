// The published rules, and that the machine's steps are theirs; no code.
#![tactic(auto)]
