// Lines and schedules have one text each, and the reader takes no other; no code.
#![tactic(auto)]
