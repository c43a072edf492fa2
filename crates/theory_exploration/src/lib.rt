// Mathematics alone: exploring a deterministic labelled graph. What is defined and proved stands in specs/.
#![tactic(auto)]
