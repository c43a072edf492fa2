// Mathematics alone: the occurrences of a tree's messages as sets of bits, and where a word can end among them. All of it stands in specs/.
#![tactic(auto)]
