// Mathematics alone: the bytes that tables spell, and that reading them gives the tables again. All of it stands in specs/.
#![tactic(auto)]
