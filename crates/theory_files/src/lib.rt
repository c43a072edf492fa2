// What a file means: the session that its tables describe, and what is claimed of every byte string. It stands in specs/.
#![tactic(auto)]
