// Mathematics alone: replaying a trace of transition numbers on the configurations of a session, and what its end means. All of it
// stands in specs/.
#![tactic(auto)]
