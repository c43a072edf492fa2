// Mathematics alone: machines and queues, diagrams, the verdict on a session and what it means. All of it stands in specs/.
#![tactic(auto)]
