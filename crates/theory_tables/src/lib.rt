// What tables say in the model's words: the pool of diagrams, the queues, the arcs. It stands in specs/.
#![tactic(auto)]
