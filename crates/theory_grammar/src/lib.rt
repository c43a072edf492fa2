// Mathematics alone: expressions as trees and their language, the texts that spell a tree, and the parse. All of it stands in specs/.
#![tactic(auto)]
