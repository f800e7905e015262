// The three demands, as theorems: proofs/Demands.antt is the page. There is no code here.
#![tactic(auto)]
