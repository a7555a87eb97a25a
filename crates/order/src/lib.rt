// Whatever the sequence of steps, the operations can be put in one order. There is no code here: what is stated stands in specs/, its proof in proofs/.
#![tactic(auto)]
