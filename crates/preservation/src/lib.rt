// Every step keeps a sound table sound. There is no code here: the laws stand in proofs/.
#![tactic(auto)]
