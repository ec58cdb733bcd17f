#![tactic(auto)]

// The laws that every proof leans on. The words for them stand in specs/, the laws in proofs/; there is no code here.
