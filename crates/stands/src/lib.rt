#![tactic(auto)]

// What a state stands for, as the rules see it. Definitions in specs/, laws in proofs/; there is no code here.
