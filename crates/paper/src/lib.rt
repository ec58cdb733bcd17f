#![tactic(auto)]

// The table P1 to P12 of document 01: what the planner answers on the document's own sheet. There is no code here.
