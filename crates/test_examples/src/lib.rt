#![tactic(auto)]

// The proved examples of document 01 stand in specs/ and proofs/; they need no function.
