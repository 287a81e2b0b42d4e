#![tactic(auto)]

// Judging: another maker's bridge by its trace. Definitions and theorems only.
