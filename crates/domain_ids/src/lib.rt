#![tactic(auto)]

// New ids in a circle. Definitions and theorems only.
