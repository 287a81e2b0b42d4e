#![tactic(auto)]

// Masks and columns of ids as definitions, and their laws: what every table of the domain is made of. The code is in `cols_masks`,
// `cols_find` and `cols_walk`.
