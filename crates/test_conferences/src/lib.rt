#![tactic(auto)]

// The machine's definitions tried on their own: worked conferences, computed.
