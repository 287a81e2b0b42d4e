#![tactic(auto)]

// History: what can be recorded of a run of the provider, and what it says of tokens. Definitions and theorems only.
