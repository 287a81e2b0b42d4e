#![tactic(auto)]

// Images: the octets that keep the tables over a restart. Definitions and theorems only.
