#![tactic(auto)]

// History that begins with an image. Definitions and theorems only.
