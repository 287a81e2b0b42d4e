#![tactic(auto)]

// Tables that say the same, images of the tables, leavers in one list or two: theorems about the machine. Definitions and theorems only.
