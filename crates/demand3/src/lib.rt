#![tactic(auto)]

// Demand 3, of the functions themselves: its statement, read first, stands in specs/Calls.antt.
