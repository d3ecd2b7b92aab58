#![tactic(auto)]

// Demand 3 over definitions: its statement stands in specs/Agreement.antt; of the functions themselves, in demand3.
