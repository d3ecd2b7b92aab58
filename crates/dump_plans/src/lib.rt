// Planning a dump is planning its sheet: the statement, read first, stands in specs/Plans.antt.
#![tactic(auto)]
