#![tactic(auto)]

// The starred cases of document 01 stand in specs/ as one table, with one proof. There is no code to run here.
