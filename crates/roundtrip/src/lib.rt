// What is promised of writing and reading together. There is no code here: specs/ has the statements, proofs/ their proofs.
#![tactic(auto)]
