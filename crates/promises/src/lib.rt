// What is promised, tied to the code. There is no code here: specs/ has the statements, proofs/ one closed term of them.
#![tactic(auto)]
