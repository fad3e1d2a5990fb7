// The operator against the script: specs/Operator.antt states what saying no keeps and what a yes gives, over the calls' own promises, proofs/ prove it. There is no code here.
#![tactic(auto)]
