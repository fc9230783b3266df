// Demand 3 over the functions that hosts call: specs/ has the claim over traces of their contracts and over whole cleanings. There is no code here.
#![tactic(auto)]
