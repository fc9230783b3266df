// Demand 3 over the functions that programs in C or Rust call: what they promise by numbers are the links of a trace. There is no code here.
#![tactic(auto)]
