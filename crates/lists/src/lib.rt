// Notions of lists that every crate above shares: specs/ has the definitions, proofs/ their laws. There is no code here.
#![tactic(auto)]
