// Archives with known answers, computed by the definitions. There is no code here.
#![tactic(auto)]
