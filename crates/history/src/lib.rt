// Histories: theorems in specs/ over the model's own definitions. There is no code here.
#![tactic(auto)]
