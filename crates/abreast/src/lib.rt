// Two parts side by side: theorems in specs/ over the histories of each. There is no code here.
#![tactic(auto)]
