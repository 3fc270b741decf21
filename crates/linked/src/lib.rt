// Parts in a row: theorems in specs/ over the histories of each. There is no code here.
#![tactic(auto)]
