// What the contracts of the public functions promise, as theorems in specs/. There is no code here.
#![tactic(auto)]
