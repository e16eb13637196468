// What the function of an event promises of the model's rule: specs/Promise.antt. There is no code here.
#![tactic(auto)]
