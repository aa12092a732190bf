// What the customer asked for, as statements over the definitions that the contracts cite: no code.
#![tactic(auto)]
