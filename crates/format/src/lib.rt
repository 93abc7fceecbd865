// What the bytes mean, in the terms of the scope of work: definitions and their laws only, no code.
#![tactic(auto)]
