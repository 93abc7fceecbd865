// No code: demand 3 said of what the reader's calls answer, and that no promise of the project has a second outcome.
#![tactic(auto)]
