// No code: the one if-then-else that all definitions of the project choose by, its laws, and what all
// promises have in common. Read specs/Pick.antt.

#![tactic(auto)]
