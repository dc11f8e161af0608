#![tactic(auto)]

// The cases of document 01 that are marked P: specs/Cases.antt has them as one list and one statement.
