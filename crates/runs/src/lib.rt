// Runs of calls on any machine: specs/Runs.antt says what a run is and what is said of it, proofs/ has each induction once.
// Nothing runs here.
#![tactic(auto)]
