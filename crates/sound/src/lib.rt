// No code: no accepted routine ever traps, and none tells. Theorems over the definitions that the
// machine, the checker, the eraser, the start check and the desk call are proved to compute.
// Read proofs/Promise.antt first; what it speaks of is in specs/.

#![tactic(auto)]
