// No code: 01's bench pieces K1 to K12 as one table, and the theorem that each of them holds of the
// definitions that the reader, the checker, the eraser and the machine are proved to compute.
// Read the table in specs/Pieces.antt; the theorem is in proofs/Pieces.antt.

#![tactic(auto)]
