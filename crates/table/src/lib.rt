// Document 01's examples that are marked T: one table (specs/Table.antt), and one statement over it (proofs/Rows.antt).
#![tactic(auto)]
