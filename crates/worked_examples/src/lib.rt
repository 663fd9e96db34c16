// The worked examples that document 01 marks M ("Marked M: checked in proof"), as one table with one theorem that covers it.
// The table is in specs/Table.antt, the theorem in proofs/Examples.antt.

#![tactic(auto)]
