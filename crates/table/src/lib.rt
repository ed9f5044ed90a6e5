// The starred rows of document 01, "The post program and its table": one table (`specs/Table.antt`), one theorem.

#![tactic(auto)]
