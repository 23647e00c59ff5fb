// Document 01's cases "on either side of a line", as one table under one statement; no code.
//
// Each row has what the definitions give that the public calls are proved to equal, and what document 01 says. The table
// is specs/Cases.antt, the statement proofs/Starred.antt. Nothing here is a rule of its own.
#![tactic(auto)]
