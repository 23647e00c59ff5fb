// Theorems about crate `walk`, and nothing that runs. The statement is in specs/ProgramText.antt, its proof in proofs/.
// On a fresh table the walk's text is the model's: decode the events into calls, run the model, render what is heard (`program-text`).
// It holds of one call with room enough, and of any cutting of the events into pieces with any room for each call.
// specs/Bounds.antt: no call consumes or writes more than there is, and with 4,096 bytes of room each call moves on (`bounds`).
// specs/EventKinds.antt: kinds 4 and 5 print what they did while closed and lost were two calls (`kinds-as-before`);
// kind 1 what an ask printed before it brought a time, kind 6 an ask's line, kind 7 `out` (`kinds-of-time`).
// Nothing here speaks of input or output; crate `walk_steps` hands the pieces over as it reads them.
#![tactic(auto)]
