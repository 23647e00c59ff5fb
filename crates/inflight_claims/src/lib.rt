// Theorems about crate `inflight`, and nothing that runs. Each statement is a record in specs/, proved in proofs/.
// specs/ListClaim.antt: every list of calls on a fresh table is answered as the model says, and what the model keeps
// to (`listed`). specs/Rows.antt: the refusals of each call, row by row in their order (`rows`).
// specs/Delivery.antt: a reply goes to the one ask that carried its number to that publisher, once, or nowhere; which
// requests a run-out frees, and what it tells (`delivered`). specs/Before.antt: every first number, and every list of calls on a fresh table, is answered as the
// table without slots and masks answered it (`as_before`). specs/TwoCalls.antt: the one call for a gone peer does what
// closed and lost did, on any contents (`for-both`). specs/OldAsks.antt: an ask with time 0 and timeout 0 does what ask
// did before it brought either (`old-asks`).
// specs/Slots.antt: loads and requests in flight are counts of ones in masks, the latest time is the model's, and no
// call moves a request (`loads-by-masks`, `used-by-mask`, `seen-by-times`, `never-moves`).
#![tactic(auto)]
