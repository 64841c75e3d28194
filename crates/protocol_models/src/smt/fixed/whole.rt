//! Queries that no row decides.

/// The invariant holds at the beginning, and implies the promises.
pub const BEGINNING: &str = "\
; ---- The queries

; Before each query stands its cell, as in the tables: the state and the event, and behind the colon
; what is sent and the next state. So `S, Inv: Inv-Ack; I` is of a cache whose copy is in S and that
; takes an Inv: it sends an Inv-Ack, and the copy goes to I. In these lines:
;
;   directory    the cell is of the directory: its entry and the message that it takes
;   r            the core whose request is taken, p in the query; with Data home, any core
;   o            the owner, q in the query
;   x            all sharers but r; without any, Data(as many as x) are Data(0), and no Inv is sent
;   n, k         the numbers of acknowledgements that the Data name, and that have come
;   k + 1        k with the acknowledgement that is taken; behind the colon: it is counted
;   Data(0)      Data that name no acknowledgement
;   Data home    the block that is sent home
;   block home   the message's block becomes the home copy
;   hit          the access is performed at once
;   loads alone  only loads have joined the miss; or a write too
;   -            there is no row; the query is whether the message can come
;   blocked      the message stays at the front of its channel; there is no query
;
; An access or an eviction without a row has no query.

; the beginning: nobody has the line
(push 1)
(assert (and (= was-directory D_I) (not was-home) (= was-home-copy was-newest)))
(assert (forall ((c Core))
  (and (= (was-state c) I) (= (was-request c) no-request) (= (was-data c) no-data)
       (= (was-forward c) no-forward) (not (was-inv c)) (not (was-put-ack c))
       (not (was-owner c)) (not (was-sharer c)))))
(assert (forall ((c Core) (d Core))
  (and (not (was-inv-names c d)) (not (was-forward-names c d)) (not (was-ack c d))
       (not (was-got c d)))))
(assert (not (invariant before)))
(check-sat)
(pop 1)

; promise one-writer
(push 1)
(assert (invariant before))
(assert (not (one-writer before)))
(check-sat)
(pop 1)

; promise newest-is-read
(push 1)
(assert (invariant before))
(assert (not (newest-is-read before)))
(check-sat)
(pop 1)

; promise nothing-early
(push 1)
(assert (invariant before))
(assert (not (nothing-early before)))
(check-sat)
(pop 1)

";

/// Each request finds an entry that has rows, and Data and an Inv-Ack one of their cases.
pub const COVERAGE: &str = "\
; ---- No case is left out

; each GetS finds one of the directory's entries above
(push 1)
(assert (invariant before))
(assert (directory-event take-GetS))
(assert (forall ((o Core)) (not (some-entry o))))
(check-sat)
(pop 1)

; each GetM finds one of the directory's entries above
(push 1)
(assert (invariant before))
(assert (directory-event take-GetM))
(assert (forall ((o Core)) (not (some-entry o))))
(check-sat)
(pop 1)

; each PutS finds one of the directory's entries above
(push 1)
(assert (invariant before))
(assert (directory-event take-PutS))
(assert (forall ((o Core)) (not (some-entry o))))
(check-sat)
(pop 1)

; each PutM finds one of the directory's entries above
(push 1)
(assert (invariant before))
(assert (directory-event take-PutM))
(assert (forall ((o Core)) (not (some-entry o))))
(check-sat)
(pop 1)

; the block that comes home finds one of them
(push 1)
(assert (invariant before))
(assert (directory-event take-home))
(assert (forall ((o Core)) (not (some-entry o))))
(check-sat)
(pop 1)

; each Data have k = n, k < n or k > n
(push 1)
(assert (invariant before))
(assert (= (was-data p) Data))
(assert (not (or (is-at-hand take-Data-all) (is-at-hand take-Data-some)
                 (is-at-hand take-Data-past))))
(check-sat)
(pop 1)

; each Inv-Ack has k + 1 = n, k + 1 < n or k + 1 > n
(push 1)
(assert (invariant before))
(assert (was-ack q p))
(assert (not (or (is-at-hand take-Inv-Ack-all) (is-at-hand take-Inv-Ack-some)
                 (is-at-hand take-Inv-Ack-past))))
(check-sat)
(pop 1)

";

/// Rows that are never taken.
pub const NEVER: &str = "\
; ---- Rows that are never taken

; The tables have these rows, and the queries above say that they keep what they have to. These say
; more: they are never taken. The proof doesn't need it.

; IS_D, Data, k < n: Data for a reader name no acknowledgement
(push 1)
(assert (invariant before))
(assert (cache-event IS_D take-Data-some))
(check-sat)
(pop 1)

; IS_D, Data, k > n: a reader has counted none
(push 1)
(assert (invariant before))
(assert (cache-event IS_D take-Data-past))
(check-sat)
(pop 1)

; directory S, sharers r; GetS of r: a sharer never asks to read
(push 1)
(assert (invariant before))
(assert (entry D_S nobody true false))
(assert (directory-event take-GetS))
(check-sat)
(pop 1)

; directory S, sharers r, x; GetS of r: nor does one among others
(push 1)
(assert (invariant before))
(assert (entry D_S nobody true true))
(assert (directory-event take-GetS))
(check-sat)
(pop 1)
";

/// .. and what occurs only with the exclusive state.
pub const EXCLUSIVE_ALONE: &str = "
; ---- What never occurs without the exclusive state

; state E
(push 1)
(assert (invariant before))
(assert (= (was-state p) E))
(check-sat)
(pop 1)

; Data-E
(push 1)
(assert (invariant before))
(assert (= (was-data p) Data-E))
(check-sat)
(pop 1)

; IS_D, Fwd-GetS: a reader never owns the line
(push 1)
(assert (invariant before))
(assert (cache-event IS_D take-Fwd-GetS))
(check-sat)
(pop 1)

; IS_D, Fwd-GetM: a reader never owns the line
(push 1)
(assert (invariant before))
(assert (cache-event IS_D take-Fwd-GetM))
(check-sat)
(pop 1)
";
