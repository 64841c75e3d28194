//! What the queries are for.

/// What the queries are, and what is shown if all are unsatisfiable. The definition of `exclusive` follows.
pub const INTRODUCTION: &str = "\
; The coherence of one line of memory in a directory protocol, for any number of cores: queries in
; SMT-LIB 2.6, for z3 and cvc5. Printed by `lockup export smt [--exclusive]`.
;
;     z3 FILE
;     cvc5 --incremental --full-saturate-quant FILE
;
; The first definition, `exclusive`, says whether the protocol has the state E (MESI) or not (MSI).
; Without it E and Data-E are declared but never occur.
;
; Each answer has to be unsat: 168 answers without the state E, 201 with it. Then, in each state of
; the line that can be reached from the one where nobody has it:
;
; - one core may write and no other may read, or nobody may write and any number may read
;   (one-writer);
; - a copy that may be read has the block that the last write left (newest-is-read);
; - data and a Put-Ack are under way only to a core whose own request waits no longer, so no answer
;   comes before its request was taken (nothing-early);
; - each message at the front of its channel has a row, or is blocked;
; - each channel has room for what a row sends (room). A core's request channel and its data channel
;   hold one message each, its forwarded channel two, the channel from one core to another one
;   Inv-Ack, and the channel home one block.
;
; A row is a cell of the protocol's tables: in a state, at an event, it says what is sent and what
; the next state is. The proof is by induction over the rows that were taken. The queries ask, in
; this order:
;
; - of the beginning: can the invariant be wrong there?
; - of each promise: can it be wrong where the invariant holds?
; - of each cell: if it has a row, can the invariant hold before it, and something fail that the row
;   has to keep (kept), as the invariant after it? If it has none (-), can its message be at the
;   front of its channel, where the invariant holds?
; - of each message: can it be in none of the cases that have cells?
; - of some rows that the tables have: can they ever be taken, where the invariant holds? The proof
;   doesn't need these.
; - without the state E, of what occurs only with it: can it occur, where the invariant holds?
;
; On paper remain:
;
; - The induction itself.
; - That the text means what the code does. The rows are printed by the code that runs the caches
;   and the directory. All else is fixed text: what a line is, what the parts of a row mean, the
;   invariant.
; - A row is one step: what it takes, changes and sends, with Data and each Inv, happens at once.
; - Messages are neither lost, doubled nor changed. A core's forwarded channel keeps its order. Each
;   Inv and each forwarded request names a core, since it is sent in the name of one.
; - Lines don't affect each other.
; - Accesses in other states than I, S, M and E have no row: they join the miss that is under way or
;   stall, and nothing of the line changes. One that has joined takes its row once the copy is in S,
;   M or E. An eviction in other states than S, M and E is refused.
; - Finite sets and numbers. Nothing here counts. In place of n, the number of acknowledgements that
;   the Data name, and k, the number of those that have come, stand the sets of their senders, need
;   and got. Each acknowledgement that comes is of a core that isn't in got yet (counted-once).
;   While a core awaits acknowledgements, its got is a part of its need (balance), and otherwise its
;   got is empty (none-counted). For finite sets of which one is a part of the other, k = n exactly
;   where they are the same, k < n where one is missing, and k > n never.
;
; Not claimed: progress. No query says that a message is ever taken, or that there is no deadlock.
;
; Core is any set of cores. Functions go from cores to enumerations and to blocks alone, and no part
; of the invariant says that for each core there is another (only the parts of with-nothing-lost do,
; and they are off). So every query is in the stratified many-sorted extension of the
; Bernays-Schoenfinkel fragment, for which solvers come to an end, and a query that is sat has a
; state of finitely many cores.

(set-logic ALL)

; Whether the protocol has the state E.
";
