//! What a line is, and what a row does to it.

/// What there is of a line before a row.
pub const STATE: &str = "\
; ---- What there is of a line

(declare-sort Core 0)
(declare-sort Block 0)

(declare-datatype CopyState
  ((I) (IS_D) (IM_AD) (IM_A) (S) (SM_AD) (SM_A) (M) (E) (MI_A) (SI_A) (II_A)))
(declare-datatype DirectoryState ((D_I) (D_S) (D_M) (D_S_D)))
(declare-datatype RequestKind ((no-request) (GetS) (GetM) (PutS) (PutM)))
(declare-datatype DataKind ((no-data) (Data) (Data-E)))
(declare-datatype ForwardKind ((no-forward) (Fwd-GetS) (Fwd-GetM)))

; Before a row is taken. Of each core:
(declare-fun was-state (Core) CopyState)           ; its copy's state
(declare-fun was-block (Core) Block)               ; its copy's block
(declare-fun was-request (Core) RequestKind)       ; what waits in its request channel
(declare-fun was-request-block (Core) Block)       ; the block that a PutM carries
(declare-fun was-data (Core) DataKind)             ; what waits in its data channel
(declare-fun was-data-block (Core) Block)          ; the block that the data carry
(declare-fun was-need (Core Core) Bool)            ; (need c d): c's Data name one of d
(declare-fun was-got (Core Core) Bool)             ; (got c d): c has counted d's
; .. what waits in its forwarded channel, in this order: an Inv, a forwarded request, a Put-Ack.
(declare-fun was-inv (Core) Bool)
(declare-fun was-inv-names (Core Core) Bool)       ; (inv-names c d): c's Inv names d
(declare-fun was-forward (Core) ForwardKind)
(declare-fun was-forward-names (Core Core) Bool)   ; (forward-names c d): c's request names d
(declare-fun was-put-ack (Core) Bool)
; .. and in the channels from it to other cores.
(declare-fun was-ack (Core Core) Bool)             ; (ack c d): an Inv-Ack of c waits for d
; Of the directory:
(declare-fun was-directory () DirectoryState)      ; its state
(declare-fun was-owner (Core) Bool)                ; which core it has as the owner
(declare-fun was-sharer (Core) Bool)               ; which cores it has as sharers
(declare-fun was-home-copy () Block)               ; its own block
(declare-fun was-home () Bool)                     ; a block waits on its way home
(declare-fun was-home-block () Block)              ; that block
; The block that the last write left. No message says which it is.
(declare-fun was-newest () Block)

";

/// What a row has, and the line before it and after it.
pub const ROWS: &str = "\
; ---- What a row is

; A row of a cache's table is of core p. Core q is the one that the message names, or from which the
; acknowledgement comes.
; A row of the directory's table takes the request of core p, or the block that comes home: then p
; is any core. Core q is the owner, if another core than p owns the line.
(declare-const p Core)
(declare-const q Core)

; An access, an eviction, or a message that is taken. Of the acknowledgements that are needed, with
; the one that is taken, all have come (-all: k = n), or some are missing (-some: k < n), or one has
; come that isn't needed (-past: k > n). With Data-E only loads have joined the miss (-loads), or a
; write too (-write).
(declare-datatype Event
  ((load) (write) (eviction) (take-Fwd-GetS) (take-Fwd-GetM) (take-Inv) (take-Put-Ack)
   (take-Data-all) (take-Data-some) (take-Data-past)
   (take-Inv-Ack-all) (take-Inv-Ack-some) (take-Inv-Ack-past)
   (take-Data-E-loads) (take-Data-E-write)
   (take-GetS) (take-GetM) (take-PutS) (take-PutM) (take-home)))
(declare-const event Event)

; What the row sends.
; A cache: a request to the directory; or to q an Inv-Ack, or Data that name no acknowledgement
; (send-Data), or these and the block home as well.
; The directory: to p Data that name no acknowledgement (reply-Data), or Data-E, or Data that name
; each other sharer, with an Inv in the name of p to each of these, or a Put-Ack; or to q a
; forwarded request in the name of p.
(declare-datatype Sends
  ((nothing) (send-GetS) (send-GetM) (send-PutS) (send-PutM)
   (send-Inv-Ack) (send-Data) (send-Data-and-home)
   (reply-Data) (reply-Data-E) (reply-Data-and-Inv) (forward-GetS) (forward-GetM) (reply-Put-Ack)))
(declare-const sends Sends)

; The next state: of p's copy; of the directory, with the owner and the sharers, and whether the
; message's block becomes the home copy.
(declare-const next CopyState)
(declare-datatype NextOwner ((nobody-owns) (owner-stays) (p-owns)))
(declare-datatype NextSharers
  ((nobody-shares) (sharers-stay) (p-shares) (p-joins) (p-leaves) (p-and-q-share)))
(declare-const next-directory DirectoryState)
(declare-const next-owner NextOwner)
(declare-const next-sharers NextSharers)
(declare-const block-home Bool)

; The block that a write leaves: any.
(declare-const written Block)

(define-fun at-directory () Bool
  (or (= event take-GetS) (= event take-GetM) (= event take-PutS) (= event take-PutM)
      (= event take-home)))
(define-fun at-core () Bool (not at-directory))
(define-fun takes-data () Bool
  (or (= event take-Data-all) (= event take-Data-some) (= event take-Data-past)
      (= event take-Data-E-loads) (= event take-Data-E-write)))
(define-fun takes-inv-ack () Bool
  (or (= event take-Inv-Ack-all) (= event take-Inv-Ack-some) (= event take-Inv-Ack-past)))
; An access that sends nothing hits: it is performed.
(define-fun hits () Bool (and (or (= event load) (= event write)) (= sends nothing)))
(define-fun writes () Bool (and (= event write) hits))
(define-fun sends-request () Bool
  (or (= sends send-GetS) (= sends send-GetM) (= sends send-PutS) (= sends send-PutM)))
(define-fun sends-data-to-q () Bool (or (= sends send-Data) (= sends send-Data-and-home)))
(define-fun sends-data-to-p () Bool
  (or (= sends reply-Data) (= sends reply-Data-E) (= sends reply-Data-and-Inv)))
(define-fun forwards () Bool (or (= sends forward-GetS) (= sends forward-GetM)))
(define-fun other-sharer ((c Core)) Bool (and (was-sharer c) (not (= c p))))

; ---- The line before the row and after it

(declare-datatype Moment ((before) (after)))

; Core c, or the directory, takes the row: what is its own changes.
(define-fun core-steps ((t Moment) (c Core)) Bool (and (= t after) at-core (= c p)))
(define-fun directory-steps ((t Moment)) Bool (and (= t after) at-directory))

(define-fun state ((t Moment) (c Core)) CopyState
  (ite (core-steps t c) next (was-state c)))
(define-fun block ((t Moment) (c Core)) Block
  (ite (and (core-steps t c) takes-data) (was-data-block c)
  (ite (and (core-steps t c) writes) written (was-block c))))
(define-fun newest ((t Moment)) Block (ite (and (= t after) writes) written was-newest))

(define-fun request ((t Moment) (c Core)) RequestKind
  (ite (and (directory-steps t) (= c p) (not (= event take-home))) no-request
  (ite (and (core-steps t c) (= sends send-GetS)) GetS
  (ite (and (core-steps t c) (= sends send-GetM)) GetM
  (ite (and (core-steps t c) (= sends send-PutS)) PutS
  (ite (and (core-steps t c) (= sends send-PutM)) PutM (was-request c)))))))
(define-fun request-block ((t Moment) (c Core)) Block
  (ite (and (core-steps t c) (= sends send-PutM)) (was-block c) (was-request-block c)))

(define-fun data ((t Moment) (c Core)) DataKind
  (ite (and (core-steps t c) takes-data) no-data
  (ite (and (= t after) sends-data-to-q (= c q)) Data
  (ite (and (= t after) (= sends reply-Data-E) (= c p)) Data-E
  (ite (and (= t after) sends-data-to-p (= c p)) Data (was-data c))))))
(define-fun data-block ((t Moment) (c Core)) Block
  (ite (and (= t after) sends-data-to-q (= c q)) (was-block p)
  (ite (and (= t after) sends-data-to-p (= c p)) was-home-copy (was-data-block c))))

(define-fun need ((t Moment) (c Core) (d Core)) Bool
  (ite (and (= t after) sends-data-to-q (= c q)) false
  (ite (and (= t after) sends-data-to-p (= c p)) (and (= sends reply-Data-and-Inv) (other-sharer d))
       (was-need c d))))
; The states of a miss. Acknowledgements are counted in these alone: with the miss got is emptied.
(define-fun in-miss ((s CopyState)) Bool
  (or (= s IS_D) (= s IM_AD) (= s IM_A) (= s SM_AD) (= s SM_A)))
(define-fun got ((t Moment) (c Core) (d Core)) Bool
  (ite (core-steps t c) (and (in-miss next) (or (was-got c d) (and takes-inv-ack (= d q))))
       (was-got c d)))
(define-fun ack ((t Moment) (c Core) (d Core)) Bool
  (ite (and (= t after) takes-inv-ack (= c q) (= d p)) false
  (ite (and (= t after) (= sends send-Inv-Ack) (= c p) (= d q)) true (was-ack c d))))

(define-fun inv ((t Moment) (c Core)) Bool
  (ite (and (core-steps t c) (= event take-Inv)) false
  (ite (and (= t after) (= sends reply-Data-and-Inv) (other-sharer c)) true (was-inv c))))
(define-fun inv-names ((t Moment) (c Core) (d Core)) Bool
  (ite (and (core-steps t c) (= event take-Inv)) false
  (ite (and (= t after) (= sends reply-Data-and-Inv) (other-sharer c)) (= d p)
       (was-inv-names c d))))
(define-fun takes-forward ((t Moment) (c Core)) Bool
  (and (core-steps t c) (or (= event take-Fwd-GetS) (= event take-Fwd-GetM))))
(define-fun forward ((t Moment) (c Core)) ForwardKind
  (ite (takes-forward t c) no-forward
  (ite (and (= t after) (= sends forward-GetS) (= c q)) Fwd-GetS
  (ite (and (= t after) (= sends forward-GetM) (= c q)) Fwd-GetM (was-forward c)))))
(define-fun forward-names ((t Moment) (c Core) (d Core)) Bool
  (ite (takes-forward t c) false
  (ite (and (= t after) forwards (= c q)) (= d p) (was-forward-names c d))))
(define-fun put-ack ((t Moment) (c Core)) Bool
  (ite (and (core-steps t c) (= event take-Put-Ack)) false
  (ite (and (= t after) (= sends reply-Put-Ack) (= c p)) true (was-put-ack c))))

(define-fun directory ((t Moment)) DirectoryState
  (ite (directory-steps t) next-directory was-directory))
(define-fun owner ((t Moment) (c Core)) Bool
  (ite (and (directory-steps t) (= next-owner nobody-owns)) false
  (ite (and (directory-steps t) (= next-owner p-owns)) (= c p) (was-owner c))))
(define-fun sharer ((t Moment) (c Core)) Bool
  (ite (and (directory-steps t) (= next-sharers nobody-shares)) false
  (ite (and (directory-steps t) (= next-sharers p-shares)) (= c p)
  (ite (and (directory-steps t) (= next-sharers p-joins)) (or (was-sharer c) (= c p))
  (ite (and (directory-steps t) (= next-sharers p-leaves)) (and (was-sharer c) (not (= c p)))
  (ite (and (directory-steps t) (= next-sharers p-and-q-share)) (or (= c p) (= c q))
       (was-sharer c)))))))
(define-fun home-copy ((t Moment)) Block
  (ite (and (directory-steps t) block-home)
       (ite (= event take-home) was-home-block (was-request-block p)) was-home-copy))
(define-fun home ((t Moment)) Bool
  (ite (and (directory-steps t) (= event take-home)) false
  (ite (and (= t after) (= sends send-Data-and-home)) true was-home)))
(define-fun home-block ((t Moment)) Block
  (ite (and (= t after) (= sends send-Data-and-home)) (was-block p) was-home-block))

";

/// When a row is taken, and what it has to keep.
pub const TAKEN: &str = "\
; ---- When a row is taken, and what it owes

; An event is at hand where its message is at the front of its channel. An access or an eviction is
; at hand at any time.
(define-fun is-at-hand ((e Event)) Bool (and
  (=> (= e take-Fwd-GetS)
      (and (not (was-inv p)) (= (was-forward p) Fwd-GetS) (was-forward-names p q)))
  (=> (= e take-Fwd-GetM)
      (and (not (was-inv p)) (= (was-forward p) Fwd-GetM) (was-forward-names p q)))
  (=> (= e take-Inv) (and (was-inv p) (was-inv-names p q)))
  (=> (= e take-Put-Ack) (put-ack-first before p))
  (=> (= e take-Data-all)
      (and (= (was-data p) Data) (forall ((d Core)) (= (was-got p d) (was-need p d)))))
  (=> (= e take-Data-some)
      (and (= (was-data p) Data) (exists ((d Core)) (and (was-need p d) (not (was-got p d))))))
  (=> (= e take-Data-past)
      (and (= (was-data p) Data) (exists ((d Core)) (and (was-got p d) (not (was-need p d))))))
  (=> (or (= e take-Data-E-loads) (= e take-Data-E-write)) (= (was-data p) Data-E))
  (=> (or (= e take-Inv-Ack-all) (= e take-Inv-Ack-some) (= e take-Inv-Ack-past)) (was-ack q p))
  ; before the data were taken n isn't known, and each of the three is at hand
  (=> (and (= e take-Inv-Ack-all) (counting before p))
      (forall ((d Core)) (= (or (was-got p d) (= d q)) (was-need p d))))
  (=> (and (= e take-Inv-Ack-some) (counting before p))
      (exists ((d Core)) (and (was-need p d) (not (was-got p d)) (not (= d q)))))
  (=> (and (= e take-Inv-Ack-past) (counting before p))
      (exists ((d Core)) (and (or (was-got p d) (= d q)) (not (was-need p d)))))
  (=> (= e take-GetS) (= (was-request p) GetS))
  (=> (= e take-GetM) (= (was-request p) GetM))
  (=> (= e take-PutS) (= (was-request p) PutS))
  (=> (= e take-PutM) (= (was-request p) PutM))
  (=> (= e take-home) was-home)))
(define-fun at-hand () Bool (is-at-hand event))

; A cell of a cache's table: the copy's state, and the event, which is at hand. A row: its cell,
; what it sends, and the next state.
(define-fun cache-event ((s CopyState) (e Event)) Bool
  (and (= (was-state p) s) (= event e) at-hand))
(define-fun cache-row ((s CopyState) (e Event) (x Sends) (n CopyState)) Bool
  (and (cache-event s e) (= sends x) (= next n)))

; An entry of the directory: its state; the owner, which is nobody (owner-in-m says it, outside M),
; or another core than p (o), or p (the asker); whether p is a sharer (r); whether another is (x).
(declare-datatype OwnedBy ((nobody) (another) (asker)))
(define-fun entry-of ((s DirectoryState) (w OwnedBy) (r Bool) (x Bool) (o Core)) Bool
  (and (= was-directory s)
       (=> (= w another) (and (was-owner o) (not (= o p))))
       (=> (= w asker) (was-owner p))
       (= r (was-sharer p))
       (= x (exists ((c Core)) (other-sharer c)))))
(define-fun entry ((s DirectoryState) (w OwnedBy) (r Bool) (x Bool)) Bool (entry-of s w r x q))
; An event of the directory, at hand. A row: the event, what it sends, whether the message's block
; becomes the home copy, the next state, and the next owner and sharers.
(define-fun directory-event ((e Event)) Bool (and (= event e) at-hand))
(define-fun directory-row
  ((e Event) (x Sends) (h Bool) (n DirectoryState) (w NextOwner) (r NextSharers)) Bool
  (and (directory-event e) (= sends x) (= block-home h) (= next-directory n) (= next-owner w)
       (= next-sharers r)))

; There is room for what a row sends, and in a forwarded channel no message is put before one that
; waits: an Inv only into an empty channel, a forwarded request only behind an Inv, a Put-Ack only
; behind one other message at most.
(define-fun room () Bool (and
  (=> sends-request (= (was-request p) no-request))
  (=> sends-data-to-q (= (was-data q) no-data))
  (=> (= sends send-Data-and-home) (not was-home))
  (=> (= sends send-Inv-Ack) (not (was-ack p q)))
  (=> sends-data-to-p (= (was-data p) no-data))
  (=> (= sends reply-Data-and-Inv)
      (forall ((c Core)) (=> (other-sharer c)
        (and (not (was-inv c)) (= (was-forward c) no-forward) (not (was-put-ack c))))))
  (=> forwards (and (= (was-forward q) no-forward) (not (was-put-ack q))))
  (=> (= sends reply-Put-Ack)
      (and (not (was-put-ack p)) (not (and (was-inv p) (not (= (was-forward p) no-forward))))))))
; The sender of the acknowledgement that is taken isn't counted yet: with it the size of got is
; k + 1.
(define-fun counted-once () Bool (=> takes-inv-ack (not (was-got p q))))
; A load that hits reads the block that the last write left.
(define-fun hit-is-newest () Bool (=> (and hits (= event load)) (= (was-block p) was-newest)))
; A write hits only where the core may write, in the sense of one-writer.
(define-fun hit-may-write () Bool (=> writes (writer before p)))

; What each row has to keep.
(define-fun kept () Bool (and (invariant after) room counted-once hit-is-newest hit-may-write))

";
