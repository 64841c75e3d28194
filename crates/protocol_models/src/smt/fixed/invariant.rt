//! What every row keeps, and what is promised.

/// Words for a core and for the directory.
pub const WORDS: &str = "\
; ---- Words for a core

; Its read missed, and it hasn't taken the data.
(define-fun awaits-read-data ((t Moment) (c Core)) Bool (= (state t c) IS_D))
; Its write missed, and it hasn't taken the data.
(define-fun awaits-write-data ((t Moment) (c Core)) Bool
  (or (= (state t c) IM_AD) (= (state t c) SM_AD)))
; Its write missed, it has taken the data, and acknowledgements are missing.
(define-fun counting ((t Moment) (c Core)) Bool
  (or (= (state t c) IM_A) (= (state t c) SM_A)))
; It evicted its copy, and hasn't taken the Put-Ack.
(define-fun leaving ((t Moment) (c Core)) Bool
  (or (= (state t c) MI_A) (= (state t c) SI_A) (= (state t c) II_A)))
; It may write its copy.
(define-fun writer ((t Moment) (c Core)) Bool (or (= (state t c) M) (= (state t c) E)))
; It may read its copy. (In SM_AD and SM_A no load has a row; what is promised holds there too.)
(define-fun readable ((t Moment) (c Core)) Bool
  (or (writer t c) (= (state t c) S) (= (state t c) SM_AD) (= (state t c) SM_A)))
; Its PutS or its PutM waits.
(define-fun put ((t Moment) (c Core)) Bool
  (or (= (request t c) PutS) (= (request t c) PutM)))
; A Put-Ack is at the front of its forwarded channel.
(define-fun put-ack-first ((t Moment) (c Core)) Bool
  (and (put-ack t c) (not (inv t c)) (= (forward t c) no-forward)))
; It holds the line to write: it may write, or will once its data and its acknowledgements have
; come, or it has evicted such a copy and the line isn't given on. In MI_A it is the holder until a
; Put-Ack is at the front: then the directory has taken its PutM as the owner's.
(define-fun holder ((t Moment) (c Core)) Bool
  (or (writer t c) (counting t c) (and (awaits-write-data t c) (not (= (data t c) no-data)))
      (and (= (state t c) MI_A) (not (put-ack-first t c)))
      (= (data t c) Data-E)))
; It is the holder, or will be: its GetM was taken, and its data may not be under way yet.
(define-fun granted ((t Moment) (c Core)) Bool
  (or (holder t c) (and (awaits-write-data t c) (= (request t c) no-request))))
; Which acknowledgements it awaits is known: it has taken the Data that name them, or these are
; under way to it.
(define-fun awaits-acks ((t Moment) (c Core)) Bool
  (or (counting t c) (and (awaits-write-data t c) (not (= (data t c) no-data)))))
; It may read, or will by data that are under way to it.
(define-fun reader ((t Moment) (c Core)) Bool
  (or (readable t c) (and (awaits-read-data t c) (not (= (data t c) no-data)))))
; It can take an Inv that is sent to it now: nothing waits in its forwarded channel, and its copy is
; in S, or in SM_AD or SI_A with its request still waiting, or in IS_D with Data under way, which it
; takes before the Inv.
(define-fun takes-inv ((t Moment) (c Core)) Bool
  (and (not (inv t c)) (= (forward t c) no-forward) (not (put-ack t c))
       (or (= (state t c) S)
           (and (= (state t c) SM_AD) (= (request t c) GetM))
           (and (= (state t c) SI_A) (put t c))
           (and (awaits-read-data t c) (= (data t c) Data)))))
; Its GetS was taken, and its data aren't under way yet: the GetS was forwarded.
(define-fun read-forwarded ((t Moment) (c Core)) Bool
  (and (awaits-read-data t c) (= (request t c) no-request) (= (data t c) no-data)))
; Its GetM was taken, and its data aren't under way yet: the GetM was forwarded.
(define-fun write-forwarded ((t Moment) (c Core)) Bool
  (and (awaits-write-data t c) (= (request t c) no-request) (= (data t c) no-data)))
; The block in its copy has to be the newest: the copy may be read, or is the holder's.
(define-fun must-be-newest ((t Moment) (c Core)) Bool
  (or (readable t c) (counting t c) (and (= (state t c) MI_A) (not (put-ack-first t c)))))

; ---- Words for the directory

; The sharers hold the line to read: the directory is in S, or a block is on its way home (in S_D).
(define-fun sharers-hold ((t Moment)) Bool (or (= (directory t) D_S) (home t)))
; The last owner has still to send the block home: the directory is in S_D, and no block is on its
; way.
(define-fun home-unsent ((t Moment)) Bool (and (= (directory t) D_S_D) (not (home t))))

";

/// The invariant, and the promises that it implies.
pub const INVARIANT: &str = "\
; ---- The invariant

; A GetS waits only for a copy in IS_D, a GetM only for one in IM_AD or SM_AD, a Put only for one
; that leaves, and a PutS never for one in MI_A.
(define-fun request-fits ((t Moment)) Bool (forall ((c Core))
  (and (=> (= (request t c) GetS) (awaits-read-data t c))
       (=> (= (request t c) GetM) (awaits-write-data t c))
       (=> (put t c) (leaving t c)) (=> (= (request t c) PutS) (not (= (state t c) MI_A))))))
; Data are under way only to a core that awaits data, and whose request waits no longer; and Data-E
; only to one that awaits them to read.
(define-fun data-fits ((t Moment)) Bool (forall ((c Core))
  (and (=> (not (= (data t c) no-data))
           (and (= (request t c) no-request) (or (awaits-read-data t c) (awaits-write-data t c))))
       (=> (= (data t c) Data-E) (awaits-read-data t c)))))
; A copy leaves exactly as long as its Put waits or its Put-Ack does, and these never wait both.
(define-fun put-fits ((t Moment)) Bool (forall ((c Core))
  (and (= (leaving t c) (or (put t c) (put-ack t c))) (not (and (put t c) (put-ack t c))))))
; An Inv waits only for a copy in S, SM_AD or SI_A, or in IS_D with its Data under way (the Inv is
; blocked until they are taken).
(define-fun inv-fits ((t Moment)) Bool (forall ((c Core))
  (=> (inv t c) (or (= (state t c) S) (= (state t c) SM_AD) (= (state t c) SI_A)
                    (and (awaits-read-data t c) (= (data t c) Data))))))
; An Inv names a core only while it waits, and it names the holder, if there is one. (The core in
; whose name it was sent is the holder until it has taken all acknowledgements.)
(define-fun inv-names-holder ((t Moment)) Bool (forall ((c Core) (d Core))
  (and (=> (inv-names t c d) (inv t c)) (=> (and (inv t c) (holder t d)) (inv-names t c d)))))
; An Inv waits only while the directory is in M, or in S_D with the block not sent home yet.
(define-fun inv-while-held ((t Moment)) Bool (forall ((c Core))
  (=> (inv t c) (or (= (directory t) D_M) (home-unsent t)))))
; Where c owes d an acknowledgement, by an Inv that waits for c and names d, or by an Inv-Ack of c
; that waits for d: d awaits acknowledgements, and isn't c.
(define-fun debt-fits ((t Moment)) Bool (forall ((c Core) (d Core))
  (=> (or (inv-names t c d) (ack t c d)) (and (awaits-acks t d) (not (= c d))))))
; A core doesn't owe both by an Inv and by an Inv-Ack. (By debt-fits and holder-once it owes none
; but the holder: so it owes one acknowledgement at most.)
(define-fun debt-once ((t Moment)) Bool (forall ((c Core) (d Core))
  (not (and (inv t c) (ack t c d)))))
; A core that awaits acknowledgements needs those that it has counted or is owed, just these, and
; none of them is both.
(define-fun balance ((t Moment)) Bool (forall ((c Core) (d Core))
  (=> (awaits-acks t c)
      (and (= (need t c d) (or (got t c d) (inv-names t d c) (ack t d c)))
           (not (and (got t c d) (or (inv-names t d c) (ack t d c))))))))
; Data for a core that awaits them to read name no acknowledgement.
(define-fun reader-needs-none ((t Moment)) Bool (forall ((c Core) (d Core))
  (=> (and (awaits-read-data t c) (not (= (data t c) no-data))) (not (need t c d)))))
; A core that awaits no acknowledgements has counted none.
(define-fun none-counted ((t Moment)) Bool (forall ((c Core) (d Core))
  (=> (not (awaits-acks t c)) (not (got t c d)))))
; A block is on its way home only in S_D.
(define-fun home-fits ((t Moment)) Bool (=> (home t) (= (directory t) D_S_D)))
; There is an owner only in M.
(define-fun owner-in-m ((t Moment)) Bool (forall ((c Core)) (=> (owner t c) (= (directory t) D_M))))
; There is at most one owner.
(define-fun owner-once ((t Moment)) Bool (forall ((c Core) (d Core))
  (=> (and (owner t c) (owner t d)) (= c d))))
; In M there is an owner.
(define-fun m-has-owner ((t Moment)) Bool
  (=> (= (directory t) D_M) (exists ((c Core)) (owner t c))))
; There are sharers only in S and S_D.
(define-fun sharer-in-s ((t Moment)) Bool (forall ((c Core))
  (=> (sharer t c) (or (= (directory t) D_S) (= (directory t) D_S_D)))))
; In S there is at least one sharer.
(define-fun s-has-sharer ((t Moment)) Bool
  (=> (= (directory t) D_S) (exists ((c Core)) (sharer t c))))
; The owner was granted the line, and no forwarded request waits for it.
(define-fun owner-fits ((t Moment)) Bool (forall ((c Core))
  (=> (owner t c) (and (granted t c) (= (forward t c) no-forward)))))
; A forwarded request waits only for a core that was granted the line.
(define-fun forward-fits ((t Moment)) Bool (forall ((c Core))
  (=> (not (= (forward t c) no-forward)) (granted t c))))
; While there is a holder, the directory is in M, or in S_D with the block not sent home yet.
(define-fun holder-fits ((t Moment)) Bool (forall ((c Core))
  (=> (holder t c) (or (= (directory t) D_M) (home-unsent t)))))
; There is at most one holder.
(define-fun holder-once ((t Moment)) Bool (forall ((c Core) (d Core))
  (=> (and (holder t c) (holder t d)) (= c d))))
; A reader is the holder, or an Inv waits for it, or it is a sharer and the sharers hold the line.
(define-fun reader-fits ((t Moment)) Bool (forall ((c Core))
  (=> (reader t c) (or (holder t c) (inv t c) (and (sharers-hold t) (sharer t c))))))
; While the sharers hold the line, each of them can take an Inv.
(define-fun sharer-fits ((t Moment)) Bool (forall ((c Core))
  (=> (and (sharers-hold t) (sharer t c)) (takes-inv t c))))
; A Fwd-GetS waits only in S_D with the block not sent home yet.
(define-fun server-fits ((t Moment)) Bool (forall ((c Core))
  (=> (= (forward t c) Fwd-GetS) (home-unsent t))))
; A Fwd-GetS waits for at most one core.
(define-fun server-once ((t Moment)) Bool (forall ((c Core) (d Core))
  (=> (and (= (forward t c) Fwd-GetS) (= (forward t d) Fwd-GetS)) (= c d))))
; A Fwd-GetS names only a core whose GetS was forwarded.
(define-fun asker-fits ((t Moment)) Bool (forall ((c Core) (d Core))
  (=> (and (= (forward t c) Fwd-GetS) (forward-names t c d)) (read-forwarded t d))))
; While a Fwd-GetS waits, the sharers are the core that it names and the core for which it waits:
; the latter only until its Put is taken, that is, as long as no Put-Ack waits for it.
(define-fun server-and-asker-share ((t Moment)) Bool (forall ((c Core) (d Core) (e Core))
  (=> (and (= (forward t c) Fwd-GetS) (forward-names t c d))
      (= (sharer t e) (or (= e d) (and (= e c) (not (put-ack t c))))))))
; A Fwd-GetM names only a core whose GetM was forwarded.
(define-fun chained ((t Moment)) Bool (forall ((c Core) (d Core))
  (=> (and (= (forward t c) Fwd-GetM) (forward-names t c d)) (write-forwarded t d))))
; A forwarded request names a core only while it waits, and not the core in whose channel it waits.
(define-fun forward-names-another ((t Moment)) Bool (forall ((c Core) (d Core))
  (=> (forward-names t c d) (and (not (= c d)) (not (= (forward t c) no-forward))))))
; A forwarded request names at most one core.
(define-fun forward-names-one ((t Moment)) Bool (forall ((c Core) (d Core) (e Core))
  (=> (and (forward-names t c d) (forward-names t c e)) (= d e))))
; No two forwarded requests name the same core.
(define-fun forward-named-once ((t Moment)) Bool (forall ((c Core) (d Core) (e Core))
  (=> (and (forward-names t c e) (forward-names t d e)) (= c d))))
; Without the exclusive state there is neither E nor Data-E.
(define-fun no-exclusive ((t Moment)) Bool (or exclusive (forall ((c Core))
  (and (not (= (state t c) E)) (not (= (data t c) Data-E))))))
; Each copy whose block has to be the newest has the newest block.
(define-fun copy-is-newest ((t Moment)) Bool (forall ((c Core))
  (=> (must-be-newest t c) (= (block t c) (newest t)))))
; Data under way carry the newest block.
(define-fun data-are-newest ((t Moment)) Bool (forall ((c Core))
  (=> (not (= (data t c) no-data)) (= (data-block t c) (newest t)))))
; The owner's PutM carries the newest block.
(define-fun put-is-newest ((t Moment)) Bool (forall ((c Core))
  (=> (and (owner t c) (= (request t c) PutM)) (= (request-block t c) (newest t)))))
; In I and S the home copy is the newest block.
(define-fun home-copy-is-newest ((t Moment)) Bool
  (=> (or (= (directory t) D_I) (= (directory t) D_S)) (= (home-copy t) (newest t))))
; A block on its way home is the newest.
(define-fun home-block-is-newest ((t Moment)) Bool (=> (home t) (= (home-block t) (newest t))))

; With true in the next line the invariant also says that nothing is lost: for each core that waits
; there is what it waits for. That is in no decidable fragment: solvers may run on for ever.
(define-fun with-nothing-lost () Bool false)
; Each core whose GetS was forwarded is named by a Fwd-GetS that waits.
(define-fun read-is-asked ((t Moment)) Bool (or (not with-nothing-lost) (forall ((c Core))
  (=> (read-forwarded t c)
      (exists ((d Core)) (and (= (forward t d) Fwd-GetS) (forward-names t d c)))))))
; Each core whose GetM was forwarded is named by a Fwd-GetM that waits.
(define-fun write-is-asked ((t Moment)) Bool (or (not with-nothing-lost) (forall ((c Core))
  (=> (write-forwarded t c)
      (exists ((d Core)) (and (= (forward t d) Fwd-GetM) (forward-names t d c)))))))
; Each core that counts lacks an acknowledgement.
(define-fun one-is-missing ((t Moment)) Bool (or (not with-nothing-lost) (forall ((c Core))
  (=> (counting t c) (exists ((d Core)) (and (need t c d) (not (got t c d))))))))
; Each forwarded request names a core.
(define-fun forward-has-name ((t Moment)) Bool (or (not with-nothing-lost) (forall ((c Core))
  (=> (not (= (forward t c) no-forward)) (exists ((d Core)) (forward-names t c d))))))
; Each Inv names a core.
(define-fun inv-has-name ((t Moment)) Bool (or (not with-nothing-lost) (forall ((c Core))
  (=> (inv t c) (exists ((d Core)) (inv-names t c d))))))
; For each core that was granted the line and isn't the owner a forwarded request waits.
(define-fun granted-is-asked ((t Moment)) Bool (or (not with-nothing-lost) (forall ((c Core))
  (=> (and (granted t c) (not (owner t c))) (not (= (forward t c) no-forward))))))
; In S_D with the block not sent home yet a Fwd-GetS waits.
(define-fun home-is-asked ((t Moment)) Bool (or (not with-nothing-lost)
  (=> (home-unsent t) (exists ((c Core)) (= (forward t c) Fwd-GetS)))))
; In M, and in S_D with the block not sent home yet, there is a holder.
(define-fun block-is-held ((t Moment)) Bool (or (not with-nothing-lost)
  (=> (or (= (directory t) D_M) (home-unsent t)) (exists ((c Core)) (holder t c)))))

; The invariant has all these parts.
(define-fun invariant ((t Moment)) Bool (and
  (request-fits t) (data-fits t) (put-fits t) (inv-fits t) (inv-names-holder t) (inv-while-held t)
  (debt-fits t) (debt-once t) (balance t) (reader-needs-none t) (none-counted t)
  (home-fits t) (owner-in-m t) (owner-once t) (m-has-owner t) (sharer-in-s t) (s-has-sharer t)
  (owner-fits t) (forward-fits t) (holder-fits t) (holder-once t) (reader-fits t) (sharer-fits t)
  (server-fits t) (server-once t) (asker-fits t) (server-and-asker-share t) (chained t)
  (forward-names-another t) (forward-names-one t) (forward-named-once t) (no-exclusive t)
  (copy-is-newest t) (data-are-newest t) (put-is-newest t) (home-copy-is-newest t)
  (home-block-is-newest t)
  (read-is-asked t) (write-is-asked t) (one-is-missing t) (forward-has-name t) (inv-has-name t)
  (granted-is-asked t) (home-is-asked t) (block-is-held t)))

; ---- What is promised

; Where one core may write, no other may read.
(define-fun one-writer ((t Moment)) Bool (forall ((c Core) (d Core))
  (=> (and (writer t c) (readable t d)) (= c d))))
; A copy that may be read has the block that the last write left.
(define-fun newest-is-read ((t Moment)) Bool (forall ((c Core))
  (=> (readable t c) (= (block t c) (newest t)))))
; Data and a Put-Ack are under way only to a core whose own request waits no longer.
(define-fun nothing-early ((t Moment)) Bool (forall ((c Core))
  (=> (or (not (= (data t c) no-data)) (put-ack t c)) (= (request t c) no-request))))

";
