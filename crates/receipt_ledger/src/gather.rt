ghost use Rattle.std.specs.Prelude.{◌≡◌, ◌+◌, ◌<◌, ℕ, length, map, ◌∷◌};
ghost use Rattle.receipt_ledger.specs.Names.{AreCounters};
ghost use Rattle.receipt_ledger.specs.Port.{entries_of};
ghost use Rattle.receipt_ledger.specs.Settled.{held_in};
ghost use Rattle.receipt_ledger.specs.Totals.{Totals, nothing, together, totals};

use super::lends::Lends;
use super::names::SliceNames;
use super::port::Port;
use super::receipt::Receipt;
use super::shares::{Books, Shares};
use address_map::WordAddr;

// Compares the books with what a share and these ports hold together, where they have all parts between them. Each gets
// back what it had.
#[cycle(gather)]
pub(crate) fn gather<N: SliceNames, T: Lends<Port<N>, K>, const K: usize>(
    books: &mut Books<N>,
    words: &[WordAddr],
    share: &mut Shares<N>,
    ports: &mut [T],
)
    requires words { AreCounters N.setup N.number words.now }
    requires parts { share.old.parts + length ports.old ≡ N.setup.cores }
    requires some { 0 < share.old.parts }
    ensures books { books.new ≡ books.old }
    ensures share { share.new ≡ share.old }
    ensures ports { ports.new ≡ ports.old }
    ensures whole { together share.old.held (held_in N.setup N.number (map T.part ports.old)) ≡ books.old }
{
    match ports.split_first_mut() {
        None => books.audit(share),
        Some((first, rest)) => gather_first(books, words, share, first, rest),
    }
}

// The same with the port that is borrowed from the first one.
#[cycle(gather)]
fn gather_first<N: SliceNames, T: Lends<Port<N>, K>, const K: usize>(
    books: &mut Books<N>,
    words: &[WordAddr],
    share: &mut Shares<N>,
    first: &mut T,
    rest: &mut [T],
)
    requires words { AreCounters N.setup N.number words.now }
    requires parts { share.old.parts + (length rest.old + 1) ≡ N.setup.cores }
    requires some { 0 < share.old.parts }
    ensures books { books.new ≡ books.old }
    ensures share { share.new ≡ share.old }
    ensures first { first.new ≡ first.old }
    ensures rest { rest.new ≡ rest.old }
    ensures whole { together share.old.held (held_in N.setup N.number (T.part first.old ∷ map T.part rest.old)) ≡
        books.old }
{
    gather_port(books, words, share, first.part_mut(), rest);
}

// The same with one port more.
#[cycle(gather)]
fn gather_port<N: SliceNames, T: Lends<Port<N>, K>, const K: usize>(
    books: &mut Books<N>,
    words: &[WordAddr],
    share: &mut Shares<N>,
    port: &mut Port<N>,
    rest: &mut [T],
)
    requires words { AreCounters N.setup N.number words.now }
    requires parts { share.old.parts + (length rest.old + 1) ≡ N.setup.cores }
    requires some { 0 < share.old.parts }
    ensures books { books.new ≡ books.old }
    ensures share { share.new ≡ share.old }
    ensures port { port.new ≡ port.old }
    ensures rest { rest.new ≡ rest.old }
    ensures whole { together share.old.held (held_in N.setup N.number (port.old ∷ map T.part rest.old)) ≡ books.old }
{
    share.gather(&mut port.shares);
    gather(books, words, share, rest);
    let accepted = port.account.accepted() as u64;
    give_back(
        share,
        &mut port.shares,
        words,
        accepted,
        port.account.receipts(),
    );
}

// Gives a share that was gathered its part, its requests and its receipts' entries back.
fn give_back<N: SliceNames>(
    from: &mut Shares<N>,
    to: &mut Shares<N>,
    words: &[WordAddr],
    accepted: u64,
    receipts: &[Receipt],
)
    requires words { AreCounters N.setup N.number words.now }
    requires parts { 1 < from.old.parts }
    requires none { (to.old.parts ≡ 0) × (to.old.held ≡ nothing) }
    requires held { (rest : Totals) × (from.old.held ≡ together rest
        (totals words.now accepted (entries_of receipts.now))) }
    ensures parts_left { from.new.parts + 1 ≡ from.old.parts }
    ensures held_left { together from.new.held (totals words.now accepted (entries_of receipts.now)) ≡ from.old.held }
    ensures parts_given { to.new.parts ≡ 1 }
    ensures held_given { to.new.held ≡ totals words.now accepted (entries_of receipts.now) }
{
    from.give_part(to);
    from.give_accepted(to, accepted);
    for receipt in receipts {
        from.give_handed(to, words, &receipt.entry);
    }
}
