ghost use Rattle.std.specs.Prelude.{◌≡◌, ◌⊎◌, ◌+◌, ◌-◌, ◌<◌, ◌≤◌, ◌↔◌, length, map, slice_get, Contains, IsSomeAnd};
ghost use Rattle.std.specs.Prelude.{IsTrue, Some};
ghost use Rattle.receipt_ledger.specs.History.{AreHeld, HasAsked, HasReceipt, IsHeld, request_of};

use super::account::request_of;
use super::lends::Lends;
use super::names::SliceNames;
use super::port::Port;
use super::receipt::{Ask, Receipt};
use address_map::SliceId;
use slice_log::Entry;

// Whether each entry of the log is held by the port of its core, as it was asked for.
pub(crate) fn are_held<N: SliceNames, T: Lends<Port<N>, K>, const K: usize>(
    log: &[Entry],
    ports: &[T],
) -> bool
    ensures { IsTrue result ↔ AreHeld (map T.part ports.now) log.now }
{
    for (number, entry) in log.iter().enumerate() {
        if !is_held(ports, number as u64, entry) {
            return false;
        }
    }
    true
}

// Whether the port of the entry's core asked for it, and has its receipt.
fn is_held<N: SliceNames, T: Lends<Port<N>, K>, const K: usize>(
    ports: &[T],
    number: u64,
    entry: &Entry,
) -> bool
    ensures { IsTrue result ↔ IsHeld (map T.part ports.now) number entry.now }
{
    for lender in ports {
        let port = lender.part();
        if port.core().0 == entry.core.0 {
            return port.has_asked(number, entry) && port.has_receipt(number, entry);
        }
    }
    false
}

impl<N: SliceNames> Port<N> {
    // Whether it asked for the entry of this number, when it had seen no more than was there before.
    fn has_asked(&self, number: u64, entry: &Entry) -> bool
        ensures { IsTrue result ↔ HasAsked self.now number entry.now }
    {
        was_asked(self.asked(entry.seq), number, entry)
    }

    // Whether it has the receipt of the entry of this number. That is looked for from the request's own place outwards:
    // it is as far from there as requests overtook it and it overtook. Each overtakes fewer than the 64 that a core
    // can have in flight, so the looks for all receipts of a port grow with their number, though those for one may be
    // many.
    fn has_receipt(&self, number: u64, entry: &Entry) -> bool
        ensures { IsTrue result ↔ HasReceipt self.now number entry.now }
    {
        let wanted = Receipt {
            entry: *entry,
            number,
            slice: self.slice(),
        };
        is_among(self.receipts(), entry.seq, &wanted)
    }
}

fn was_asked(asked: Option<Ask>, number: u64, entry: &Entry) -> bool
    ensures { IsTrue result ↔ IsSomeAnd asked (λ ask. (ask.request ≡ request_of entry.now) × (ask.seen ≤ number)) }
{
    match asked {
        Some(ask) => ask.request == request_of(entry) && ask.seen <= number,
        None => false,
    }
}

// Whether the receipt is one of these. It is looked for at this place first, and then ever further from it.
fn is_among(receipts: &[Receipt], place: u64, wanted: &Receipt) -> bool
    ensures { IsTrue result ↔ Contains receipts.now wanted.now }
{
    let first = receipts.len().min(place as usize);
    for distance in 0..receipts.len() {
        if is_so_far(receipts, first, distance, wanted) {
            return true;
        }
    }
    false
}

// Whether the receipt is `distance` from the place, after it or before it.
fn is_so_far(receipts: &[Receipt], place: usize, distance: usize, wanted: &Receipt) -> bool
    requires place { place ≤ length receipts.now }
    requires distance { distance < length receipts.now }
    ensures { IsTrue result ↔ (slice_get receipts.now (place + distance) ≡ Some wanted.now)
        ⊎ ((distance < place) × (slice_get receipts.now (place - distance - 1) ≡ Some wanted.now)) }
{
    let _long = receipts.len();
    is_at(receipts, place + distance, wanted)
        || (distance < place && is_at(receipts, place - distance - 1, wanted))
}

fn is_at(receipts: &[Receipt], place: usize, wanted: &Receipt) -> bool
    ensures { IsTrue result ↔ (slice_get receipts.now place ≡ Some wanted.now) }
{
    place < receipts.len() && *receipt_at(receipts, place) == *wanted
}

fn receipt_at(receipts: &[Receipt], place: usize) -> &Receipt
    requires { place < length receipts.now }
    ensures { slice_get receipts.now place ≡ Some result.now }
{
    &receipts[place]
}
