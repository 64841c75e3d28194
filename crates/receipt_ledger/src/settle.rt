ghost use Rattle.std.specs.Prelude.{◌≡◌, ◌+◌, ◌<◌, ◌↔◌, ◌∷◌, length, map, IfSome, IsSome};
ghost use Rattle.receipt_ledger.specs.Booked.{IsTied};
ghost use Rattle.receipt_ledger.specs.History.{AreHeld};
ghost use Rattle.receipt_ledger.specs.Port.{held_by};
ghost use Rattle.receipt_ledger.specs.Settled.{held_in, IsSettled};
ghost use Rattle.address_map.specs.Place.{counters_of};
ghost use Rattle.receipt_ledger.specs.Totals.{together};
ghost use Rattle.slice_log.specs.Log.{initially, value};
ghost use Rattle.slice_core_spec.specs.View.{IsQuiet};

use super::book::Book;
use super::gather::gather;
use super::held::are_held;
use super::lends::Lends;
use super::names::SliceNames;
use super::port::Port;
use address_map::WordAddr;
use arrayvec::ArrayVec;
use mshr_file::MissFile;
use slice_core::SliceState;

impl<N: SliceNames> Book<N> {
    /// Settles a quiet slice with all its ports: the value of each of its counters, ascending by word. There is none
    /// where the ports' requests and receipts aren't the slice's log. It allocates nothing and leaves the ports as they
    /// were.
    pub fn settle<F: MissFile, T: Lends<Port<N>, K>, const K: usize>(
        &mut self,
        state: &SliceState<F>,
        ports: &mut [T],
    ) -> Option<ArrayVec<u64, 8>>
        requires tied { IsTied N.setup N.number self.old state.now }
        requires whole { length ports.old ≡ N.setup.cores }
        ensures history { IsSome result ↔ IsQuiet state.now.view × AreHeld (map T.part ports.old) state.now.view.log }
        ensures settled { IfSome result (λ values. IsSettled N.setup N.number state.now.view
            (map T.part ports.old) values.items) }
        ensures book { self.new ≡ self.old }
        ensures ports { ports.new ≡ ports.old }
    {
        if !state.is_quiet() {
            return None;
        }
        if !are_held(state.log(), ports) {
            return None;
        }
        self.compare(ports);
        Some(self.values(state))
    }

    // Compares the book with what all ports hold together.
    fn compare<T: Lends<Port<N>, K>, const K: usize>(&mut self, ports: &mut [T])
        requires whole { length ports.old ≡ N.setup.cores }
        requires some { 0 < N.setup.cores }
        ensures book { self.new ≡ self.old }
        ensures ports { ports.new ≡ ports.old }
        ensures held { held_in N.setup N.number (map T.part ports.old) ≡ self.old }
    {
        match ports.split_first_mut() {
            None => unreachable!(),
            Some((first, rest)) => self.compare_first(first, rest),
        }
    }

    fn compare_first<T: Lends<Port<N>, K>, const K: usize>(&mut self, first: &mut T, rest: &mut [T])
        requires { 1 + length rest.old ≡ N.setup.cores }
        ensures book { self.new ≡ self.old }
        ensures first { first.new ≡ first.old }
        ensures rest { rest.new ≡ rest.old }
        ensures held { held_in N.setup N.number (T.part first.old ∷ map T.part rest.old) ≡ self.old }
    {
        self.compare_port(first.part_mut(), rest);
    }

    // The first port's share gathers all others.
    fn compare_port<T: Lends<Port<N>, K>, const K: usize>(
        &mut self,
        port: &mut Port<N>,
        rest: &mut [T],
    )
        requires { 1 + length rest.old ≡ N.setup.cores }
        ensures book { self.new ≡ self.old }
        ensures port { port.new ≡ port.old }
        ensures rest { rest.new ≡ rest.old }
        ensures held { held_in N.setup N.number (port.old ∷ map T.part rest.old) ≡ self.old }
    {
        gather(&mut self.books, &self.counters, &mut port.shares, rest);
    }

    // The value of each counter of a quiet slice.
    fn values<F: MissFile>(&self, state: &SliceState<F>) -> ArrayVec<u64, 8>
        requires tied { IsTied N.setup N.number self.now state.now }
        requires quiet { IsQuiet state.now.view }
        ensures { result.items ≡ map (λ word. value (initially state.now.view.init word.0) state.now.view.log word.0)
            (counters_of N.setup N.number) }
    {
        let counters: &[WordAddr] = &self.counters;
        let mut values = ArrayVec::new();
        for word in counters {
            values.push(state.word_now(*word));
        }
        values
    }
}
