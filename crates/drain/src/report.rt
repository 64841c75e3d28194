use address_map::WordAddr;
use receipt_ledger::Receipt;

/// Whether the rounds were enough.
#[derive(Clone, Copy, Debug, PartialEq, Eq)]
pub enum Drain {
    /// Each slice was quiet when it was looked at.
    Drained,
    /// After the last round a slice wasn't quiet.
    Stuck,
}

/// The value of a counter.
#[derive(Clone, Copy, Debug, PartialEq, Eq)]
pub struct CounterValue {
    pub word: WordAddr,
    pub value: u64,
}

/// Word 0 with the value 0, which is in the free places of a fixed table.
impl Default for CounterValue {
    fn default() -> CounterValue {
        CounterValue {
            word: WordAddr(0),
            value: 0,
        }
    }
}

/// What an audit found: the receipts of all cores, by core, then slice, then in the order in which they were handed
/// out; and the value of each counter, in the configured order.
#[derive(Drop)]
pub struct Audit {
    pub receipts: Vec<Receipt>,
    pub counters: Vec<CounterValue>,
}
