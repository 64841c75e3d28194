ghost use Rattle.std.specs.Prelude.{◌≡◌, All};
ghost use Rattle.stats_report.specs.Report.{views_of, HasCore, shown_of, core_total, message_totals, sum_of};

use super::column::Column;
use slice_answer::{MessageCounts, Stats};

/// The sum over the slices of one core's counts.
pub fn total(stats: &[&Stats], core: usize, column: Column) -> u64
    requires { All (HasCore core) (views_of stats.now) }
    ensures { result ≡ core_total (views_of stats.now) core column }
{
    let mut total: u64 = 0;
    for slice in stats {
        total = total.saturating_add(shown(slice, core, column));
    }
    total
}

// What a column shows of one slice.
fn shown(slice: &Stats, core: usize, column: Column) -> u64
    requires { HasCore core slice.now }
    ensures { result ≡ shown_of core column slice.now }
{
    column.count(&slice.cores()[core])
}

/// The sums over the slices of the messages that were taken.
pub fn total_messages(stats: &[&Stats]) -> MessageCounts
    ensures { result ≡ message_totals (views_of stats.now) }
{
    let mut total = MessageCounts::default();
    for slice in stats {
        add_messages(&mut total, slice.messages());
    }
    total
}

// Adds the messages of one more slice.
fn add_messages(total: &mut MessageCounts, counts: &MessageCounts)
    ensures { total.new ≡ sum_of total.old counts.now }
{
    total.requests = total.requests.saturating_add(counts.requests);
    total.forwarded = total.forwarded.saturating_add(counts.forwarded);
    total.data_replies = total.data_replies.saturating_add(counts.data_replies);
    total.acknowledgements = total
        .acknowledgements
        .saturating_add(counts.acknowledgements);
    total.home = total.home.saturating_add(counts.home);
}
