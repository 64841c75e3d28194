ghost use Rattle.std.specs.Prelude.{◌≡◌, ◌+◌, ◌^◌, ◌<◌, ◌≤◌, ◌++◌, [], ◌∷◌, length, nat_lt, take, vec_capacity, All};
ghost use Rattle.std.specs.Prelude.{slice_set};
ghost use Rattle.mshr_file.specs.Miss.{IsMissFile, is_waited, targets_of, TakesTargets};
ghost use Rattle.slice_core_cache.specs.Copy.{performed_on};
ghost use Rattle.slice_core_cache.specs.Perform.{block_after, entries_of, entry_of, left_in, performed_in, tags_after};
ghost use Rattle.slice_core_cache.specs.Targets.{IsPerformable};
ghost use Rattle.slice_core_cache.specs.declared.tags.TagState.TheVariants as tag_states;

use super::tags::{TagState, Tags};
use address_map::{Block, CoreId, Local, WordAddr};
use cache_table::CopyState;
use mshr_file::MissFile;
use slice_log::{Entry, performed, reply_to};
use target_list::Target;

/// Returns how many of the targets that wait for the line, `waiting` of them, a copy in this state performs.
pub fn count_allowed<F: MissFile>(file: &F, local: Local, waiting: usize, state: CopyState) -> usize
    requires { waiting ≡ length (targets_of (F.misses file.now) local.0) }
    ensures few { result ≤ length (targets_of (F.misses file.now) local.0) }
    ensures allowed { take result (targets_of (F.misses file.now) local.0)
        ≡ performed_in state (targets_of (F.misses file.now) local.0) }
    ensures left { nat_lt result (length (targets_of (F.misses file.now) local.0))
        ≡ is_waited (left_in state (targets_of (F.misses file.now) local.0)) }
{
    match state {
        CopyState::S => file.front_loads(local),
        CopyState::M | CopyState::E => waiting,
        _ => 0,
    }
}

/// Performs the first `count` targets of a line on its block, and logs each. `first` is the line's first
/// word. The log has room.
pub fn perform<F: MissFile>(
    file: &mut F,
    tags: &mut Tags,
    block: &mut Block,
    log: &mut Vec<Entry>,
    core: CoreId,
    local: Local,
    first: u64,
    count: usize,
)
    requires enough { count ≤ length (targets_of (F.misses file.old) local.0) }
    requires performable { All IsPerformable (targets_of (F.misses file.old) local.0) }
    requires room { length log.old.items + count ≤ vec_capacity log.old }
    requires first { first + 8 ≤ 2 ^ 64 }
    ensures taken { TakesTargets (F.misses file.old) (F.misses file.new) local.0
        (take count (targets_of (F.misses file.old) local.0)) }
    ensures sound { IsMissFile (F.misses file.old) → IsMissFile (F.misses file.new) }
    ensures bound { F.bound file.new ≡ F.bound file.old }
    ensures block { block.new ≡ block_after block.old (take count (targets_of (F.misses file.old) local.0)) }
    ensures tags { tags.new ≡ tags_after tags.old (length log.old.items)
        (take count (targets_of (F.misses file.old) local.0)) }
    ensures log { log.new.items ≡ log.old.items ++ entries_of core first block.old
        (take count (targets_of (F.misses file.old) local.0)) }
    ensures room { vec_capacity log.new ≡ vec_capacity log.old }
{
    for done in 0..count {
        let target = file.take_first(local);
        perform_one(tags, block, log, core, first, target);
    }
}

// Performs one target, and logs it.
fn perform_one(
    tags: &mut Tags,
    block: &mut Block,
    log: &mut Vec<Entry>,
    core: CoreId,
    first: u64,
    target: Target,
)
    requires performable { IsPerformable target }
    requires room { length log.old.items < vec_capacity log.old }
    requires first { first + 8 ≤ 2 ^ 64 }
    ensures block { block.new ≡ performed_on block.old target.offset.0 target.op }
    ensures tags { tags.new ≡ slice_set tags.old target.tag (tag_states.Performed (length log.old.items)) }
    ensures log { log.new.items ≡ log.old.items ++ entry_of core first block.old target ∷ [] }
    ensures room { vec_capacity log.new ≡ vec_capacity log.old }
{
    let word = &mut block.words[target.offset.0 as usize];
    let value = *word;
    *word = performed(target.op, value);
    tags.set(target.tag, TagState::Performed(log.len() as u64));
    log.push_reserved(Entry {
        op: target.op,
        word: WordAddr(first + u64::from(target.offset.0)),
        seq: target.seq,
        reply: reply_to(target.op, value),
        since: target.since,
        core,
        tag: target.tag,
    });
}
