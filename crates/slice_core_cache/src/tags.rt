ghost use Rattle.std.specs.Prelude.{◌≡◌, ◌<◌, ◌≤◌, length, replicate, slice_set, IfSome, IsTrue, ◌↔◌, None};
ghost use Rattle.slice_core_cache.specs.Tags.{earlier, tag_in, IsLeastReply, MarksReplies};
ghost use Rattle.slice_core_cache.specs.declared.tags.TagState.TheVariants as tag_states;

use address_map::{CoreId, CoreSet};
use std::marker::Model;

/// What a tag of a core names.
#[derive(Clone, Copy, Debug, PartialEq, Eq)]
pub enum TagState {
    Free,
    /// A target.
    Open,
    /// The performed entry with this number, which isn't handed out.
    Performed(u64),
}

/// What the 64 tags of a core name.
#[derive(Debug, Drop)]
pub struct Tags {
    states: [TagState; 64],
    // The tags that name a reply. A core has as many tags as a set can have cores, and so one kind of set serves both.
    replies: CoreSet,
}

impl Model for Tags {
    ghost use Rattle.std.specs.Prelude.{List, ◌≡◌, length};
    ghost use Rattle.slice_core_cache.specs.Tags.{MarksReplies};
    ghost use Rattle.slice_core_cache.specs.declared.tags.TagState.{TagState};

    ghost Value = { List TagState };

    ghost view = { λ t. t.states };

    ghost invariant = { λ t. MarksReplies t.states t.replies };
}

impl Tags {
    pub fn new() -> Self
        ensures { result ≡ replicate 64 tag_states.Free }
    {
        let states = [TagState::Free; 64];
        let replies = CoreSet::none();
        Tags { states, replies }
    }

    /// Returns a copy of the tags.
    pub fn copy(&self) -> Self
        ensures { result ≡ self.now }
    {
        Tags {
            states: self.states,
            replies: self.replies,
        }
    }

    pub fn get(&self, tag: u8) -> TagState
        requires { tag < 64 }
        ensures { result ≡ tag_in self.now tag }
    {
        self.states[tag as usize]
    }

    pub fn set(&mut self, tag: u8, state: TagState)
        requires { tag < 64 }
        ensures { self.new ≡ slice_set self.old tag state }
    {
        self.states[tag as usize] = state;
        match state {
            TagState::Performed(_) => self.replies.insert(CoreId(tag)),
            TagState::Free | TagState::Open => self.replies.remove(CoreId(tag)),
        }
    }

    /// Whether no tag names a reply.
    pub fn has_no_reply(&self) -> bool
        ensures { IsTrue result ↔ IsLeastReply self.now None }
    {
        self.replies.is_empty()
    }

    /// Returns the reply of least number that the tags name, with its tag.
    pub fn least_reply(&self) -> Option<(u8, u64)>
        ensures least { IsLeastReply self.now result }
        ensures tag { IfSome result (λ least. least.0 < 64) }
    {
        least_marked(&self.states, self.replies)
    }
}

// The least of the replies that these tags name.
fn least_marked(states: &[TagState], replies: CoreSet) -> Option<(u8, u64)>
    requires { MarksReplies states.now replies }
    ensures least { IsLeastReply states.now result }
    ensures tag { IfSome result (λ least. least.0 < 64) }
{
    let mut least: Option<(u8, u64)> = None;
    let mut rest = replies;
    while let Some(tag) = rest.pop_first() {
        least = earlier_of(least, tag.0, states[tag.0 as usize]);
    }
    least
}

// The earlier of the reply found so far and the one that the tag names, if it names one.
fn earlier_of(least: Option<(u8, u64)>, tag: u8, state: TagState) -> Option<(u8, u64)>
    ensures { result ≡ earlier least tag state }
{
    match (least, state) {
        (Some((_, found)), TagState::Performed(number)) if number < found => Some((tag, number)),
        (None, TagState::Performed(number)) => Some((tag, number)),
        _ => least,
    }
}
