//! The structs of `lockup.h`, each of numbers alone.

#[repr(C)]
#[derive(Clone, Copy)]
pub struct Config {
    pub cores: u64,
    pub slices: u64,
    pub lines: u64,
    pub sets: u64,
    pub ways: u64,
    pub mshrs: u64,
    pub targets: u64,
    pub writebacks: u64,
    pub policy: u64,
    pub seed: u64,
    pub misses: u64,
    pub exclusive: u64,
}

#[repr(C)]
#[derive(Clone, Copy)]
pub struct Initial {
    pub word: u64,
    pub value: u64,
}

#[repr(C)]
#[derive(Clone, Copy)]
pub struct IssuedNumbers {
    pub answer: u64,
    pub number: u64,
    pub reply: u64,
}

#[repr(C)]
#[derive(Clone, Copy)]
pub struct DecisionNumbers {
    pub kind: u64,
    pub reason: u64,
    pub next: u64,
    pub victim: u64,
}

#[repr(C)]
#[derive(Clone, Copy)]
pub struct PlannedNumbers {
    pub answer: u64,
    pub next: u64,
    pub owner: u64,
    pub sharers: u64,
}

#[repr(C)]
#[derive(Clone, Copy)]
pub struct NextNumbers {
    pub answer: u64,
    pub channel: u64,
    pub line: u64,
    pub core: u64,
    pub from: u64,
}

#[repr(C)]
#[derive(Clone, Copy)]
pub struct ReceiptNumbers {
    pub handed: u64,
    pub number: u64,
    pub tag: u64,
    pub reply: u64,
}

#[repr(C)]
#[derive(Clone, Copy)]
pub struct CopyNumbers {
    pub state: u64,
    pub wants: u64,
    pub counted: u64,
    pub block: [u64; 8],
}

#[repr(C)]
#[derive(Clone, Copy)]
pub struct DirectoryNumbers {
    pub state: u64,
    pub owner: u64,
    pub sharers: u64,
    pub home: [u64; 8],
}

#[repr(C)]
#[derive(Clone, Copy)]
pub struct WordNumbers {
    pub quiet: u64,
    pub value: u64,
}

#[repr(C)]
#[derive(Clone, Copy)]
pub struct EntryNumbers {
    pub core: u64,
    pub seq: u64,
    pub tag: u64,
    pub op: u64,
    pub word: u64,
    pub operand: u64,
    pub replacement: u64,
    pub reply: u64,
    pub since: u64,
}

#[repr(C)]
#[derive(Clone, Copy)]
pub struct RegisterNumbers {
    pub line: u64,
    pub kind: u64,
    pub needed: u64,
    pub counted: u64,
    pub targets: u64,
}

#[repr(C)]
#[derive(Clone, Copy)]
pub struct TargetNumbers {
    pub tag: u64,
    pub op: u64,
    pub word: u64,
    pub operand: u64,
    pub replacement: u64,
    pub seq: u64,
    pub since: u64,
}

#[repr(C)]
#[derive(Clone, Copy)]
pub struct MessageNumbers {
    pub channel: u64,
    pub line: u64,
    pub core: u64,
    pub from: u64,
    pub kind: u64,
    pub requester: u64,
    pub acks: u64,
    pub block: [u64; 8],
}

#[repr(C)]
#[derive(Clone, Copy)]
pub struct VerdictNumbers {
    pub verdict: u64,
    pub entry: u64,
}

#[repr(C)]
#[derive(Clone, Copy)]
pub struct AccessNumbers {
    pub core: u64,
    pub op: u64,
    pub word: u64,
    pub operand: u64,
    pub replacement: u64,
    pub reply: u64,
    pub begin: u64,
    pub end: u64,
}

#[repr(C)]
#[derive(Clone, Copy)]
pub struct JudgementNumbers {
    pub verdict: u64,
    pub word: u64,
    pub reasons: u64,
}

#[repr(C)]
#[derive(Clone, Copy)]
pub struct ReasonNumbers {
    pub why: u64,
    pub first: u64,
    pub last: u64,
    pub other: u64,
}

#[repr(C)]
#[derive(Clone, Copy)]
pub struct CoreCounts {
    pub hits: u64,
    pub primary: u64,
    pub secondary: u64,
    pub stalls: [u64; 5],
    pub evictions: u64,
    pub silent: u64,
}

#[repr(C)]
#[derive(Clone, Copy)]
pub struct SliceCounts {
    pub req: u64,
    pub fwd: u64,
    pub data_replies: u64,
    pub ack: u64,
    pub home: u64,
}
