//! What numbers of C name.
ghost use Rattle.std.specs.Prelude.{◌≡◌, ◌/◌, ◌<◌, IfSome};
ghost use Rattle.litmus_text.specs.Command.{HasCore, HasLine};
ghost use Rattle.lockup_c.specs.Named.{ack_named, class_named, copy_named, file_named, home_named, op_named};
ghost use Rattle.lockup_c.specs.Named.{pick_named, request_named};
ghost use Rattle.lockup_c.specs.Named.{line_named, slice_named, turn_named, word_named};

use address_map::{Checked, CoreId, LineAddr, Op, Request, SliceId, WordAddr};
use slice_core::{Class, Pick};

pub(crate) fn copy_named(config: &Checked, core: u64, line: u64) -> Option<(CoreId, LineAddr)>
    ensures named { result ≡ copy_named config.now core line }
    ensures known { IfSome result (λ named. HasCore config.now named.0 × HasLine config.now named.1) }
    ensures small { IfSome result (λ named. named.1.0 < 65536) }
{
    if core < config.cores() as u64 && line < config.lines() as u64 {
        Some((CoreId(core as u8), LineAddr(line)))
    } else {
        None
    }
}

pub(crate) fn file_named(config: &Checked, core: u64, slice: u64) -> Option<(CoreId, SliceId)>
    ensures named { result ≡ file_named config.now core slice }
    ensures known { IfSome result (λ named. HasCore config.now named.0 × (named.1.0 < config.now.slices)) }
{
    if core < config.cores() as u64 && slice < config.slices() as u64 {
        Some((CoreId(core as u8), SliceId(slice as u8)))
    } else {
        None
    }
}

pub(crate) fn line_named(config: &Checked, line: u64) -> Option<LineAddr>
    ensures { result ≡ line_named config.now line }
{
    if line < config.lines() as u64 {
        Some(LineAddr(line))
    } else {
        None
    }
}

pub(crate) fn word_named(config: &Checked, word: u64) -> Option<WordAddr>
    ensures named { result ≡ word_named config.now word }
    ensures known { IfSome result (λ named. named.0 / 8 < config.now.lines) }
{
    if word / 8 < config.lines() as u64 {
        Some(WordAddr(word))
    } else {
        None
    }
}

pub(crate) fn slice_named(config: &Checked, slice: u64) -> Option<SliceId>
    ensures named { result ≡ slice_named config.now slice }
    ensures known { IfSome result (λ named. named.0 < config.now.slices) }
{
    if slice < config.slices() as u64 {
        Some(SliceId(slice as u8))
    } else {
        None
    }
}

pub(crate) fn op_named(op: u64, operand: u64, replacement: u64) -> Option<Op>
    ensures { result ≡ op_named op operand replacement }
{
    match op {
        0 => Some(Op::Load),
        1 => Some(Op::Store(operand)),
        2 => Some(Op::Add(operand)),
        3 => Some(Op::Cas {
            expect: operand,
            new: replacement,
        }),
        _ => None,
    }
}

pub(crate) fn class_named(channel: u64) -> Option<Class>
    ensures { result ≡ class_named channel }
{
    match channel {
        0 => Some(Class::Req),
        1 => Some(Class::Fwd),
        2 => Some(Class::Data),
        3 => Some(Class::Ack),
        4 => Some(Class::Home),
        5 => Some(Class::Any),
        _ => None,
    }
}

pub(crate) fn pick_named(
    config: &Checked,
    channel: u64,
    line: u64,
    core: u64,
    from: u64,
) -> Option<Pick>
    ensures { result ≡ pick_named config.now channel line core from }
{
    match channel {
        0 => {
            let (core, line) = copy_named(config, core, line)?;
            Some(Pick::Req(line, core))
        }
        1 => {
            let (core, line) = copy_named(config, core, line)?;
            Some(Pick::Fwd(line, core))
        }
        2 => {
            let (core, line) = copy_named(config, core, line)?;
            Some(Pick::Data(line, core))
        }
        3 => ack_named(config, line, core, from),
        4 => home_named(config, line),
        _ => None,
    }
}

/// Returns the channel of acknowledgements from one core to another.
fn ack_named(config: &Checked, line: u64, to: u64, from: u64) -> Option<Pick>
    ensures { result ≡ ack_named config.now line to from }
{
    if from < config.cores() as u64 {
        let (to, line) = copy_named(config, to, line)?;
        let from = CoreId(from as u8);
        Some(Pick::Ack { line, to, from })
    } else {
        None
    }
}

/// Returns the channel of the block that comes home.
fn home_named(config: &Checked, line: u64) -> Option<Pick>
    ensures { result ≡ home_named config.now line }
{
    if line < config.lines() as u64 {
        Some(Pick::Home(LineAddr(line)))
    } else {
        None
    }
}

pub(crate) fn turn_named(config: &Checked, slice: u64, channel: u64) -> Option<(SliceId, Class)>
    ensures named { result ≡ turn_named config.now slice channel }
    ensures known { IfSome result (λ named. named.0.0 < config.now.slices) }
{
    let slice = slice_named(config, slice)?;
    let class = class_named(channel)?;
    Some((slice, class))
}

pub(crate) fn request_named(
    config: &Checked,
    core: u64,
    tag: u64,
    op: u64,
    word: u64,
    operand: u64,
    replacement: u64,
) -> Option<(CoreId, Request)>
    ensures named { result ≡ request_named config.now core tag op word operand replacement }
    ensures known { IfSome result (λ named. HasCore config.now named.0) }
{
    if core < config.cores() as u64 && tag < 256 {
        let op = op_named(op, operand, replacement)?;
        let word = WordAddr(word);
        let tag = tag as u8;
        Some((CoreId(core as u8), Request { op, word, tag }))
    } else {
        None
    }
}
