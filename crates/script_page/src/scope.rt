//! What a command can change.
ghost use Rattle.std.specs.Prelude.{◌≡◌, ◌%◌, Some};
ghost use Rattle.script_page.specs.Scope.{scope_of, taker_of};

use address_map::{Checked, CoreId, LineAddr};
use litmus_text::Command;
use slice_core::Pick;

/// What a command can change: in a slice a line, and what a core has there. An access can evict another line.
#[derive(Clone, Copy)]
pub(crate) struct Scope {
    pub(crate) slice: usize,
    pub(crate) line: Option<LineAddr>,
    pub(crate) core: Option<CoreId>,
    pub(crate) evicts: bool,
}

/// Returns what a command can change: none for one that shows what several lines or slices have, nor for a pump, whose
/// deliveries have scopes of their own.
pub(crate) fn scope_of(config: &Checked, command: Command) -> Option<Scope>
    ensures { result ≡ scope_of config.now command }
{
    match command {
        Command::Issue { core, request } => {
            Some(of_line(config, request.word.line(), Some(core), true))
        }
        Command::Evict { core, line } => Some(of_line(config, line, Some(core), false)),
        Command::Deliver(pick) => Some(of_line(config, pick.line(), taker_of(pick), false)),
        Command::Hand { core, slice } => Some(Scope {
            slice: slice.0 as usize,
            line: None,
            core: Some(core),
            evicts: false,
        }),
        Command::Look(look) => {
            let line = look.line()?;
            Some(of_line(config, line, None, false))
        }
        Command::Pump(_) => None,
    }
}

/// .. of one that is about a line, which belongs to the slice that its number gives.
fn of_line(config: &Checked, line: LineAddr, core: Option<CoreId>, evicts: bool) -> Scope
    ensures { result ≡ record {
      slice = line.0 % config.now.slices;
      line = Some line;
      core = core;
      evicts = evicts;
    } }
{
    Scope {
        slice: (line.0 % config.slices() as u64) as usize,
        line: Some(line),
        core,
        evicts,
    }
}

/// Returns the core that takes the messages of a channel: none where the directory does.
const fn taker_of(pick: Pick) -> Option<CoreId>
    ensures { result ≡ taker_of pick }
{
    match pick {
        Pick::Fwd(_, core) | Pick::Data(_, core) | Pick::Ack { to: core, .. } => Some(core),
        Pick::Req(..) | Pick::Home(_) => None,
    }
}
