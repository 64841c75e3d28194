//! The run of a line under changed tables as a space-time diagram.

use address_map::{Block, CoreId, LineAddr, Op, Request as Access, WordAddr};
use changed_tables::Tables;
use litmus_chart::{Participant, SpaceTime, State, What, sender};
use litmus_text::{Command, TextFault};
use slice_queues::{DataMessage, ForwardedMessage, Message, Pick, RequestMessage};
use std::alloc::Global;
use what_if::{
    CoreSide, DataKind, Forwarded, ForwardedKind, Line, Promise, RequestKind, Step, Told,
    is_changed, name_of_promise,
};

const LINE: LineAddr = LineAddr(0);

const WORD: WordAddr = WordAddr(0);

/// Returns the diagram of these steps: commands of a script, messages from where they are sent to where they are taken,
/// and states. Rows of changed cells are marked, and the promise that broke is named below.
pub fn diagram_of(alloc: Global, tables: &Tables, told: Told<'_>) -> Result<SpaceTime, TextFault> {
    let mut space = SpaceTime::new(alloc, Some(LINE));
    space.caption = Some(caption_of(told.broken));
    let mut line = Line::new(told.cores);
    for step in told.steps {
        let before = line;
        if let Some(met) = before.meets(tables, *step) {
            let _ = line.step(tables, *step);
            let changed = is_changed(tables, &before, &met);
            record(&mut space, &before, &line, *step, changed)?;
        }
    }
    name_messages(&mut space, &line);
    Ok(space)
}

const fn caption_of(broken: Option<Promise>) -> &'static str {
    match broken {
        Some(promise) => name_of_promise(promise),
        None => "nothing broke",
    }
}

/// A step of a run: the row in which it is drawn, who takes it, and the channel whose first message it takes.
#[derive(Clone, Copy)]
struct Drawn {
    row: usize,
    by: Option<CoreId>,
    taken: Option<Pick>,
}

fn record(
    space: &mut SpaceTime,
    before: &Line,
    after: &Line,
    step: Step,
    changed: bool,
) -> Result<(), TextFault> {
    let drawn = Drawn {
        row: space.begin_row(command_of(step))?,
        by: core_of(step),
        taken: taken_by(step, after),
    };
    if let Some(pick) = drawn.taken {
        space.take(pick, message_in(before, pick), drawn.row);
    }
    for core in 0..after.count {
        record_core(space, before, after, drawn, CoreId(core))?;
    }
    record_sent(space, before, after, drawn, Pick::Home(LINE))?;
    if before.state != after.state {
        let state = State::Directory(after.state);
        space.enter(Participant::Directory(0), state, drawn.row)?;
    }
    if changed {
        space.mark(actor_of(step), drawn.row, What::Said("changed cell"))?;
    }
    Ok(())
}

// The messages that a step sends to a core or for it, and the state to which its copy comes.
fn record_core(
    space: &mut SpaceTime,
    before: &Line,
    after: &Line,
    drawn: Drawn,
    core: CoreId,
) -> Result<(), TextFault> {
    for pick in [
        Pick::Req(LINE, core),
        Pick::Fwd(LINE, core),
        Pick::Data(LINE, core),
    ] {
        record_sent(space, before, after, drawn, pick)?;
    }
    for number in 0..after.count {
        let (line, to, from) = (LINE, core, CoreId(number));
        record_sent(space, before, after, drawn, Pick::Ack { line, to, from })?;
    }
    let state = after.side(core).state;
    if before.side(core).state != state {
        space.enter(Participant::Core(core), State::Copy(state), drawn.row)?;
    }
    Ok(())
}

// A message was sent where its channel has more than the step left there.
fn record_sent(
    space: &mut SpaceTime,
    before: &Line,
    after: &Line,
    drawn: Drawn,
    pick: Pick,
) -> Result<(), TextFault> {
    let taken = u8::from(drawn.taken == Some(pick));
    let left = count_in(before, pick).saturating_sub(taken);
    for _ in left..count_in(after, pick) {
        space.send(pick, sender(0, pick, drawn.by), drawn.row)?;
    }
    Ok(())
}

// Those that are still in front of their channels.
fn name_messages(space: &mut SpaceTime, line: &Line) {
    for number in 0..line.count {
        let core = CoreId(number);
        name_message(space, line, Pick::Req(LINE, core));
        name_message(space, line, Pick::Fwd(LINE, core));
        name_message(space, line, Pick::Data(LINE, core));
        for from in 0..line.count {
            let (line_of, to, from) = (LINE, core, CoreId(from));
            name_message(
                space,
                line,
                Pick::Ack {
                    line: line_of,
                    to,
                    from,
                },
            );
        }
    }
    name_message(space, line, Pick::Home(LINE));
}

fn name_message(space: &mut SpaceTime, line: &Line, pick: Pick) {
    if let Some(message) = message_in(line, pick) {
        space.name_front(pick, message);
    }
}

fn count_in(line: &Line, pick: Pick) -> u8 {
    match pick {
        Pick::Req(_, core) => u8::from(line.side(core).request.is_some()),
        Pick::Fwd(_, core) => forwarded_in(&line.side(core)),
        Pick::Data(_, core) => u8::from(line.side(core).response.is_some()),
        Pick::Ack { to, from, .. } => u8::from(line.side(to).acknowledgements.has(from)),
        Pick::Home(_) => u8::from(line.data_home.is_some()),
    }
}

fn forwarded_in(side: &CoreSide) -> u8 {
    u8::from(side.front.is_some()).saturating_add(u8::from(side.behind.is_some()))
}

// The message in front of a channel. A diagram shows no blocks.
fn message_in(line: &Line, pick: Pick) -> Option<Message> {
    match pick {
        Pick::Req(_, core) => {
            let request = line.side(core).request?;
            Some(Message::Request(request_of(request.kind)))
        }
        Pick::Fwd(_, core) => {
            let message = line.side(core).front?;
            Some(Message::Forwarded(forwarded_of(message)))
        }
        Pick::Data(_, core) => {
            let message = line.side(core).response?;
            Some(Message::Data(data_of(message.kind)))
        }
        Pick::Ack { to, from, .. } if line.side(to).acknowledgements.has(from) => {
            Some(Message::InvAck)
        }
        Pick::Ack { .. } => None,
        Pick::Home(_) => {
            line.data_home?;
            Some(Message::Home(Block::zero()))
        }
    }
}

fn request_of(kind: RequestKind) -> RequestMessage {
    match kind {
        RequestKind::GetS => RequestMessage::GetS,
        RequestKind::GetM => RequestMessage::GetM,
        RequestKind::PutS => RequestMessage::PutS,
        RequestKind::PutM => RequestMessage::PutM(Block::zero()),
    }
}

fn forwarded_of(message: Forwarded) -> ForwardedMessage {
    let requester = message.requester.unwrap_or(CoreId(0));
    match message.kind {
        ForwardedKind::FwdGetS => ForwardedMessage::FwdGetS(requester),
        ForwardedKind::FwdGetM => ForwardedMessage::FwdGetM(requester),
        ForwardedKind::Inv => ForwardedMessage::Inv(requester),
        ForwardedKind::PutAck => ForwardedMessage::PutAck,
    }
}

fn data_of(kind: DataKind) -> DataMessage {
    match kind {
        DataKind::Data(acks) => DataMessage::Data {
            block: Block::zero(),
            acks,
        },
        DataKind::DataE => DataMessage::DataE(Block::zero()),
    }
}

// The command of a script that does the same. A write adds 1.
fn command_of(step: Step) -> Command {
    match step {
        Step::Load(core) => access(core, Op::Load),
        Step::Write(core) => access(core, Op::Add(1)),
        Step::Evict(core) => Command::Evict { core, line: LINE },
        Step::TakeRequest(core) => Command::Deliver(Pick::Req(LINE, core)),
        Step::TakeForwarded(core) => Command::Deliver(Pick::Fwd(LINE, core)),
        Step::TakeData(core) => Command::Deliver(Pick::Data(LINE, core)),
        Step::TakeInvAck { core, sender } => Command::Deliver(Pick::Ack {
            line: LINE,
            to: core,
            from: sender,
        }),
        Step::TakeHome => Command::Deliver(Pick::Home(LINE)),
    }
}

fn access(core: CoreId, op: Op) -> Command {
    let (word, tag) = (WORD, 0);
    Command::Issue {
        core,
        request: Access { op, word, tag },
    }
}

// The channel whose first message a step takes. One without a row stays there.
fn taken_by(step: Step, after: &Line) -> Option<Pick> {
    match command_of(step) {
        Command::Deliver(pick) if after.fault != Some(Promise::HasRow) => Some(pick),
        _ => None,
    }
}

// The core that takes a step, where it isn't the directory.
fn core_of(step: Step) -> Option<CoreId> {
    match step {
        Step::Load(core)
        | Step::Write(core)
        | Step::Evict(core)
        | Step::TakeForwarded(core)
        | Step::TakeData(core)
        | Step::TakeInvAck { core, .. } => Some(core),
        Step::TakeRequest(_) | Step::TakeHome => None,
    }
}

fn actor_of(step: Step) -> Participant {
    match core_of(step) {
        Some(core) => Participant::Core(core),
        None => Participant::Directory(0),
    }
}
