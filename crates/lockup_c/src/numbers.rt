//! The numbers of answers.
ghost use Rattle.std.specs.Prelude.{◌≡◌, ◌<◌};
ghost use Rattle.lockup_c.specs.Number.{cell_number, channel_number, copy_number, core_number, core_of_pick};
ghost use Rattle.lockup_c.specs.Number.{delivered_number, dir_number, evicted_number, refusal_number, sender_of_pick};
ghost use Rattle.lockup_c.specs.Number.{stall_number};
ghost use Rattle.lockup_c.specs.Numbers.{access_numbers, decision_numbers, issued_numbers, next_numbers};
ghost use Rattle.lockup_c.specs.Numbers.{planned_numbers, receipt_numbers, transition_numbers, victim_number};

use super::structs::{DecisionNumbers, IssuedNumbers, NextNumbers, PlannedNumbers, ReceiptNumbers};
use address_map::CoreId;
use cache_table::CopyState;
use directory_table::DirState;
use litmus_script::Issued;
use slice_core::{
    AccessKind, Cell, Decision, Delivered, DeliveredNext, Evicted, Numbered, Pick, Placement, Plan,
    Refused, Stall, Transition,
};

pub(crate) const NO_ISSUE: IssuedNumbers = IssuedNumbers {
    answer: 0,
    number: 0,
    reply: 0,
};

pub(crate) const NO_NEXT: NextNumbers = NextNumbers {
    answer: 0,
    channel: 0,
    line: 0,
    core: 0,
    from: 0,
};

pub(crate) const NO_RECEIPT: ReceiptNumbers = ReceiptNumbers {
    handed: 0,
    number: 0,
    tag: 0,
    reply: 0,
};

pub(crate) const NO_DECISION: DecisionNumbers = DecisionNumbers {
    kind: 0,
    reason: 0,
    next: 0,
    victim: 0,
};

pub(crate) const NO_PLAN: PlannedNumbers = PlannedNumbers {
    answer: 0,
    next: 0,
    owner: 0,
    sharers: 0,
};

const fn stall_number(stall: Stall) -> u64
    ensures { result ≡ stall_number stall }
{
    match stall {
        Stall::NoRegister => 1,
        Stall::NoTarget => 2,
        Stall::NoWay => 3,
        Stall::WriteBackFull => 4,
        Stall::WriteBackBusy => 5,
    }
}

const fn refusal_number(refused: Refused) -> u64
    ensures { result ≡ refusal_number refused }
{
    match refused {
        Refused::OutOfRange => 1,
        Refused::TagRange => 2,
        Refused::TagBusy => 3,
        Refused::CounterStore => 4,
        Refused::Memory => 5,
        Refused::WrongSlice => 6,
        Refused::Ahead(_) => 8,
    }
}

pub(crate) const fn evicted_number(evicted: Evicted) -> u64
    ensures { result ≡ evicted_number evicted }
{
    match evicted {
        Evicted::Evicting => 0,
        Evicted::NotHeld => 1,
        Evicted::Busy => 2,
        Evicted::WriteBackFull => 3,
    }
}

const fn cell_number(cell: Cell) -> u64
    ensures { result ≡ cell_number cell }
{
    match cell {
        Cell::Entry => 3,
        Cell::Full => 4,
        Cell::Early => 5,
    }
}

pub(crate) const fn delivered_number(delivered: Delivered) -> u64
    ensures { result ≡ delivered_number delivered }
{
    match delivered {
        Delivered::Moved => 0,
        Delivered::Blocked => 1,
        Delivered::Nothing => 2,
        Delivered::Broken(cell) => cell_number(cell),
    }
}

pub(crate) const fn copy_number(state: CopyState) -> u64
    ensures { result ≡ copy_number state }
{
    match state {
        CopyState::I => 0,
        CopyState::IS_D => 1,
        CopyState::IM_AD => 2,
        CopyState::IM_A => 3,
        CopyState::S => 4,
        CopyState::SM_AD => 5,
        CopyState::SM_A => 6,
        CopyState::M => 7,
        CopyState::MI_A => 8,
        CopyState::SI_A => 9,
        CopyState::II_A => 10,
        CopyState::E => 11,
    }
}

pub(crate) const fn dir_number(state: DirState) -> u64
    ensures { result ≡ dir_number state }
{
    match state {
        DirState::I => 0,
        DirState::S => 1,
        DirState::M => 2,
        DirState::S_D => 3,
    }
}

/// Returns a core's number, or 64 if there is none.
pub(crate) const fn core_number(core: Option<CoreId>) -> u64
    ensures { result ≡ core_number core }
{
    match core {
        Some(core) => core.0 as u64,
        None => 64,
    }
}

pub(crate) const fn channel_number(pick: Pick) -> u64
    ensures { result ≡ channel_number pick }
{
    match pick {
        Pick::Req(..) => 0,
        Pick::Fwd(..) => 1,
        Pick::Data(..) => 2,
        Pick::Ack { .. } => 3,
        Pick::Home(_) => 4,
    }
}

pub(crate) const fn core_of_pick(pick: Pick) -> u64
    ensures { result ≡ core_of_pick pick }
{
    match pick {
        Pick::Req(_, core) => core.0 as u64,
        Pick::Fwd(_, core) => core.0 as u64,
        Pick::Data(_, core) => core.0 as u64,
        Pick::Ack { to, .. } => to.0 as u64,
        Pick::Home(_) => 0,
    }
}

pub(crate) const fn sender_of_pick(pick: Pick) -> u64
    ensures { result ≡ sender_of_pick pick }
{
    match pick {
        Pick::Ack { from, .. } => from.0 as u64,
        Pick::Req(..) => 0,
        Pick::Fwd(..) => 0,
        Pick::Data(..) => 0,
        Pick::Home(_) => 0,
    }
}

pub(crate) fn issued_numbers(issued: Issued) -> IssuedNumbers
    ensures { result ≡ issued_numbers issued }
{
    match issued {
        Issued::Done { number, reply } => IssuedNumbers {
            answer: 0,
            number,
            reply,
        },
        Issued::Pending(number) => IssuedNumbers {
            answer: 1,
            number,
            reply: 0,
        },
        Issued::Stall(stall) => IssuedNumbers {
            answer: 2,
            number: stall_number(stall),
            reply: 0,
        },
        Issued::Refused(refused) => IssuedNumbers {
            answer: 3,
            number: refusal_number(refused),
            reply: 0,
        },
    }
}

pub(crate) fn receipt_numbers(handed: Option<Numbered>) -> ReceiptNumbers
    ensures { result ≡ receipt_numbers handed }
{
    match handed {
        Some(Numbered { number, entry }) => ReceiptNumbers {
            handed: 1,
            number,
            tag: entry.tag as u64,
            reply: entry.reply,
        },
        None => NO_RECEIPT,
    }
}

pub(crate) fn next_numbers(next: DeliveredNext) -> NextNumbers
    ensures { result ≡ next_numbers next }
{
    match next {
        DeliveredNext::Moved(pick) => NextNumbers {
            answer: 0,
            channel: channel_number(pick),
            line: pick.line().0,
            core: core_of_pick(pick),
            from: sender_of_pick(pick),
        },
        DeliveredNext::Blocked => NextNumbers {
            answer: 1,
            ..NO_NEXT
        },
        DeliveredNext::Nothing => NextNumbers {
            answer: 2,
            ..NO_NEXT
        },
        DeliveredNext::Broken(cell) => NextNumbers {
            answer: cell_number(cell),
            ..NO_NEXT
        },
    }
}

pub(crate) fn planned_numbers(plan: Plan) -> PlannedNumbers
    ensures { result ≡ planned_numbers plan }
{
    match plan {
        Plan::Moved(transition) => transition_numbers(transition),
        Plan::Blocked => PlannedNumbers {
            answer: 1,
            ..NO_PLAN
        },
        Plan::Nothing => PlannedNumbers {
            answer: 2,
            ..NO_PLAN
        },
        Plan::Broken(cell) => PlannedNumbers {
            answer: cell_number(cell),
            ..NO_PLAN
        },
    }
}

fn transition_numbers(transition: Transition) -> PlannedNumbers
    ensures { result ≡ transition_numbers transition }
{
    match transition {
        Transition::Directory(step) => PlannedNumbers {
            answer: 0,
            next: dir_number(step.state),
            owner: core_number(step.owner),
            sharers: step.sharers.bits(),
        },
        Transition::Home(step) => PlannedNumbers {
            answer: 0,
            next: dir_number(step.state),
            owner: core_number(step.owner),
            sharers: step.sharers.bits(),
        },
        Transition::Forwarded(step) => PlannedNumbers {
            next: copy_number(step.next),
            ..NO_PLAN
        },
        Transition::Fill(step) => PlannedNumbers {
            next: copy_number(step.next),
            ..NO_PLAN
        },
        Transition::Acknowledge(step) => PlannedNumbers {
            next: copy_number(step.next),
            ..NO_PLAN
        },
    }
}

pub(crate) fn decision_numbers(decision: Decision) -> DecisionNumbers
    ensures { result ≡ decision_numbers decision }
{
    match decision {
        Decision::Refuse(refused) => DecisionNumbers {
            kind: 3,
            reason: refusal_number(refused),
            next: 0,
            victim: 0,
        },
        Decision::Access(_, access) => access_numbers(access),
    }
}

fn access_numbers(access: AccessKind) -> DecisionNumbers
    ensures { result ≡ access_numbers access }
{
    match access {
        AccessKind::Hit { next, .. } => DecisionNumbers {
            kind: 0,
            reason: 0,
            next: copy_number(next),
            victim: 0,
        },
        AccessKind::PrimaryMiss {
            next,
            placement,
            ..
        } => DecisionNumbers {
            kind: 1,
            reason: 0,
            next: copy_number(next),
            victim: victim_number(placement),
        },
        AccessKind::Stall(stall) => DecisionNumbers {
            kind: 2,
            reason: stall_number(stall),
            next: 0,
            victim: 0,
        },
        AccessKind::SecondaryMiss => DecisionNumbers {
            kind: 4,
            reason: 0,
            next: 0,
            victim: 0,
        },
    }
}

/// Whether a line has to be evicted.
const fn victim_number(placement: Placement) -> u64
    ensures { result ≡ victim_number placement }
{
    match placement {
        Placement::Held => 0,
        Placement::Free => 0,
        Placement::Victim => 1,
    }
}
