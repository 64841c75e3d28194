//! The page's code: what happened when.

/// The rows of time, the messages from their sending to their delivery, and the accesses from their issue to their
/// performance.
pub const TIME: &str = r#"
// ---- time

const DIRECTORY = 'directory';
const coreName = number => 'core ' + number;
const whoOf = end => end === DIRECTORY ? DIRECTORY : coreName(end);

// Who met which case at a step: in which state it was, and what came to it.
function eventOf(step, { call, line, plan }, told) {
    if (!told || !line || !['issue', 'evict', 'deliver'].includes(call.name)) return null;
    const end = call.name === 'deliver' ? call.to : call.core;
    const before = lineAt(step - 1, call.line);
    const state = end === DIRECTORY ? before.dir : copyAt(step - 1, end, call.line).state;
    const event = { end, who: whoOf(end), kind: end === DIRECTORY ? 'dir' : 'core', state, line: call.line };
    if (call.name === 'issue') return { ...event, name: call.op === 'load' ? 'load' : 'write' };
    if (call.name === 'evict') return { ...event, name: 'eviction', next: copyAt(step, end, call.line).state };
    const message = before.messages.find(it => channelOf(call.line, it) === channelOf(call.line, call));
    return message ? { ...event, name: nameOf(message), kindOf: message.kind, next: plan.next } : null;
}

// A row for each step. What an answer says stands before what is told of it; a refused access met no case.
const rows = [];
function rowOf(it, before) {
    const step = before + 1;
    const [said, ...rest] = it.answer.trimEnd().split('   ');
    const told = rest.join('   ');
    const isMade = it.call.name === 'deliver' && said.startsWith('deliver ');
    const event = said.startsWith('refused') ? null : eventOf(step, it, told);
    return { step, text: it.command.trim(), within: isMade, said: isMade ? 'moved' : said, told, event,
        line: it.call.line, victim: it.victim ? it.victim.line : undefined, call: it.call, plan: it.plan,
        done: event ? told.slice(told.indexOf('): ') + 3).split('; ') : [],
        performed: it.performed ? performedBy(it.performed) : [] };
}

// what was performed, with its number in the slice's log, its reply, and what it read or did to its word
function performedBy({ slice, first, entries }) {
    return entries.map((it, place) => ({ slice, number: first + place, core: it.core, tag: it.tag, op: it.op,
        access: accessOf(it, it.word), reply: it.reply, effect: effectOf(it) }));
}
function effectOf({ op, value, expect, reply }) {
    if (op === 'load') return reply;
    if (op === 'store') return value;
    if (op === 'add') return `${reply} to ${BigInt.asUintN(64, BigInt(reply) + BigInt(value))}`;
    return reply === expect ? `${reply} to ${value}` : `${reply} stays`;
}
const textOf = it => it.op === 'store' ? it.access : `${it.access}: ${it.effect}`;

// a row's command with its number, and how long the longest of these is
const numberedOf = row => row.step + (row.within ? ' · ' : ' ') + row.text;
let longest = 0;

// Every message, from the step of its sending to that of its delivery. The channels keep their order.
const messages = [];
const channels = new Map();
const waits = new Map();
function send(row, line, message, from) {
    const channel = channelOf(line, message);
    const sent = { order: messages.length, name: nameOf(message), channel, kind: message.class, line, from,
        to: whoOf(message.to), block: message.block, sent: row, delivered: null };
    messages.push(sent);
    for (const all of [channels, waits]) {
        if (!all.has(channel)) all.set(channel, []);
        all.get(channel).push(sent);
    }
}
function readDelivery(row) {
    row.message = (waits.get(channelOf(row.line, row.call)) || []).shift();
    if (row.message) row.message.delivered = row;
}
// What the directory forwards is told by the plan, since it can follow another message. In all other channels one
// message is at most, so what is new in front of one was sent at the step.
function readSends(row, { line, victim, plan }) {
    for (const it of [line, victim]) {
        for (const message of it ? it.messages : []) {
            const isSent = message.class === 'fwd' || (waits.get(channelOf(it.line, message)) || []).length > 0;
            if (!isSent) send(row, it.line, message, message.from === undefined ? row.event.who : whoOf(message.from));
        }
    }
    const forwards = plan && plan.forwards;
    for (const to of forwards ? forwards.to : []) send(row, row.line, { ...forwards, class: 'fwd', to }, DIRECTORY);
}

// Every access that waits, from the step of its issue to that which performs it; of those of one core and line that wait
// together each has a place of its own.
const accesses = [];
const waiting = new Map();
function readAccesses(row) {
    const { call, said, text } = row;
    if (call.name === 'issue' && said.startsWith('pending')) {
        const beside = [...waiting.values()].filter(it => it.core === call.core && it.line === call.line).map(it => it.place);
        const place = Array.from({ length: beside.length + 1 }, (_, it) => it).find(it => !beside.includes(it));
        const access = { core: call.core, line: call.line, place, issued: row, performed: null };
        accesses.push(access);
        const [, , tag] = text.split(/\s+/);
        waiting.set(keyOf(call.core, Number(tag)), access);
    }
    for (const { core, tag } of row.performed) {
        const key = keyOf(core, tag);
        if (waiting.has(key)) waiting.get(key).performed = row;
        waiting.delete(key);
    }
}

// the places in each line's block that accesses name
const named = new Map();
function readNamed({ call, text }) {
    if (call.name !== 'issue') return;
    if (!named.has(call.line)) named.set(call.line, new Set());
    named.get(call.line).add(Number(text.split(/\s+/)[4]) % 8);
}

// How far below the first row each row begins, and at last where they end: a row is as high as what is written in it.
const ROW = 40;
const TEXT = 13;
const tops = [];
function readTops() {
    tops.length = 0;
    let top = 0;
    for (const row of rows) {
        tops.push(top);
        top += ROW + TEXT * Math.max(0, row.performed.length - 1);
    }
    tops.push(top);
}

function readRows() {
    steps.forEach((it, before) => {
        const row = rowOf(it, before);
        row.number = rows.push(row) - 1;
        longest = Math.max(longest, numberedOf(row).length);
        if (it.plan && it.plan.fate === 'moves') readDelivery(row);
        readSends(row, it);
        readAccesses(row);
        readNamed(row);
    });
    readTops();
}
// forgets all that was read
function forgetRun() {
    rows.length = messages.length = accesses.length = longest = 0;
    for (const it of [lines, copies, parts, sets, nexts]) it.all.clear();
    for (const it of [channels, waits, waiting, named, histories, ...setsOf]) it.clear();
}

// The states of a line on each lifeline: where each begins.
const histories = new Map();
function historyOf(line) {
    if (!histories.has(line)) histories.set(line, readHistory(line));
    return histories.get(line);
}
function changesOf(versions, stateOf) {
    const found = [{ row: -1, state: 'I' }];
    for (const { step, value } of versions) {
        const state = stateOf(value);
        if (found[found.length - 1].state !== state) found.push({ row: step - 1, state });
    }
    return found;
}
function readHistory(line) {
    const found = new Map([[DIRECTORY, changesOf(lines.of(line), it => it.dir)]]);
    for (let core = 0; core < shape.cores; core++) {
        found.set(coreName(core), changesOf(copies.of(keyOf(core, line)), it => it.state));
    }
    return found;
}
const stateIn = (history, row) => history.findLast(it => it.row <= row).state;

readRows();
"#;
