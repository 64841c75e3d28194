//! The page's code: the run, as it is read from the value.

/// The steps, and the versions of lines, copies and cores that they give.
pub const RUN: &str = r#"</script>
<script>
'use strict';
const run = JSON.parse(document.getElementById('run').textContent);
const steps = run.steps.slice(0, -1);
const at = id => document.getElementById(id);

// how the machine is made: by the lines that configure, or as it is without them
const shape = { cores: 2, slices: 1, lines: 16, sets: 4, ways: 2, mshrs: 4, targets: 4, writebacks: 2 };
const chosen = { policy: 'lru', misses: 'explicit', exclusive: 'off' };
const script = run.script.split('\n').map(it => it.replace(/\r$/, ''));
for (const text of script) {
    const [name, value] = text.trim().split(/\s+/);
    if (Object.hasOwn(shape, name) && /^\d+$/.test(value)) shape[name] = Number(value);
    if (Object.hasOwn(chosen, name) && value) chosen[name] = value;
}
const sliceOf = line => line % shape.slices;
const setOf = line => Math.floor(line / shape.slices) % shape.sets;

// what a state waits for
const AWAITED = { IS_D: 'Data', IM_AD: 'Data and Inv-Ack', IM_A: 'Inv-Ack', SM_AD: 'Data and Inv-Ack', SM_A: 'Inv-Ack',
    MI_A: 'Put-Ack', SI_A: 'Put-Ack', II_A: 'Put-Ack', S_D: 'Data home' };
// copies in a miss register, and those in the write-back buffer
const MISSING = ['IS_D', 'IM_AD', 'IM_A', 'SM_AD', 'SM_A'];
const LEAVING = ['MI_A', 'SI_A', 'II_A'];

// what a core may do with its copy
function may(state) {
    if (state === 'I') return 'no copy';
    if (state === 'M' || state === 'E') return 'reads and writes';
    if (state === 'S') return 'reads';
    return state.startsWith('SM') ? 'reads, waits' : 'waits';
}

// What each step gives is kept under its key with the number of the step. What a key has at a step was given by the
// last step up to it: a value stays until a step gives it anew.
class Versions {
    constructor() {
        this.all = new Map();
    }
    put(key, step, value) {
        if (!this.all.has(key)) this.all.set(key, []);
        this.all.get(key).push({ step, value });
    }
    of(key) {
        return this.all.get(key) || [];
    }
    at(key, step) {
        const all = this.of(key);
        let [low, high] = [0, all.length];
        while (low < high) {
            const middle = (low + high) >> 1;
            if (all[middle].step <= step) low = middle + 1;
            else high = middle;
        }
        return low === 0 ? undefined : all[low - 1].value;
    }
}
// by line; by core and line; by core and slice; by core, slice and set; by slice
const lines = new Versions();
const copies = new Versions();
const parts = new Versions();
const sets = new Versions();
const nexts = new Versions();
const keyOf = (...words) => words.join(' ');

// the sets in which a core ever had a line, by core
const setsOf = Array.from({ length: shape.cores }, () => new Set());
function readCore(step, { call, line, core }) {
    for (const copy of [core.copy, core.victim]) if (copy) copies.put(keyOf(copy.core, copy.line), step, copy);
    const slice = call.slice === undefined ? sliceOf(call.line) : call.slice;
    parts.put(keyOf(core.core, slice), step, core);
    if (!core.copy) return;
    const key = keyOf(core.core, slice, setOf(line.line));
    sets.put(key, step, core.set);
    setsOf[core.core].add(key);
}
function readSteps() {
    steps.forEach((it, before) => {
        const step = before + 1;
        for (const line of [it.line, it.victim]) if (line) lines.put(line.line, step, line);
        if (it.core) readCore(step, it);
        if (it.performed) nexts.put(it.performed.slice, step, it.next);
    });
}

// a line that no step has given yet, and a copy
const unnamed = line => ({ line, dir: 'I', owner: null, sharers: [], home: [], messages: [] });
const nowhere = (core, line) => ({ core, line, state: 'I', got: 0, needed: 0, block: null, targets: [] });
const lineAt = (step, line) => lines.at(line, step) || unnamed(line);
const copyAt = (step, core, line) => copies.at(keyOf(core, line), step) || nowhere(core, line);

// an access in a script's words
function accessOf(it, word) {
    const operands = [it.expect, it.value].filter(operand => operand !== undefined);
    return [it.op, word, ...operands].join(' ');
}

// a message under its name in the tables, and the command that delivers it
function nameOf(message) {
    if (message.acks !== undefined) return `${message.kind}(${message.acks})`;
    return message.for !== undefined ? `${message.kind} for core ${message.for}` : message.kind;
}
function channelOf(line, message) {
    const ends = { req: [message.from], home: [], ack: [message.to, message.from] }[message.class] || [message.to];
    return ['deliver', message.class, line, ...ends].join(' ');
}

// what a delivery would do with a message in front of its channel
function fateOf(step, line, message) {
    if (message.fate !== 'blocked') return message.fate;
    const state = message.to === 'directory' ? lineAt(step, line).dir : copyAt(step, message.to, line).state;
    return `blocked: ${state} waits for ${AWAITED[state]}`;
}

readSteps();

// the lines that were given, ascending, and those of them up to a step
const ascending = [...lines.all.keys()].sort((a, b) => a - b);
const givenAt = step => ascending.filter(line => lines.of(line)[0].step <= step);
"#;
