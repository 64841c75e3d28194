//! The page's code: what is next to the diagram.

/// Describes one step: the command and what happened, the row that was met, and what the cores hold.
pub const FOCUS: &str = r#"
// ---- the step

// the script's lines, and the comments that are before each command
const captions = [];
function readScript() {
    const firstOf = new Map();
    steps.forEach((it, before) => firstOf.has(it.at) || firstOf.set(it.at, before + 1));
    const last = script[script.length - 1] === '' ? script.length - 1 : script.length;
    let said = [];
    script.slice(0, last).forEach((text, before) => {
        const item = made('div', '', text === '' ? ' ' : text);
        const step = firstOf.get(before + 1);
        if (text.startsWith('#')) said.push(text.slice(1).trim());
        if (step) {
            captions[step] = said.join(' ');
            said = [];
            item.onclick = () => show(step);
        }
        at('script').querySelector('.script').append(item);
    });
    if (run.fault) at('script').querySelector('.script').append(made('div', '', run.fault));
}

// that a line which can't be taken, or a lack of memory, ends the run: above all, and at the last step
function showFault() {
    at('fault').hidden = !run.fault;
    at('fault').textContent = run.fault ? 'This run ends early: ' + run.fault : '';
}
function showEnd() {
    if (run.fault && now === steps.length) at('now').append(made('p', 'ends', 'The run ends here: ' + run.fault));
}

// the run's name: how its first comment begins
function titleOf() {
    const comment = script.find(it => it.startsWith('#')) || '';
    return comment.slice(1).split(/[:.]/)[0].trim() || 'a run';
}

// what was done, in words; the table's words stay as they are
function inWords(part, row) {
    if (part.startsWith('to ')) return 'becomes ' + part.slice(3);
    if (part === 'k + 1') return 'counts an acknowledgement';
    if (part === 'joins') return 'joins the accesses in its miss register';
    const numbered = it => `${textOf(it)} (number ${it.number})`;
    if (part.startsWith('performs')) return 'performs ' + row.performed.map(numbered).join(', ');
    if (part === 'block home') return 'the block is the home copy now';
    return part;
}

function happened(row) {
    const { event, done } = row;
    const list = made('ul', '', ...done.map(it => made('li', '', inWords(it, row))));
    return made('div', 'words', `${event.who} in ${event.state}, ${event.name}:`, list);
}

function showNow() {
    const row = rows[now - 1];
    at('caption').textContent = captions[Math.max(now, 1)] || '';
    if (now === 0) {
        at('now').replaceChildren('Before the first command.');
        return;
    }
    const said = row.event ? row.said : steps[now - 1].answer.trimEnd();
    const parts = [made('div', 'command', made('code', '', steps[now - 1].command)),
        row.call.name === 'stats' ? reportOf(said) : made('pre', 'answer', said)];
    if (row.event) parts.push(happened(row));
    at('now').replaceChildren(...parts);
}

// a report, upright: a column for each core
function reportOf(text) {
    const lines = text.split('\n').map(it => it.trim());
    const isOfCores = it => !it.startsWith('messages');
    const [heads, ...counts] = lines.filter(isOfCores).map(it => it.split(/\s+/));
    const table = tableFrom('', ['', ...counts.map(it => coreName(it[0]))], heads.slice(1).map((name, place) =>
        made('tr', '', made('th', '', name), ...counts.map(it => made('td', '', it[place + 1])))));
    const messages = lines.filter(it => !isOfCores(it)).map(it => made('p', '', it));
    return made('div', 'answer report tables', table, ...messages);
}

// what moved, for those who listen
function say() {
    if (now === 0) {
        at('said').textContent = 'before the first command';
        return;
    }
    const row = rows[now - 1];
    const parts = [`step ${now} of ${steps.length}: ${row.text}: ${row.said}`];
    if (row.event) {
        const { who, state, name } = row.event;
        parts.push(`${who} in ${state}, ${name}`, ...row.done.map(it => inWords(it, row)));
    }
    at('said').textContent = parts.join('; ');
}

// ---- the row of the table that was met

// the tables: rows of cells, from the lines that `table` prints
function tablesOf(text) {
    const found = [];
    for (const part of text.split('\n\n')) {
        const rows = part.split('\n').filter(it => it.startsWith('|') && !it.startsWith('|---'));
        found.push(rows.map(row => row.slice(1, -1).split('|').map(it => it.trim())));
    }
    return found;
}
const tables = { core: tablesOf(run.cache), dir: tablesOf(run.directory) };

// whether a row of a directory's table is for an entry and a core that asks
function isRowFor(row, entry, core, exclusive) {
    const { dir, owner, sharers } = entry;
    if (dir === 'I') return row === (exclusive ? 'I (exclusive on)' : 'I (exclusive off)');
    if (dir === 'M') return row === (owner === core ? 'M, owner r' : 'M, owner o');
    const asks = sharers.includes(core);
    if (dir === 'S') {
        return row === (!asks ? 'S, sharers x' : sharers.length === 1 ? 'S, sharers r' : 'S, sharers r, x');
    }
    if (sharers.length === 0) return row === 'S_D';
    return row === (!asks ? 'S_D, sharers o, x' : sharers.length === 1 ? 'S_D, sharers r' : 'S_D, sharers o, r');
}

// The case that a step met: in which table, which row and which columns. What was in vain would have been that case.
const EVENTS = { load: 'load', write: 'write', eviction: 'eviction' };
function caseOf(number) {
    const row = rows[number - 1];
    if (!row || !row.event) return null;
    const { event, call } = row;
    const column = event.kindOf || EVENTS[event.name];
    const lit = isInVain(row) ? 'would' : 'lit';
    if (event.kind === 'core') {
        const plain = it => it.replace(' (exclusive on)', '');
        const fits = (title, cell) => title === column
            || (plain(title).startsWith(column + ',') && (!event.next || cell.split('; ').pop() === event.next));
        return { who: event.kind, lit, row: it => plain(it) === event.state, fits };
    }
    const entry = lineAt(number - 1, event.line);
    const core = call.class === 'req' ? call.from : undefined;
    const fits = title => title === column || title === column + ' of r';
    return { who: event.kind, lit, row: it => isRowFor(it, entry, core, chosen.exclusive === 'on'), fits };
}

// What the tables have for the other setting of `exclusive`. Without E no core is sent a forward before its Data.
const ONLY_WITH_E = { IS_D: ['Fwd-GetS', 'Fwd-GetM'] };
const isOfOther = title => title.includes(chosen.exclusive === 'on' ? '(exclusive off)' : '(exclusive on)');
const isOff = (row, column) => isOfOther(row) || isOfOther(column)
    || chosen.exclusive !== 'on' && Object.hasOwn(ONLY_WITH_E, row) && ONLY_WITH_E[row].includes(column);

function cellIn([heads], row, column, met) {
    const [title, cell] = [heads[column], row[column]];
    if (row === heads || column === 0) return made('th', isOfOther(cell) ? 'off' : '', cell);
    if (isOff(row[0], title)) return made('td', 'off', '-');
    return made('td', met && met.row(row[0]) && met.fits(title, cell) ? met.lit : '', cell);
}
function tableOf(cells, met, isWhole) {
    const shown = cells.filter((row, order) => isWhole || order === 0 || met.row(row[0]));
    return made('table', '', ...shown.map(row => made('tr', '', ...row.map((_, column) => cellIn(cells, row, column, met)))));
}

// the one row that was met, of the table that has the event
function showMet() {
    const met = caseOf(now);
    at('met').parentElement.hidden = !met;
    at('met').replaceChildren();
    if (!met) return;
    const [name] = tables[met.who].filter(it => it[0].some((column, order) => order > 0
        && it.some(row => met.row(row[0]) && met.fits(column, row[order]))));
    if (!name) return;
    if (met.lit === 'would') at('met').append(made('p', '', 'Not taken. With room it would be the framed one:'));
    at('met').append(tableOf(name, met, false));
    const lit = at('met').querySelector('.lit, .would');
    if (lit) at('met').scrollLeft = Math.max(0, lit.offsetLeft - 120);
}

function showTables() {
    if (!at('tables').open) return;
    const met = caseOf(now);
    const shown = [];
    for (const who of ['core', 'dir']) {
        for (const cells of tables[who]) shown.push(tableOf(cells, met && met.who === who ? met : null, true));
    }
    at('tables').querySelector('.tables').replaceChildren(...shown);
}

// ---- the line, and what the cores hold

// who sent the message in front of a channel
function senderOf(channel) {
    return (channels.get(channel) || []).find(it => isInFlight(it, now - 1));
}

function showLine() {
    at('line').replaceChildren(...shownLines.map(partOfLine));
}
function partOfLine(number) {
    const line = lineAt(now, number);
    const before = lineAt(Math.max(now - 1, 0), number);
    const shared = line.sharers.length ? 'sharers ' + line.sharers : 'no copies';
    const who = line.owner !== null ? 'owner ' + line.owner : shared;
    const entry = made('span', 'cell state-' + line.dir, line.dir);
    const parts = [made('h2', '', 'line ' + line.line),
        made('div', 'entry', 'directory ', entry, ' ', made('span', 'who', who))];
    const home = line.home.join(' ');
    const kind = before.home.length && before.home.join(' ') !== home ? 'word changed' : 'word';
    if (home) parts.push(made('div', kind, 'home copy ' + home));
    const list = made('ul', 'messages', ...line.messages.map(it => channelIn(line, it)));
    const heading = line.messages.length ? 'Channels' : 'Channels: no message in flight';
    return made('section', '', ...parts, made('h3', '', heading), list);
}
function channelIn(line, it) {
    const channel = channelOf(line.line, it);
    const message = senderOf(channel);
    const way = message ? `${message.from} → ${message.to}` : '';
    return made('li', '', made('b', it.class, nameOf(it)), ` ${way}: ${fateOf(now, line.line, it)} `,
        made('small', '', `(${channel})`));
}

const tableFrom = (caption, heading, body) => {
    const head = made('tr', '', ...heading.map(it => made('th', '', it)));
    return made('table', '', made('caption', '', caption), head, ...body);
};
const cellOf = state => made('td', 'cell state-' + state, state);

// what the slices have of a core at a step
const slices = Array.from({ length: shape.slices }, (_, slice) => slice);
function partsOf(core) {
    return slices.map(slice => parts.at(keyOf(core, slice), now)).filter(it => it);
}

// the miss registers of a core: the line of each, its state, and the accesses that wait in their order
function registersOf(core, held) {
    const used = held.flatMap(it => it.registers).map(line => copyAt(now, core, line));
    const room = `${used.length} of ${shape.mshrs * shape.slices} used`;
    const bound = chosen.misses === 'inverted' ? 'an entry for each tag' : room;
    const rows = used.map(it => {
        const count = chosen.misses === 'inverted' ? '' : ` (${it.targets.length} of ${shape.targets})`;
        const waits = it.targets.map(target => `tag ${target.tag} ${accessOf(target, 8 * it.line + target.offset)}`);
        const acks = it.got || it.needed ? `acks ${it.got} of ${it.needed === null ? '?' : it.needed}` : '';
        return made('tr', 'register', made('td', '', 'line ' + it.line), cellOf(it.state), made('td', 'acks', acks),
            made('td', 'targets', waits.join('; ') + count));
    });
    return tableFrom('miss registers: ' + bound, ['line', 'state', 'acknowledgements', 'targets, in order'], rows);
}

// the sets in which a core has lines: a cell for each way, in the order in which the policy would give them up
const orderOf = { lru: 'least recently used first', fifo: 'first in first', random: 'the victim is drawn' };
function tableOfSets(core, held) {
    const rows = held.map(([key, all]) => {
        const [, slice, set] = key.split(' ');
        const name = shape.slices === 1 ? 'set ' + set : 'slice ' + slice + ' set ' + set;
        const ways = all.map(line => copyAt(now, core, line))
            .map(it => made('td', 'way cell state-' + it.state, 'line ' + it.line + ' ' + it.state));
        const free = shape.ways - all.length;
        return made('tr', 'set', made('th', '', name), ...ways, made('td', 'free', free === 0 ? 'full' : free + ' free'));
    });
    const head = made('caption', '', `ways (${shape.ways} a set), ${orderOf[chosen.policy]}`);
    return made('table', '', head, ...rows);
}

function leavingOf(core, leaves) {
    const rows = leaves.map(line => made('tr', 'leaving', made('td', '', 'line ' + line),
        cellOf(copyAt(now, core, line).state)));
    return tableFrom(`write-back buffer: ${leaves.length} of ${shape.writebacks * shape.slices}`, [], rows);
}

// the blocks of a core's copies
function blocksOf(blocks) {
    const rows = blocks.map(it => made('tr', 'copy', made('td', '', 'line ' + it.line),
        made('td', '', it.block.join(' '))));
    return tableFrom('blocks', [], rows);
}

function tableOfCore(core) {
    const held = partsOf(core);
    const inSets = [...setsOf[core]].sort().map(key => [key, sets.at(key, now) || []]).filter(([, all]) => all.length);
    const leaves = held.flatMap(it => it.leaving);
    const all = [...inSets.flatMap(([, these]) => these), ...leaves].sort((a, b) => a - b);
    if (all.length === 0) return null;
    const part = made('section', 'core', made('h2', '', coreName(core)), registersOf(core, held),
        tableOfSets(core, inSets));
    if (leaves.length) part.append(leavingOf(core, leaves));
    const blocks = all.map(line => copyAt(now, core, line)).filter(it => it.block);
    if (blocks.length) part.append(blocksOf(blocks));
    part.dataset.core = core;
    return part;
}

// the replies that aren't handed out, and what each slice would deliver next
function restOf() {
    const replies = Array.from({ length: shape.cores }, (_, core) => partsOf(core).flatMap(it => it.replies)
        .map(it => `core ${core} tag ${it.tag}, number ${it.number} in the log`)).flat();
    const next = slices.map(slice => [slice, nexts.at(slice, now)]).filter(([, it]) => it)
        .map(([slice, it]) => `slice ${slice} next ${channelOf(it.line, it)}`);
    return [...replies, ...next];
}

// the messages that can be delivered now, in the order of `waiting`
const COULD = 40;
function couldOf() {
    return slices.flatMap(slice => givenAt(now).filter(line => sliceOf(line) === slice))
        .flatMap(line => lineAt(now, line).messages.filter(it => it.fate === 'moves')
            .map(it => `${channelOf(line, it)}   ${nameOf(it)}`));
}
function showCould() {
    const all = couldOf();
    const more = all.length > COULD ? [made('p', '', `.. and ${all.length - COULD} more`)] : [];
    const head = made('h2', '', all.length ? 'What can be delivered now' : 'Nothing can be delivered now');
    at('could').replaceChildren(head, ...all.slice(0, COULD).map(it => made('div', 'rest', it)), ...more);
}

function showCores() {
    const parts = Array.from({ length: shape.cores }, (_, core) => tableOfCore(core)).filter(it => it);
    const idle = shape.cores - parts.length;
    if (idle > 0) parts.push(made('p', 'idle', idle === 1 ? 'One core holds nothing.' : idle + ' cores hold nothing.'));
    const rest = restOf();
    if (rest.length) parts.push(made('h2', '', 'Replies to hand out, and what a pump would deliver next'));
    at('cores').replaceChildren(...parts, ...rest.map(it => made('div', 'rest', it)));
}

// ---- all lines, small

// Of many lines those in view alone are drawn. A click on one shows it alone, its box shows it beside others.
const LINE = 27;
function showMany() {
    const given = givenAt(now);
    at('many').hidden = ascending.length < 2;
    if (at('many').hidden) return;
    const view = at('lines');
    const first = Math.max(0, Math.floor(view.scrollTop / (LINE * zoom)) - 2);
    const rows = given.slice(first, first + 14).map(rowOfLine);
    const table = made('table', '', ...rows);
    table.style.marginTop = first * LINE * zoom + 'px';
    table.style.marginBottom = Math.max(0, given.length - first - rows.length) * LINE * zoom + 'px';
    view.replaceChildren(table);
}
function rowOfLine(line) {
    const shown = shownLines;
    const few = Array.from({ length: Math.min(shape.cores, 16) }, (_, core) => core);
    const box = made('input');
    Object.assign(box, { type: 'checkbox', checked: shown.includes(line), ariaLabel: `line ${line} in the picture` });
    box.onclick = event => event.stopPropagation();
    box.onchange = () => choose(box.checked ? [...shown, line] : shown.filter(it => it !== line));
    const row = made('tr', shown.includes(line) ? 'followed' : '', made('th', '', box, 'line ' + line),
        cellOf(lineAt(now, line).dir), ...few.map(core => cellOf(copyAt(now, core, line).state)));
    row.onclick = () => follow(line);
    return row;
}
"#;
