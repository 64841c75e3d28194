//! The page's code: the diagram.

/// Draws what is in view of the run in time: lifelines down, messages across, the commands at the left edge, and the
/// cursor.
pub const DIAGRAM: &str = r#"
// ---- the diagram

// the commands, and what each answered in a word or two; those that aren't about a line that is shown are dim
const SHORT = ['empty', 'left', 'receipt', 'nothing', 'none'];
const isShort = row => !row.within && (row.event || SHORT.includes(row.said.split(' ')[0]));
// how large a command is written and its answer, and how many letters of each: in less room as large as the command fits
function lettersOf({ isNarrow, label }, text) {
    const { most, large, small, wide } = LETTERS;
    if (!isNarrow) return { size: 11, most, less: 10, mostSaid: most };
    const size = Math.min(large, Math.max(small, (label - 5) / text.length / wide));
    return { size, most: Math.floor((label - 5) / size / wide + 0.01), less: 9, mostSaid: Math.floor((label - 16) / 9 / wide) };
}
function drawRow(place, row) {
    const { label, width, head, height, shown } = place;
    const y = place.y(row.number);
    const other = row.line !== undefined && !shown.includes(row.line) ? ' other' : '';
    const current = row.step === now ? ' current' : '';
    const group = drawn('g', 'row' + other + current, { 'data-step': row.step, 'data-row': row.number });
    const text = numberedOf(row);
    const { most, size, less, mostSaid } = lettersOf(place, text);
    const short = text.length > most ? text.slice(0, most - 1) + '…' : text;
    group.append(drawn('title', '', {}, text + ': ' + row.said),
        drawn('line', 'rule', { x1: label, x2: width, y1: y, y2: y }));
    if (y - 7 >= head && y + 7 <= height) group.append(drawn('text', 'text', { x: 5, y: y + 4, 'font-size': size }, short));
    if (y + 7 >= head && y + 20 <= height) {
        const reply = isShort(row) ? row.said.slice(0, mostSaid) : '';
        group.append(drawn('text', 'reply', { x: 16, y: y + 17, 'font-size': less }, reply));
    }
    return group;
}
// that a line which can't be taken ends the run
function drawEnd(place) {
    const y = place.y(rows.length) + 12;
    if (!run.fault || y - 12 < place.head) return [];
    return [drawn('text', 'ends', { x: 5, y, 'font-size': place.isNarrow ? 9.5 : 11 }, 'ends here: ' + run.fault)];
}

const cursorY = place => place.y(now) - BEFORE;

// the cursor: what comes after it is dim
function drawCursor(place) {
    const y = cursorY(place);
    const cursor = drawn('g', 'cursor', { id: 'cursor', tabindex: 0, role: 'slider', 'aria-label': 'step',
        'aria-valuemin': 0, 'aria-valuemax': steps.length, 'aria-valuenow': now, 'aria-orientation': 'vertical',
        'aria-valuetext': now === 0 ? 'before the first command' : rows[now - 1].text });
    cursor.append(drawn('rect', 'grip', { x: 0, y: y - 9, width: place.width, height: 18 }),
        drawn('line', '', { x1: 0, x2: place.width, y1: y, y2: y }),
        drawn('path', '', { d: `M0,${y - 8} h9 l7,8 l-7,8 h-9 z` }));
    cursor.onpointerdown = drag;
    return [drawn('rect', 'coming', { x: 0, y, width: place.width, height: Math.max(0, place.height - y) }), cursor];
}

// ---- the head: the names of the lifelines, and the state of each lane at the step

function drawHead(place) {
    const { width, head, label, shown } = place;
    const title = (shown.length === 1 ? 'line ' : 'lines ') + shown.join(', ');
    const found = [drawn('rect', 'top', { x: 0, y: 0, width, height: head }),
        drawn('text', 'name', { x: 5, y: 15 }, widthOf('name', title) < label - 40 ? title : shown.length + ' lines')];
    for (const who of place.names.filter(place.isInView)) {
        const y = shown.length === 1 ? 15 : 12;
        found.push(drawn('text', 'name', { x: place.centre(who), y, 'text-anchor': 'middle' }, who),
            ...shown.flatMap((line, order) => chipOf(place, who, line, order)));
    }
    return found;
}
function chipOf(place, who, line, order) {
    const state = stateIn(historyOf(line).get(who), now - 1);
    const chip = { 'data-who': who, 'data-line': line };
    const text = { 'data-chip': who, 'data-line': line, 'text-anchor': 'middle' };
    const said = drawn('title', '', {}, `${who}, line ${line}: ${state}` + (who === DIRECTORY ? '' : ', ' + may(state)));
    const kind = 'chip state-' + state;
    if (place.shown.length === 1) {
        const x = place.centre(who);
        return [drawn('rect', kind, { x: x - 26, y: 21, width: 52, height: 19, rx: 4, ...chip }, said),
            drawn('text', 'letters', { x, y: 35, ...text }, state), ...mayOf(place, who, state)];
    }
    if (place.shown.length === 2) {
        const [width, size] = place.isNarrow ? [38, 10] : [44, 11];
        const x = place.centre(who) + (order ? 1 : -1) * (width / 2 + 1);
        const name = widthOf('number', 'line ' + line) < width ? 'line ' + line : line;
        return [drawn('text', 'number', { x, y: 26, 'text-anchor': 'middle' }, name),
            drawn('rect', kind, { x: x - width / 2, y: 31, width, height: 19, rx: 4, ...chip }, said),
            drawn('text', 'letters', { x, y: 45, 'font-size': size, ...text }, state)];
    }
    return turnedChip(place, place.x(who, line), { line, kind, chip, text, said, state });
}
// of many lanes the states stand upwards, and long numbers too
function turnedChip({ head }, x, { line, kind, chip, text, said, state }) {
    const turned = y => ({ x: x + 4, y, transform: `rotate(-90,${x + 4},${y})`, 'text-anchor': 'middle' });
    const isLong = head > 78;
    const number = isLong ? turned(34) : { x, y: 25, 'text-anchor': 'middle' };
    return [drawn('text', 'number', { ...number, 'font-size': 9 }, line),
        drawn('rect', kind, { x: x - 9, y: head - 48, width: 18, height: 44, rx: 4, ...chip }, said),
        drawn('text', 'letters', { ...text, ...turned(head - 26), 'font-size': 11 }, state)];
}
function mayOf(place, who, state) {
    if (who === DIRECTORY) return [drawn('text', 'may', { 'data-may': who })];
    const x = place.centre(who);
    const room = Math.min(place.gap - 4, 2 * (place.width - x));
    const text = widthOf('may', may(state)) < room ? may(state) : '';
    return [drawn('text', 'may', { x, y: 52, 'text-anchor': 'middle', 'data-may': who }, text)];
}

// ---- all of it

// Draws what is in view, and nothing else.
function draw() {
    const place = placed();
    shownLines = place.shown;
    const svg = at('diagram');
    svg.setAttribute('width', place.width * zoom);
    svg.setAttribute('height', place.height * zoom);
    svg.setAttribute('viewBox', `0 0 ${place.width} ${place.height}`);
    const [from, to] = rowsInView(place);
    const inView = rows.slice(from, to + 1);
    const { label, head, width, height } = place;
    const clip = drawn('clipPath', '', { id: 'clip' }, drawn('rect', '', { x: label, y: head, width, height }));
    const flying = messagesInView(place, from, to);
    const held = document.activeElement && document.activeElement.id === 'cursor';
    const { inside, open } = pictureOfRows(place, inView, flying);
    for (const it of [inside, open]) it.setAttribute('clip-path', 'url(#clip)');
    // at the last step the run's end is no future
    const [end, isOver] = [drawEnd(place), now === steps.length];
    svg.replaceChildren(clip, ...inView.map(it => drawRow(place, it)), inside, ...isOver ? [] : end, ...drawCursor(place),
        ...isOver ? end : [], open, moving, ...drawHead(place));
    if (held) at('cursor').focus();
}

// What is drawn of some rows: bars and arrows, and over them what is written; what the step is about is written first.
function pictureOfRows(place, inView, flying) {
    const ways = new Map(flying.map(it => [it, wayOf(place, it)]));
    const labels = new Labels(place, [...ways.values()]);
    const [from, to] = [inView[0] ? inView[0].number : 0, inView.length ? inView[inView.length - 1].number : -1];
    const states = place.names.filter(place.isInView).flatMap(who => place.shown.flatMap(line =>
        statesOf(place, who, line, from, to)));
    for (const it of states.filter(it => !it.isBegun)) putState(labels, it);
    const isNow = it => it.sent.number === now - 1 || it.delivered && it.delivered.number === now - 1;
    const marks = nowFirst(inView, it => it.number === now - 1).flatMap(it => drawMarks(labels, it));
    for (const it of nowFirst(flying, isNow)) putName(labels, it, ways.get(it));
    for (const it of states.filter(it => it.isBegun)) putState(labels, it);
    return {
        inside: drawn('g', '', {}, ...states.map(it => barOf(place, it)),
            ...targetsInView(place, from, to).map(it => targetOf(place, it)),
            ...flying.map(it => arrowOf(it, ways.get(it))), ...marks, ...labels.drawn),
        open: drawn('g', '', {}, ...flying.filter(it => isInFlight(it, now - 1)).map(it => openOf(place, it, ways.get(it)))),
    };
}
const nowFirst = (all, isNow) => [...all.filter(isNow), ...all.filter(it => !isNow(it))];

// the step at a height of the diagram, in pixels of the window
function stepAt(y) {
    const row = rowAt((y + at('time').scrollTop) / zoom - placed().top + BEFORE - ROW / 2);
    return row < 0 ? 0 : rows[Math.min(row, rows.length - 1)].step;
}
function drag(event) {
    event.preventDefault();
    const svg = at('diagram');
    svg.setPointerCapture(event.pointerId);
    svg.onpointermove = it => show(stepAt(it.clientY - svg.getBoundingClientRect().top));
    svg.onpointerup = svg.onpointercancel = () => { svg.onpointermove = null; };
}

// The messages that the step delivered move along their arrows, where motion isn't unwelcome.
const moving = drawn('g', '', {});
let motion = 0;
const isStill = () => matchMedia('(prefers-reduced-motion: reduce)').matches;
function move(duration) {
    cancelAnimationFrame(motion);
    moving.replaceChildren();
    const moved = rows.slice(Math.max(now - 1, 0), now).map(it => it.message)
        .filter(it => it && shownLines.includes(it.line));
    if (moved.length === 0 || isStill()) return;
    moving.append(...moved.map(it => drawn('circle', 'moving ' + it.kind, { r: 7 })));
    const began = performance.now();
    const frame = time => {
        const part = Math.min(1, Math.max(0, (time - began) / duration));
        const place = placed();
        moved.forEach((it, order) => {
            const { x, y } = between(wayOf(place, it), part * part * (3 - 2 * part));
            moving.children[order].setAttribute('cx', x);
            moving.children[order].setAttribute('cy', y);
        });
        if (part < 1) motion = requestAnimationFrame(frame);
        else moving.replaceChildren();
    };
    frame(began);
}
"#;
