//! The page's code: where everything is in the diagram.

/// What is shown, how large it is, and where: the lines that have lanes, the lifelines, and the heights of rows.
pub const PLACE: &str = r#"
// ---- where everything stands

let now = 0;

// an element with a class and what it holds
function made(name, kind, ...inside) {
    const it = document.createElement(name);
    if (kind) it.className = kind;
    it.append(...inside);
    return it;
}
function drawn(name, kind, attributes, ...inside) {
    const it = document.createElementNS('http://www.w3.org/2000/svg', name);
    if (kind) it.setAttribute('class', kind);
    for (const [key, value] of Object.entries(attributes)) it.setAttribute(key, value);
    it.append(...inside);
    return it;
}

// how large everything is
let zoom = 1;
const ZOOMS = [1, 1.25, 1.5, 2, 2.5, 3];
function takeZoom(value) {
    zoom = Math.min(4, Math.max(0.5, value || 1));
    document.documentElement.style.fontSize = 16 * zoom + 'px';
}
// how far the cursor is before the row that comes next
const BEFORE = 8;
function isFutureShown() {
    return !document.body.classList.contains('projector');
}

// ---- the lines that are shown: those that were chosen, or else those that the step and its neighbours are about, and those
// for which something waits then

let chosenLines = [];
const NEIGHBOURS = 5;
const MOST_LINES = 12;
function neighboursOf(number) {
    const found = [number];
    for (let away = 1; away <= NEIGHBOURS; away++) {
        found.push(number - away);
        if (isFutureShown()) found.push(number + away);
    }
    return found.filter(it => it >= 0 && it < rows.length);
}
const waitsAt = (begins, ends, number) => begins.number <= number && (!ends || ends.number >= number);
function linesOfStep() {
    const near = neighboursOf(now - 1).flatMap(it => [rows[it].line, rows[it].victim]);
    const waits = accesses.filter(it => waitsAt(it.issued, it.performed, now - 1));
    const flies = messages.filter(it => waitsAt(it.sent, it.delivered, now - 1));
    return [...near.filter(it => it !== undefined), ...[...waits, ...flies].map(it => it.line)];
}
function linesShown(most) {
    const found = [...new Set(chosenLines.length ? chosenLines : linesOfStep())].slice(0, most);
    return found.length ? found.sort((a, b) => a - b) : [ascending[0] || 0];
}
// the lines that were drawn last, and of them the one that the step is about, or the first
let shownLines = [0];
function followed() {
    const shown = shownLines;
    const line = now ? rows[now - 1].line : undefined;
    return shown.includes(line) ? line : shown[0];
}

// ---- lifelines, each with a lane for each line that is shown

// The lanes of a lifeline by their number: half a bar's width, and how far it is from one to the next; and how much room is
// left beside the outer lifelines, at least and at most, and at least between two.
const SIZES = [
    { half: 13, pitch: 0, side: [60, 117], between: 84 },
    { half: 9, pitch: 24, side: [45, 100], between: 80 },
    { half: 8, pitch: 20, side: [30, 80], between: 70 },
];
const NARROW = { side: [19, 19], between: 55 };
// how wide the commands are; in less room, for one line, and for several or where not all are in view at once
const COMMANDS = { wide: [172, 172], narrow: [108, 92] };
// how many of their letters are shown where there is room, how large these are at most and at least where there is less, and
// how wide one of size 1
const LETTERS = { most: 24, large: 9.5, small: 8, wide: 0.61 };
const WIDE = 620;
function sizesOf(count, isNarrow) {
    const [one, several] = COMMANDS[isNarrow ? 'narrow' : 'wide'];
    const size = { ...SIZES[Math.min(count, SIZES.length) - 1], ...isNarrow && NARROW, several };
    size.label = count > 1 ? several : one;
    const group = size.pitch * (count - 1) + 2 * size.half;
    const least = size.label + 2 * size.side[0] + group * (shape.cores + 1) + size.between * shape.cores;
    return { ...size, isNarrow, group, least };
}
// .. narrow where they don't fit else
function sizesFor(count, width) {
    const [wide, narrow] = [sizesOf(count, false), sizesOf(count, true)];
    return wide.least <= width || narrow.least > width && width >= WIDE ? wide : withCommands(narrow, width);
}
// of what is left over then the commands have as much as they need, and a third of it at most
function withCommands(sizes, width) {
    const needed = 8 + LETTERS.wide * LETTERS.large * Math.min(LETTERS.most, longest) - sizes.label;
    const more = Math.max(0, Math.min(needed, (width - sizes.least) / 3));
    return { ...sizes, label: sizes.label + more, least: sizes.least + more };
}
// Where they are: all between the edges; or where they don't fit, the directory beside the commands, and as many cores as do.
const SCROLLED = { side: 46, more: 16 };
function spread(sizes, width) {
    const { label, side: [least, most], between, group, isNarrow } = sizes;
    const spare = width - sizes.least;
    if (spare < 0) {
        const gap = group + between + (isNarrow ? SCROLLED.more : 0);
        const first = sizes.several + SCROLLED.side + group / 2;
        const seats = Math.max(1, Math.floor((width - 4 - group / 2 - first) / gap));
        return { isScrolled: true, label: sizes.several, first, gap, seats, begins: first + group / 2 + 6 };
    }
    const gap = Math.min(320, group + between + (spare - 2 * Math.min(most - least, spare / 4)) / shape.cores);
    const side = (width - label - group - gap * shape.cores) / 2;
    return { isScrolled: false, label, first: label + side + group / 2, gap, seats: shape.cores, begins: label };
}

// The lifelines from left to right: few cores stand on both sides of the directory. Where they don't fit, it comes first, and
// stays where the cores are scrolled.
function lifelines(isFirst = shape.cores > 8) {
    const cores = Array.from({ length: shape.cores }, (_, core) => coreName(core));
    cores.splice(isFirst ? 0 : Math.ceil(shape.cores / 2), 0, DIRECTORY);
    return cores;
}

// where everything is, as it is scrolled now
function placed() {
    const view = at('time');
    const [width, height] = [view.clientWidth / zoom, view.clientHeight / zoom];
    let most = 1;
    while (most < MOST_LINES && sizesFor(most + 1, width).least <= width) most += 1;
    const shown = linesShown(most);
    const sizes = sizesFor(shown.length, width);
    return { width, height, shown, ...sizes, ...across(sizes, shown, width), ...down(shown, height) };
}
// .. from left to right
function across(sizes, shown, width) {
    const { pitch, group, isNarrow } = sizes;
    const there = spread(sizes, width);
    const names = lifelines(there.isScrolled || shape.cores > 8);
    const orders = new Map(names.map((who, order) => [who, order]));
    const scrolled = at('time').scrollLeft / zoom;
    const centre = who => there.first + there.gap * orders.get(who) - (who === DIRECTORY ? 0 : scrolled);
    const laneOf = line => shown.indexOf(line) - (shown.length - 1) / 2;
    return { ...there, names, orders, centre,
        x: (who, line = shown[0]) => centre(who) + laneOf(line) * pitch,
        isInView: who => who === DIRECTORY || centre(who) - group / 2 >= there.begins && centre(who) + group / 2 <= width,
        // on which side of its lane what belongs to it stands
        side: (who, line) => shown.length > 1 ? Math.sign(laneOf(line)) || 1
            : sideOf(who, orders, isNarrow, there.isScrolled) };
}
function sideOf(who, orders, isNarrow, isScrolled) {
    if (who === DIRECTORY) return isScrolled ? -1 : 1;
    if (isNarrow) return orders.get(who) === orders.size - 1 ? -1 : 1;
    return orders.get(who) < orders.get(DIRECTORY) ? -1 : 1;
}
// .. and from above to below: the head has the names, the numbers of several lines, and the states
function down(shown, height) {
    const isLong = shown.length > 2 && shown.some(it => String(it).length > 3);
    const head = shown.length < 3 ? 62 : isLong ? 106 : 78;
    const top = head + 26;
    const scrolled = at('time').scrollTop / zoom;
    return { head, top, length: top + tops[rows.length] + ROW, y: row => top + tops[row] - scrolled,
        // up to where messages are seen
        bottom: isFutureShown() ? height - 10 : top + tops[now] - scrolled - BEFORE };
}

// the row at a height below the first
function rowAt(height) {
    let [low, high] = [0, rows.length];
    while (low < high) {
        const middle = (low + high) >> 1;
        if (tops[middle] <= height) low = middle + 1;
        else high = middle;
    }
    return low - 1;
}
// the rows that are in view
function rowsInView(place) {
    const scrolled = at('time').scrollTop / zoom;
    return [Math.max(0, rowAt(scrolled - 26)), Math.min(rows.length - 1, rowAt(scrolled + place.height) + 1)];
}

// ---- what is scrolled into view: the step, and who acts in it

function reveal() {
    const view = at('time');
    const place = placed();
    const whole = place.width + place.gap * (shape.cores - place.seats);
    setSize(at('length'), place.length * zoom + 'px', place.isScrolled ? whole * zoom + 'px' : '');
    const top = Math.max(0, tops[Math.max(now - 1, 0)] - ROW) * zoom;
    const bottom = (place.top + tops[now] + ROW) * zoom;
    if (view.scrollTop + view.clientHeight < bottom) view.scrollTop = bottom - view.clientHeight;
    if (view.scrollTop > top) view.scrollTop = top;
    let last = now - 1;
    while (last >= 0 && !rows[last].event) last -= 1;
    if (place.isScrolled && last >= 0) revealWho(place, rows[last]);
}
function setSize({ style }, height, width) {
    if (style.height !== height) style.height = height;
    if (style.width !== width) style.width = width;
}
// Scrolls by whole cores, until the one that acts is in view, and both ends of its message where there is room for them.
function revealWho({ orders, gap, seats }, { event, message }) {
    const all = [event.who, ...message ? [message.from, message.to] : []].filter(it => it !== DIRECTORY);
    const [low, high] = [Math.min, Math.max].map(it => it(...all.map(who => orders.get(who))));
    const [from, to] = high - low < seats ? [low, high] : Array(2).fill(orders.get(all[0]));
    const before = Math.round(at('time').scrollLeft / zoom / gap);
    if (all.length === 0 || from > before && to <= before + seats) return;
    const first = from - 1 - Math.floor((seats - 1 - to + from) / 2);
    at('time').scrollLeft = Math.min(Math.max(first, 0), shape.cores - seats) * gap * zoom;
}
"#;
