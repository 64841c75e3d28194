//! The page's code: how it is moved through, and how it is printed.

/// The storyboard for paper.
pub const STORY: &str = r#"
// ---- the storyboard: a picture for each step in which something happened

const PICTURES = 400;
function pictureOf(row) {
    const line = row.line;
    const states = historyOf(line);
    const sent = messages.filter(it => it.line === line && it !== row.message && isInFlight(it, row.number));
    const active = who => who === DIRECTORY || stateIn(states.get(who), row.number) !== 'I' || who === row.event.who
        || sent.concat(row.message || []).some(it => it.from === who || it.to === who);
    const names = lifelines().filter(active);
    const x = who => 60 + names.indexOf(who) * Math.min(220, 560 / Math.max(1, names.length - 1));
    const svg = drawn('svg', '', { width: 680, height: 62 + 18 * (sent.length + (row.message ? 1 : 0)) });
    for (const who of names) {
        const state = stateIn(states.get(who), row.number);
        svg.append(drawn('text', 'name', { x: x(who), y: 13, 'text-anchor': 'middle' }, who),
            drawn('rect', 'chip state-' + state, { x: x(who) - 30, y: 19, width: 60, height: 22, rx: 4 }),
            drawn('text', 'letters', { x: x(who), y: 35, 'text-anchor': 'middle' }, state));
    }
    [...(row.message ? [row.message] : []), ...sent].forEach((it, order) => {
        const y = 56 + 18 * order;
        const taken = it === row.message;
        const way = { x1: x(it.from), y1: y, x2: taken ? x(it.to) : x(it.from) + (x(it.to) - x(it.from)) * 0.7, y2: y };
        const text = taken && row.said === 'moved' ? it.name : it.name + ' (in flight)';
        svg.append(drawn('g', it.kind, {}, drawn('line', 'arrow ' + it.kind, way),
            taken ? headOf(way) : drawn('circle', 'open', { cx: way.x2, cy: y, r: 4 }),
            drawn('text', 'label', { x: (way.x1 + way.x2) / 2, y: y - 3, 'text-anchor': 'middle' }, text)));
    });
    return svg;
}
function tellStory() {
    const figures = rows.filter(it => it.event).slice(0, PICTURES).map(row => {
        const words = row.done.map(it => inWords(it, row)).join('; ');
        const { who, state, name } = row.event;
        const caption = made('figcaption', '', made('p', '', captions[row.step] || ''),
            made('p', '', made('b', '', row.step + '. ' + row.text), ` ${row.said}: ${who} in ${state}, ${name}: ${words}`));
        return made('figure', '', caption, pictureOf(row));
    });
    at('story').replaceChildren(made('h1', '', titleOf()), ...figures);
}
"#;

/// What the buttons, the keys and the pointer do; the end of the page.
pub const TAIL: &str = r#"
// ---- moving through the run

let timer = 0;
let later = 0;
const speed = () => Number(at('speed').value);

function show(number) {
    const before = now;
    now = Math.min(Math.max(Math.floor(number) || 0, 0), steps.length);
    at('step').value = now;
    keepLink();
    reveal();
    draw();
    showNow();
    showEnd();
    showMet();
    showTables();
    showLine();
    showMany();
    showCores();
    showCould();
    say();
    if (now === before + 1) move(Math.min(900, speed() * 0.7));
}

// The step at which something happens next, or did before: what only looks, and what a pump leaves, is passed over.
function eventFrom(step, by) {
    let found = step + by;
    while (found > 0 && found < steps.length && !rows[found - 1].event) found += by;
    return found;
}

function play() {
    if (timer) {
        clearTimeout(timer);
        timer = 0;
    } else if (now < steps.length || now === 0) {
        timer = setTimeout(next, speed() / 3);
    } else {
        show(0);
        timer = setTimeout(next, speed());
    }
    at('play').textContent = timer ? 'stop' : 'play';
}
function next() {
    show(eventFrom(now, 1));
    timer = now < steps.length ? setTimeout(next, speed()) : 0;
    at('play').textContent = timer ? 'stop' : 'play';
}

// ---- what is shown, and how large

// Shows these lines; without any, those that the steps are about.
function choose(some) {
    chosenLines = some.filter(it => ascending.includes(it));
    tellChosen();
    keepLink();
    reveal();
    draw();
    showLine();
    showMany();
}
function follow(line) {
    choose(line === '' ? [] : [Number(line)]);
}
function fillLines() {
    const plain = made('option', '', 'of the step');
    plain.value = '';
    at('follow').replaceChildren(plain, ...ascending.map(it => made('option', '', it)));
    chosenLines = chosenLines.filter(it => ascending.includes(it));
    tellChosen();
}
function tellChosen() {
    const several = at('follow').querySelector('.several');
    if (several) several.remove();
    const text = chosenLines.join(', ');
    if (chosenLines.length > 1) at('follow').append(made('option', 'several', text));
    at('follow').value = text;
}

function resize(value) {
    takeZoom(value);
    keepLink();
    reveal();
    draw();
    showMany();
}
const larger = by => resize(ZOOMS[Math.min(ZOOMS.length - 1, Math.max(0, ZOOMS.findLastIndex(it => it <= zoom) + by))]);
// For a projector all is larger, and nothing of what comes is shown.
const PROJECTED = 1.5;
function project() {
    const { checked } = at('projector');
    document.body.classList.toggle('projector', checked);
    resize(checked ? Math.max(zoom, PROJECTED) : 1);
}

// ---- the link: the step, the lines that were chosen, how large all is, and whether it is for a projector

function linkOf() {
    const said = { step: now, line: chosenLines.join(), zoom: zoom === 1 ? '' : zoom,
        projector: at('projector').checked ? 'on' : '' };
    return '#' + Object.entries(said).filter(it => it[1] !== '').map(it => it.join('=')).join('&');
}
function keepLink() {
    clearTimeout(later);
    later = setTimeout(() => history.replaceState(null, '', linkOf()), 200);
}
function openLink() {
    const said = new URLSearchParams(location.hash.slice(1));
    at('projector').checked = said.get('projector') === 'on';
    document.body.classList.toggle('projector', at('projector').checked);
    takeZoom(Number(said.get('zoom')));
    chosenLines = (said.get('line') || '').split(',').filter(it => /^\d+$/.test(it)).map(Number);
    fillLines();
    showFault();
    show(Number(said.get('step')));
}

// ---- keys

// what keeps its own keys: where one writes or chooses, and for the space bar whatever it presses
const WRITES = ['INPUT', 'SELECT', 'TEXTAREA'];
const PRESSES = ['BUTTON', 'SUMMARY', 'A'];
function press(event) {
    if (event.altKey || event.ctrlKey || event.metaKey) return;
    if (WRITES.includes(event.target.tagName) && event.target.type !== 'checkbox') return;
    if (event.key === ' ' && [...PRESSES, 'INPUT'].includes(event.target.tagName)) return;
    const inTime = at('time').contains(event.target);
    const keys = {
        ArrowLeft: () => show(now - 1),
        ArrowRight: () => show(now + 1),
        Home: () => show(0),
        End: () => show(steps.length),
        ' ': play,
        '+': () => larger(1),
        '-': () => larger(-1),
        ...inTime && { ArrowUp: () => show(now - 1), ArrowDown: () => show(now + 1) },
        // the keys of a clicker, but where they scroll what is read
        ...!at('focus').contains(event.target) && { PageUp: () => show(eventFrom(now, -1)),
            PageDown: () => show(eventFrom(now, 1)) },
    };
    if (!Object.hasOwn(keys, event.key)) return;
    event.preventDefault();
    keys[event.key]();
}

at('title').textContent = titleOf();
document.title = titleOf() + ' - lockup';
at('count').textContent = steps.length;
at('step').max = steps.length;
at('first').onclick = () => show(0);
at('back').onclick = () => show(now - 1);
at('forward').onclick = () => show(now + 1);
at('last').onclick = () => show(steps.length);
at('play').onclick = play;
at('step').onchange = () => show(Number(at('step').value));
at('follow').onchange = () => follow(at('follow').value);
at('projector').onchange = project;
at('tables').ontoggle = showTables;
at('legend').ontoggle = showLegend;
at('time').onscroll = draw;
at('lines').onscroll = showMany;
at('diagram').onclick = event => {
    const row = event.target.closest('.row');
    if (row) show(Number(row.dataset.step));
};
window.onresize = () => { reveal(); draw(); };
window.onhashchange = openLink;
window.onbeforeprint = tellStory;
document.onkeydown = press;
readScript();
openLink();
</script>
</body>
</html>
"#;
