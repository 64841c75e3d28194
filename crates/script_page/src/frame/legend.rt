//! The page's code: the legend.

/// Explains each sign of the diagram, with the sign itself.
pub const LEGEND: &str = r#"
// ---- the legend

const ARROW_KINDS = {
    req: 'a request: GetS, GetM, PutS, PutM',
    fwd: 'what the directory sends to cores but Data: Fwd-GetS, Fwd-GetM, Inv, Put-Ack',
    data: 'Data to a core, with the words that the run names',
    ack: 'Inv-Ack, from core to core',
    home: 'Data home, to the directory',
};
const STATES = ['I', 'S', 'E', 'M', 'S_D', 'IS_D', 'IM_AD', 'IM_A', 'SM_AD', 'SM_A', 'MI_A', 'SI_A', 'II_A'];
function signsOf() {
    const way = { x1: 4, y1: 12, x2: 56, y2: 12 };
    const bar = kind => drawn('rect', kind, { x: 20, y: 1, width: 20, height: 22 });
    const target = drawn('g', 'target', {}, drawn('line', '', { x1: 34, x2: 34, y1: 5, y2: 23 }),
        drawn('circle', '', { cx: 34, cy: 5, r: 2 }));
    return [
        ...Object.entries(ARROW_KINDS).map(([kind, words]) => [words, drawn('g', kind, {},
            drawn('line', 'arrow ' + kind, way), headOf(way))]),
        ['a message in flight', drawn('circle', 'open', { cx: 30, cy: 12, r: 4.5 })],
        ['a message that had to wait', signOf('ring', 30, 12)],
        ['an access or an eviction that was not taken', signOf('cross', 30, 12)],
        ['accesses performed: their numbers in the log, and what they read, or what the word was and is',
            signOf('diamond', 30, 9)],
        ['the state of a line, in a lane of its own where several are shown', bar('bar state-S')],
        ['a line that has a miss register: the bar has an edge', bar('bar missing state-IS_D')],
        ['an access that waits in that register, from its issue on', bar('bar missing state-IS_D'), target],
    ];
}
function showLegend() {
    if (!at('legend').open || at('legend').querySelector('li')) return;
    const list = made('ul', 'signs', ...signsOf().map(([words, ...signs]) =>
        made('li', '', drawn('svg', '', { width: 60, height: 24, 'aria-hidden': true }, ...signs), words)));
    const states = made('p', '', ...STATES.flatMap(it => [made('span', 'cell state-' + it, it), ' ']));
    at('legend').append(list, states);
}
"#;
