//! The page's code: the lanes of lifelines.

/// A lane has the states of one line where it stands, and the accesses that wait for the line.
pub const LANES: &str = r#"
// ---- lanes: the states of a line at the directory or at a core, and the accesses that wait there

// the states from a row to another, each with the heights at which it begins and ends in view
function statesOf(place, who, line, from, to) {
    const found = [];
    const history = historyOf(line).get(who);
    const first = Math.max(0, history.findLastIndex(it => it.row <= from));
    for (let index = first; index < history.length && history[index].row <= to; index++) {
        const { row, state } = history[index];
        const next = index + 1 < history.length ? history[index + 1].row : rows.length;
        const begun = row < 0 ? place.y(0) - 20 : place.y(row);
        const begins = Math.max(begun, place.head);
        const ends = Math.min(place.y(next), place.height);
        if (ends > begins) found.push({ who, line, state, begins, ends, isBegun: begun < begins });
    }
    return found;
}

function barOf(place, { who, line, state, begins, ends }) {
    const kind = MISSING.includes(state) ? 'bar missing' : 'bar';
    return drawn('rect', kind + ' state-' + state, { x: place.x(who, line) - place.half, width: 2 * place.half, y: begins,
        height: ends - begins, 'data-who': who, 'data-line': line, 'data-state': state },
        drawn('title', '', {}, `${who}, line ${line}: ${state}`));
}

// a bar's state in letters: beside it, or upwards inside it where several lines have lanes
function putState(labels, { who, line, state, begins, ends }) {
    const { place } = labels;
    const attributes = { 'data-who': who, 'data-line': line, 'data-state': state };
    const width = labels.widthOf('turned', state);
    if (place.shown.length > 1 && width <= ends - begins) {
        const inside = { text: state, x: place.x(who, line) + 4, y: begins + width / 2, anchor: 'middle', isTurned: true };
        labels.put('turned', [[inside]], attributes);
    } else if (place.shown.length < 3) {
        const tries = labels.beside(who, line, begins + 13, state);
        labels.put('letters', [place.shown.length === 1 ? tries : tries.slice(0, 1)], attributes);
    }
}

// an access that waits in its line's miss register, from its issue to its performance
function targetOf(place, { core, line, place: order, issued, performed }) {
    const who = coreName(core);
    const [edge, apart, last] = place.shown.length === 1 ? [5, 4, 4] : [3, 2.5, 1];
    const x = place.x(who, line) + place.half - edge - apart * Math.min(order, last);
    const from = place.y(issued.number) + 5;
    const to = performed ? place.y(performed.number) : place.y(rows.length) - 4;
    return drawn('g', 'target', { 'data-who': who, 'data-line': line, 'data-issued': issued.step,
        'data-performed': performed ? performed.step : '' },
        drawn('title', '', {}, `${issued.text}: waits ` + (performed ? 'to step ' + performed.step : 'still')),
        drawn('line', '', { x1: x, x2: x, y1: from, y2: Math.max(from, to) }),
        drawn('circle', '', { cx: x, cy: from, r: 2 }));
}
function targetsInView(place, from, to) {
    return accesses.filter(it => place.shown.includes(it.line) && it.issued.number <= to && place.isInView(coreName(it.core))
        && (!it.performed || it.performed.number >= from));
}
"#;
