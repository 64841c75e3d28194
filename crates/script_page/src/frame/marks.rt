//! The page's code: what is marked at rows.

/// A delivery that was blocked, an access or an eviction that found no room, and what was performed.
pub const MARKS: &str = r#"
// ---- marks

const STALLS = ['stall', 'buffer full'];
const isInVain = row => STALLS.some(it => row.said.startsWith(it));
const isMarked = row => isInVain(row) || row.said.startsWith('busy');

// What is marked of a row, each with what is written there, or less of it.
function marksOf(row) {
    if (!row.event) return [];
    if (row.plan && row.plan.fate === 'blocked') {
        const [waits, ...awaited] = row.done[0].split(' for ');
        const why = 'blocked: ' + row.done[0];
        return [{ kind: 'ring', texts: [why, ['blocked: ' + waits + ' for ', awaited.join(' for ')], 'blocked', '…'] }];
    }
    if (isMarked(row)) {
        const [answer, ...why] = row.said.split(' ').map(it => it + ' ');
        return [{ kind: 'cross', texts: [row.said, [answer, why.join('').trim()], answer.trim(), '…'] }];
    }
    return row.performed.map((it, order) => ({ kind: 'diamond', order,
        texts: [`#${it.number} ${textOf(it)}`, textOf(it), `#${it.number}: ${it.effect}`, it.effect, '#' + it.number] }));
}

function signOf(kind, x, y) {
    if (kind === 'ring') return drawn('circle', 'ring', { cx: x, cy: y, r: 9 });
    if (kind === 'cross') return drawn('path', 'cross', { d: `M${x - 7},${y - 7} l14,14 m0,-14 l-14,14` });
    return drawn('path', 'diamond', { d: `M${x},${y - 3} l6,6 l-6,6 l-6,-6 z` });
}

// the marks of a row, each in the lane that it is about; all that one delivery performs have one sign
function drawMarks(labels, row) {
    const { place } = labels;
    if (!row.event || !place.shown.includes(row.event.line) || !place.isInView(row.event.who)) return [];
    const { who, line } = row.event;
    const [x, y] = [place.x(who, line), place.y(row.number)];
    const marks = marksOf(row);
    for (const { kind, texts, order } of marks) {
        const isPerformed = kind === 'diamond';
        const height = isPerformed ? y + 28 + TEXT * order : y + 4;
        const tries = texts.map(text => labels.beside(who, line, height, text));
        const whole = isPerformed ? 2 : 3;
        const groups = [tries.slice(0, whole).flat(), tries.slice(whole).flat()];
        labels.put(isPerformed ? 'performed' : 'mark', groups, { 'data-who': who, 'data-line': line, 'data-step': row.step });
    }
    return marks.slice(0, 1).map(({ kind }) => {
        const sign = signOf(kind, x, y);
        sign.setAttribute('data-who', who);
        sign.setAttribute('data-line', line);
        sign.setAttribute('data-step', row.step);
        sign.append(drawn('title', '', {}, marks.map(it => it.texts[0]).join('; ')));
        return sign;
    });
}
"#;
