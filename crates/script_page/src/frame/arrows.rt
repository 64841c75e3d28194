//! The page's code: messages as arrows.

/// An arrow goes from a message's sending to its delivery, and has its name and its words next to it.
pub const ARROWS: &str = r#"
// ---- arrows

// where a message is drawn: from its sending to its delivery, or for one that is in flight at the end to a point on its way
function wayOf(place, { line, from, to, sent, delivered }) {
    const [x1, x2] = [place.x(from, line), place.x(to, line)];
    const out = Math.sign(x2 - x1) * place.half;
    const y1 = place.y(sent.number) + 6;
    if (delivered) return { x1: x1 + out, y1, x2: x2 - out, y2: place.y(delivered.number) };
    return { x1: x1 + out, y1, x2: x1 + (x2 - x1) * 0.6, y2: Math.max(place.y(rows.length) - 4, y1 + 20) };
}

const between = (way, part) => ({ x: way.x1 + (way.x2 - way.x1) * part, y: way.y1 + (way.y2 - way.y1) * part });

function headOf(way) {
    const angle = Math.atan2(way.y2 - way.y1, way.x2 - way.x1) * 180 / Math.PI;
    const transform = `translate(${way.x2},${way.y2}) rotate(${angle})`;
    return drawn('path', 'head', { d: 'M0,0 l-11,-5 v10 z', transform });
}

function arrowOf(message, way) {
    const { x1, y1, x2, y2 } = way;
    return drawn('g', message.kind, { 'data-of': message.order, 'data-channel': message.channel, 'data-name': message.name,
        'data-line': message.line, 'data-from': message.from, 'data-to': message.to, 'data-sent': message.sent.step,
        'data-delivered': message.delivered ? message.delivered.step : '' },
        drawn('title', '', {}, `${textsFor(message)[0]}, ${message.from} to ${message.to}, line ${message.line}`),
        drawn('line', 'arrow ' + message.kind, { x1, y1, x2, y2 }),
        message.delivered ? headOf(way) : drawn('circle', 'open', { cx: x2, cy: y2, r: 4 }));
}

// what is written at a message: its name with those of its words that the run's accesses name, or less
const MOST_WORDS = 2;
function textsFor({ name, line, block }) {
    const places = block && named.has(line) ? [...named.get(line)].sort((a, b) => a - b) : [];
    const values = places.slice(0, MOST_WORDS).map(it => block[it]).join(', ') + (places.length > MOST_WORDS ? ', …' : '');
    const short = name.split(' for ')[0];
    return [...new Set([values ? `${name}: ${values}` : name, name, short, short.replace('Data home', 'home')])];
}
function putName(labels, message, way) {
    const tries = textsFor(message).flatMap(text => labels.along(way, 'label', text));
    labels.put('label', [tries], { 'data-of': message.order, 'data-kind': message.kind, 'data-line': message.line,
        'data-sent': message.sent.step }, way);
}

// the messages of the lines that are shown which are in view
function messagesInView(place, from, to) {
    const isThere = who => place.isInView(who) || place.centre(who) > place.begins;
    return messages.filter(it => place.shown.includes(it.line) && it.sent.number <= to
        && (!it.delivered || it.delivered.number >= from) && isThere(it.from) && isThere(it.to));
}

// a message that is in flight at the step: where it is cut
function openOf(place, message, way) {
    const part = Math.min(1, Math.max(0, (cursorY(place) - way.y1) / (way.y2 - way.y1)));
    const { x, y } = between(way, part);
    return drawn('g', message.kind, {}, drawn('circle', 'open', { cx: x, cy: y, r: 4.5, 'data-flying': message.channel }));
}
const isInFlight = ({ sent, delivered }, row) => sent.number <= row && (!delivered || delivered.number > row);
"#;
