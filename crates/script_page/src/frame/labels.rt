//! The page's code: labels, none of them on another or on a lifeline.

/// Finds a free place for each label: next to what it names, or along its arrow, and in fewer words where there is less
/// room.
pub const LABELS: &str = r#"
// ---- labels

// how each kind of label is written
const FONTS = { letters: ['bold', 12], turned: ['bold', 10], label: ['', 11.5], mark: ['italic', 11.5],
    performed: ['', 11.5], may: ['', 10], name: ['bold', 12], number: ['', 10] };
const [ABOVE, BELOW] = [0.95, 0.27];
const family = getComputedStyle(at('diagram')).fontFamily;
const brush = made('canvas').getContext('2d');
const widths = new Map();
function widthOf(kind, text, scale = 1) {
    const key = kind + ' ' + text;
    if (!widths.has(key)) {
        const [style, size] = FONTS[kind];
        brush.font = `${style} ${size}px ${family}`;
        if (widths.size > 5000) widths.clear();
        widths.set(key, brush.measureText(text).width + 2);
    }
    return widths.get(key) * scale;
}

const meet = (a, b) => a.left < b.right && b.left < a.right && a.top < b.bottom && b.top < a.bottom;
// whether a straight way meets a box
function crosses({ x1, y1, x2, y2 }, box) {
    const [dx, dy] = [x2 - x1, y2 - y1];
    let [begins, ends] = [0, 1];
    for (const [from, along, low, high] of [[x1, dx, box.left, box.right], [y1, dy, box.top, box.bottom]]) {
        if (along === 0 && (from < low || from > high)) return false;
        const [one, other] = along === 0 ? [0, 1] : [(low - from) / along, (high - from) / along];
        begins = Math.max(begins, Math.min(one, other));
        ends = Math.min(ends, Math.max(one, other));
    }
    return begins <= ends;
}

// The labels of a picture. A try is a text, or the lines of one, at a place, from which it goes to the right, to the left
// (`end`), or to both sides (`middle`); it can be turned, to be read upwards inside its bar.
class Labels {
    constructor(place, ways) {
        this.place = place;
        this.ways = ways;
        this.scale = place.isNarrow ? 0.87 : 1;
        this.taken = [];
        this.drawn = [];
        const all = place.names.filter(place.isInView).flatMap(who => place.shown.map(line => place.x(who, line)));
        this.bars = all.sort((a, b) => a - b).map(x => ({ left: x - place.half - 1, right: x + place.half + 1 }));
        const ends = [place.label, ...this.bars.flatMap(it => [it.left, it.right]), place.width];
        this.gaps = this.bars.concat(null).map((_, order) => ({ left: ends[2 * order], right: ends[2 * order + 1] }));
    }
    sizeOf(kind) {
        return FONTS[kind][1] * this.scale;
    }
    widthOf(kind, text) {
        return widthOf(kind, text, this.scale);
    }
    boxOf(kind, { text, x, y, anchor, isTurned }) {
        const lines = [text].flat();
        const size = this.sizeOf(kind);
        const width = Math.max(...lines.map(it => this.widthOf(kind, it)));
        if (isTurned) return { left: x - ABOVE * size, right: x + BELOW * size, top: y - width / 2, bottom: y + width / 2 };
        const left = x - (anchor === 'end' ? width : anchor === 'middle' ? width / 2 : 0);
        return { left, right: left + width, top: y - ABOVE * size, bottom: y + (lines.length - 1) * TEXT + BELOW * size };
    }
    isFree(box, isTurned) {
        const { label, width, height, head } = this.place;
        return box.left >= label && box.right <= width && box.top >= head && box.bottom <= height
            && (isTurned || !this.bars.some(it => box.left < it.right && it.left < box.right))
            && !this.taken.some(it => meet(it, box));
    }
    // Draws the first try that is free, best one that no other way crosses; where none is, of those that come next.
    put(kind, [tries, ...others], attributes, own) {
        let second = null;
        for (const it of tries) {
            const box = this.boxOf(kind, it);
            if (!this.isFree(box, it.isTurned)) continue;
            if (!this.ways.some(way => way !== own && crosses(way, box))) return this.take(kind, it, box, attributes);
            second = second || [it, box];
        }
        if (second) this.take(kind, ...second, attributes);
        else if (others.length) this.put(kind, others, attributes, own);
    }
    take(kind, { text, x, y, anchor, isTurned }, box, attributes) {
        this.taken.push(box);
        const [first, ...more] = [text].flat();
        const turned = isTurned ? { transform: `rotate(-90,${x},${y})` } : {};
        const written = { x, y, 'font-size': this.sizeOf(kind), 'text-anchor': anchor || 'start', ...turned, ...attributes };
        this.drawn.push(drawn('text', kind === 'turned' ? 'letters turned' : kind, written, first,
            ...more.map(line => drawn('tspan', '', { x, dy: TEXT }, line))));
    }
    // where a text can stand beside a lifeline: on the side of its lane, or on the other
    beside(who, line, y, text) {
        const own = this.place.side(who, line);
        const [x, away] = [this.place.centre(who), this.place.group / 2 + 5];
        return [own, -own].map(side => ({ text, x: x + side * away, y, anchor: side < 0 ? 'end' : 'start' }));
    }
    // where a text can stand along the part of a way that is in view: between two lifelines, above it or below
    along({ x1, y1, x2, y2 }, kind, text) {
        const { head, bottom } = this.place;
        const share = y => Math.min(1, Math.max(0, (y - y1) / (y2 - y1)));
        const [begins, ends] = [share(head + 6), share(bottom)];
        const half = this.widthOf(kind, text) / 2 + 0.5;
        const gaps = this.gaps.filter(it => it.right - it.left >= 2 * half && it.right > Math.min(x1, x2)
            && it.left < Math.max(x1, x2));
        // a label above a way that isn't steep is above all of it
        const rise = half * Math.abs((y2 - y1) / (x2 - x1));
        const lift = rise < TEXT ? rise : 0;
        return PARTS.flatMap(part => {
            const point = begins + (ends - begins) * part;
            const near = x1 + (x2 - x1) * point;
            const apart = it => Math.max(0, it.left - near, near - it.right);
            const [gap] = gaps.filter(it => apart(it) < AWAY).sort((a, b) => apart(a) - apart(b));
            if (!gap) return [];
            const x = Math.min(gap.right - half, Math.max(gap.left + half, near));
            const there = (x - x1) / (x2 - x1);
            const y = y1 + (y2 - y1) * (begins <= there && there <= ends ? there : point);
            return [-4 - lift, 13 + lift, -17 - lift, 26 + lift].map(away => ({ text, x, y: y + away, anchor: 'middle' }));
        });
    }
}
const PARTS = [0.5, 0.35, 0.65, 0.2, 0.8, 0.1, 0.9];
// how far beside the part of its way that is in view a label may be
const AWAY = 40;
"#;
