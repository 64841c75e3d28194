//! The page's code: answers that are to be guessed.

/// Stops before each command whose answer isn't known yet, and asks for it.
pub const GUESS: &str = r#"
// ---- guessing

document.head.append(made('style', '', `
.guessing .coming { opacity: 1; pointer-events: auto; }
#question { border: 1px solid var(--edge); border-radius: 6px; padding: .3rem .8rem; margin: .4rem 0; }
#question p { margin: .2rem 0; }
#guess { width: min(100%, 24rem); font-family: ui-monospace, monospace; }
`));
const hides = made('input', '');
Object.assign(hides, { id: 'hides', type: 'checkbox', checked: true });
document.querySelector('header').append(made('label', '', hides, ' hide answers'));

const guess = made('input', '');
Object.assign(guess, { id: 'guess', autocomplete: 'off', ariaLabel: 'your guess' });
const verdict = made('span', '');
verdict.setAttribute('role', 'status');
const question = made('form', '', made('p', ''), guess, ' ', made('button', '', 'guess'), ' ',
    made('button', '', 'show'), ' ', verdict);
question.id = 'question';
at('now').after(question);

// The steps whose answers were guessed or shown. The page goes no further than up to the first whose answer wasn't. The
// deliveries of a pump are no commands of the script, and nobody is asked for them.
const known = new Set();
function knownTo() {
    let step = 0;
    while (step < steps.length && (known.has(steps[step]) || rows[step].within)) step += 1;
    return step;
}

// what is to be guessed of a step: its answer without what happened, by its words
const TOLD = ['issue', 'evict', 'deliver', 'hand', 'word'];
const wordsOf = text => text.trim().split(/\s+/).join(' ');
const wantedOf = step => wordsOf(TOLD.includes(rows[step].call.name) ? rows[step].said : steps[step].answer);

function learn(how) {
    const step = knownTo();
    known.add(steps[step]);
    guess.value = '';
    show(step + 1);
    verdict.textContent = how + wantedOf(step);
    if (!question.hidden) guess.focus();
}
question.onsubmit = event => {
    event.preventDefault();
    if (wordsOf(guess.value) === wantedOf(knownTo())) learn('right: ');
    else verdict.textContent = 'not so';
};
question.querySelector('button:last-of-type').type = 'button';
question.querySelector('button:last-of-type').onclick = () => learn('it answered: ');
hides.onchange = () => show(now);

const isAllShown = isFutureShown;
isFutureShown = () => isAllShown() && !hides.checked;

// The page shows what it shows of any step, but none after the first whose answer isn't known.
const showAny = show;
show = number => {
    const to = knownTo();
    document.body.classList.toggle('guessing', hides.checked);
    showAny(hides.checked ? Math.min(number, to) : number);
    question.hidden = !hides.checked || now < to || to === steps.length;
    if (!question.hidden) {
        question.firstChild.replaceChildren('What does ', made('code', '', steps[to].command), ' answer?');
    }
};
const tellAny = tellStory;
tellStory = () => {
    tellAny();
    const told = rows.filter(it => it.event);
    at('story').querySelectorAll('figure').forEach((it, order) => {
        it.hidden = hides.checked && told[order].step > knownTo();
    });
};
"#;
