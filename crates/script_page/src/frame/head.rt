//! What comes before the run: the page's look, and its parts.

/// The head and the styles. Each state has a colour of its own, `--c`, and is always lettered too.
pub const HEAD: &str = r#"<!doctype html>
<html lang="en">
<head>
<meta charset="utf-8">
<meta name="viewport" content="width=device-width, initial-scale=1">
<title>lockup: a run</title>
<style>
:root { color-scheme: light dark; --edge: #8888; --soft: #8882; --lit: #e8a20055; --new: #1f6fd0; --bad: #c01818;
    --req: #555; --fwd: #1b62ae; --data: #ad1730; --ack: #157a34; --home: #7a4b9c; }
.state-I { --c: #dcdcdc; } .state-S { --c: #86c784; } .state-M { --c: #de6f5e; } .state-E { --c: #cf9bdc; }
.state-IS_D { --c: #bcd6f2; } .state-IM_AD { --c: #fdc27d; } .state-IM_A { --c: #fbe3a6; }
.state-SM_AD { --c: #b3e0a2; } .state-SM_A { --c: #d9f2c4; } .state-S_D { --c: #86cfc6; }
.state-MI_A { --c: #e0b3a6; } .state-SI_A { --c: #cdbfa8; } .state-II_A { --c: #c3bcc9; }
@media (prefers-color-scheme: dark) {
    :root { --bad: #ff7d6e; --new: #6db1ff; --req: #bbb; --fwd: #7db8f5; --data: #ff8d9c; --ack: #6fd08c;
        --home: #c9a0e8; }
    .state-I { --c: #3c3c3c; } .state-S { --c: #2f6b2e; } .state-M { --c: #9c3526; } .state-E { --c: #7b3f8c; }
    .state-IS_D { --c: #2f4f73; } .state-IM_AD { --c: #8a5512; } .state-IM_A { --c: #6e5a1c; }
    .state-SM_AD { --c: #47752f; } .state-SM_A { --c: #5b6f3a; } .state-S_D { --c: #20665f; }
    .state-MI_A { --c: #6b4238; } .state-SI_A { --c: #5a4f3c; } .state-II_A { --c: #4c4656; }
}
* { box-sizing: border-box; }
body { margin: 0; font: .9375rem/1.4 system-ui, sans-serif; height: 100vh; height: 100dvh; display: grid;
    grid-template: auto minmax(0, 1fr) / minmax(0, 1.5fr) minmax(min(22rem, 45vw), 1fr); }
header { grid-column: 1 / -1; padding: .4rem .8rem; border-bottom: 1px solid var(--edge); display: flex;
    flex-wrap: wrap; gap: .4rem .6rem; align-items: center; }
h1 { font-size: 1rem; margin: 0; flex: 1 1 10rem; overflow: hidden; text-overflow: ellipsis; white-space: nowrap; }
h2 { font-size: .95rem; margin: .8rem 0 .3rem; }
h3 { font-size: .88rem; margin: .5rem 0 .2rem; }
button, select, input { font: inherit; padding: .15rem .5rem; }
input { width: 5.5rem; }
input[type=checkbox] { width: auto; }
#fault, .ends { color: var(--bad); font-weight: bold; margin: 0; }
#fault { flex: 1 0 100%; }
noscript { grid-column: 1 / -1; padding: 1rem; }
#time { overflow: auto; position: relative; border-right: 1px solid var(--edge); }
#diagram { position: sticky; top: 0; left: 0; display: block; touch-action: pan-x pan-y; }
#focus { overflow: auto; padding: .3rem 1rem 2rem; }
#caption { margin: .3rem 0; }
#now { border: 1px solid var(--edge); border-left: 5px solid var(--new); border-radius: 6px; padding: .3rem .8rem; }
#now .command { font-weight: bold; font-size: 1rem; margin: .1rem 0; white-space: pre-wrap; }
#now .answer { margin: .1rem 0; white-space: pre-wrap; }
#now .report { white-space: normal; }
#now .report td { text-align: right; }
#now ul { margin: .2rem 0; padding-left: 1.2rem; }
caption { text-align: left; font-size: .85rem; padding: .1rem 0; }
pre, code, td, th, .held, .word, .rest, .script { font-family: ui-monospace, monospace; font-size: .85rem; }
.tables { overflow-x: auto; }
table { border-collapse: collapse; margin: 0 0 .4rem; }
td, th { border: 1px solid var(--edge); padding: .05rem .4rem; text-align: left; font-weight: normal; vertical-align: top; }
th { background: var(--soft); }
td.lit { background: var(--lit); font-weight: bold; outline: 3px solid; }
td.would { outline: 2px dashed; }
.off { opacity: .45; border-style: dashed; }
.cell { background: var(--c); }
.changed { outline: 2px solid var(--new); }
.free { opacity: .55; }
.messages { margin: .3rem 0; padding: 0; list-style: none; }
.messages .req { color: var(--req); } .messages .fwd { color: var(--fwd); } .messages .data { color: var(--data); }
.messages .ack { color: var(--ack); } .messages .home { color: var(--home); }
#lines { max-height: 15rem; overflow: auto; }
#lines tr { cursor: pointer; height: 1.7rem; }
#lines .followed th { font-weight: bold; outline: 2px solid; }
.script div { white-space: pre-wrap; content-visibility: auto; contain-intrinsic-size: auto 1.3rem; }
.said { position: absolute; width: 1px; height: 1px; overflow: hidden; clip-path: inset(50%); }
svg { font: 12px system-ui, sans-serif; fill: CanvasText; }
.signs { list-style: none; padding: 0; margin: .3rem 0; } .signs li { display: flex; gap: .6rem; align-items: center; }
.signs svg { flex: none; }
.rule { stroke: var(--edge); stroke-width: .5; }
.row { font-family: ui-monospace, monospace; cursor: pointer; }
.row.other { opacity: .5; } .row.current { font-weight: bold; }
.reply { font-family: ui-monospace, monospace; opacity: .8; }
.bar, .chip { fill: var(--c); stroke: var(--edge); stroke-width: .5; }
.bar.missing { stroke: CanvasText; stroke-width: 1.2; }
.target line { stroke: CanvasText; stroke-width: 1.4; } .target circle { fill: CanvasText; }
.letters, .name { font-weight: bold; }
.letters, .label, .mark, .performed { paint-order: stroke; stroke: Canvas; stroke-width: 3px; stroke-linejoin: round; }
.arrow { fill: none; stroke-width: 1.7; stroke: currentColor; }
.arrow.data { stroke-width: 2.6; } .arrow.fwd { stroke-dasharray: 8 3; } .arrow.ack { stroke-dasharray: 2 3; }
.arrow.home { stroke-dasharray: 9 3 2 3; }
.head { stroke: none; fill: currentColor; }
.label { fill: currentColor; }
.label[data-kind=req] { color: var(--req); } .label[data-kind=fwd] { color: var(--fwd); }
.label[data-kind=data] { color: var(--data); } .label[data-kind=ack] { color: var(--ack); }
.label[data-kind=home] { color: var(--home); }
.req { color: var(--req); } .fwd { color: var(--fwd); } .data { color: var(--data); }
.ack { color: var(--ack); } .home { color: var(--home); }
.open { fill: Canvas; stroke: currentColor; stroke-width: 2; }
.moving { fill: currentColor; stroke: Canvas; stroke-width: 2; }
.ring { fill: none; stroke: var(--bad); stroke-width: 3; }
.cross { stroke: var(--bad); stroke-width: 3; }
.mark { fill: var(--bad); font-style: italic; }
text.ends { fill: var(--bad); }
.diamond { fill: CanvasText; stroke: Canvas; }
.coming { fill: Canvas; opacity: .72; pointer-events: none; }
.projector .coming { opacity: 1; pointer-events: auto; }
.cursor { cursor: ns-resize; touch-action: none; }
.cursor line { stroke: var(--new); stroke-width: 2; } .cursor path { fill: var(--new); }
.cursor .grip { fill: transparent; }
.cursor:focus-visible { outline: none; } .cursor:focus-visible line { stroke-width: 5; }
.top { fill: Canvas; } .may, .number { font-size: 10px; }
#story { display: none; }
@media (max-width: 50rem) {
    body { grid-template: auto minmax(0, 1.1fr) minmax(0, 1fr) / minmax(0, 1fr); font-size: .875rem; }
    header { padding: .25rem .4rem; gap: .25rem; }
    header h1, .wide { display: none; }
    #time { border-right: 0; border-bottom: 1px solid var(--edge); }
    #focus { padding: .2rem .5rem 1rem; }
}
@media print {
    :root { color-scheme: light; }
    body { display: block; height: auto; }
    header, #time, #focus { display: none; }
    #story { display: block; padding: 0; }
    figure { break-inside: avoid; margin: 0 0 .8rem; border-top: 1px solid #888; padding-top: .3rem; }
    figure p { margin: .1rem 0; }
    * { print-color-adjust: exact; -webkit-print-color-adjust: exact; }
}
</style>
</head>
"#;

/// The page's parts, which the code fills, up to the run.
pub const BODY: &str = r#"<body>
<header>
<h1 id="title">lockup: a run</h1>
<span role="group" aria-label="steps">
<button id="first" title="to the start (Home)" aria-label="to the start">|&lt;</button>
<button id="back" title="a step back (arrow left; Page Up: to the event before)" aria-label="a step back">&lt;</button>
<button id="play" title="play or stop (space)">play</button>
<button id="forward" title="a step forward (arrow right; Page Down: to the next event)" aria-label="a step forward">&gt;</button>
<button id="last" title="to the end (End)" aria-label="to the end">&gt;|</button>
</span>
<label><span class="wide">step </span><input id="step" type="number" min="0" aria-label="step"> of
<span id="count"></span></label>
<label><span class="wide">speed </span><select id="speed" aria-label="speed"><option value="2500">slow</option>
<option value="1200" selected>normal</option><option value="350">fast</option></select></label>
<label>lines <select id="follow" aria-label="the lines that are shown"></select></label>
<label class="wide"><input id="projector" type="checkbox"> projector</label>
<p id="fault" role="alert" hidden></p>
</header>
<noscript>This page shows a run of lockup step by step, and needs JavaScript for it, which is switched off here. The
same run as text: <code>lockup script --beside --explain FILE</code>.</noscript>
<section id="time" tabindex="0" aria-label="the run in time: a lifeline for the directory and for each core">
<div id="length"><svg id="diagram"></svg></div>
</section>
<section id="focus" tabindex="0" aria-label="the step">
<p id="caption"></p>
<div id="now"></div>
<div><h2>The row of the table</h2><div id="met" class="tables"></div></div>
<details id="tables"><summary>the whole tables</summary><div class="tables"></div></details>
<div id="line"></div>
<div id="could"></div>
<div id="many"><h2>All lines</h2><div id="lines"></div></div>
<div id="cores"></div>
<details id="legend"><summary>what the picture shows</summary></details>
<details id="script"><summary>the script</summary><div class="script"></div></details>
</section>
<div id="said" class="said" aria-live="polite"></div>
<section id="story"></section>
<script type="application/json" id="run">
"#;
