//! The scoreboard's page. `tools/served` writes this file, of examples/scoreboard/index.html.

/// What may be run and loaded in the page: its own style and script, and what it asks of its station.
pub const POLICY: &[u8] =
    b"default-src 'none'; script-src 'sha256-alJjrz+hFUPjFI7O+x9Xch1UhXhTaN2uvQkollwbX24='; style-src 'sha256-YB5SVarurR5oU1bpycpFCLpVKWc8RbGL+5rNLHyAfRg='; connect-src 'self'; img-src data:; base-uri 'none'; form-action 'none'; frame-ancestors 'none'";

/// The page.
pub const PAGE: &[u8] = b"<!DOCTYPE html>
<html lang=\"en\">
<head>
<meta charset=\"utf-8\">
<meta name=\"viewport\" content=\"width=device-width, initial-scale=1\">
<meta name=\"served\" content=\"events\">
<link rel=\"icon\" href=\"data:,\">
<title>Scoreboard</title>
<!-- Shows a board's state, which `ground board --json board.json` writes (docs/FORMATS.md), read once a second. It knows no cricket: each figure and
     each word stands in the file. Beside the page: board.json. Behind the address: ?board=NAME for another file, ?overlay for a stream, ?big for a wall.
     A page that is opened from a folder may fetch nothing: it reads the script state.js beside it, `window.yermudosh = ` and the same state.
     `ground board --serve` gives this page itself (tools/served puts it into the program), and tells it each state as it comes. -->
<style>
:root {
  --ground: #0d1a12; --panel: #14271b; --line: #3c5c47; --text: #ffffff; --quiet: #c4d6ca; --bright: #ffd84d;
  --alarm-ground: #b00020; --alarm-text: #ffffff; --ball: #1e3a29; --marked: #3a3310; --wicket: #ffffff; --wicket-text: #000000; --unit: 16px;
}
/* In the hand, where the telephone or the tablet asks for it: light, to be read in the sun. */
@media (prefers-color-scheme: light) and (max-width: 899px) {
  :root:not(.overlay, .big) {
    --ground: #eef3ef; --panel: #ffffff; --line: #8fa698; --text: #0d1a12; --quiet: #33493c; --bright: #6b4700;
    --ball: #e4ede7; --marked: #fff1c2; --wicket: #0d1a12; --wicket-text: #ffffff;
  }
}
* { box-sizing: border-box; }
html { background: var(--ground); color: var(--text); font: var(--unit)/1.25 \"DejaVu Sans\", Verdana, Arial, sans-serif; font-variant-numeric: tabular-nums; }
body { margin: 0; }
h1, h2, p, ol, table { margin: 0; padding: 0; }
h1, h2 { font-weight: 600; }
header { display: flex; flex-wrap: wrap; gap: .2em 1em; justify-content: space-between; align-items: baseline; padding: .5em 1em; border-bottom: 2px solid var(--line); }
h1 { font-size: 1.1em; overflow-wrap: anywhere; }
#age { color: var(--quiet); white-space: nowrap; padding: .1em .5em; border-radius: .3em; }
#trouble { margin: .5em .75em 0; padding: .4em .8em; border-radius: .3em; background: var(--alarm-ground); color: var(--alarm-text); font-weight: 700; overflow-wrap: anywhere; }
#age.old { background: var(--alarm-ground); color: var(--alarm-text); font-weight: 700; }
main { display: grid; gap: .75em; padding: .75em; grid-template-columns: minmax(0, 1fr); }
section { background: var(--panel); border: 1px solid var(--line); border-radius: .5em; padding: .6em .9em; min-width: 0; }
h2 { font-size: .85em; letter-spacing: .06em; text-transform: uppercase; color: var(--quiet); overflow-wrap: anywhere; }
#score h2, .card h2 { text-transform: none; letter-spacing: 0; }
#runs { font-size: 4.5em; font-weight: 700; line-height: 1.05; white-space: nowrap; }
#overs { font-size: 1.5em; color: var(--quiet); white-space: nowrap; }
#aim, #result { font-size: 1.4em; color: var(--bright); font-weight: 600; overflow-wrap: anywhere; }
#result::first-letter { text-transform: uppercase; }
#left, #stand { color: var(--quiet); overflow-wrap: anywhere; }
#runs:empty, #overs:empty { display: none; }
#missing { margin-top: .4em; max-width: 45em; }
#missing code { color: var(--bright); overflow-wrap: anywhere; }
table { border-collapse: collapse; width: 100%; }
th, td { text-align: right; padding: .15em .4em; vertical-align: baseline; border-top: 1px solid var(--line); }
thead th { font-size: .8em; font-weight: 400; color: var(--quiet); border-top: 0; }
th:first-child, th.words, td.words { text-align: left; overflow-wrap: break-word; }
tbody th { font-weight: 400; }
td.words, tfoot td.words { color: var(--quiet); }
td:not(.words) { white-space: nowrap; }
tfoot th { white-space: nowrap; }
tfoot tr { border-top: 1px solid var(--line); }
tr.strike th::before { content: \"\\25B6\\00A0\"; color: var(--bright); }
tr.strike th { font-weight: 700; }
ol.over { list-style: none; display: flex; flex-wrap: wrap; gap: .3em; font-weight: 700; min-height: 2em; }
ol.over li { min-width: 2em; padding: .3em .4em; text-align: center; border: 2px solid var(--line); border-radius: 1em; background: var(--ball); line-height: 1.1; }
ol.over li.marked { border-color: var(--bright); border-radius: .2em; background: var(--marked); }
ol.over li.wicket { border-color: var(--wicket); border-radius: .2em; background: var(--wicket); color: var(--wicket-text); }
#last-over { color: var(--quiet); font-size: .95em; margin-top: .4em; }
.falls, .absent { color: var(--quiet); font-size: .9em; padding: .4em; overflow-wrap: anywhere; }
.falls span { display: inline-block; max-width: 100%; }
.unseen { position: absolute; width: 1px; height: 1px; overflow: hidden; clip-path: inset(50%); white-space: nowrap; }
#match:not([hidden]) { display: grid; gap: .5em 1.5em; grid-template-columns: minmax(0, 1fr); }
.is-over #team, .is-over #runs, .is-over #overs { display: none; }
#match h2 { text-transform: none; letter-spacing: 0; font-size: 1.1em; color: var(--text); }
#match .total { color: var(--bright); white-space: nowrap; }
#match .overs { font-weight: 400; color: var(--quiet); white-space: nowrap; }
.best { display: grid; gap: 0 1.5em; grid-template-columns: repeat(auto-fit, minmax(min(100%, 14em), 1fr)); align-items: start; }
#cards { display: grid; gap: .75em; grid-template-columns: minmax(0, 1fr); }
.bars { display: flex; align-items: flex-end; gap: 2px; height: 5em; margin-top: .4em; border-bottom: 1px solid var(--line); }
.bars span { flex: 1 1 0; min-width: 1px; max-width: 1.6em; background: var(--bright); }
.bars.earlier span { background: var(--line); }
[hidden] { display: none !important; }

/* In the hand there is no room for how somebody was out beside his name. */
@media (max-width: 599px) {
  html:not(.big, .overlay) .batting tr { display: grid; grid-template-columns: minmax(0, 1fr) repeat(4, 1.9em); }
  html:not(.big, .overlay) .batting :is(th, td) { padding-left: .1em; padding-right: .1em; }
  html:not(.big, .overlay) .batting td.words { grid-row: 2; grid-column: 1 / -1; padding-top: 0; border: 0; }
  html:not(.big, .overlay) .batting thead .words + .words { display: none; }
  html:not(.big, .overlay) .batting tfoot :is(th, td) { border: 0; }
}

@media (max-width: 359px) {
  html:not(.big, .overlay) :is(.card, #crease, #match) table { font-size: .9em; }
}

/* A screen at the ground: the score can be read from across the field. */
@media (min-width: 900px) {
  html { font-size: 1.04vw; }
  main { grid-template-columns: minmax(0, 1.08fr) minmax(0, 1fr); }
  #runs { font-size: 11em; line-height: .95; }
  #overs { font-size: 3.6em; }
  #score h2 { font-size: 2.2em; color: var(--text); }
  #aim, #result { font-size: 3em; line-height: 1.1; }
  #left, #stand { font-size: 1.7em; }
  #crease th, #crease td { font-size: 2.5em; padding: .06em .25em; }
  #crease thead th { font-size: 1.1em; }
  ol.over { font-size: 2.3em; min-height: 1.8em; }
  #last-over { font-size: 1.5em; }
  #wickets th, #wickets td { font-size: 1.3em; }
  #match h2 { font-size: 2em; }
  #match .best { font-size: 1.4em; }
  #match .best th, #match .best td { padding: .1em .25em; }
  .is-over #score, .is-over #match { grid-column: 1 / -1; }
  .is-over #match { grid-template-columns: repeat(2, minmax(0, 1fr)); }
  #chart { grid-column: 1 / -1; }
  #cards { grid-column: 1 / -1; grid-template-columns: repeat(2, minmax(0, 1fr)); }
  .card .both { display: grid; grid-template-columns: minmax(0, 1.5fr) minmax(0, 1fr); gap: 1em; align-items: start; }
  .card th, .card td { font-size: .95em; padding: .02em .3em; }
}

/* A stream: a lower third over the picture. */
html.overlay { background: transparent; }
.overlay h1, .overlay #age:not(.old), .overlay #missing, .overlay #wickets, .overlay #chart, .overlay #cards { display: none; }
.overlay #match { grid-column: span 2; }
.is-over.overlay #match { grid-column: 1 / -1; }
.overlay header { position: fixed; right: 2vw; top: 2vh; padding: 0; border: 0; }
.overlay #trouble { position: fixed; left: 2vw; top: 2vh; max-width: 60vw; margin: 0; }
.overlay main { position: fixed; left: 2vw; right: 2vw; bottom: 3vh; padding: 0; align-items: stretch; grid-template-columns: minmax(0, 1fr) minmax(0, 1.5fr) minmax(0, 1fr); }
.overlay section { background: rgba(10, 24, 16, .92); border: 0; }
@media (min-width: 900px) {
  .overlay #runs { font-size: 4.6em; }
  .overlay #overs { font-size: 1.7em; }
  .overlay #score h2 { font-size: 1.3em; }
  .overlay #aim, .overlay #result { font-size: 1.4em; }
  .overlay #left, .overlay #stand { font-size: 1em; }
  .overlay #match h2 { font-size: 1.3em; }
  .overlay #match .best { font-size: 1.1em; }
  .overlay #crease th, .overlay #crease td { font-size: 1.35em; }
  .overlay #crease thead th { font-size: .8em; }
  .overlay ol.over { font-size: 1.35em; }
  .overlay #last-over { font-size: 1em; }
}

/* A wall: what is read at fifty metres, in letters of a twentieth of the height. The cards come in turns, under the score. */
.big { --u: calc(min(1vh, .5625vw) * var(--fit, 1)); font-size: calc(2.6 * var(--u)); overflow: hidden; }
.big header { flex-wrap: nowrap; font-size: calc(2 * var(--u)); }
.big h1 { white-space: nowrap; }
.big #trouble { font-size: calc(3.6 * var(--u)); }
.big main { display: block; padding: .3em 1.4em 0; }
.big section { background: none; border: 0; border-radius: 0; padding: 0; }
.big #stand, .big #over, .big #wickets, .big #chart, .big #cards, .big #crease-heading { display: none; }
.big #team, .big #aim, .big #result, .big #batters td, .big #batters tbody th, .big #bowler td, .big #bowler tbody th { font-size: calc(7 * var(--u)); line-height: 1.12; }
.big #team { color: var(--text); white-space: nowrap; }
.big #team .label { font-size: calc(3 * var(--u)); }
.big #runs { font-size: calc(26 * var(--u)); line-height: .9; }
.big #overs { font-size: calc(9 * var(--u)); margin-left: .3em; }
.big #aim { white-space: nowrap; }
.big #left { font-size: calc(3.6 * var(--u)); white-space: nowrap; }
.big #crease th, .big #crease td { padding: .05em 0 .05em .4em; white-space: nowrap; }
.big #crease th:first-child { padding-left: 0; }
.big #crease th:first-child { width: 100%; }
.big #crease thead th { font-size: calc(3 * var(--u)); }
.big #batters tr > :nth-child(n + 4) { display: none; }
.big #match { gap: calc(2 * var(--u)); grid-template-columns: minmax(0, 1fr); }
.big #match .best { font-size: calc(3.5 * var(--u)); grid-template-columns: repeat(2, minmax(0, 1fr)); }
.big #match h2 { font-size: calc(7 * var(--u)); line-height: 1.12; }
.big #match .best th, .big #match .best td { line-height: 1.15; padding: 0 .4em 0 0; border: 0; white-space: nowrap; }
.big[data-turn=\"card\"] #crease, .big[data-turn=\"card\"] #match, .big[data-turn=\"card\"] #left, .big[data-turn=\"card\"] #aim, .big[data-turn=\"card\"] #result { display: none; }
.big[data-turn=\"card\"] #score { display: flex; gap: 1em; align-items: baseline; border-bottom: 2px solid var(--line); white-space: nowrap; }
.big[data-turn=\"card\"] #team, .big[data-turn=\"card\"] #runs, .big[data-turn=\"card\"] #overs { font-size: calc(4.6 * var(--u)); line-height: 1.3; }
.big[data-turn=\"card\"] #cards, .big .card .both { display: block; }
.big .card:not(.turn), .big .turn.batting .bowled, .big .turn.bowling .batted { display: none; }
.big .card h2 { font-size: 1em; color: var(--text); }
.big .card { font-size: calc(4.2 * var(--u) * var(--card, 1)); line-height: 1.2; }
.big .card th, .big .card td { font-size: 1em; padding: .04em .3em; }
.big .card th { white-space: nowrap; }
.big .card .absent, .big .card .falls { font-size: 1em; }
</style>
</head>
<body>
<header>
  <h1 id=\"title\">Scoreboard</h1>
  <p id=\"age\">waiting for the board</p>
</header>
<p id=\"trouble\" role=\"alert\" hidden></p>
<main>
  <section id=\"score\" aria-labelledby=\"team\">
    <h2 id=\"team\">Waiting for the board</h2>
    <div role=\"status\" aria-live=\"polite\" aria-atomic=\"true\">
      <span id=\"runs\"></span> <span id=\"overs\"></span> <span id=\"fallen\" class=\"unseen\"></span>
      <p id=\"aim\" hidden></p>
      <p id=\"left\" hidden></p>
      <p id=\"stand\" hidden></p>
      <p id=\"result\" hidden></p>
      <p id=\"missing\" hidden></p>
    </div>
  </section>
  <section id=\"crease\" aria-labelledby=\"crease-heading\" hidden>
    <h2 id=\"crease-heading\">At the crease</h2>
    <table id=\"batters\">
      <thead><tr><th scope=\"col\">Batter</th><th scope=\"col\"><abbr title=\"runs\">R</abbr></th><th scope=\"col\"><abbr title=\"balls\">B</abbr></th><th scope=\"col\"><abbr title=\"fours\">4</abbr></th><th scope=\"col\"><abbr title=\"sixes\">6</abbr></th></tr></thead>
      <tbody></tbody>
    </table>
    <table id=\"bowler\">
      <thead><tr><th scope=\"col\">Bowler</th><th scope=\"col\"><abbr title=\"overs\">O</abbr></th><th scope=\"col\"><abbr title=\"maidens\">M</abbr></th><th scope=\"col\"><abbr title=\"runs\">R</abbr></th><th scope=\"col\"><abbr title=\"wickets\">W</abbr></th></tr></thead>
      <tbody></tbody>
    </table>
  </section>
  <section id=\"over\" aria-labelledby=\"over-heading\" hidden>
    <h2 id=\"over-heading\">This over</h2>
    <ol class=\"over\" id=\"this-over\"></ol>
    <p id=\"last-over\"></p>
  </section>
  <section id=\"wickets\" aria-labelledby=\"wickets-heading\" hidden>
    <h2 id=\"wickets-heading\">Last wickets</h2>
    <table>
      <thead class=\"unseen\"><tr><th scope=\"col\">Batter</th><th scope=\"col\">How</th><th scope=\"col\">Runs</th><th scope=\"col\">Fall</th></tr></thead>
      <tbody></tbody>
    </table>
  </section>
  <section id=\"match\" aria-label=\"The match\" hidden></section>
  <section id=\"chart\" aria-labelledby=\"chart-heading\" hidden>
    <h2 id=\"chart-heading\">Runs by over</h2>
    <div id=\"bars\"></div>
  </section>
  <div id=\"cards\"></div>
</main>
<script>
\"use strict\";
const EVERY = 1000;      // milliseconds between two looks at the file
const isServed = document.querySelector(\"meta[name=served]\") !== null;
const OLD = isServed ? 7 : 30;   // seconds from which on a state is old: a living board writes it at least every 10, and tells each 2 that it is there
const SILENT = 10;       // seconds from which on a desk isn't heard
const TURN = 10000;      // milliseconds that a wall shows the score, or a card
const PLAYERS = 11;
const words = new URLSearchParams(location.search);
const isFolder = location.protocol === \"file:\";
const file = words.get(\"board\") || (isFolder ? \"state.js\" : \"board.json\");
const page = document.documentElement;
page.classList.toggle(\"overlay\", words.has(\"overlay\"));
page.classList.toggle(\"big\", words.has(\"big\"));

const at = id => document.getElementById(id);

// An element with this text. A name is never read as anything but text.
function element(name, text, kind) {
  const made = document.createElement(name);
  if (text !== undefined) made.textContent = text;
  if (kind) made.className = kind;
  return made;
}

function put(id, text) {
  // What a screen reader was told is left alone while it stays so.
  if (at(id).textContent !== text) at(id).textContent = text;
}

function putIf(id, text) {
  at(id).hidden = !text;
  put(id, text || \"\");
}

// A row: what it is of, and its figures.
function row(first, cells, kind) {
  const made = element(\"tr\", undefined, kind);
  const head = element(\"th\", first);
  head.scope = \"row\";
  made.append(head, ...cells.map(cell => cell.words === undefined ? element(\"td\", cell) : element(\"td\", cell.words, \"words\")));
  return made;
}

function headings(names) {
  const line = element(\"tr\");
  for (const [short, long] of names) {
    const cell = element(\"th\", undefined, long ? \"\" : \"words\");
    cell.scope = \"col\";
    if (long) {
      const inner = element(\"abbr\", short);
      inner.title = long;
      cell.append(inner);
    } else cell.textContent = short;
    line.append(cell);
  }
  const head = element(\"thead\");
  head.append(line);
  return head;
}

const BATTING = [[\"Batter\"], [\"How\"], [\"R\", \"runs\"], [\"B\", \"balls\"], [\"4\", \"fours\"], [\"6\", \"sixes\"]];
const BOWLING = [[\"Bowler\"], [\"O\", \"overs\"], [\"M\", \"maidens\"], [\"R\", \"runs\"], [\"W\", \"wickets\"]];

const batted = b => [b.runs, b.balls, b.fours, b.sixes];
const bowled = b => [b.overs, b.maidens, b.runs, b.wickets];
const of = (rows, number) => rows.find(one => one.number === number);

function ball(mark) {
  const made = element(\"li\", mark === \".\" ? \"\\u2022\" : mark);
  if (mark === \".\") made.setAttribute(\"aria-label\", \"no run\");
  else if (mark.includes(\"W\")) made.className = \"wicket\";
  else if (/[a-z]/.test(mark)) made.className = \"marked\";
  return made;
}

function showCrease(innings, now) {
  const rows = [now.striker, now.other].filter(number => number !== null).map(number => {
    const b = of(innings.batting, number);
    const made = row(b.name, batted(b), number === now.striker ? \"strike\" : \"\");
    if (number === now.striker) made.firstChild.append(element(\"span\", \" on strike\", \"unseen\"));
    return made;
  });
  at(\"batters\").tBodies[0].replaceChildren(...rows);
  const bowler = of(innings.bowling, now.bowler);
  at(\"bowler\").tBodies[0].replaceChildren(...(bowler ? [row(bowler.name, bowled(bowler))] : []));
  at(\"bowler\").hidden = !bowler;
}

// What a screen reader is told of a wicket, with the score at which it fell. With the next delivery it is gone.
function tellWicket(innings, before) {
  const same = before && before.innings.length === innings.length ? before.innings[innings.length - 1] : null;
  const now = innings[innings.length - 1];
  if (!same || now.falls.length <= same.falls.length) return put(\"fallen\", \"\");
  const fall = now.falls[now.falls.length - 1];
  const b = of(now.batting, fall.number);
  put(\"fallen\", \"Wicket: \" + fall.name + (b ? \", \" + b.how + \", \" + b.runs : \"\"));
}

function showWickets(innings, atRest) {
  const rows = innings.falls.slice(-4).reverse().map(fall => {
    const b = of(innings.batting, fall.number);
    return row(fall.name, [{ words: b ? b.how : \"\" }, b ? b.runs : \"\", fall.wicket + \"-\" + fall.runs]);
  });
  at(\"wickets\").querySelector(\"tbody\").replaceChildren(...rows);
  at(\"wickets\").hidden = atRest || rows.length === 0;
}

// What is shown where nobody bats: each innings with its total, its highest scores and its best bowling, as many of each.
const BEST = 3;
const isAtRest = board => board.innings.length > 0 && (board.now.result !== null || board.innings[board.innings.length - 1].closed);
const highest = innings => innings.batting.slice().sort((one, other) => other.runs - one.runs || one.balls - other.balls).slice(0, BEST);
const bestBowled = innings => innings.bowling.slice().sort((one, other) => other.wickets - one.wickets || one.runs - other.runs).slice(0, BEST);

function total(innings) {
  return innings.all_out ? innings.runs + \" all out\" : innings.runs + \"/\" + innings.wickets;
}

function figures(rows) {
  const made = element(\"table\");
  const body = element(\"tbody\");
  body.append(...rows);
  made.append(body);
  return made;
}

function bestOf(innings) {
  const made = element(\"div\", undefined, \"best\");
  made.append(
    figures(highest(innings).map(b => row(b.name, [b.runs + (b.how === \"not out\" ? \"*\" : \"\") + \" (\" + b.balls + \")\"]))),
    figures(bestBowled(innings).map(b => row(b.name, [b.wickets + \"-\" + b.runs + \" (\" + b.overs + \")\"]))),
  );
  return made;
}

function showMatch(board) {
  const parts = board.innings.map(innings => {
    const head = element(\"h2\", innings.team + \" \");
    head.append(element(\"span\", total(innings), \"total\"), \" \", element(\"span\", innings.overs + \" overs\", \"overs\"));
    const made = element(\"div\");
    made.append(head, bestOf(innings));
    return made;
  });
  at(\"match\").replaceChildren(...parts);
}

// A bar for each over that was called, innings by innings, the last one bright.
function showChart(board) {
  const overs = board.overs_runs || [];
  const most = Math.max(1, ...overs.map(over => over.runs));
  const rows = board.innings.map((innings, n) => {
    const made = element(\"div\", undefined, n + 1 < board.innings.length ? \"bars earlier\" : \"bars\");
    const own = overs.filter(over => over.innings === n + 1);
    made.hidden = own.length === 0;
    made.setAttribute(\"role\", \"img\");
    made.setAttribute(\"aria-label\", innings.team + \", runs by over: \" + own.map(over => over.runs).join(\", \"));
    made.append(...own.map((over, at) => {
      const bar = element(\"span\");
      bar.style.height = 100 * over.runs / most + \"%\";
      bar.title = \"Over \" + (at + 1) + \": \" + over.runs;
      return bar;
    }));
    return made;
  });
  at(\"bars\").replaceChildren(...rows);
  at(\"chart\").hidden = overs.length === 0;
}

// Who hasn't batted. A board of an earlier version tells no names of those: then how many.
function absent(innings, board) {
  const came = new Set(innings.batting.map(b => b.number));
  const names = (innings.players || []).filter((name, n) => !came.has(n + 1));
  if (came.size === PLAYERS) return \"\";
  const isOver = innings.closed || board.now.result !== null;
  return (isOver ? \"Did not bat: \" : \"Yet to bat: \") + (names.length > 0 ? names.join(\", \") : PLAYERS - came.size);
}

function card(innings, board) {
  const made = element(\"section\", undefined, \"card\");
  const its = board.innings.filter(one => one.team === innings.team);
  const team = innings.team + (its.length > 1 ? \", innings \" + (its.indexOf(innings) + 1) + \":\" : \"\");
  made.append(element(\"h2\", team + \" \" + innings.runs + \" for \" + innings.wickets + \" (\" + innings.overs + \" overs)\"));
  const batting = element(\"table\", undefined, \"batting\");
  const rows = element(\"tbody\");
  rows.append(...innings.batting.map(b => row(b.name, [{ words: b.how }, ...batted(b)])));
  const x = innings.extras;
  const all = x.byes + x.legbyes + x.wides + x.noballs + x.penalty;
  const kinds = \"b \" + x.byes + \", lb \" + x.legbyes + \", w \" + x.wides + \", nb \" + x.noballs + \", p \" + x.penalty;
  const foot = element(\"tfoot\");
  foot.append(row(\"Extras\", [{ words: kinds }, all]));
  batting.append(headings(BATTING), rows, foot);
  const bowling = element(\"table\", undefined, \"bowling\");
  const bowlers = element(\"tbody\");
  bowlers.append(...innings.bowling.map(b => row(b.name, bowled(b))));
  bowling.append(headings(BOWLING), bowlers);
  bowling.hidden = innings.bowling.length === 0;
  const left = element(\"div\", undefined, \"batted\");
  left.append(batting);
  const others = absent(innings, board);
  if (others) left.append(element(\"p\", others, \"absent\"));
  const right = element(\"div\", undefined, \"bowled\");
  right.append(bowling);
  if (innings.falls.length > 0) {
    const falls = element(\"p\", \"Fall:\", \"falls\");
    const last = innings.falls.length - 1;
    innings.falls.forEach((fall, n) => {
      const where = fall.name + (fall.overs ? \", \" + fall.overs : \"\");
      falls.append(\" \", element(\"span\", fall.wicket + \"-\" + fall.runs + \" (\" + where + \")\" + (n < last ? \",\" : \"\")));
    });
    right.append(falls);
  }
  const both = element(\"div\", undefined, \"both\");
  both.append(left, right);
  made.append(both);
  return made;
}

// A board of an earlier version tells nothing of overs and rates.
const known = figure => figure !== null && figure !== undefined;

// Off how many deliveries the runs are needed, and how many that is an over.
function off(now) {
  if (!known(now.balls_left)) return \"\";
  return \" off \" + now.balls_left + (known(now.needed_an_over) ? \" (\" + now.needed_an_over + \")\" : \"\");
}

// What came since the last wicket, and what each who is in made of it.
function partnership(now, innings) {
  const off = stand => stand.runs + \" off \" + stand.balls;
  const told = now.partnership;
  const shares = [\"striker\", \"other\"].filter(end => known(told[end])).map(end => of(innings.batting, now[end]).name + \" \" + off(told[end]));
  return \"Partnership \" + off(told) + (shares.length > 0 ? \": \" + shares.join(\", \") : \"\");
}

// So many deliveries in overs, as 4.4.
const inOvers = balls => Math.floor(balls / 6) + (balls % 6 > 0 ? \".\" + balls % 6 : \"\");

// What else is told of the overs, part by part.
function left(now) {
  const parts = [];
  if (now.free_hit) parts.push(\"Free hit\");
  if (known(now.powerplay)) parts.push(\"Powerplay \" + now.powerplay);
  if (known(now.balls_left)) parts.push(inOvers(now.balls_left) + (now.balls_left === 6 ? \" over left\" : \" overs left\"));
  if (known(now.run_rate)) parts.push(\"Run rate \" + now.run_rate + (known(now.last_rate) ? \", last five overs \" + now.last_rate : \"\"));
  return parts;
}

function show(board, before) {
  const now = board.now;
  const last = board.innings[board.innings.length - 1];
  put(\"title\", board.title);
  document.title = last ? last.team + \" \" + last.runs + \"/\" + last.wickets : board.title;
  const label = now.result !== null ? \"Last innings: \" : last && last.closed ? \"Innings closed: \" : \"Batting: \";
  at(\"team\").replaceChildren(...(last ? [element(\"span\", label, \"label\"), last.team] : [waits(board) ? \"Waiting for the desks\" : \"No play yet\"]));
  putIf(\"missing\", \"\");
  putIf(\"trouble\", board.trouble ? \"Place \" + board.trouble.place + \": \" + board.trouble.text : \"\");
  put(\"runs\", last ? last.runs + \"/\" + last.wickets : \"\");
  put(\"overs\", last ? last.overs + (known(now.overs) ? \" of \" + now.overs : \"\") + \" overs\" : \"\");
  putIf(\"aim\", now.result === null && now.target !== null ? \"Target \" + now.target + \", needs \" + now.needs + off(now) : \"\");
  putIf(\"left\", last && now.result === null ? left(now).join(\" \\u00b7 \") : \"\");
  putIf(\"stand\", last && now.result === null && known(now.partnership) ? partnership(now, last) : \"\");
  putIf(\"result\", now.result || \"\");
  const atRest = isAtRest(board);
  page.classList.toggle(\"is-over\", now.result !== null);
  for (const id of [\"crease\", \"over\", \"wickets\"]) at(id).hidden = !last || atRest;
  at(\"match\").hidden = !atRest;
  if (atRest) showMatch(board);
  if (last) {
    tellWicket(board.innings, before);
    showCrease(last, now);
    showWickets(last, atRest);
    at(\"this-over\").replaceChildren(...now.this_over.map(ball));
    put(\"last-over\", now.last_over.length > 0 ? \"Last over: \" + now.last_over.map(mark => mark === \".\" ? \"\\u2022\" : mark).join(\" \") : \"\");
  }
  showChart(board);
  at(\"cards\").replaceChildren(...board.innings.slice().reverse().map(innings => card(innings, board)));
  showTurn();
}

// A wall shows the score and a card in turns: batting and bowling of each innings, the last innings first. All is made smaller where it doesn't fit.
let turn = 0;

function overflows() {
  return page.scrollHeight > page.clientHeight || page.scrollWidth > page.clientWidth;
}

function fit(name) {
  page.style.setProperty(name, 1);
  for (let size = 1; size > 0.3 && overflows(); size -= 0.02) page.style.setProperty(name, size);
}

function showTurn() {
  if (!page.classList.contains(\"big\")) return;
  const cards = [...at(\"cards\").children];
  const isCard = turn % 2 === 1 && cards.length > 0;
  page.dataset.turn = isCard ? \"card\" : \"score\";
  const number = Math.floor(turn / 2);
  cards.forEach((one, n) => {
    one.classList.toggle(\"turn\", isCard && n === Math.floor(number / 2) % cards.length);
    one.classList.toggle(\"batting\", number % 2 === 0);
    one.classList.toggle(\"bowling\", number % 2 === 1);
  });
  fit(isCard ? \"--card\" : \"--fit\");
}

function nextTurn() {
  turn += 1;
  showTurn();
}

if (page.classList.contains(\"big\")) {
  setInterval(nextTurn, TURN);
  addEventListener(\"resize\", showTurn);
}

// How old the file is, by the server's own clock: when it was written, and when it was sent. A script tells no times: since when it has changed.
let shown = \"\";          // the text that is shown
let board = null;        // what it says
let age = NaN;           // seconds, as it came
let came = 0;            // when it came, by this looker's clock
let lost = true;         // nothing came at the last look

// How many seconds ago the board heard its desks, those that it ever heard. One of an earlier version doesn't tell.
const heard = board => board.heard ? [board.heard.a, board.heard.b].filter(known) : [0];

// It has heard neither since it began: what it shows is what its file had.
const waits = board => heard(board).length === 0;

const isSilent = board => !waits(board) && Math.min(...heard(board)) >= SILENT;

function showAge() {
  const seconds = Math.max(0, Math.round(age + (performance.now() - came) / 1000));
  const known = !Number.isNaN(seconds);
  const isFinal = board !== null && board.now.result !== null;
  const isOld = known && seconds >= OLD && !isFolder;
  const isWaiting = board !== null && waits(board);
  const desks = isWaiting ? \"waiting for the desks\" : board !== null && isSilent(board) ? \"no desk is heard\" : \"\";
  at(\"age\").classList.toggle(\"old\", isWaiting || ((lost || isOld || desks !== \"\") && !isFinal));
  if (!known) put(\"age\", lost ? \"no board to be seen\" : \"\");
  else if (isFinal && !isWaiting && (seconds >= OLD || desks)) put(\"age\", \"final\");
  else if (isServed && !lost && !isOld) put(\"age\", desks || \"live\");
  else put(\"age\", (lost ? \"connection lost, \" : \"\") + (isOld ? \"NOT NEW: \" : \"\") + (isFolder ? \"changed \" : isServed ? \"heard \" : \"written \") + seconds + \" s ago\" + (desks ? \", \" + desks : \"\"));
}

// What to do where nothing was ever to be seen.
function showMissing() {
  if (board !== null) return;
  put(\"team\", \"No board to be seen\");
  at(\"missing\").hidden = false;
  const parts = isServed ? [\"The board isn't heard. Is it running, and is this machine in its network?\"] : isFolder
    ? [\"This page was opened from a folder, where it reads the script \", file, \" beside it, and there is none. Start the board with \",
      \"--script \" + file, \" in this folder.\"]
    : [\"There is no \", file, \" beside this page. Start the board with \", \"--json \" + file, \" in this folder.\"];
  if (at(\"missing\").childNodes.length === 0) at(\"missing\").append(...parts.map((part, n) => n % 2 ? element(\"code\", part) : part));
}

function take(text, next, seconds) {
  if (text !== shown) show(next, board);
  if (!Number.isNaN(seconds)) { age = seconds; came = performance.now(); }
  else if (text !== shown) { age = 0; came = performance.now(); }
  shown = text;
  board = next;
  lost = false;
}

async function fetched() {
  const answer = await fetch(file, { cache: \"no-store\" });
  if (!answer.ok) throw new Error(answer.status);
  const text = await answer.text();
  const written = Date.parse(answer.headers.get(\"Last-Modified\"));
  const sent = Date.parse(answer.headers.get(\"Date\"));
  take(text, JSON.parse(text), ((Number.isNaN(sent) ? Date.now() : sent) - written) / 1000);
}

// Reads the script anew.
async function scripted() {
  const made = element(\"script\");
  await new Promise((done, fail) => {
    made.onload = done;
    made.onerror = fail;
    made.src = file + \"?\" + Date.now();
    document.head.append(made);
  }).finally(() => made.remove());
  take(JSON.stringify(window.yermudosh), window.yermudosh, NaN);
}

// What the board tells: each state as it comes, and between them that it is there. Where nothing came for long it is asked anew.
let source = null;
let asked = 0;           // when it was asked last, by this looker's clock

function hear(text) {
  take(text, text === shown ? board : JSON.parse(text), 0);
  showAge();
}

function ask() {
  if (source !== null) source.close();
  asked = performance.now();
  source = new EventSource(\"events\");
  source.onmessage = event => hear(event.data);
  source.addEventListener(\"beat\", () => { if (board !== null) hear(shown); });
  source.onerror = () => { lost = true; showMissing(); showAge(); };
}

function listen() {
  const now = performance.now();
  if (source !== null) showAge();
  if (source === null || source.readyState === EventSource.CLOSED || now - Math.max(came, asked) > 1000 * OLD) ask();
  setTimeout(listen, EVERY);
}

async function look() {
  try {
    await (isFolder ? scripted() : fetched());
  } catch (why) {
    lost = true;
    showMissing();
  }
  showAge();
  setTimeout(look, EVERY);
}

if (isServed) listen();
else look();
</script>
</body>
</html>
";
