//! The HTML around the parts of a match's page. `tools/served` writes this file, of web/match.html.

/// The HTML before the title of the window.
pub const FRONT: &str = "<!DOCTYPE html>
<html lang='en'>
<head>
<meta charset='utf-8'>
<meta http-equiv='Content-Security-Policy' content=\"default-src 'none'; img-src data:; base-uri 'none'; form-action 'none'; style-src 'sha256-XSbJzLnD1n1MCHfdZqgC6xHVbGg82zNPku33apoJ3tE='\">
<meta name='viewport' content='width=device-width, initial-scale=1'>
<meta name='referrer' content='no-referrer'>
<link rel='icon' href='data:,'>
<title>";

/// The HTML from there to the title of the match, with the style.
pub const STYLE: &str = "</title>
<style>
:root { --ink: #111111; --quiet: #3d3d3d; --rule: #767676; --faint: #d4d9d4; --band: #eef3ee; --paper: #ffffff; --home: #0b4a2b; --away: #7a1f00; }
* { box-sizing: border-box; }
html { background: var(--paper); color: var(--ink); color-scheme: light; font: 16px/1.35 Arial, 'Liberation Sans', Helvetica, sans-serif; font-variant-numeric: tabular-nums; -webkit-text-size-adjust: 100%; }
body { margin: 0 auto; padding: 1rem; max-width: 72rem; }
h1, h2, h3, p, ol, ul, table, figure { margin: 0; padding: 0; }
h1 { font-size: 1.7rem; line-height: 1.2; overflow-wrap: break-word; white-space: pre-wrap; }
h2 { font-size: 1.35rem; margin-top: 1.5rem; padding-bottom: .2rem; border-bottom: 3px solid var(--home); }
h3 { font-size: 1.05rem; }
.innings h2 { display: flex; flex-wrap: wrap; justify-content: space-between; gap: 0 1rem; }
.innings.away h2 { border-color: var(--away); }
#facts { color: var(--quiet); margin-top: .25rem; }
#facts span { display: inline-block; margin-right: 1.2rem; }
#result::first-letter { text-transform: uppercase; }
#result { font-size: 1.25rem; font-weight: 700; margin-top: .25rem; }
#by-laws { color: var(--quiet); }
.name { white-space: pre; }
.unseen { position: absolute; width: 1px; height: 1px; overflow: hidden; clip-path: inset(50%); white-space: nowrap; }
[hidden] { display: none !important; }

table { border-collapse: collapse; width: 100%; font-size: .92rem; }
caption { text-align: left; font-weight: 700; padding: .5rem 0 .15rem; }
th, td { text-align: right; vertical-align: baseline; padding: .16rem .3rem; border-bottom: 1px solid var(--faint); }
thead th { color: var(--quiet); font-weight: 400; border-bottom: 1px solid var(--rule); }
thead abbr { text-decoration: none; }
tbody th, tfoot th { font-weight: 400; }
tfoot th, tfoot td { border-bottom: 0; background: var(--band); }
tfoot tr:last-child > * { font-weight: 700; border-bottom: 2px solid var(--rule); }
th:first-child, .words { text-align: left; }
td.runs { font-weight: 700; }
.under { display: none; color: var(--quiet); font-size: .86rem; }
tfoot .under { font-weight: 400; }
.both { display: grid; gap: 0 1.5rem; grid-template-columns: minmax(0, 1fr); align-items: start; }
.both p { margin-top: .45rem; font-size: .92rem; }
.fall { display: inline-block; white-space: nowrap; margin-right: .5rem; }
p b { font-weight: 700; }

#figures { display: grid; gap: 1rem 1.5rem; grid-template-columns: minmax(0, 1fr); align-items: start; }
figcaption { font-weight: 700; padding: .5rem 0 .15rem; }
figure svg { display: block; width: 100%; max-width: 40rem; height: auto; }
svg text { font-size: 10px; fill: var(--ink); }
svg .heavy { font-weight: 700; }
svg .grid { stroke: var(--faint); stroke-width: .6; }
svg .axis { stroke: var(--ink); stroke-width: .8; }
svg .bar { stroke: none; }
svg .s0, svg .s2 { fill: var(--home); }
svg .s1, svg .s3 { fill: var(--away); }
svg path.growth { fill: none; stroke-width: 1.6; stroke-linejoin: round; }
svg path.s0, svg path.s2 { stroke: var(--home); }
svg path.s1, svg path.s3 { stroke: var(--away); stroke-dasharray: 5 2; }
svg path.s2 { stroke-dasharray: 1.5 2; }
svg path.s3 { stroke-dasharray: 8 2 1.5 2; }
svg .wicket { fill: var(--paper); stroke: var(--ink); stroke-width: 1; }
.legend { list-style: none; display: flex; flex-wrap: wrap; gap: 0 1.2rem; font-size: .92rem; }
.legend svg { display: inline-block; width: 36px; height: 10px; margin-right: .4rem; }
details { margin-top: .3rem; font-size: .92rem; }
summary { cursor: pointer; padding: .3rem 0; }

#all-overs { display: grid; gap: 0 1.5rem; grid-template-columns: minmax(0, 1fr); align-items: start; }
.key { color: var(--quiet); font-size: .86rem; margin-top: .3rem; }
.bowlers { display: inline-block; min-width: 8rem; padding-right: .6rem; }
ol.marks { list-style: none; display: inline-flex; flex-wrap: wrap; gap: .15rem .2rem; vertical-align: baseline; }
.marks li { min-width: 1.55rem; padding: 0 .2rem; text-align: center; border: 1px solid var(--rule); border-radius: .2rem; }
.marks li.wicket { background: var(--ink); color: var(--paper); border-color: var(--ink); font-weight: 700; }
.marks li.more { font-weight: 700; background: var(--band); }
.marks li.aside { border-style: dashed; color: var(--quiet); font-size: .86rem; }
.note { display: block; color: var(--quiet); font-size: .86rem; }
code { font: inherit; font-family: 'DejaVu Sans Mono', 'Liberation Mono', Menlo, Consolas, monospace; font-size: .86rem; overflow-wrap: anywhere; }

@media screen and (max-width: 36rem) {
  body { padding: .75rem; }
  html { font-size: 15px; }
  h1 { font-size: 1.4rem; }
  th, td { padding: .16rem .2rem; }
  .how { display: none; }
  .under { display: block; }
}
@media screen and (min-width: 62rem) {
  .both { grid-template-columns: minmax(0, 1.5fr) minmax(0, 1fr); }
  #figures, #all-overs { grid-template-columns: repeat(2, minmax(0, 1fr)); }
}
@media print {
  @page { size: A4; margin: 11mm 12mm; }
  html { font-size: 8pt; line-height: 1.25; }
  body { padding: 0; max-width: none; }
  h1 { font-size: 14pt; }
  h2 { font-size: 11pt; margin-top: 2.2mm; break-after: avoid; }
  #result { font-size: 10.5pt; }
  table, .both p, details, .legend { font-size: 8pt; }
  th, td { padding: .32mm .7mm; }
  caption, figcaption { padding: 1mm 0 .2mm; font-size: 8pt; }
  thead { display: table-header-group; }
  tr, figure { break-inside: avoid; }
  .innings { break-inside: avoid; }
  .both { grid-template-columns: minmax(0, 1.55fr) minmax(0, 1fr); gap: 0 3mm; }
  #charts { break-before: page; }
  #charts h2 { margin-top: 0; }
  #figures, #all-overs { grid-template-columns: repeat(2, minmax(0, 1fr)); gap: 0 4mm; }
  .bowlers { min-width: 19mm; padding-right: 1mm; }
  ol.marks { gap: 0 .6mm; }
  .marks li { min-width: 3.6mm; padding: 0 .3mm; border: 0; }
  .marks li.wicket { background: none; color: var(--ink); }
  .marks li.more { background: none; }
  details::details-content { display: block; content-visibility: visible; }
  a, summary { color: inherit; }
}
</style>
</head>
<body>
<header>
<h1 id='title'>";

/// The HTML after the head of the page.
pub const MAIN: &str = "</header>
<main>
";

/// The end of the HTML.
pub const END: &str = "</main>
</body>
</html>
";
