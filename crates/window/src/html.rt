//! The page of the window, with its style; behind it comes its script. Its text has no double quote and no backslash, so that it stands
//! here as a browser reads it.

/// HTML, up to where the script begins.
const PAGE: &str = "<!doctype html>
<html lang='en'><head><meta charset='utf-8'><title>arrayd</title>
<meta name='viewport' content='width=device-width, initial-scale=1'>
<link rel='icon' href='data:,'>
<style>
:root { color-scheme: light dark; --ink: #1b1f24; --soft: #57606a; --paper: #ffffff; --card: #f4f6f8; --line: #c5ccd3;
  --one: #0550ae; --two: #8a4600; --bad: #b3121d; --good: #116329; }
@media (prefers-color-scheme: dark) { :root { --ink: #e6edf3; --soft: #9aa5b1; --paper: #0d1117; --card: #161b22;
  --line: #3b444d; --one: #79b8ff; --two: #f0a04b; --bad: #ff7b72; --good: #56d364; } }
* { box-sizing: border-box; }
body { margin: 0 auto; max-width: 2000px; padding: 12px; background: var(--paper); color: var(--ink);
  font: 15px/1.45 system-ui, sans-serif; }
h1 { font-size: 1.3rem; margin: 0; } h2 { font-size: 1.05rem; margin: 20px 0 6px; }
header { display: flex; flex-wrap: wrap; gap: 4px 18px; align-items: baseline; }
.soft { color: var(--soft); } .mono { font-family: ui-monospace, monospace; overflow-wrap: anywhere; }
#well { font-weight: 700; } .bad { color: var(--bad); font-weight: 700; } .good { color: var(--good); }
#problems { margin: 6px 0; padding: 0; list-style: none; }
#problems li { border: 2px solid var(--bad); border-left-width: 10px; padding: 6px 10px; margin: 4px 0; }
.grid { display: grid; grid-template-columns: repeat(auto-fit, minmax(min(100%, 340px), 1fr)); gap: 10px; }
.card { background: var(--card); border: 1px solid var(--line); border-radius: 8px; padding: 10px; min-width: 0; }
.card h3 { font-size: .95rem; margin: 0 0 4px; }
.draw { display: grid; grid-template-columns: auto minmax(16px, 1fr) auto minmax(16px, 1fr) auto; align-items: center; }
.box { border: 2px solid var(--line); border-radius: 6px; padding: 4px 8px; text-align: center; }
.charts { display: grid; grid-template-columns: repeat(auto-fit, minmax(min(100%, 290px), 1fr)); gap: 10px; }
.one { color: var(--one); } .two { color: var(--two); } .owns { border-width: 4px; border-color: currentColor; }
.wire { border-top: 3px dashed var(--soft); } .wire.best { border-top: 5px solid currentColor; }
.wire.none { border-top: 3px dotted var(--bad); }
.pair { margin-top: 6px; table-layout: fixed; width: 100%; min-width: 0; } .pair th, .pair td { white-space: normal; }
.pair td, .pair thead th { text-align: right; overflow-wrap: anywhere; } .pair thead td { width: 24%; }
.facts { font-size: .88rem; margin-top: 6px; border-top: 1px solid var(--line); padding-top: 6px; }
#problems li.amber { border-color: var(--two); } .stale main { opacity: .45; } .warn { color: var(--two); font-weight: 700; }
.ends { display: flex; justify-content: space-between; } .ends, .reading, .marks, .keys { font-size: .8rem; }
.chart h4 { font-size: .85rem; margin: 8px 0 6px; } .reading { min-height: 1.45em; }
.plot { display: grid; grid-template-columns: 76px 1fr; } .marks { position: relative; }
.marks span { position: absolute; right: 6px; transform: translateY(50%); white-space: nowrap; line-height: 1; }
.chart .ends, .reading, .keys { margin: 4px 0 0 76px; }
.wide { overflow-x: auto; background: linear-gradient(270deg, var(--paper) 50%, transparent) 100% 0 / 40px 100% no-repeat local,
  linear-gradient(270deg, var(--line), transparent) 100% 0 / 14px 100% no-repeat; } .wide:focus-visible { outline: 3px solid var(--one); }
table { border-collapse: collapse; min-width: 100%; font-size: .88rem; }
th, td { border-bottom: 1px solid var(--line); padding: 3px 6px; text-align: left; vertical-align: top; white-space: nowrap; }
th { color: var(--soft); font-weight: 600; } tbody tr:hover { background: var(--card); }
td.n, th.n, [data-key=read], [data-key=written] { text-align: right; font-variant-numeric: tabular-nums; }
td[data-key=initiator] { white-space: normal; min-width: 8rem; overflow-wrap: anywhere; }
[data-key=begun], [data-key=last] { white-space: normal; min-width: 6rem; }
svg { width: 100%; height: 110px; display: block; } .small svg { height: 72px; } svg:focus-visible { outline: 3px solid var(--one); }
svg path { fill: none; stroke-width: 2; stroke-linecap: round; vector-effect: non-scaling-stroke; }
svg .mesh { stroke: var(--line); stroke-width: 1; } svg .cursor { stroke: var(--ink); stroke-width: 1; } .line0 { stroke: var(--one); }
.line1 { stroke: var(--two); stroke-dasharray: 6 3; } .line2 { stroke: var(--bad); stroke-dasharray: 2 4; }
.key { display: inline-block; white-space: nowrap; margin-right: 12px; }
.key::before { content: ''; display: inline-block; width: 22px; margin-right: 5px; vertical-align: middle;
  border-top: 3px solid var(--one); } .key.line1::before { border-top: 3px dashed var(--two); }
.key.line2::before { border-top: 3px dotted var(--bad); }
button { font: inherit; padding: 2px 12px; color: inherit; background: var(--card); border: 1px solid var(--soft); border-radius: 6px; }
button:focus-visible { outline: 3px solid var(--one); }
</style></head><body>
<header><h1>arrayd <span id='target' class='mono'></span></h1>
<span id='well' role='status'>asking</span><span id='about' class='soft'></span><span id='heard' class='soft'></span>
<button id='pause' aria-pressed='false'>Pause</button></header>
<ul id='problems' aria-live='polite' aria-label='What is wrong or degraded'></ul>
<noscript><p>This page wants JavaScript. What it shows is in <a href='/status'>/status</a> as JSON, what is wrong in
<a href='/health'>/health</a>, and what is measured in <a href='/metrics'>/metrics</a>.</p></noscript>
<main>
<section class='charts' id='charts' role='region' aria-label='The last ten minutes'></section>
<h2>Units and their paths</h2><section class='grid' id='units' role='region' aria-label='Units and their paths'></section>
<h2>Units</h2><div class='wide' tabindex='0' role='region' aria-label='Units'><table id='unit_table'></table></div>
<h2>Calls that failed <span id='failure_count' class='soft'></span></h2>
<div class='wide' tabindex='0' role='region' aria-label='Calls that failed'><table id='failure_table'></table></div>
<h2>Sessions <span id='session_count' class='soft'></span></h2>
<div class='wide' tabindex='0' role='region' aria-label='Sessions'><table id='session_table'></table></div>
<h2>Registrations <span id='registration_count' class='soft'></span></h2>
<div class='wide' tabindex='0' role='region' aria-label='Registrations'><table id='registration_table'></table></div>
<h2>Controllers and logins</h2><div class='wide' tabindex='0' role='region' aria-label='Controllers'><table id='controller_table'></table></div>
</main>
<script>
";

pub(crate) fn page() -> &'static str {
    PAGE
}
