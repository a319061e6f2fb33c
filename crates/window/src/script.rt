//! The script of the page, which asks the array and shows what it says. Its text has no double quote and no backslash, so that it stands
//! here as a browser reads it.

/// The script, and the end of the page behind it. What is seen goes into the page as text alone.
const SCRIPT: &str = "'use strict';
const EVERY = 2000, PATIENCE = 5000, KEPT = 600, STEP = 10, SVG = 'http://www.w3.org/2000/svg';
const TYPES = { 0: 'none', 1: 'write exclusive', 3: 'exclusive access', 5: 'write exclusive, registrants only',
  6: 'exclusive access, registrants only', 7: 'write exclusive, all registrants', 8: 'exclusive access, all registrants' };
// What was seen of all, by this page and before it; what the array keeps of each unit, or this page where the array keeps nothing.
const past = [];
let kept = [], before = null, paused = false, heard = null;
const find = id => document.getElementById(id);
// An element with a class, and within it texts, which are never read as HTML, and elements.
function make(name, kind, ...within) {
  const made = document.createElement(name);
  if (kind) made.className = kind;
  for (const part of within) made.append(part instanceof Node ? part : document.createTextNode(String(part)));
  return made;
}
function drawn(name, words, text) {
  const made = document.createElementNS(SVG, name);
  for (const word in words) made.setAttribute(word, words[word]);
  if (text !== undefined) made.textContent = text;
  return made;
}
const fill = (id, ...within) => find(id).replaceChildren(...within);
const sum = numbers => numbers.reduce((all, n) => all + n, 0);
const few = n => n >= 100 || Number.isInteger(n) ? n.toFixed(0) : n.toFixed(1);
function short(n, step, names) {
  let place = 0;
  while (n >= step && place + 1 < names.length) { n /= step; place += 1; }
  return few(n) + ' ' + names[place];
}
const rate = n => short(n, 1000, ['/s', 'k/s', 'M/s']);
const bytes = n => short(n, 1024, ['B', 'KiB', 'MiB', 'GiB', 'TiB']);
const byteRate = n => bytes(n) + '/s';
const time = micros => short(micros, 1000, ['µs', 'ms', 's']);
function span(seconds) {
  const days = Math.floor(seconds / 86400), rest = new Date(seconds % 86400 * 1000).toISOString().slice(11, 19);
  return (days ? days + ' d ' : '') + rest;
}
const moment = seconds => new Date(seconds * 1000).toISOString().slice(0, 19).replace('T', ' ');
const ago = seconds => seconds < 1 ? 'now' : seconds < 100 ? seconds.toFixed(0) + ' s ago' : span(seconds) + ' ago';
const routes = view => view.units.flatMap(unit => unit.paths);
const countOf = commands => sum(commands.buckets);
function totals(view) {
  const all = routes(view).map(route => route.commands), buckets = view.bounds_micros.map(() => 0).concat([0]);
  for (const commands of all) commands.buckets.forEach((n, place) => { buckets[place] += n; });
  const by = number => sum(routes(view).filter(route => route.controller === number).map(route => countOf(route.commands)));
  return { at: view.since + view.uptime_micros / 1e6, buckets, one: by(1), two: by(2), refused: sum(all.map(c => countOf(c) - c.good)),
    read: sum(all.map(c => c.read_bytes)), written: sum(all.map(c => c.written_bytes)), units: view.units.map(unit => unit.paths) };
}
// The bound of the bucket in which the slowest of this part of the commands lies; behind the last one there is none.
function bound(buckets, bounds, part) {
  const all = sum(buckets);
  let left = Math.ceil(all * part);
  if (!all) return null;
  for (let place = 0; place < buckets.length; place += 1) {
    left -= buckets[place];
    if (left <= 0) return place < bounds.length ? bounds[place] : 2 * bounds[bounds.length - 1];
  }
  return null;
}
function remember(view) {
  const now = totals(view), old = before;
  before = now;
  if (!old || now.at <= old.at) return old;
  const seconds = now.at - old.at, per = name => Math.max(0, now[name] - old[name]) / seconds;
  const buckets = now.buckets.map((n, place) => Math.max(0, n - old.buckets[place]));
  past.push({ at: now.at, one: per('one'), two: per('two'), refused: per('refused'), read: per('read'), written: per('written'),
    middle: bound(buckets, view.bounds_micros, 0.5), slow: bound(buckets, view.bounds_micros, 0.99) });
  while (past[0].at < now.at - KEPT) past.shift();
  return old;
}
// The ten minutes that the array keeps: of each unit its counts at each step.
async function recall() {
  const answer = await ask('/recent');
  if (answer === null) return false;
  kept = answer.points;
  const first = past.length ? past[0].at : Infinity;
  past.unshift(...stepsOf(u => [u.read_bytes, u.written_bytes]).filter(step => step.at < first && step.values[0] !== null)
    .map(step => ({ at: step.at, one: null, two: null, refused: null, read: step.values[0], written: step.values[1], middle: null,
      slow: null })));
  return true;
}
// The same from what the page sees, where the array keeps nothing. How long reads and writes took is not in it.
function keep(view) {
  const now = view.since + view.uptime_micros / 1e6, last = kept.at(-1);
  if (last && now - last.at < STEP && now >= last.at) return;
  const of = (unit, names) => sum(unit.paths.flatMap(route => route.commands.operations).filter(one => names.includes(one.what))
    .map(one => one.count));
  const bytesOf = (unit, name) => sum(unit.paths.map(route => route.commands[name]));
  kept.push({ at: now, units: view.units.map(unit => ({ reads: of(unit, ['read']), writes: of(unit, ['write', 'compare_and_write']),
    read_bytes: bytesOf(unit, 'read_bytes'), written_bytes: bytesOf(unit, 'written_bytes') })) });
  kept = kept.filter(point => point.at >= now - KEPT);
}
// What grew between two steps, a second, of these counts of a unit or of all of them. None where the array began anew between.
function stepsOf(counts, unit = null) {
  const totalOf = point => (unit === null ? point.units : point.units.slice(unit, unit + 1)).map(counts)
    .reduce((all, one) => all.map((n, place) => n + one[place]));
  const has = point => point.units.length > (unit ?? 0);
  return kept.slice(1).map((point, place) => {
    const old = kept[place], seconds = point.at - old.at;
    const grown = seconds > 0 && has(point) && has(old) ? totalOf(point).map((n, at) => (n - totalOf(old)[at]) / seconds) : [];
    return { at: point.at, values: counts(blank).map((_, at) => grown[at] >= 0 && grown.every(n => n >= 0) ? grown[at] : null) };
  });
}
const blank = { reads: 0, writes: 0, read_bytes: 0, written_bytes: 0, read_micros: 0, write_micros: 0 };
// How long reads and writes took in the mean, where there were any.
const means = unit => stepsOf(u => [u.reads, u.writes, u.read_micros, u.write_micros], unit).map(({ at, values: [r, w, of, by] }) => (
  { at, values: [r && Number.isFinite(of) ? of / r : null, w && Number.isFinite(by) ? by / w : null] }));
// An axis from 0 to the next round number; one of decades of microseconds.
function linear(words, step) {
  return most => {
    let unit = 1;
    while (most > 500 * unit) unit *= step;
    const top = unit * ([1, 2, 5, 10, 20, 50, 100, 200, 500].find(n => n * unit >= most) ?? step);
    return { part: n => n / top, marks: [0, 0.5, 1].map(part => [part, words(part * top)]) };
  };
}
function decades(most) {
  const last = Math.max(3, Math.ceil(Math.log10(most) - 1e-9)), marks = [];
  for (let at = 1; at <= last; at += 1) marks.push([(at - 1) / (last - 1), time(10 ** at)]);
  return { part: n => (Math.log10(Math.max(n, 10)) - 1) / (last - 1), marks };
}
// A chart of ten minutes, a line for each name. Pointer or arrows move a cursor, at which it tells the values.
class Chart {
  constructor(title, names, words, axis, kind = 'card chart', level = 'h3') {
    Object.assign(this, { title, names, words, axis, steps: [], now: 0, cursor: null });
    this.svg = drawn('svg', { viewBox: '0 0 600 120', preserveAspectRatio: 'none', role: 'img', tabindex: 0 });
    this.marks = make('div', 'marks soft');
    this.marks.ariaHidden = 'true';
    this.reading = make('div', 'reading soft');
    this.reading.setAttribute('aria-live', 'polite');
    this.keys = make('div', 'keys');
    this.node = make('div', kind, make(level, '', title), make('div', 'plot', this.marks, this.svg),
      make('div', 'soft ends', ...['10 min ago', '5 min ago', 'now'].map(text => make('span', '', text))), this.reading, this.keys);
    this.svg.addEventListener('pointermove', event => { const box = this.svg.getBoundingClientRect();
      this.point(KEPT * (event.clientX - box.left) / box.width - KEPT); });
    for (const end of ['pointerleave', 'blur']) this.svg.addEventListener(end, () => this.point(null));
    this.svg.addEventListener('keydown', event => this.press(event));
  }
  near() {
    const far = step => Math.abs(step.at - this.now - this.cursor);
    return this.cursor === null || !this.steps.length ? null : this.steps.reduce((best, step) => far(step) < far(best) ? step : best);
  }
  press(event) {
    const by = { ArrowLeft: -1, ArrowRight: 1 }[event.key], at = this.steps.indexOf(this.near() ?? this.steps.at(-1));
    if (event.key === 'Escape') this.point(null);
    if (!by || at < 0) return;
    event.preventDefault();
    this.point(this.steps[Math.min(this.steps.length - 1, Math.max(0, this.cursor === null ? at : at + by))].at - this.now);
  }
  point(cursor) {
    this.cursor = cursor;
    this.read();
  }
  told(step) {
    return this.names.map((name, place) => name + ' ' + (step.values[place] === null ? 'none' : this.words(step.values[place]))).join(', ');
  }
  read() {
    const step = this.near();
    this.svg.querySelector('.cursor')?.remove();
    if (step) this.svg.append(drawn('path', { class: 'cursor', d: 'M' + (KEPT + step.at - this.now) + ' 0v120' }));
    this.reading.textContent = step ? moment(step.at).slice(11) + ' UTC: ' + this.told(step) : '';
  }
  show(now, steps) {
    Object.assign(this, { now, steps: steps.filter(step => step.at > now - KEPT) });
    const values = this.names.map((_, place) => this.steps.map(step => step.values[place]));
    const axis = this.axis(Math.max(1, ...values.flat().filter(Number.isFinite))), height = n => 118 - 116 * Math.min(1, axis.part(n));
    this.svg.replaceChildren();
    for (const [part] of axis.marks) this.svg.append(drawn('path', { class: 'mesh', d: 'M0 ' + (118 - 116 * part) + 'h600' }));
    values.forEach((numbers, place) => this.svg.append(drawn('path', { class: 'line' + place, d: this.line(numbers, height) })));
    this.marks.replaceChildren(...axis.marks.map(([part, text]) => { const made = make('span', '', text);
      made.style.bottom = 100 * (2 + 116 * part) / 120 + '%'; return made; }));
    const last = place => { const n = values[place].at(-1); return n === undefined || n === null ? 'none' : this.words(n); };
    const most = place => { const all = values[place].filter(Number.isFinite); return all.length ? this.words(Math.max(...all)) : 'none'; };
    this.svg.setAttribute('aria-label', this.title + ', the last ten minutes: '
      + this.names.map((name, place) => name + ' ' + last(place) + ' now, ' + most(place) + ' at most').join('; '));
    this.keys.replaceChildren(...this.names.map((name, place) => make('span', 'key line' + place, name + ' ', make('b', '', last(place)))));
    this.read();
  }
  // A line through what was measured, with a gap where nothing was.
  line(values, height) {
    let words = '', last = null;
    values.forEach((n, place) => {
      const x = (KEPT + this.steps[place].at - this.now).toFixed(1);
      if (n !== null) words += (last === null ? 'M' : 'L') + x + ' ' + height(n).toFixed(1) + (last === null ? 'h.1' : '');
      last = n;
    });
    return words;
  }
}
function wire(route) {
  const kind = route.state === 0 ? ' best' : route.state === 1 ? '' : ' none';
  const made = make('div', 'wire' + kind + (route.controller === 1 ? ' one' : ' two'));
  made.title = route.state_words;
  return made;
}
// A sign beside words, since a colour alone is none.
const signed = (kind, words) => make('span', kind, (kind === 'good' ? '✔ ' : kind === 'warn' ? '⚠ ' : '✘ ') + words);
const stateOf = route => route.state < 2 ? make('span', '', route.state_words) : signed('bad', route.state_words);
function healthOf(unit) {
  const is = unit.troubles.filter(trouble => trouble.count).map(trouble => trouble.what);
  if (is.length === 0) return signed('good', unit.health);
  return signed(is.every(what => what === 'slow' || what === 'length_changed') ? 'warn' : 'bad', unit.health);
}
// A time of which the buckets alone are known.
let bounds = [];
const within = micros => micros > bounds.at(-1) ? '> ' + time(bounds.at(-1)) : '≤ ' + time(micros);
const charts = { commands: new Chart('Commands', ['controller 1', 'controller 2', 'not GOOD'], rate, linear(rate, 1000)),
  bytes: new Chart('Bytes', ['read', 'written'], byteRate, linear(byteRate, 1024)),
  times: new Chart('Latency', ['median', '99 %'], within, decades) };
const cards = new Map();
// The parts of a unit's card; its charts stay, so that neither cursor nor focus is lost.
function cardOf(unit) {
  if (!cards.has(unit.unit)) {
    const part = kind => make('div', kind), of = 'Unit ' + unit.unit + ': ';
    const parts = { head: part(''), draw: part('draw'), facts: part('facts'), pair: make('table', 'pair'),
      bytes: new Chart(of + 'bytes', ['read', 'written'], byteRate, linear(byteRate, 1024), 'chart small', 'h4'),
      times: new Chart(of + 'mean time', ['READ', 'WRITE'], time, decades, 'chart small', 'h4') };
    parts.node = make('div', 'card', parts.head, parts.draw, parts.pair, parts.bytes.node, parts.times.node, parts.facts);
    parts.node.dataset.unit = unit.unit;
    cards.set(unit.unit, parts);
  }
  return cards.get(unit.unit);
}
// What is counted of a unit's paths, with what it grew by, a second.
function pairOf(unit, old, seconds) {
  const head = (text, scope) => { const made = make('th', '', text); made.scope = scope; return made; };
  const row = (title, words, of) => make('tr', '', head(title, 'row'), ...unit.paths.map((route, place) => {
    const now = of(route.commands), was = old?.[place] ? of(old[place].commands) : now;
    const grown = seconds > 0 ? make('b', '', words(Math.max(0, now - was) / seconds)) : '';
    return make('td', '', grown, make('div', 'soft', words === rate ? now : bytes(now)));
  }));
  return [make('thead', '', make('tr', '', make('td', '', ''), ...unit.paths.map(route => head('controller ' + route.controller, 'col')))),
    make('tbody', '', make('tr', '', head('state', 'row'), ...unit.paths.map(route => make('td', '', stateOf(route)))),
      row('commands', rate, countOf), row('not GOOD', rate, c => countOf(c) - c.good), row('read', byteRate, c => c.read_bytes),
      row('written', byteRate, c => c.written_bytes))];
}
function card(unit, old, now) {
  const parts = cardOf(unit), [first, second] = unit.paths;
  const box = (number, name) => make('div', 'box ' + name + (unit.owner === number ? ' owns' : ''), 'controller ' + number,
    make('div', 'soft', unit.owner === number ? 'owner' : ' '));
  parts.head.replaceChildren(make('h3', '', 'Unit ' + unit.unit + ' ', make('span', 'mono soft', unit.disk)),
    make('div', 'mono soft', 'NAA ' + unit.naa + ', WWID ' + unit.wwid + ', serial number ' + unit.serial));
  parts.draw.replaceChildren(box(1, 'one'), wire(first), make('div', 'box', 'unit ' + unit.unit), wire(second), box(2, 'two'));
  parts.pair.replaceChildren(...pairOf(unit, old?.units[unit.unit], old ? now - old.at : 0));
  parts.bytes.show(now, stepsOf(u => [u.read_bytes, u.written_bytes], unit.unit));
  parts.times.show(now, means(unit.unit));
  const kind = unit.reservation_type;
  parts.facts.replaceChildren(make('div', '', 'Disk: ', healthOf(unit), ', ' + bytes(512 * unit.blocks)),
    make('div', '', kind ? 'Reserved: ' + (TYPES[kind] ?? kind) : 'Not reserved', ', ' + unit.registrants + ' registered, generation '
      + unit.generation),
    make('div', 'soft', unit.entries + ' entries in its history' + (unit.oldest_command_micros > 1e5 ? ', a command waits for '
      + time(unit.oldest_command_micros) : '')));
  return parts.node;
}
// The same elements stay where they are.
function settle(id, nodes) {
  const place = find(id);
  if (nodes.length !== place.children.length || nodes.some((node, at) => node !== place.children[at])) place.replaceChildren(...nodes);
}
function table(id, heads, rows) {
  const cell = (name, value, key) => { const made = make(name, typeof value === 'number' ? 'n' : '', value);
    if (key) made.dataset.key = key; return made; };
  const isNumber = key => rows.some(row => typeof row[key] === 'number');
  const titled = (title, key) => { const made = cell('th', title, key); made.scope = 'col'; if (isNumber(key)) made.className = 'n'; return made; };
  const head = make('tr', '', ...heads.map(([title, key]) => titled(title, key)));
  const body = rows.map(row => make('tr', '', ...heads.map(([, key]) => cell('td', row[key] ?? '', key))));
  fill(id, make('thead', '', head), make('tbody', '', ...body));
}
function unitRow(unit) {
  const all = unit.paths.map(route => route.commands), of = key => sum(all.map(commands => commands[key]));
  return { unit: unit.unit, owner: 'controller ' + unit.owner, commands: sum(all.flatMap(c => c.buckets)), read: bytes(of('read_bytes')),
    written: bytes(of('written_bytes')), flushes: of('flushes'), conflicts: of('reservation_conflicts'), busy: of('busy'),
    miscompares: sum(all.map(c => c.sense_keys[14])), refused: sum(all.map(c => c.sense_keys[5])),
    checks: sum(all.flatMap(c => c.sense_keys)),
    failed: sum(unit.disk_failures.concat(unit.registration_failures).map(tally => tally.count)) };
}
// The registrations of all units, and the units of which they are not to be read now.
function registrationsOf(view) {
  const rows = view.units.flatMap(unit => (unit.registrations ?? []).map(one => ({ unit: unit.unit, initiator: one.initiator,
    isid: one.isid, by: 'controller ' + one.controller, key: one.key,
    holds: one.is_holder ? TYPES[one.reservation_type] ?? one.reservation_type : '' })));
  const unread = view.units.filter(unit => unit.registrations === null).map(unit => unit.unit);
  return [rows, unread.length ? ', not to be read now: unit ' + unread.join(', ') : ''];
}
// What failed of all units, the last first.
function failuresOf(view) {
  const rows = view.units.flatMap(unit => unit.failures.map(one => ({ unit: unit.unit, ...one })));
  rows.sort((one, other) => other.last - one.last);
  return rows.map(one => ({ unit: one.unit, file: one.file, call: one.call, count: one.count,
    error: one.error === 'other' ? 'errno ' + one.errno : one.error,
    began: moment(one.began), last: moment(one.last), over: one.ended === null ? 'no' : moment(one.ended) }));
}
// The state of all, beside the name and in the title.
function tell(kind, words) {
  fill('well', signed(kind, words));
  document.title = (kind === 'good' ? '✔ ' : kind === 'warn' ? '⚠ ' : '✘ ') + words + ' - arrayd';
}
const isSelected = () => { const now = getSelection(); return now !== null && !now.isCollapsed; };
function show(view) {
  const old = remember(view);
  bounds = view.bounds_micros;
  heard = Date.now();
  document.body.classList.remove('stale');
  fill('target', view.target);
  const wrong = view.problems.length, less = view.degraded.length;
  if (wrong) tell('bad', wrong + ' wrong'); else if (less) tell('warn', 'degraded'); else tell('good', 'well');
  fill('about', 'version ' + view.version + ', array ' + view.array + ', up ' + span(view.uptime_micros / 1e6));
  // What somebody has selected stays as it is.
  if (isSelected()) return;
  fill('problems', ...view.problems.map(text => make('li', '', signed('bad', text))),
    ...view.degraded.map(text => make('li', 'amber', signed('warn', text))));
  const now = before.at, steps = names => past.map(point => ({ at: point.at, values: names.map(name => point[name]) }));
  charts.commands.show(now, steps(['one', 'two', 'refused']));
  charts.bytes.show(now, steps(['read', 'written']));
  charts.times.show(now, steps(['middle', 'slow']));
  settle('charts', Object.values(charts).map(chart => chart.node));
  settle('units', view.units.map(unit => card(unit, old, now)));
  table('unit_table', [['unit', 'unit'], ['owner', 'owner'], ['commands', 'commands'], ['read', 'read'],
    ['written', 'written'], ['flushes', 'flushes'], ['checks', 'checks'], ['refused', 'refused'], ['miscompares', 'miscompares'],
    ['conflicts', 'conflicts'], ['BUSY', 'busy'], ['failed', 'failed']], view.units.map(unitRow));
  const failures = failuresOf(view);
  fill('failure_count', '(' + failures.length + ')');
  table('failure_table', [['unit', 'unit'], ['file', 'file'], ['call', 'call'], ['error', 'error'], ['times', 'count'],
    ['began (UTC)', 'began'], ['last (UTC)', 'last'], ['over (UTC)', 'over']], failures);
  fill('session_count', '(' + view.sessions.length + ')');
  table('session_table', [['initiator', 'initiator'], ['ISID', 'isid'], ['TSIH', 'tsih'], ['controller', 'controller'],
    ['peer', 'peer'], ['type', 'kind'], ['since (UTC)', 'begun'], ['last command', 'last'], ['commands', 'commands']],
    view.sessions.map(session => ({ ...session, begun: moment(session.since),
    last: session.last_command ? session.last_command.replaceAll('_', ' ') + ', ' + ago(session.idle_micros / 1e6) : 'none' })));
  const [registrations, unread] = registrationsOf(view);
  fill('registration_count', '(' + registrations.length + unread + ')');
  table('registration_table', [['unit', 'unit'], ['initiator', 'initiator'], ['ISID', 'isid'], ['by', 'by'], ['key', 'key'],
    ['holds', 'holds']], registrations);
  const both = { controller: 'both', at: '', sessions: sum(view.controllers.map(one => one.sessions)), logins: view.logins,
    refused: sum(view.refused_logins.map(tally => tally.count)) };
  table('controller_table', [['controller', 'controller'], ['portals', 'at'], ['sessions', 'sessions'], ['logins', 'logins'],
    ['refused', 'refused']], [...view.controllers.map(one => ({ ...one, controller: 'controller ' + one.controller,
    at: one.portals.join(' '), logins: '', refused: '' })), both]);
}
let asked = -Infinity, isKept = true;
async function ask(path) {
  const answer = await fetch(path, { cache: 'no-store', signal: AbortSignal.timeout(PATIENCE) });
  return answer.ok ? answer.json() : null;
}
async function look() {
  try {
    if (paused) return;
    if (isKept && Date.now() - asked >= 1000 * STEP) {
      asked = Date.now();
      recall().then(is => { isKept = is; }).catch(() => {});
    }
    const view = await ask('/status').catch(() => null);
    if (view === null) {
      tell('bad', 'the array does not answer');
      document.body.classList.add('stale');
      return;
    }
    if (!isKept) keep(view);
    show(view);
  } finally {
    setTimeout(look, EVERY);
  }
}
setInterval(() => fill('heard', heard === null ? '' : 'heard ' + ago((Date.now() - heard) / 1000) + (paused ? ', paused' : '')), 1000);
find('pause').addEventListener('click', event => {
  paused = !paused;
  event.target.setAttribute('aria-pressed', paused);
  event.target.textContent = paused ? 'Go on' : 'Pause';
});
look();
</script></body></html>
";

pub(crate) fn script() -> &'static str {
    SCRIPT
}
