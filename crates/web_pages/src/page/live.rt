//! The page's script: what is known of the station, its links and its alarms.

/// The second part of the script.
pub(crate) const LIVE: &str = r##"function say(words, isGone) {
  write("state", words);
  at("state").classList.toggle("gone", isGone);
}
// The station's clock: what it said last, and what has passed here since then. This screen's clock until it has said something.
let heardAt = null, saidAt = 0;
const stationClock = () => heardAt === null ? Date.now() : saidAt + performance.now() - heardAt;
function hearClock(said) {
  heardAt = performance.now(); saidAt = said;
  const off = Math.round((Date.now() - said) / 1000);
  write("skew", "This screen's clock is " + many(Math.abs(off), "second", "seconds") + (off > 0 ? " ahead of" : " behind") + " the station's.");
  hide("skew", Math.abs(off) < 5);
}
function tick() {
  const ms = stationClock(), words = new Date(ms).toISOString();
  write("time", words.slice(11, 19));
  write("day", words.slice(0, 10));
  at("time").dateTime = words;
  setTimeout(tick, 1005 - ms % 1000);
}
// How fast a number of octets grows, looked at about once a second.
function flow(before, count) {
  if (!before || before.count > count || before.at > now) return { count, at: now, rate: null };
  return now - before.at < 900 ? before : { count, at: now, rate: 1000 * (count - before.count) / (now - before.at) };
}
// Notes how fast transactions go, and which of them moved.
function count(all) {
  const seen = new Set();
  for (const t of all.transactions) {
    const k = key(t), r = rates.get(k) || { mark: null, moved: 0, flow: null }, mark = t.octets + " " + t.events;
    seen.add(k);
    if (r.mark !== null && r.mark !== mark) r.moved = now;
    r.mark = mark; r.flow = flow(r.flow, there(t));
    rates.set(k, r);
  }
  for (const k of rates.keys()) if (!seen.has(k)) rates.delete(k);
}
function countLinks(all) {
  for (const r of all.remotes) {
    const link = linkOf(r) || { came: null, heard: 0, since: now, in: null, out: null };
    if (link.came !== null && link.came !== r.datagrams_in) link.heard = now;
    link.came = r.datagrams_in; link.in = flow(link.in, r.octets_in); link.out = flow(link.out, r.octets_out);
    links.set(number(r, "id"), link);
  }
}
// What the page keeps in the browser, for each entity: alarms, which of them were acknowledged, and ends of windows.
const memory = { name: "", saved: "", raised: new Map(), known: new Map(), windows: new Map(), run: "", failedUntil: 0, unsentUntil: 0 };
const LISTS = ["raised", "known", "windows"], MARKS = ["run", "failedUntil", "unsentUntil"];
function recall() {
  let kept = null;
  try { kept = JSON.parse(localStorage.getItem(memory.name)); } catch (fault) { kept = null; }
  if (kept === null || typeof kept !== "object") return;
  for (const list of LISTS) if (Array.isArray(kept[list])) memory[list] = new Map(kept[list].filter(pair => Array.isArray(pair) && pair[1] !== null));
  for (const mark of MARKS) if (typeof kept[mark] === typeof memory[mark]) memory[mark] = kept[mark];
}
function remember() {
  if (memory.name === "") return;
  const words = JSON.stringify(Object.fromEntries([...LISTS.map(list => [list, [...memory[list]]]), ...MARKS.map(mark => [mark, memory[mark]])]));
  if (words === memory.saved) return;
  memory.saved = words;
  try { localStorage.setItem(memory.name, words); } catch (fault) { memory.saved = ""; }
}
function recognize(entity) {
  const name = "cfdp entity " + number(entity, "id");
  if (memory.name !== name) { memory.name = name; recall(); }
  memory.run = String(entity.started);
}
addEventListener("storage", e => { if (e.key === memory.name) { recall(); showAlarms(); } });
// Links that are held as planned: since the start, or since the end of a window. The station says of the latter in an event.
const plannedHolds = new Map();
function noteWindows(all) {
  for (const r of all.remotes) {
    if (r.open_until) memory.windows.set(number(r, "id"), Date.parse(r.open_until));
    else if (!r.held) memory.windows.delete(number(r, "id"));
  }
}
function isPlanned(r) {
  const id = number(r, "id"), from = Date.parse(r.held_since);
  return isOutside(id) || r.held_since === memory.run || from >= memory.windows.get(id) - 1000 || Math.abs(from - plannedHolds.get(id)) < 1000;
}
// What a chart is drawn from: octets each two seconds. A station that begins anew, or was away, leaves a gap.
const SPAN = 600000, GAP = 10000, MOST_CHARTS = 24, HIGH = 140, PAD = { left: 70, right: 8, top: 10, bottom: 20 };
function sample(samples, into, out) {
  const last = samples[samples.length - 1];
  if (last && now >= last.at && now - last.at < 1900 && into >= last.in && out >= last.out) return;
  if (last && now < last.at) samples.length = 0;
  samples.push({ at: now, in: into, out });
  while (samples[0].at < now - SPAN) samples.shift();
}
function speeds(samples) {
  const points = [];
  let isNew = true;
  for (let i = 1; i < samples.length; i++) {
    const a = samples[i - 1], b = samples[i], took = b.at - a.at;
    if (took <= 0 || took > GAP || b.in < a.in || b.out < a.out) { isNew = true; continue; }
    points.push({ at: b.at, isNew, in: 1000 * (b.in - a.in) / took, out: 1000 * (b.out - a.out) / took });
    isNew = false;
  }
  return points;
}
// An axis from 0 up: at most four steps of 1, 2 or 5 and zeros, in the unit of the greatest value.
function axis(most) {
  const unit = Math.min(5, Math.max(0, Math.floor(Math.log2(Math.max(1, most)) / 10))), size = 1024 ** unit, least = most / size / 4;
  const tens = 10 ** Math.floor(Math.log10(least)), step = [1, 2, 5, 10].map(n => n * tens).find(n => n >= least * 0.999999);
  const steps = Math.max(1, Math.ceil(most / size / step - 1e-9));
  const labels = Array.from({ length: steps + 1 }, (_, i) => Number((i * step).toPrecision(6)) + " " + ["B", "KiB", "MiB", "GiB", "TiB", "PiB"][unit] + "/s");
  return { top: steps * step * size, labels };
}
const shape = (name, parent, cls) => {
  const one = parent.appendChild(document.createElementNS("http://www.w3.org/2000/svg", name));
  if (cls) one.setAttribute("class", cls);
  return one;
};
const charts = new Map();
// A chart of one link, or of all together: octets a second over ten minutes, and the link's limit.
class Chart {
  constructor(id) {
    this.id = id; this.rate = undefined; this.samples = []; this.inView = false; this.texts = [];
    this.figure = element("figure"); this.figure.dataset.link = id;
    this.caption = element("span");
    const head = element("figcaption");
    head.append(element("b", id === "all" ? "All links" : "Entity " + id), " ", this.caption);
    this.figure.append(head);
    this.svg = shape("svg", this.figure); this.svg.setAttribute("role", "img");
    [this.grid, this.limit, this.in, this.out] = ["grid", "way limit", "way in", "way out"].map(name => shape("path", this.svg, name));
    this.limitText = shape("text", this.svg, "limit");
    this.figure.chart = this;
    at("charts").append(this.figure);
    watched.observe(this.figure);
  }
  // The n-th label, at a place.
  label(n, words, x, y, anchor) {
    const one = this.texts[n] || (this.texts[n] = shape("text", this.svg));
    if (one.textContent !== words) one.textContent = words;
    one.setAttribute("x", x.toFixed(1)); one.setAttribute("y", y); one.setAttribute("text-anchor", anchor);
  }
  draw() {
    if (!this.inView) return;
    const points = speeds(this.samples), limit = this.rate, most = points.reduce((most, p) => Math.max(most, p.in, p.out), 4);
    const scale = axis(limit !== undefined && limit <= 8 * most ? Math.max(most, limit) : most), wide = Math.max(200, this.svg.clientWidth), floor = HIGH - PAD.bottom;
    const x = moment => wide - PAD.right - (wide - PAD.left - PAD.right) * (now - moment) / SPAN, y = value => floor - (floor - PAD.top) * value / scale.top;
    this.svg.setAttribute("viewBox", "0 0 " + wide + " " + HIGH);
    this.drawGrid(scale, x, y, wide, floor);
    for (const way of ["in", "out"])
      this[way].setAttribute("d", points.map(p => (p.isNew ? "M" : "L") + x(p.at).toFixed(1) + " " + y(p[way]).toFixed(1)).join(" "));
    this.drawLimit(limit, scale, y, wide);
    this.tell(points, limit);
  }
  drawGrid(scale, x, y, wide, floor) {
    let lines = "", n = 0;
    scale.labels.forEach((words, i) => {
      const high = y(scale.top * i / (scale.labels.length - 1));
      lines += "M" + PAD.left + " " + high.toFixed(1) + "H" + (wide - PAD.right);
      this.label(n++, words, PAD.left - 6, (high + 4).toFixed(1), "end");
    });
    for (let moment = Math.ceil((now - SPAN) / 120000) * 120000; moment <= now; moment += 120000) {
      lines += "M" + x(moment).toFixed(1) + " " + PAD.top + "V" + (floor + 4);
      this.label(n++, new Date(moment).toISOString().slice(11, 16) + "Z", Math.min(x(moment), wide - 24), HIGH - 5, "middle");
    }
    while (this.texts.length > n) this.texts.pop().remove();
    this.grid.setAttribute("d", lines);
  }
  drawLimit(limit, scale, y, wide) {
    const isIn = limit !== undefined && limit <= scale.top, high = isIn ? y(limit) : PAD.top;
    this.limit.setAttribute("d", isIn ? "M" + PAD.left + " " + high.toFixed(1) + "H" + (wide - PAD.right) : "");
    this.limitText.textContent = limit === undefined ? "" : "limit " + per(limit) + (isIn ? "" : " ↑");
    this.limitText.setAttribute("x", PAD.left + 4);
    this.limitText.setAttribute("y", (isIn && high > 24 ? high - 4 : high + 12).toFixed(1));
  }
  tell(points, limit) {
    const last = points[points.length - 1];
    const words = last ? "in (line) " + per(last.in) + ", out (dashes) " + per(last.out) + (limit === undefined ? "" : ", limit " + per(limit)) + ". Since " + clock(Math.max(this.samples[0].at, now - SPAN)) + "." : "";
    if (this.caption.textContent === words) return;
    this.caption.textContent = words;
    this.svg.setAttribute("aria-label", this.figure.firstChild.textContent);
  }
}
const watched = new IntersectionObserver(entries => {
  for (const entry of entries) { const chart = entry.target.chart; chart.inView = entry.isIntersecting; chart.draw(); }
}, { rootMargin: "200px" });
function drawCharts(all, c) {
  const shownLinks = all.remotes.slice(0, MOST_CHARTS).map(r => [number(r, "id"), r.octets_in, r.octets_out, r.rate]), rows = [["all", c.octets_in, c.octets_out], ...shownLinks];
  const ids = new Set(rows.map(row => row[0]));
  for (const [id, chart] of charts) if (!ids.has(id)) { watched.unobserve(chart.figure); chart.figure.remove(); charts.delete(id); }
  for (const [id, into, out, rate] of rows) {
    if (into === undefined || out === undefined) continue;
    if (!charts.has(id)) charts.set(id, new Chart(id));
    const chart = charts.get(id);
    sample(chart.samples, into, out);
    chart.rate = rate;
    chart.draw();
  }
  write("charts-note", all.remotes.length > MOST_CHARTS ? "The first " + MOST_CHARTS + " of " + all.remotes.length + " entities have a chart." : "");
}
// The last moment at which the page saw that more stores had failed.
const fails = { count: null, at: 0 };
function noteFails(c) {
  if (fails.count !== null && c.failed_stores > fails.count) fails.at = now;
  fails.count = c.failed_stores;
}
const CRITICAL = "critical", WARNING = "warning";
// An alarm: by its key it is one and the same, and a new mark raises it again, though it was acknowledged.
const alarm = (key, severity, words, from, mark) => ({ key, severity, words, at: from || 0, mark: mark || "" });
function linkAlarms(all) {
  const isBad = r => r.held && !isPlanned(r);
  return all.remotes.filter(isBad).map(r => alarm("held " + number(r, "id"), WARNING, "entity " + number(r, "id") + " is held" + (r.held_since ? " since " + moment(r.held_since) : ""), Date.parse(r.held_since), r.held_since));
}
function storeAlarms(all) {
  const hindered = all.storing.filter(s => s.why), found = [];
  if (hindered.length > 0) found.push(alarm("hindered", CRITICAL, many(hindered.length, "received file", "received files") + " can't be stored: " + hindered[0].why));
  if (fails.at > now - 60000) found.push(alarm("fails", CRITICAL, "a received file wasn't stored", fails.at));
  return found;
}
function laneAlarms(all) {
  const noticed = notice => all.transactions.filter(t => t.notice === notice), full = noticed("journal-full"), few = noticed("last-numbers"), found = [];
  if (full.length > 0) found.push(alarm("journals", WARNING, many(full.length, "journal is full", "journals are full") + ": " + key(full[0]), 0, full.map(key).join(" ").slice(0, 200)));
  if (few.length > 0) found.push(alarm("numbers", CRITICAL, many(few.length, "lane runs out of numbers", "lanes run out of numbers")));
  return found;
}
// Transactions that failed since somebody acknowledged that one did.
function failAlarms(all) {
  const failed = all.transactions.filter(t => ["bad", "warn"].includes(ending(t)[1]) && t.state === "ended" && Date.parse(t.last) > memory.failedUntil).sort((a, b) => Date.parse(b.last) - Date.parse(a.last));
  if (failed.length === 0) return [];
  const [last] = failed, more = failed.length - 1;
  return [alarm("failed", WARNING, "transaction " + key(last) + " ended: " + ending(last)[0] + (more > 0 ? ", and " + many(more, "other one", "others") + " before" : ""), Date.parse(last.last), last.last)];
}
// What is wrong, by a status.
function alarmsOf(all, log, recorder) {
  const found = [...linkAlarms(all), ...planAlarms(), ...storeAlarms(all), ...laneAlarms(all), ...failAlarms(all)];
  if (log && log.failing) found.push(alarm("log", CRITICAL, "the log can't be written, " + many(log.lost, "event", "events") + " lost"));
  for (const u of all.users) if (u.waiting >= u.capacity) found.push(alarm("queue " + u.name, CRITICAL, "the queue of " + u.name + " is full"));
  if (recorder && recorder.failed > 0) found.push(alarm("recordings", WARNING, many(recorder.failed, "recording failed", "recordings failed"), 0, memory.run + " " + recorder.failed));
  for (const r of all.refusals) if (now - Date.parse(r.last) < 60000) found.push(alarm("refused " + r.name, WARNING, r.name + " was refused" + (r.from ? ", from " + r.from : ""), Date.parse(r.last)));
  return found;
}
const MOST_ALARMS = 64;
let holding = [];
// Raises what is wrong and wasn't acknowledged. What is no longer wrong stays until somebody acknowledges it.
function raise(found) {
  const keys = new Set(found.map(one => one.key)), fresh = [];
  for (const one of found) {
    if (memory.known.get(one.key) === one.mark) continue;
    memory.known.delete(one.key);
    const old = memory.raised.get(one.key), isSame = old && old.mark === one.mark && !old.over;
    if (!isSame) fresh.push(one);
    memory.raised.set(one.key, { ...one, at: isSame ? old.at : one.at || now, over: 0 });
  }
  for (const [k, one] of memory.raised) if (!keys.has(k) && !one.over) memory.raised.set(k, { ...one, over: now });
  for (const k of memory.known.keys()) if (!keys.has(k)) memory.known.delete(k);
  while (memory.raised.size > MOST_ALARMS) memory.raised.delete(([...memory.raised].find(([, one]) => one.over) || [...memory.raised][0])[0]);
  holding = found;
  if (fresh.length > 0) write("alarm-news", fresh.slice(0, 3).map(one => one.severity + ": " + one.words).join(". "));
  showAlarms();
  remember();
}
function acknowledge(k) {
  const one = memory.raised.get(k);
  if (!one) return;
  memory.raised.delete(k);
  if (k === "failed") memory.failedUntil = Math.max(memory.failedUntil, one.at);
  if (!one.over) memory.known.set(k, one.mark);
}
function acknowledgeAll(keys) {
  for (const k of keys) acknowledge(k);
  showAlarms();
  remember();
  (at("alarms").querySelector("button") || at("h-alarms")).focus();
}
const alarmRows = new Map();
function alarmRow(k) {
  const li = element("li"), row = { li, severity: element("strong"), moment: element("time"), words: element("span"), button: button("Acknowledge", "", () => acknowledgeAll([k])) };
  li.append(row.severity, row.moment, row.words, row.button);
  alarmRows.set(k, row);
  return row;
}
function fillAlarm(k, one) {
  const row = alarmRows.get(k) || alarmRow(k), words = one.words + (one.over ? " (over since " + momentOf(one.over) + ")" : "");
  row.li.className = one.severity + (one.over ? " over" : "");
  row.severity.textContent = one.severity; row.moment.textContent = momentOf(one.at);
  if (row.words.textContent !== words) { row.words.textContent = words; row.button.setAttribute("aria-label", "Acknowledge: " + words); }
  return row.li;
}
function showAlarms() {
  const order = [...memory.raised].sort(([, a], [, b]) => (a.severity === CRITICAL ? 0 : 1) - (b.severity === CRITICAL ? 0 : 1) || b.at - a.at), list = at("alarms");
  order.forEach(([k, one], i) => { const li = fillAlarm(k, one); if (list.children[i] !== li) list.insertBefore(li, list.children[i] || null); });
  for (const [k, row] of alarmRows) if (!memory.raised.has(k)) { row.li.remove(); alarmRows.delete(k); }
  const quiet = holding.filter(one => memory.known.get(one.key) === one.mark), words = quiet.map(one => one.severity + ": " + one.words);
  hide("no-alarms", order.length > 0); hide("acknowledge-all", order.length < 2); hide("known", quiet.length === 0); hide("alarm-count", order.length === 0);
  write("known-text", many(quiet.length, "acknowledged alarm still holds", "acknowledged alarms still hold"));
  if (at("known-list").dataset.words !== words.join("\n")) { at("known-list").dataset.words = words.join("\n"); at("known-list").replaceChildren(...words.map(one => element("li", one))); }
  write("alarm-count", many(order.length, "alarm", "alarms"));
  at("alarm-count").classList.toggle("bad", order.some(([, one]) => one.severity === CRITICAL));
  document.title = (order.length > 0 ? "(" + order.length + ") " : "") + at("title").textContent;
}
at("acknowledge-all").addEventListener("click", () => acknowledgeAll([...memory.raised.keys()]));
at("alarm-count").addEventListener("click", () => { at("h-alarms").focus(); at("h-alarms").scrollIntoView({ block: "center" }); });
// The choices of an input.
function offer(id, words) {
  const list = at(id), now = words.join("\n");
  if (list.dataset.words === now) return;
  list.dataset.words = now;
  list.replaceChildren(...words.map(word => { const o = element("option"); o.value = word; return o; }));
}
function tellEnded(list) {
  const keys = new Set(list.map(key));
  if (before) {
    const fresh = list.filter(t => !before.has(key(t)));
    if (fresh.length > 0) at("ended-news").textContent = fresh.slice(0, 3).map(t => "Transaction " + key(t) + " ended: " + ending(t)[0]).join(". ") + (fresh.length > 3 ? " and " + (fresh.length - 3) + " more" : "");
  }
  before = keys;
}
// Transactions that ended: each lane's last one, and older ones of which the events told.
function showEnded(all) {
  const over = all.transactions.filter(t => t.state === "ended"), keys = new Set(all.transactions.map(key)), older = pastEnds().filter(t => !keys.has(key(t)));
  tellEnded(over.filter(t => t.condition !== undefined));
  ended.show(over.concat(older).sort((a, b) => String(b.last || "").localeCompare(String(a.last || ""))), key);
  const told = (all.ended || []).reduce((sum, line) => sum + line.count, 0);
  write("ended-count", over.length + older.length + told === 0 ? "" : over.length + " as the lanes have them, " + older.length + " older by events" + (told > 0 ? "; the station has counted " + many(told, "end", "ends") + " since its start" : "") + ".");
}
function showCounts(all) {
  const lines = all.ended || [], whole = all.delivered || [];
  counts.show(lines, c => c.role + " " + c.class + " " + c.condition);
  hide("s-counts", lines.length === 0 && whole.length === 0);
  write("delivered", whole.map(d => many(d.files, "file", "files") + " (" + octets(d.octets) + ") came whole " + (d.role === "sender" ? "there" : "here")).join(", "));
}
function factsOf(entity, c, log, recorder) {
  const facts = ["version " + entity.version, "up since " + moment(entity.started), many(c.datagrams_in, "datagram", "datagrams") + " in", c.datagrams_out + " out", c.refused + " refused", many(c.stored, "file", "files") + " kept"];
  if (log) facts.push(log.failing ? "the log can't be written (" + many(log.lost, "event", "events") + " lost)" : "log written");
  if (recorder) facts.push("recordings: " + recorder.kept + " kept, " + recorder.missed + " missed, " + recorder.failed + " failed");
  return facts.join(", ");
}
function showTables(all) {
  active.show(all.transactions.filter(t => t.state !== "ended"), key);
  showEnded(all);
  users.show(all.users, u => u.name);
  remotes.show(all.remotes, r => number(r, "id"));
  outbox.show(all.outbox, q => number(q, "number"));
  reading.show(all.reading, r => r.since + " " + text(r, "file"));
  storing.show(all.storing, key);
  parked.show(all.parked, p => p.user + " " + number(p, "lane"));
  refusals.show(all.refusals, r => r.number + "." + r.fault);
  showCounts(all);
  hide("s-storing", all.storing.length === 0); hide("s-parked", all.parked.length === 0);
}
// One user is the one who sends.
function offerAll(all) {
  offer("all-users", all.users.map(u => u.name));
  offer("all-remotes", all.remotes.map(r => number(r, "id")));
  const user = at("send").elements.user;
  if (all.users.length === 1 && user.value === "" && document.activeElement !== user) user.value = all.users[0].name;
}
function show(all) {
  const entity = all.entities[0] || {}, c = entity.counters || {}, log = all.logs[0], recorder = all.recorders[0];
  now = Date.parse(entity.now) || Date.now();
  latest = all;
  hearClock(now);
  recognize(entity);
  noteWindows(all); noteFails(c); count(all); countLinks(all);
  showTables(all);
  drawCharts(all, c); drawPasses(all);
  write("title", "CFDP entity " + number(entity, "id"));
  raise(alarmsOf(all, log, recorder));
  offerAll(all);
  write("facts", factsOf(entity, c, log, recorder));
}
// That the station is gone is an alarm, too; what it said last may still be so.
function miss(fault) {
  if (!gone) gone = Date.now();
  const what = fault.name === "TypeError" || fault.name === "TimeoutError" ? "The console can't be reached" : fault.message;
  say(what + ", since " + clock(gone) + "." + (good ? " The data shown is from " + clock(good) + "." : ""), true);
  now = stationClock();
  if (memory.name !== "") raise([...holding.filter(one => one.key !== "gone"), alarm("gone", CRITICAL, what, now)]);
}
async function status() {
  if (asking) return;
  asking = true;
  try {
    const answer = await fetch("/status.json", { cache: "no-store", signal: AbortSignal.timeout(4000) });
    if (answer.status === 503) throw new Error("The station is gone");
    if (!answer.ok) throw new Error("The console refuses requests (" + answer.status + ")");
    show(await answer.json());
    good = Date.now(); gone = 0;
    say("The station answers.", false);
  } catch (fault) { miss(fault); }
  asking = false;
}
"##;
