//! The page's script: passes on a line of time.

/// The third part of the script.
pub(crate) const PASSES: &str =
    r##"// The plan of windows as the console read it, and when links were held and released, as events told it.
let plan = { windows: [], faults: [] }, asksPlan = false;
const turns = new Map(), MOST_TURNS = 512;
function noteTurn(e) {
  const id = number(e, "id"), list = turns.get(id) || [];
  list.push({ at: Date.parse(e.at), isOpen: e.kind === "release" });
  if (list.length > MOST_TURNS) list.shift();
  turns.set(id, list);
}
const windowsOf = id => plan.windows.filter(w => w.remote === id).sort((a, b) => a.from - b.from);
// A link that the plan has is held as planned outside its windows.
function isOutside(id) {
  const windows = windowsOf(id);
  return windows.length > 0 && !windows.some(w => w.from + 2000 < now && now < w.until);
}
// When a link was open so far: by its turns, and before them since the start of this run.
function opens(r) {
  const begun = Date.parse(memory.run) || now, list = turns.get(number(r, "id")) || [], own = list.filter(t => t.at >= begun), periods = [];
  const all = [...list.filter(t => t.at < begun), { at: begun, isOpen: own.length > 0 ? !own[0].isOpen : !r.held }, ...own, { at: Math.max(now, begun), isOpen: false }];
  let from = null;
  for (const t of all) {
    if (from !== null && (!t.isOpen || t.at === begun)) { periods.push({ from, until: t.at }); from = null; }
    if (from === null && t.isOpen) from = t.at;
  }
  return periods;
}
const minute = ms => new Date(ms).toISOString().slice(11, 16) + "Z", HOUR = 3600000;
// How many hours a line shows, a quarter of them past, and how many lie between two marks of its axis.
const SPANS = { 3: 0.5, 12: 2, 72: 12 }, PASS_HIGH = 58, BAR = 26;
const passLines = new Map();
class PassLine {
  constructor(id) {
    this.id = id; this.texts = [];
    this.figure = element("figure"); this.figure.dataset.pass = id;
    this.words = element("span");
    const head = element("figcaption");
    head.append(element("b", "Entity " + id), " ", this.words);
    this.figure.append(head);
    this.svg = shape("svg", this.figure, "passes"); this.svg.setAttribute("role", "img");
    [this.grid, this.was, this.isOpen, this.planned, this.here] = ["grid", "pass was", "pass open", "pass planned", "pass here"].map(name => shape("path", this.svg, name));
    at("passes").append(this.figure);
  }
  draw(r) {
    const hours = Number(at("span").value), from = now - hours * HOUR / 4, until = from + hours * HOUR, wide = Math.max(200, this.svg.clientWidth);
    const x = moment => (wide * (Math.min(until, Math.max(from, moment)) - from) / (until - from)).toFixed(1);
    const bars = (periods, top, floor) => periods.filter(p => p.until > from && p.from < until).map(p => "M" + x(p.from) + " " + top + "H" + x(p.until) + "V" + floor + "H" + x(p.from) + "Z").join("");
    const windows = windowsOf(this.id), end = Date.parse(r.open_until);
    this.svg.setAttribute("viewBox", "0 0 " + wide + " " + PASS_HIGH);
    this.was.setAttribute("d", bars(opens(r), 12, BAR - 4));
    this.isOpen.setAttribute("d", r.held ? "" : bars([{ from: now, until: end || until }], 12, BAR - 4));
    this.planned.setAttribute("d", bars(windows, 7, BAR + 1));
    this.here.setAttribute("d", "M" + x(now) + " 2V" + (BAR + 8));
    this.drawAxis(from, until, SPANS[hours] * HOUR, x, wide);
    this.tell(r, windows);
  }
  drawAxis(from, until, step, x, wide) {
    let lines = "M0 " + (BAR + 4) + "H" + wide, n = 0;
    for (let moment = Math.ceil(from / step) * step; moment < until; moment += step) {
      lines += "M" + x(moment) + " " + (BAR + 1) + "v6";
      if (x(moment) > 20 && x(moment) < wide - 20) this.label(n++, minute(moment), x(moment), BAR + 20);
      if (moment % (24 * HOUR) === 0 && x(moment) > 30 && x(moment) < wide - 30) this.label(n++, new Date(moment).toISOString().slice(0, 10), x(moment), BAR + 31);
    }
    while (this.texts.length > n) this.texts.pop().remove();
    this.grid.setAttribute("d", lines);
  }
  label(n, words, x, y) {
    const one = this.texts[n] || (this.texts[n] = shape("text", this.svg));
    if (one.textContent !== words) one.textContent = words;
    one.setAttribute("x", x); one.setAttribute("y", y); one.setAttribute("text-anchor", "middle");
  }
  tell(r, windows) {
    const words = passWords(r, windows);
    if (this.words.textContent === words) return;
    this.words.textContent = words;
    this.svg.setAttribute("aria-label", this.figure.firstChild.textContent);
  }
}
function passWords(r, windows) {
  const left = r.open_until ? ", " + age(Date.parse(r.open_until) - now) + " left" : "", to_come = windows.filter(w => w.from > now), [next] = to_come;
  const rate = next && next.rate !== undefined ? next.rate === "off" ? ", without a limit" : ", at most " + per(next.rate) : "";
  return sending(r)[0] + left + "." + (next ? " Next " + minute(next.from) + " to " + minute(next.until) + ", in " + age(next.from - now) + rate + "." : "")
    + (windows.length > 0 ? " " + many(to_come.length, "window", "windows") + " to come." : "");
}
// A station whose links were never held, and that has no plan, has no passes.
function drawPasses(all) {
  const rows = all.remotes.slice(0, MOST_CHARTS), ids = new Set(rows.map(r => number(r, "id")));
  hide("s-passes", plan.windows.length + plan.faults.length + turns.size === 0 && !all.remotes.some(r => r.held || r.open_until));
  for (const [id, line] of passLines) if (!ids.has(id)) { line.figure.remove(); passLines.delete(id); }
  for (const r of rows) {
    const id = number(r, "id");
    if (!passLines.has(id)) passLines.set(id, new PassLine(id));
    passLines.get(id).draw(r);
  }
}
const planAlarms = () => plan.faults.length === 0 ? [] : [alarm("plan", WARNING, many(plan.faults.length, "fault", "faults") + " in the plan of windows: " + plan.faults[0], 0, plan.faults.join("\n").slice(0, 200))];
async function askPlan() {
  if (asksPlan) return;
  asksPlan = true;
  try {
    const answer = await fetch("/windows.json", { cache: "no-store", signal: AbortSignal.timeout(4000) });
    if (answer.ok) plan = await answer.json();
    const words = plan.faults.join("\n");
    if (at("plan-faults").dataset.words !== words) { at("plan-faults").dataset.words = words; at("plan-faults").replaceChildren(...plan.faults.map(one => element("li", one))); }
  } catch (fault) { /* the status says that the console is gone */ }
  asksPlan = false;
}
at("span").addEventListener("input", () => { if (latest) drawPasses(latest); });
"##;
