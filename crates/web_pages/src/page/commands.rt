//! The page's script: events, and commands.

/// The last part of the script, and of the page.
pub(crate) const COMMANDS: &str = r##"let lastId = "", kept = [], asksEvents = false, missed = "";
const runOf = id => id.slice(0, Math.max(0, id.lastIndexOf("-")));
const numberIn = id => Number(id.slice(id.lastIndexOf("-") + 1));
function eventIn(json) {
  try {
    const e = JSON.parse(json);
    return e !== null && typeof e === "object" ? e : null;
  } catch (fault) { return null; }
}
const told = e => {
  const rest = Object.entries(e).filter(([k]) => !["at", "number", "kind", "user", "source", "seq", "seq_text", "name", "level"].includes(k)).map(([k, v]) => k + " " + (k === "condition" ? condition(v) : Array.isArray(v) ? v.join(" ") : v));
  return [String(e.at || "").replace("T", " "), e.kind === "indication" ? e.name : e.kind + (e.name ? " " + e.name : ""), e.user || "", e.source === undefined ? "" : key(e), rest.join(", ")].filter(w => w !== "").join("  ");
};
function shown(e) {
  try { return told(e); } catch (fault) { return "an event that can't be shown"; }
}
// How much an event matters: 0 a piece of a file, 1 what goes as it should, 2 what somebody should look at.
const WARNINGS = ["unsent", "refused", "unparked", "journal-full"];
function levelOf(e) {
  if (e.kind === "stored") return e.status === "retained" ? 1 : 2;
  if (e.kind !== "indication") return WARNINGS.includes(e.kind) ? 2 : 1;
  if (e.name === "File-Segment-Recv") return 0;
  if (e.name === "Transaction-Finished") return e.condition === 0 && (e.delivery === "complete" && e.status === "retained" || e.status === "unreported") ? 1 : 2;
  if (e.name === "Suspended") return e.condition === 14 ? 1 : 2;
  return e.name === "Fault" || e.name === "Abandoned" ? 2 : 1;
}
const kindOf = e => String(e.kind === "indication" ? e.name : e.kind);
// The kinds of events that were seen, as choices.
const kinds = new Set();
function offerKinds() {
  for (const k of new Set(kept.map(kindOf))) {
    if (kinds.has(k)) continue;
    kinds.add(k);
    const o = element("option", k);
    o.value = k;
    at("by-kind").appendChild(o);
  }
}
const item = e => element("li", shown(e), levelOf(e) === 2 ? "warning" : "");
function isWanted() {
  const user = at("by-user").value.trim(), txn = at("by-txn").value.trim(), least = Number(at("by-level").value), kind = at("by-kind").value, words = at("by-words").value.trim().toLowerCase();
  return e => levelOf(e) >= least && (kind === "" || kindOf(e) === kind) && (user === "" || e.user === user) && (txn === "" || (e.source !== undefined && key(e) === txn)) && (words === "" || shown(e).toLowerCase().includes(words));
}
function list() {
  offerKinds();
  const wanted = kept.filter(isWanted());
  at("events").replaceChildren(...wanted.slice(-1024).reverse().map(item));
  at("shown").textContent = wanted.length + " of " + many(kept.length, "event", "events") + (at("still").checked ? ", paused" : "");
}
// The last events, where pieces of files push out no others.
function lastEvents(events) {
  if (events.length <= 1024) return events;
  const others = events.filter(e => levelOf(e) > 0), pieces = events.filter(e => levelOf(e) === 0);
  const stay = new Set([...others.slice(-1024), ...pieces.slice(-1024)]);
  return events.filter(e => stay.has(e));
}
// What events tell of transactions, the oldest first. It lasts longer than a lane's line in the status.
const MOST_PAST = 1024, past = new Map();
const pastEnds = () => [...past.values()].filter(t => t.condition !== undefined);
const MEMBERS = ["source", "seq", "source_text", "seq_text", "user", "peer", "class", "file", "file_hex", "to", "to_hex", "size"];
function notePast(e, more) {
  const k = key(e), t = past.get(k) || { isPast: true, state: "ended" };
  for (const member of MEMBERS) if (e[member] !== undefined) t[member] = e[member];
  past.set(k, Object.assign(t, more));
  if (past.size > MOST_PAST) past.delete(past.keys().next().value);
}
// A file that left the outbox unsent is an alarm that is over at once.
function noteUnsent(e) {
  const moment = Date.parse(e.at);
  if (e.why === "dropped" || !(moment > memory.unsentUntil) || memory.name === "") return;
  memory.unsentUntil = moment;
  const one = alarm("unsent " + number(e, "queued"), WARNING, text(e, "file") + " left the outbox unsent: " + e.why + (e.reason ? ", it " + e.reason : ""), moment);
  memory.raised.set(one.key, { ...one, over: moment });
  write("alarm-news", one.severity + ": " + one.words);
  showAlarms();
  remember();
}
function note(e) {
  if (e.kind === "put") notePast(e, { role: "sender" });
  else if (e.kind === "unsent") noteUnsent(e);
  else if (e.kind === "hold" || e.kind === "release") {
    noteTurn(e);
    if (e.planned) plannedHolds.set(number(e, "id"), Date.parse(e.at));
  }
  else if (e.kind === "indication" && e.name === "Metadata-Recv") notePast(e, { role: "receiver", peer: e.source });
  else if (e.kind === "indication" && e.name === "Abandoned") notePast(e, { condition: e.condition, octets: e.progress, last: e.at });
  else if (e.kind === "indication" && e.name === "Transaction-Finished") {
    const t = past.get(key(e));
    notePast(e, { condition: e.condition, delivery: e.delivery, status: e.status, last: e.at, octets: t && t.size });
  }
}
function noteAll(events) {
  for (const e of events) { try { note(e); } catch (fault) { missed = "An event can't be read."; } }
}
// Keeps the events of an answer. Those of another run are no continuation of what is kept.
function take(answer) {
  const fresh = [];
  let id = lastId;
  for (const line of answer.split("\n")) {
    if (line.startsWith("id: ")) id = line.slice(4);
    else if (line.startsWith("data: ")) { const e = eventIn(line.slice(6)); if (e !== null) fresh.push(e); }
  }
  if (id !== lastId) {
    const isGoingOn = runOf(id) === runOf(lastId), seen = numberIn(lastId), more = isGoingOn ? fresh.filter(e => !(e.number <= seen)) : fresh;
    kept = lastEvents(isGoingOn ? kept.concat(more) : more);
    lastId = id;
    noteAll(more);
  } else if (missed === "") return;
  missed = "";
  if (!at("still").checked) list();
  else at("shown").textContent = many(kept.length, "event", "events") + ", paused";
}
function missEvents() {
  missed = "The events can't be fetched.";
  at("shown").textContent = missed;
}
// The events wait for the first status, since alarms are kept for each entity.
async function events() {
  if (asksEvents || memory.name === "" && !gone) return;
  asksEvents = true;
  try {
    const headers = lastId === "" ? {} : { "Last-Event-ID": lastId };
    const answer = await fetch("/events", { cache: "no-store", headers, signal: AbortSignal.timeout(4000) });
    if (answer.ok) take(await answer.text());
    else missEvents();
  } catch (fault) { missEvents(); }
  asksEvents = false;
}
const octetsOf = word => new TextEncoder().encode(word);
function quote(word) {
  if (/^[\x21\x23-\x5b\x5d-\x7e]+$/.test(word)) return word;
  let out = "";
  for (const o of octetsOf(word)) out += o === 34 || o === 92 ? "\\" + String.fromCharCode(o) : o < 32 || o > 126 ? "\\x" + o.toString(16).padStart(2, "0") : String.fromCharCode(o);
  return "\"" + out + "\"";
}
const answer = words => { at("answer").textContent = words; };
const post = (line, ms) => fetch("/command", { method: "POST", body: line, headers: { "X-Console-Token": at("token").value, "Content-Type": "text/plain" }, signal: AbortSignal.timeout(ms) });
// Gives a command; what came of it, in words.
async function give(line) {
  try {
    const reply = await post(line, 8000);
    if (reply.status === 403) return "the console takes no commands, or the token is wrong";
    if (reply.status === 400) return "the console doesn't take this command";
    return (await reply.text()).trim();
  } catch (fault) { return "the console can't be reached"; }
}
async function command(line) {
  answer(line + ": " + await give(line));
  status();
}
// Gives a command for each file, one after another.
async function sendAll(sends) {
  const told = [];
  for (const [file, line] of sends) {
    told.push(file + ": " + await give(line));
    answer(told.join("; "));
  }
  status();
}
// Fetches a transaction as a script, and saves it as a file.
async function download(line, name) {
  try {
    const reply = await post(line, 120000), words = await reply.text();
    if (!reply.ok || !words.startsWith("#")) { answer(line + ": " + (reply.status === 403 ? "the console takes no commands, or the token is wrong" : words.trim())); return; }
    const link = element("a");
    link.href = URL.createObjectURL(new Blob([words], { type: "text/plain" }));
    link.download = name + ".script";
    link.click();
    setTimeout(() => URL.revokeObjectURL(link.href), 60000);
    answer(line + ": saved as " + link.download);
  } catch (fault) { answer(line + ": the console can't be reached"); }
}
const MOST_NAME = 255;
const ownName = path => path.slice(path.lastIndexOf("/") + 1);
// What a file is called at the receiver: as given, or by its own name, below the folder that is given.
const nameAt = (given, file) => given !== "" && !given.endsWith("/") ? given : given + ownName(file);
// Why a file can't be sent by these names; nothing if it can.
function badName(file, name) {
  if (ownName(file) === "") return file + ": this is a folder";
  for (const [what, words] of [["the path", file], ["the name at the receiver", name]])
    if (octetsOf(words).length > MOST_NAME) return words.slice(0, 40) + "...: " + what + " is longer than " + MOST_NAME + " octets";
  return "";
}
// The receiver learns the file's name here, and not the folder in which it is.
function sendLine(f, file, name) {
  return ["send", quote(f.user.value), f.class.value, f.to.value, quote(file), quote(name)].join(" ") + (f.closure.checked ? " closure" : "") + (f.urgent.checked ? " urgent" : "") + " as " + quote(ownName(file));
}
at("send").addEventListener("submit", e => {
  e.preventDefault();
  const f = e.target.elements, files = f.src.value.split("\n").filter(file => file.trim() !== ""), given = f.dst.value;
  if (files.length > 1 && given !== "" && !given.endsWith("/")) { answer("Several files keep their own names: leave the name out, or give a folder that ends in /."); return; }
  const bad = files.map(file => badName(file, nameAt(given, file))).find(words => words !== "");
  if (bad) { answer(bad); return; }
  const sends = files.map(file => [file, sendLine(f, file, nameAt(given, file))]);
  if (sends.length > 0 && confirm("Send " + (files.length === 1 ? files[0] : files.length + " files") + " to entity " + f.to.value + "?")) sendAll(sends);
});
// A rate without a number is no limit.
function linkLine(what, to, value) {
  if (what === "rate") return ["rate", ...(to === "all" ? [] : [to]), value || "off"].join(" ");
  return [what, to, ...(value ? [value] : [])].join(" ");
}
at("link").addEventListener("submit", e => {
  e.preventDefault();
  const f = e.target.elements, line = linkLine(f.what.value, f.to.value, f.value.value);
  if (confirm(line + "?")) command(line);
});
// The command line at the bottom: for each word that begins a line what follows, and what it does.
const USAGES = {
  send: ["USER CLASS ENTITY FILE NAME [closure] [urgent] [as NAME]", "puts a file into the outbox"],
  drop: ["NUMBER", "takes a file out of the outbox"],
  suspend: ["USER SOURCE NUMBER", "a transaction rests"],
  resume: ["USER SOURCE NUMBER", "a transaction goes on"],
  report: ["USER SOURCE NUMBER", "the user gets a Report"],
  journal: ["SOURCE NUMBER", "saves a transaction as a script"],
  cancel: ["USER SOURCE NUMBER", "ends a transaction at both entities"],
  abandon: ["USER SOURCE NUMBER", "ends a transaction here alone"],
  hold: ["ENTITY|all", "nothing leaves for an entity any more"],
  release: ["ENTITY [SECONDS]|all", "everything goes on, for so many seconds or for good"],
  rate: ["[ENTITY] OCTETS|off", "at most so many octets leave in a second"],
  go: ["PLACE", "shows a part of this page"],
  acknowledge: ["all", "acknowledges all alarms"]
};
const HARMLESS = ["suspend", "resume", "report", "journal"];
const usageOf = verb => verb + " " + USAGES[verb][0];
function* transactionLines() {
  for (const t of latest.transactions) {
    const about = key(t) + ", " + (t.role === "sender" ? "to " : "from ") + number(t, "peer") + ", " + names(t);
    if (t.state !== "ended") for (const verb of [t.state === "suspended" ? "resume" : "suspend", "report", "cancel", "abandon"]) yield [of(verb, t), about];
    yield ["journal " + number(t, "source") + " " + number(t, "seq"), about];
  }
}
function* linkLines() {
  for (const r of latest.remotes) {
    const id = number(r, "id"), about = sending(r)[0];
    yield [(r.held ? "release " : "hold ") + id, about];
    yield ["release " + id + " 600", "open for ten minutes"];
    yield ["rate " + id + " off", "no limit of its own"];
    for (const u of latest.users) yield ["send " + quote(u.name) + " 2 " + id + " ", "a file to entity " + id];
  }
  yield* [["hold all", "nothing leaves"], ["release all", "everything goes on"], ["rate off", "no limit for all"]];
}
function* allLines() {
  for (const h2 of document.querySelectorAll("h2")) if (h2.offsetParent) yield ["go " + h2.textContent, "on this page"];
  yield ["acknowledge all", many(memory.raised.size, "alarm", "alarms")];
  if (!latest) return;
  yield* linkLines();
  for (const q of latest.outbox) yield ["drop " + number(q, "number"), names(q)];
  yield* transactionLines();
}
const MOST_CHOICES = 8;
// The lines that complete what was typed: those that begin so, and then those that have all its words somewhere.
function completions(typed) {
  const start = typed.trimStart().toLowerCase(), words = start.split(/\s+/).filter(word => word !== ""), first = [], others = [];
  if (words.length <= 1 && !start.endsWith(" "))
    for (const verb of Object.keys(USAGES)) if (verb.startsWith(start) && verb !== start) first.push([verb + " ", usageOf(verb) + ": " + USAGES[verb][1]]);
  if (start === "") return first;
  for (const [line, about] of allLines()) {
    if (first.length >= MOST_CHOICES) break;
    const low = line.toLowerCase();
    if (low.startsWith(start)) { if (low !== start) first.push([line, about]); }
    else if (others.length < MOST_CHOICES && words.every(word => (low + " " + about.toLowerCase()).includes(word))) others.push([line, about]);
  }
  return first.concat(others).slice(0, MOST_CHOICES);
}
let choices = [], chosen = -1;
const given = [];
function showChoices() {
  const isOpen = choices.length > 0 && document.activeElement === at("line");
  at("choices").replaceChildren(...(isOpen ? choices : []).map(([line, about], i) => {
    const li = element("li");
    li.id = "choice-" + i;
    li.setAttribute("role", "option");
    li.setAttribute("aria-selected", String(i === chosen));
    li.append(element("code", line), element("span", about));
    li.addEventListener("pointerdown", e => { e.preventDefault(); startLine(line); });
    return li;
  }));
  hide("choices", !isOpen);
  at("line").setAttribute("aria-expanded", String(isOpen));
  if (isOpen && chosen >= 0) { at("line").setAttribute("aria-activedescendant", "choice-" + chosen); at("choice-" + chosen).scrollIntoView({ block: "nearest" }); }
  else at("line").removeAttribute("aria-activedescendant");
}
function complete() {
  const typed = at("line").value, verb = typed.trimStart().split(" ")[0];
  choices = completions(typed); chosen = -1;
  write("usage", Object.hasOwn(USAGES, verb) && document.activeElement === at("line") ? usageOf(verb) + ": " + USAGES[verb][1] : "");
  showChoices();
}
function startLine(line) {
  at("line").value = line;
  at("line").focus();
  complete();
}
function closeChoices() {
  choices = []; chosen = -1;
  write("usage", "");
  showChoices();
}
// The words of a line, as they are written.
const wordsOf = line => line.match(/"(?:\\.|[^"\\])*"|[^ ]+/g) || [];
// A send that is typed tells the receiver no folder of this machine, either.
function withName(line) {
  const words = wordsOf(line), source = words[4];
  if (words[0] !== "send" || words.length < 6 || words.indexOf("as", 6) > 0) return line;
  const inner = source.startsWith("\"") ? source.slice(1, -1).replace(/\\x2f/gi, "/") : source, name = ownName(inner);
  return name === "" ? line : line + " as " + (source.startsWith("\"") ? "\"" + name + "\"" : name);
}
function goTo(place) {
  const h2 = [...document.querySelectorAll("h2")].find(one => one.offsetParent && one.textContent.toLowerCase() === place.toLowerCase());
  if (!h2) { answer("There is no such place: " + place); return; }
  h2.tabIndex = -1;
  h2.focus();
  h2.scrollIntoView();
}
function giveLine(typed) {
  const line = withName(typed.trim()), [verb, ...rest] = line.split(" ");
  if (verb === "go") { goTo(rest.join(" ")); return; }
  if (line === "acknowledge all") { acknowledgeAll([...memory.raised.keys()]); return; }
  if (at("token").value === "") { answer("A command needs the token."); at("give").open = true; at("token").focus(); return; }
  if (verb === "journal") download(line, rest.join("."));
  else if (HARMLESS.includes(verb) || confirm(line + "?")) command(line);
}
at("palette").addEventListener("submit", e => {
  e.preventDefault();
  if (chosen >= 0 && choices[chosen][0] !== at("line").value) { startLine(choices[chosen][0]); return; }
  const typed = at("line").value;
  if (typed.trim() === "") return;
  given.push(typed);
  if (given.length > 32) given.shift();
  at("line").value = "";
  closeChoices();
  giveLine(typed);
});
const MOVES = { ArrowDown: 1, ArrowUp: -1 };
at("line").addEventListener("keydown", e => {
  const line = at("line"), move = MOVES[e.key];
  if (e.key === "ArrowUp" && line.value === "" && chosen < 0 && given.length > 0) { e.preventDefault(); startLine(given[given.length - 1]); }
  else if (move && choices.length > 0) { e.preventDefault(); chosen = (chosen + move + (chosen < 0 && move < 0 ? 1 : 0) + choices.length) % choices.length; showChoices(); }
  else if (e.key === "Escape") { if (choices.length > 0) closeChoices(); else line.blur(); }
  else if (e.key === "Tab" && !e.shiftKey && line.value !== "" && choices.length > 0) { e.preventDefault(); startLine(choices[Math.max(0, chosen)][0]); }
});
at("line").addEventListener("input", complete);
at("line").addEventListener("focus", complete);
at("line").addEventListener("blur", closeChoices);
document.addEventListener("keydown", e => {
  const isTyping = /^(INPUT|TEXTAREA|SELECT)$/.test(e.target.tagName || "");
  if (e.key === "/" && !isTyping || e.key === "k" && (e.ctrlKey || e.metaKey)) { e.preventDefault(); at("line").focus(); }
});
for (const id of ["by-words", "by-user", "by-txn", "by-level", "by-kind", "still"]) at(id).addEventListener("input", list);
at("find").addEventListener("input", () => tables.forEach(table => table.again()));
// The token is kept while the tab is open, if the browser allows it.
try { at("token").value = sessionStorage.getItem("token") || ""; } catch (fault) { at("token").value = ""; }
at("token").addEventListener("change", () => {
  try { sessionStorage.setItem("token", at("token").value); } catch (fault) { answer("The browser doesn't keep the token."); }
  status();
});
at("token-form").addEventListener("submit", e => { e.preventDefault(); status(); });
tick(); askPlan(); status().then(events);
setInterval(status, 1000); setInterval(events, 1000); setInterval(askPlan, 5000);
</script>
</body>
</html>
"##;
