//! The page's script: words, and tables whose rows stay in place.

/// The first part of the script.
pub(crate) const TABLES: &str = r##""use strict";
const at = id => document.getElementById(id);
const CONDITIONS = { 0: "no error", 1: "positive ACK limit reached", 2: "keep alive limit reached", 3: "invalid transmission mode", 4: "filestore rejection", 5: "file checksum failure", 6: "file size error", 7: "NAK limit reached", 8: "inactivity detected", 9: "invalid file structure", 10: "check limit reached", 11: "unsupported checksum type", 14: "suspend request received", 15: "cancel request received" };
const condition = c => CONDITIONS[c] || "condition " + c;
const number = (o, n) => o[n + "_text"] !== undefined ? o[n + "_text"] : o[n] === undefined ? "" : String(o[n]);
const text = (o, n) => o[n] !== undefined ? o[n] : o[n + "_hex"] !== undefined ? "hex " + o[n + "_hex"] : "";
const key = t => number(t, "source") + "." + number(t, "seq");
const many = (n, one, more) => n + " " + (n === 1 ? one : more);
function octets(n) {
  if (n === undefined) return "";
  if (n < 1024) return n + " B";
  let unit = -1;
  do { n /= 1024; unit++; } while (n >= 1024 && unit < 4);
  return n.toFixed(n < 10 ? 1 : 0) + " " + ["KiB", "MiB", "GiB", "TiB", "PiB"][unit];
}
const per = n => octets(Math.round(n)) + "/s";
function age(ms) {
  const s = Math.max(0, Math.round(ms / 1000));
  if (s < 120) return s + " s";
  if (s < 7200) return Math.floor(s / 60) + " min";
  if (s < 172800) return Math.floor(s / 3600) + " h";
  return Math.floor(s / 86400) + " d";
}
const moment = m => m ? String(m).replace("T", " ").replace(/\.\d+Z$/, "Z") : "";
const momentOf = ms => moment(new Date(ms).toISOString());
const clock = ms => new Date(ms).toISOString().slice(11, 19) + "Z";
// An element with a text, which is never read as markup.
function element(tag, words, name) {
  const one = document.createElement(tag);
  if (words !== undefined) one.textContent = words;
  if (name) one.className = name;
  return one;
}
function button(words, name, press) {
  const one = element("button", words, name);
  one.type = "button";
  one.addEventListener("click", press);
  return one;
}
function write(id, words) { if (at(id).textContent !== words) at(id).textContent = words; }
const hide = (id, isHidden) => at(id).classList.toggle("hidden", isHidden);

const collator = new Intl.Collator("en", { numeric: true });
const compare = (a, b) => typeof a === "number" && typeof b === "number" ? a - b : collator.compare(String(a), String(b));
const tables = [];
// A table whose rows stay in place and change only where their text does. A column has a label, what fills its cells, and by what
// it is sorted, if not by its text.
class Table {
  constructor(id, columns, nothing) {
    this.columns = columns; this.rows = new Map(); this.items = []; this.keyOf = null; this.order = null;
    tables.push(this);
    this.seen = new IntersectionObserver(entries => {
      for (const entry of entries) {
        const row = entry.target.row;
        row.inView = entry.isIntersecting;
        if (row.inView) this.fill(row);
      }
    }, { root: at(id).parentNode, rootMargin: "400px" });
    const table = this.table = at(id), head = table.createTHead().insertRow();
    this.heads = columns.map((column, i) => this.head(head, column, i));
    this.body = table.createTBody();
    this.nothing = document.createElement("p");
    this.nothing.className = "quiet"; this.empty = nothing;
    table.after(this.nothing);
  }
  head(row, [label, fill, value], i) {
    const th = document.createElement("th");
    th.scope = "col"; row.appendChild(th);
    if (!value && !fill.of) { th.textContent = label; return th; }
    const b = document.createElement("button");
    b.type = "button"; b.className = "plain"; b.textContent = label; b.title = "sort";
    b.addEventListener("click", () => this.sort(i));
    th.appendChild(b);
    return th;
  }
  // Sorts by a column: upwards, downwards, and then as the station says it.
  sort(i) {
    const old = this.order;
    this.order = !old || old.i !== i ? { i, isDown: false } : old.isDown ? null : { i, isDown: true };
    for (const th of this.heads) th.removeAttribute("aria-sort");
    if (this.order) this.heads[i].setAttribute("aria-sort", this.order.isDown ? "descending" : "ascending");
    this.again();
  }
  again() { if (this.keyOf) this.show(this.items, this.keyOf); }
  // The items that have the text that is searched for, as they are to be sorted.
  chosen(items) {
    const word = at("find").value.trim().toLowerCase();
    const found = word === "" ? items : items.filter(item => this.columns.some(([, fill]) => fill.of && fill.of(item).toLowerCase().includes(word)));
    if (!this.order) return found;
    const [, fill, value] = this.columns[this.order.i], of = value || fill.of, sign = this.order.isDown ? -1 : 1;
    return found.map(item => [of(item), item]).sort((a, b) => sign * compare(a[0], b[0])).map(pair => pair[1]);
  }
  show(items, keyOf) {
    const seen = new Set();
    let before = null;
    this.items = items; this.keyOf = keyOf;
    for (const item of this.chosen(items)) {
      const k = keyOf(item);
      if (seen.has(k)) continue;
      seen.add(k);
      let row = this.rows.get(k);
      const isNew = !row;
      if (isNew) { row = this.make(); this.rows.set(k, row); }
      row.item = item;
      if (isNew || row.inView) this.fill(row);
      const place = before ? before.nextSibling : this.body.firstChild;
      if (place !== row.tr) this.body.insertBefore(row.tr, place);
      before = row.tr;
    }
    for (const [k, row] of this.rows) if (!seen.has(k)) { this.seen.unobserve(row.tr); row.tr.remove(); this.rows.delete(k); }
    this.nothing.textContent = items.length > 0 ? "Nothing here has this text." : this.empty;
    this.nothing.classList.toggle("hidden", seen.size > 0);
    this.table.classList.toggle("hidden", seen.size === 0);
  }
  // Rows out of view get their text once they come into view.
  fill(row) { this.columns.forEach(([, fill], i) => fill(row.item, row.cells[i], row.old, i)); }
  make() {
    const tr = document.createElement("tr"), cells = [];
    this.columns.forEach(([label], i) => {
      const cell = document.createElement(i === 0 ? "th" : "td");
      if (i === 0) cell.scope = "row";
      cell.dataset.label = label;
      const inner = document.createElement("span");
      cell.appendChild(inner); tr.appendChild(cell); cells.push(inner);
    });
    const row = { tr, cells, old: [], item: null, inView: false };
    tr.row = row;
    this.seen.observe(tr);
    return row;
  }
}
// What fills a cell, and the text that it is searched and sorted by.
const texted = (of, fill) => { fill.of = of; return fill; };
const plain = of => texted(of, (item, cell, old, i) => { const now = of(item); if (old[i] !== now) { old[i] = now; cell.textContent = now; } });
const named = of => texted(of, (item, cell, old, i) => { cell.parentNode.classList.add("name"); plain(of)(item, cell, old, i); });
const tinted = of => texted(item => of(item)[0], (item, cell, old, i) => { const [now, tint] = of(item); if (old[i] !== now + tint) { old[i] = now + tint; cell.textContent = now; cell.className = tint; } });
// A name that shows its events alone.
const linked = (of, title, press) => texted(of, (item, cell, old, i) => {
  const name = of(item);
  if (old[i] === name) return;
  old[i] = name;
  if (name === "") { cell.replaceChildren(); return; }
  const b = button(name, "plain", () => press(name));
  b.title = title;
  cell.replaceChildren(b);
});
function showEvents(user, txn) {
  at("by-user").value = user; at("by-txn").value = txn; at("by-kind").value = at("by-words").value = "";
  list();
  at("h-events").scrollIntoView();
}
const asLink = linked(key, "show its events", name => showEvents("", name));
const userLink = of => linked(of, "show the events of this user", name => showEvents(name, ""));
// What can be done with a thing: the usual act on a button, and the rest in a menu, where those come last that end something. These ask.
const act = (label, line, what) => ({ label, line, what });
const dangerous = (label, line, what, why) => ({ label, line, what, why: why || "" });
function perform(one, item) {
  if (one.label === "Script") download(one.line, key(item));
  else if (one.isStarted) startLine(one.line);
  else if (one.why === undefined || confirm(one.label + " " + one.what + "?" + (one.why ? " " + one.why : ""))) command(one.line);
}
function actButton(one, item) {
  const b = button(one.label, one.why !== undefined && one.why !== "" ? "danger" : "", () => perform(one, item));
  b.setAttribute("aria-label", one.label + " " + one.what);
  return b;
}
const acts = of => (item, cell, old, i) => {
  const [usual, ...rest] = at("token").value ? of(item) : [], now = JSON.stringify([usual, rest]);
  if (old[i] === now) return;
  old[i] = now;
  cell.parentNode.classList.add("acts");
  if (!usual) { cell.replaceChildren(); return; }
  const more = button("\u22ef", "", () => openMenu(more, usual.what, rest, item));
  more.setAttribute("aria-label", "More for " + usual.what);
  more.setAttribute("aria-haspopup", "menu");
  more.setAttribute("aria-expanded", "false");
  cell.replaceChildren(actButton(usual, item), ...(rest.length > 0 ? [more] : []));
};
let opener = null;
// Opens the menu below a button: first what does no harm, then a line, then what ends something.
function openMenu(by, what, list, item) {
  const menu = at("menu"), safe = list.filter(one => one.why === undefined), rest = list.filter(one => one.why !== undefined);
  const entry = one => {
    const b = button(one.label + (one.why === undefined ? "" : " ..."), one.why === undefined ? "" : "danger", () => { menu.hidePopover(); perform(one, item); });
    b.setAttribute("role", "menuitem");
    b.tabIndex = -1;
    return b;
  };
  menu.replaceChildren(...safe.map(entry), ...(safe.length > 0 && rest.length > 0 ? [element("hr")] : []), ...rest.map(entry));
  menu.setAttribute("aria-label", "more for " + what);
  menu.showPopover();
  opener = by;
  by.setAttribute("aria-expanded", "true");
  placeMenu(menu, by.getBoundingClientRect());
  menu.querySelector("button").focus();
}
function placeMenu(menu, by) {
  const size = menu.getBoundingClientRect(), below = by.bottom + 2;
  menu.style.left = Math.max(4, Math.min(by.right - size.width, innerWidth - size.width - 4)) + "px";
  menu.style.top = Math.max(4, below + size.height > innerHeight - 4 ? by.top - size.height - 2 : below) + "px";
}
at("menu").addEventListener("toggle", e => {
  if (e.newState === "closed" && opener) { opener.setAttribute("aria-expanded", "false"); opener = null; }
});
at("menu").addEventListener("keydown", e => {
  const items = [...at("menu").querySelectorAll("button")], place = items.indexOf(document.activeElement), last = items.length - 1;
  const next = { ArrowDown: place < last ? place + 1 : 0, ArrowUp: place > 0 ? place - 1 : last, Home: 0, End: last }[e.key];
  if (next !== undefined) { e.preventDefault(); items[next].focus(); }
  else if (e.key === "Tab") { e.preventDefault(); at("menu").hidePopover(); }
});
let now = 0, before = null, good = 0, gone = 0, asking = false, latest = null;
const rates = new Map();
const speedOf = t => { const r = rates.get(key(t)); return r && r.flow.rate !== null ? r.flow.rate : 0; };
// How many octets of a file are there: all that arrived where the station counts them, else those up to the greatest offset.
const there = t => t.missing !== undefined && t.size !== undefined ? t.size - t.missing : t.octets || 0;
const shareOf = t => t.size === undefined ? -1 : t.size === 0 ? 1 : there(t) / t.size;
function progressText(t) {
  const size = t.size || 0, done = Math.min(there(t), size || there(t));
  if (t.size === undefined) return [null, "size not known yet"];
  const share = size === 0 ? 100 : Math.floor(100 * done / size), speed = t.state === "active" ? speedOf(t) : 0;
  return [share, share + " %" + (done < size ? ", " + octets(size - done) + " missing" + (speed ? ", " + age(1000 * (size - done) / speed) + " left" : "") : "")];
}
function progress(t, cell, old, i) {
  const [share, label] = progressText(t);
  if (old[i] === label) return;
  old[i] = label;
  if (!cell.firstChild) { cell.append(element("progress"), " ", element("span")); cell.firstChild.max = 100; }
  if (share === null) cell.firstChild.removeAttribute("value"); else cell.firstChild.value = share;
  cell.firstChild.setAttribute("aria-label", "progress of " + key(t));
  cell.lastChild.textContent = label;
}
const direction = t => (t.role === "sender" ? "→ to " : "← from ") + number(t, "peer");
const names = t => { const a = text(t, "file"), b = text(t, "to"); return a === "" && b === "" ? "(no metadata yet)" : a + " → " + b; };
// The last moment at which something came or left: an indication, or a change of what was taken or moved that the page has seen.
const lastOf = t => { const r = rates.get(key(t)); return Math.max(Date.parse(t.last) || 0, r ? r.moved : 0); };
const since = t => lastOf(t) ? age(now - lastOf(t)) : "";
const rateText = f => f && f.rate !== null ? per(f.rate) : "";
const rate = t => { const r = rates.get(key(t)); return r ? rateText(r.flow) : ""; };
const asked = t => "transaction " + key(t);
const of = (verb, t) => verb + " " + quote(t.user || "") + " " + number(t, "source") + " " + number(t, "seq");
const script = t => act("Script", "journal " + number(t, "source") + " " + number(t, "seq"), "of " + asked(t));
const goOn = t => t.state === "suspended" ? act("Resume", of("resume", t), asked(t)) : act("Suspend", of("suspend", t), asked(t));
const activeActs = t => [goOn(t), act("Report", of("report", t), asked(t)), script(t),
  dangerous("Cancel", of("cancel", t), asked(t), "The transfer ends at both entities."),
  dangerous("Abandon", of("abandon", t), asked(t), "It ends here at once, and the other entity isn't told.")];
const active = new Table("active", [
  ["Transaction", asLink], ["Direction", plain(direction)], ["User", userLink(t => t.user || "")], ["File", named(names)],
  ["Class", plain(t => String(t.class || ""))], ["Progress", progress, shareOf],
  ["Octets", plain(t => octets(t.octets) + (t.size === undefined ? "" : " of " + octets(t.size))), t => t.octets || 0], ["Rate", plain(rate), speedOf],
  ["State", tinted(t => [t.state + (t.notice ? " (" + t.notice + ")" : ""), t.state === "suspended" || t.notice ? "warn" : ""])],
  ["Last event", plain(since), t => -lastOf(t)], ["", acts(activeActs)]
], "No transaction is under way.");
// An ended transaction has no condition until the server has taken its last indication.
function ending(t) {
  if (t.condition === undefined) return ["ending", ""];
  if (t.delivery === undefined) return ["✗ abandoned: " + condition(t.condition), "bad"];
  const words = t.delivery + ", " + t.status;
  if (t.condition === 0 && t.delivery === "complete" && (t.status === "retained" || t.role === "sender")) return ["✓ " + words, "good"];
  if (t.condition === 0 && t.status === "unreported") return ["sent, " + t.status, ""];
  return [(t.condition === 0 ? "! " : "✗ " + condition(t.condition) + "; ") + words, t.condition === 0 ? "warn" : "bad"];
}
const ended = new Table("ended", [
  ["Transaction", asLink], ["Direction", plain(direction)], ["User", userLink(t => t.user || "")], ["File", named(names)],
  ["Octets", plain(t => octets(t.octets)), t => t.octets || 0], ["How it ended", tinted(ending)], ["Ended", plain(t => moment(t.last))],
  ["", acts(t => t.isPast ? [] : [script(t)])]
], "No transaction has ended.");
const underWay = u => latest ? latest.transactions.filter(t => t.user === u.name && t.state !== "ended").length : 0;
const inOutbox = u => latest ? latest.outbox.filter(q => q.user === u.name).length : 0;
const users = new Table("users", [
  ["User", userLink(u => u.name)],
  ["Waiting", tinted(u => [u.waiting + " of " + u.capacity + (u.waiting >= u.capacity ? ", full" : ""), u.waiting >= u.capacity ? "bad" : u.waiting * 2 > u.capacity ? "warn" : ""]), u => u.waiting],
  ["Under way", plain(u => String(underWay(u))), underWay], ["In the outbox", plain(u => String(inOutbox(u))), inOutbox]
], "No users.");
const traffic = (r, way) => many(r["datagrams_" + way], "datagram", "datagrams") + ", " + octets(r["octets_" + way]);
const links = new Map();
const linkOf = r => links.get(number(r, "id"));
const flowOf = (r, way) => linkOf(r) && linkOf(r)[way].rate || 0;
// When something came from an entity last: as the station says, or else as the page sees it by the count of datagrams.
function heard(r) {
  if (r.heard) return age(r.silence) + " ago";
  const link = linkOf(r);
  if (r.datagrams_in === 0 || !link) return "not since the start";
  return link.heard ? age(now - link.heard) + " ago" : "before " + clock(link.since);
}
function sending(r) {
  if (!r.held) return ["open" + (r.open_until ? " until " + moment(r.open_until) : ""), ""];
  return ["held" + (r.held_since ? " since " + moment(r.held_since) : "") + (isPlanned(r) ? ", as planned" : ""), isPlanned(r) ? "" : "warn"];
}
const starts = (label, line, what) => ({ label, line, what, isStarted: true });
function linkActs(r) {
  const id = number(r, "id"), what = "entity " + id;
  const limit = [starts("Limit the rate", "rate " + id + " ", what)];
  if (r.held) return [dangerous("Release", "release " + id, what), starts("Release for a while", "release " + id + " ", what), ...limit];
  return [dangerous("Hold", "hold " + id, what), starts("Hold after a while", "release " + id + " ", what), ...limit];
}
const remotes = new Table("remotes", [
  ["Entity", plain(r => number(r, "id"))], ["Address", plain(r => r.address || "none")], ["Sending", tinted(sending)],
  ["In", plain(r => traffic(r, "in")), r => r.octets_in], ["Rate in", plain(r => rateText(linkOf(r) && linkOf(r).in)), r => flowOf(r, "in")],
  ["Out", plain(r => traffic(r, "out")), r => r.octets_out], ["Rate out", plain(r => rateText(linkOf(r) && linkOf(r).out)), r => flowOf(r, "out")],
  ["Heard", plain(heard), r => r.heard ? -Date.parse(r.heard) : linkOf(r) && -linkOf(r).heard || 0], ["Failed sends", plain(r => String(r.failed_sends))],
  ["", acts(linkActs)]
], "No remote entities.");
const outbox = new Table("outbox", [
  ["Number", plain(q => number(q, "number"))], ["User", userLink(q => q.user)], ["To", plain(q => number(q, "destination"))],
  ["File", named(names)], ["Class", plain(q => String(q.class))], ["Since", plain(q => moment(q.since))],
  ["", acts(q => [dangerous("Drop", "drop " + number(q, "number"), "file " + number(q, "number") + " of the outbox", "It won't be sent.")])]
], "The outbox is empty.");
const reading = new Table("reading", [["Since", plain(r => moment(r.since))], ["File", named(r => text(r, "file"))]], "No file is being read.");
const userOf = s => { const t = latest && latest.transactions.find(t => key(t) === key(s)); return t ? t.user || "" : ""; };
const storing = new Table("storing", [
  ["Transaction", plain(key)], ["User", plain(userOf)], ["Since", plain(s => moment(s.since))],
  ["Hindered by", tinted(s => [s.why || "", s.why ? "bad" : ""])]
], "No file is being stored.");
const counts = new Table("counts", [
  ["Role", plain(c => String(c.role))], ["Class", plain(c => c.class === 0 ? "not seen" : String(c.class))],
  ["How", tinted(c => [condition(c.condition), c.condition === 0 ? "" : "warn"])], ["Count", plain(c => String(c.count)), c => c.count]
], "No transaction has ended.");
const parked = new Table("parked", [
  ["User", userLink(p => p.user)], ["Lane", plain(p => number(p, "lane"))], ["Datagrams", plain(p => number(p, "datagrams"))],
  ["Transactions", plain(p => number(p, "transactions"))], ["Octets", plain(p => octets(p.octets)), p => p.octets],
  ["Dropped", tinted(p => [number(p, "dropped"), p.dropped > 0 ? "bad" : ""])], ["Since", plain(p => moment(p.since))]
], "No datagram is parked.");
const refusals = new Table("refusals", [
  ["Refusal", plain(r => r.number + " " + r.name + (r.fault === undefined ? "" : ", fault " + r.fault) +
    (r.pdu === undefined ? "" : ", " + r.pdu) + (r.source === undefined ? "" : " of " + number(r, "source") + "." + number(r, "seq")))], ["Count", plain(r => String(r.count))],
  ["Last", plain(r => moment(r.last))], ["From", plain(r => r.from || "")], ["Octets", named(r => r.octets || "")]
], "Nothing was refused.");
"##;
