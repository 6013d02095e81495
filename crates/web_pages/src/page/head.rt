//! The page up to its script: style, and what stands where.

/// The page up to its script.
pub(crate) const HEAD: &str = r##"<!doctype html>
<html lang="en">
<head>
<meta charset="utf-8">
<meta name="viewport" content="width=device-width, initial-scale=1">
<title>CFDP station</title>
<style>
:root { color-scheme: light dark; --line: #c8cdd5; --soft: #eef1f5; --text: #1b2330; --dim: #56606f; --page: #ffffff; --good: #176b34; --bad: #a3201a; --warn: #7a4b00; --accent: #1c5fb0; }
@media (prefers-color-scheme: dark) { :root { --line: #3a4350; --soft: #1e252f; --text: #e4e9f0; --dim: #a3adbb; --page: #12171e; --good: #6fd08e; --bad: #ff8d84; --warn: #f0bd62; --accent: #7db4f5; } }
* { box-sizing: border-box; }
body { margin: 0; font: 15px/1.45 system-ui, sans-serif; color: var(--text); background: var(--page); }
html { scroll-padding: 3.5rem 0 9rem; }
#top, header, main, footer, #palette, #usage, #answer { max-width: 1600px; margin: 0 auto; padding: 0 16px; }
#top { position: sticky; top: 0; z-index: 3; display: flex; flex-wrap: wrap; gap: 0 16px; align-items: baseline; justify-content: space-between; padding-top: 8px; padding-bottom: 6px; background: var(--page); border-bottom: 1px solid var(--line); }
#clock { margin: 0; font-variant-numeric: tabular-nums; } #time { font-size: 1.3rem; font-weight: 600; }
h1 { font-size: 1.3rem; margin: 0; }
h2 { font-size: 1.05rem; margin: 24px 0 6px; }
#facts { color: var(--dim); margin: 6px 0 8px; overflow-wrap: anywhere; }
#state { padding: 6px 10px; border-left: 4px solid var(--good); background: var(--soft); margin: 0; }
#state.gone { border-color: var(--bad); color: var(--bad); font-weight: 600; }
.scroll { overflow: auto; max-height: 70vh; border: 1px solid var(--line); border-radius: 4px; contain: content; }
.scroll:focus-visible, button:focus-visible, input:focus-visible, select:focus-visible, textarea:focus-visible, summary:focus-visible { outline: 2px solid var(--accent); outline-offset: 1px; }
table { border-collapse: collapse; width: 100%; font-variant-numeric: tabular-nums; }
caption { text-align: left; color: var(--dim); padding: 4px 8px; }
th, td { text-align: left; padding: 4px 8px; border-bottom: 1px solid var(--line); vertical-align: top; white-space: nowrap; }
td.name { white-space: normal; overflow-wrap: anywhere; min-width: 12rem; }
thead th { position: sticky; top: 0; background: var(--soft); z-index: 1; }
progress { width: 9rem; height: .9rem; accent-color: var(--accent); vertical-align: middle; }
.good { color: var(--good); } .bad { color: var(--bad); } .warn { color: var(--warn); }
.columns { display: grid; gap: 0 24px; grid-template-columns: repeat(auto-fit, minmax(min(100%, 30rem), 1fr)); }
.columns .wide { grid-column: 1 / -1; }
.wide td, .wide th { white-space: normal; }
td.acts > span { display: flex; gap: 4px; justify-content: flex-end; }
button.danger { color: var(--bad); border-color: var(--bad); }
#menu { position: fixed; inset: auto; margin: 0; padding: 4px; min-width: 12rem; border: 1px solid var(--line); border-radius: 6px; background: var(--page); color: var(--text); box-shadow: 0 6px 24px #0005; }
#menu button { display: block; width: 100%; text-align: left; border-color: transparent; background: none; padding: 6px 10px; } #menu button:focus { background: var(--soft); }
#menu hr { border: 0; border-top: 1px solid var(--line); margin: 4px 0; }
#dock { position: fixed; inset: auto 0 0; z-index: 4; padding: 6px 0; background: var(--soft); border-top: 1px solid var(--line); }
#palette { display: flex; gap: 8px; align-items: center; } #line { flex: 1; min-width: 0; font-family: ui-monospace, monospace; }
#answer { overflow-wrap: anywhere; max-height: 6.5em; overflow: auto; } #answer:empty, #usage:empty { display: none; }
#choices { list-style: none; max-width: 1600px; margin: 0 auto; padding: 0 16px; max-height: 40vh; overflow: auto; }
#choices li { display: flex; flex-wrap: wrap; gap: 0 16px; padding: 3px 8px; cursor: pointer; border-radius: 4px; } #choices li[aria-selected="true"] { background: var(--page); outline: 2px solid var(--accent); outline-offset: -2px; }
#choices code { overflow-wrap: anywhere; } #choices span { color: var(--dim); overflow-wrap: anywhere; }
th[aria-sort="ascending"] button::after { content: " \25b2"; } th[aria-sort="descending"] button::after { content: " \25bc"; }
#charts { display: grid; gap: 12px 24px; grid-template-columns: repeat(auto-fill, minmax(min(100%, 26rem), 1fr)); }
figure { margin: 0; min-width: 0; } figcaption { color: var(--dim); min-height: 2.9em; } figcaption b { color: var(--text); }
figure svg { display: block; width: 100%; height: 140px; border: 1px solid var(--line); border-radius: 4px; }
figure text { font: 11px system-ui, sans-serif; fill: var(--dim); } figure .grid { fill: none; stroke: var(--line); }
.way { fill: none; stroke-width: 1.5px; } .way.in { stroke: var(--accent); } .way.out { stroke: var(--warn); stroke-dasharray: 5 3; }
.passes { height: 58px; border: 0; border-radius: 0; } .pass { stroke-width: 1.5px; } .pass.was { fill: var(--dim); } .pass.open { fill: var(--accent); } .pass.planned { fill: none; stroke: var(--text); } .pass.here { stroke: var(--bad); stroke-width: 2px; }
#passes { display: grid; gap: 4px 24px; grid-template-columns: repeat(auto-fit, minmax(min(100%, 26rem), 1fr)); } #passes figcaption { min-height: 1.45em; } #plan-faults { margin: 6px 0; overflow-wrap: anywhere; } #plan-faults:empty { display: none; }
.way.limit { stroke: var(--bad); stroke-dasharray: 1 3; stroke-width: 2px; } figure text.limit { fill: var(--bad); }
.bar { display: flex; flex-wrap: wrap; gap: 8px 16px; align-items: center; margin: 6px 0; }
input, select, textarea, button { font: inherit; color: inherit; background: var(--page); border: 1px solid var(--line); border-radius: 4px; padding: 2px 8px; max-width: 100%; }
button { cursor: pointer; background: var(--soft); }
#events { font: 13px/1.5 ui-monospace, monospace; margin: 0; padding: 6px 8px 6px 8px; list-style: none; overflow-wrap: anywhere; }
#events li.warning { color: var(--warn); }
#events li { content-visibility: auto; contain-intrinsic-size: auto 1.5em; }
#alarms, #known-list { list-style: none; margin: 6px 0; padding: 0; }
#alarms li { display: flex; flex-wrap: wrap; gap: 2px 12px; align-items: baseline; padding: 4px 10px; margin-bottom: 4px; border-left: 4px solid var(--warn); background: var(--soft); overflow-wrap: anywhere; }
#alarms li.critical { border-color: var(--bad); } #alarms li span { flex: 1 1 16rem; min-width: 0; } #alarms li.over span { color: var(--dim); }
#alarm-count.bad { color: var(--bad); font-weight: 600; }
#alarms strong { min-width: 4.5rem; color: var(--warn); } #alarms li.critical strong { color: var(--bad); } #alarms time { font-variant-numeric: tabular-nums; }
.sr { position: absolute; width: 1px; height: 1px; overflow: hidden; clip-path: inset(50%); white-space: nowrap; }
button.plain { background: none; border: 0; padding: 0; color: var(--accent); font-weight: inherit; text-align: left; }
.quiet { color: var(--dim); padding: 6px 8px; margin: 0; }
.hidden { display: none; }
footer { margin: 24px auto; padding-bottom: 6rem; color: var(--dim); }
@media (max-width: 700px) {
  thead { position: absolute; width: 1px; height: 1px; overflow: hidden; clip-path: inset(50%); }
  tr { display: block; padding: 6px 0; border-bottom: 1px solid var(--line); }
  td, th { display: grid; grid-template-columns: 8.5rem 1fr; border: 0; padding: 1px 8px; white-space: normal; overflow-wrap: anywhere; }
  td.name { min-width: 0; } td.acts > span { justify-content: flex-start; }
  progress { display: block; width: 100%; } button { min-height: 2.2rem; } button.plain { min-height: 0; } #day { display: none; }
  td::before, tbody th::before { content: attr(data-label); color: var(--dim); font-weight: 400; }
}
</style>
</head>
<body>
<div id="top"><h1 id="title">CFDP station</h1>
<button type="button" id="alarm-count" class="plain hidden"></button>
<p id="clock" title="the station's clock"><span id="day"></span> <time id="time">--:--:--</time> UTC</p></div>
<header>
<p id="facts"></p>
<p id="state" role="status" aria-live="polite">Asking the station ...</p>
<p id="skew" class="warn hidden" role="status" aria-live="polite"></p>
<section aria-labelledby="h-alarms"><h2 id="h-alarms" tabindex="-1">Alarms</h2>
<p id="alarm-news" class="sr" role="alert"></p>
<p id="no-alarms" class="quiet">No alarms.</p>
<ol id="alarms"></ol>
<button type="button" id="acknowledge-all" class="hidden">Acknowledge all</button>
<details id="known" class="hidden"><summary id="known-text"></summary><ol id="known-list"></ol></details></section>
</header>
<main>
<div class="bar" role="search"><label>search in the tables <input id="find" type="search" size="24" autocomplete="off"></label></div>
<section class="wide" aria-labelledby="h-active"><h2 id="h-active">Transactions under way</h2>
<div class="scroll" tabindex="0" role="region" aria-labelledby="h-active"><table id="active"></table></div></section>
<section class="wide" aria-labelledby="h-ended"><h2 id="h-ended">Transactions that ended</h2>
<p id="ended-news" class="quiet" aria-live="polite"></p>
<div class="scroll" tabindex="0" role="region" aria-labelledby="h-ended"><table id="ended"></table></div>
<p id="ended-count" class="quiet"></p></section>
<section aria-labelledby="h-charts"><h2 id="h-charts">Octets each way, the last ten minutes</h2>
<div id="charts"></div>
<p id="charts-note" class="quiet"></p></section>
<section id="s-passes" class="hidden" aria-labelledby="h-passes"><h2 id="h-passes">Passes</h2>
<div class="bar"><label>hours shown <select id="span"><option>3</option><option selected>12</option><option>72</option></select></label>
<span class="quiet">Filled: the link was or is open. Outlined: planned. The upright line: now, in UTC.</span></div>
<ul id="plan-faults" class="bad"></ul>
<div id="passes"></div></section>
<div class="columns">
<section class="wide" aria-labelledby="h-remotes"><h2 id="h-remotes">Remote entities</h2>
<div class="scroll" tabindex="0" role="region" aria-labelledby="h-remotes"><table id="remotes"></table></div></section>
<section class="wide" aria-labelledby="h-outbox"><h2 id="h-outbox">Outbox</h2>
<div class="scroll" tabindex="0" role="region" aria-labelledby="h-outbox"><table id="outbox"></table></div></section>
<section aria-labelledby="h-users"><h2 id="h-users">Users</h2>
<div class="scroll" tabindex="0" role="region" aria-labelledby="h-users"><table id="users"></table></div></section>
<section aria-labelledby="h-reading"><h2 id="h-reading">Files being read</h2>
<div class="scroll" tabindex="0" role="region" aria-labelledby="h-reading"><table id="reading"></table></div></section>
<section id="s-storing" class="hidden" aria-labelledby="h-storing"><h2 id="h-storing">Files being stored</h2>
<div class="scroll" tabindex="0" role="region" aria-labelledby="h-storing"><table id="storing"></table></div></section>
<section id="s-counts" class="hidden" aria-labelledby="h-counts"><h2 id="h-counts">Ends since the start</h2>
<div class="scroll" tabindex="0" role="region" aria-labelledby="h-counts"><table id="counts"></table></div>
<p id="delivered" class="quiet"></p></section>
<section id="s-parked" class="wide hidden" aria-labelledby="h-parked"><h2 id="h-parked">Parked</h2>
<div class="scroll" tabindex="0" role="region" aria-labelledby="h-parked"><table id="parked"></table></div></section>
<section class="wide" aria-labelledby="h-refusals"><h2 id="h-refusals">Refusals</h2>
<div class="scroll" tabindex="0" role="region" aria-labelledby="h-refusals"><table id="refusals"></table></div></section>
</div>
<section aria-labelledby="h-events"><h2 id="h-events">Events</h2>
<div class="bar">
<label><input type="checkbox" id="still"> pause</label>
<label>search <input id="by-words" type="search" size="16" autocomplete="off"></label>
<label>user <input id="by-user" size="10" list="all-users" autocomplete="off"></label>
<label>transaction <input id="by-txn" size="12" placeholder="source.number" autocomplete="off"></label>
<label>level <select id="by-level"><option value="2">warning</option><option value="1" selected>info</option><option value="0">detail, with segments</option></select></label>
<label>kind <select id="by-kind"><option value="">all</option></select></label>
<span id="shown" class="quiet"></span>
</div>
<div class="scroll" tabindex="0" role="region" aria-labelledby="h-events"><ol id="events"></ol></div></section>
<section aria-labelledby="h-commands"><h2 id="h-commands">Commands</h2>
<details id="give"><summary>Give commands</summary>
<form id="token-form" class="bar"><label>token <input id="token" type="password" autocomplete="off" size="34"></label></form>
<form id="send" class="bar">
<label>user <input name="user" required size="8" list="all-users"></label><datalist id="all-users"></datalist>
<label>to entity <input name="to" required size="6" inputmode="numeric" pattern="[0-9]+" list="all-remotes"></label><datalist id="all-remotes"></datalist>
<label>class <select name="class"><option>2</option><option>1</option></select></label>
<label>files, one a line <textarea name="src" required rows="2" cols="40"></textarea></label>
<label>name at the receiver <input name="dst" placeholder="its own, or a folder/" autocomplete="off"></label>
<label><input type="checkbox" name="closure"> closure</label>
<label><input type="checkbox" name="urgent"> urgent</label>
<button>Send</button>
</form>
<form id="link" class="bar">
<label>link to entity <input name="to" required size="6" pattern="[0-9]+|all" placeholder="or all" list="all-remotes" autocomplete="off"></label>
<label><select name="what" aria-label="what to do"><option value="release">release</option><option value="hold">hold</option><option value="rate">limit the rate</option></select></label>
<label>for so many seconds, or to octets a second <input name="value" size="10" pattern="[0-9]*" placeholder="no end, no limit" inputmode="numeric" autocomplete="off"></label>
<button>Do</button>
</form></details></section>
</main>
<footer>For programs: /status.json, /events, /windows.json, /metrics, /healthz</footer>
<div id="menu" popover role="menu"></div>
<div id="dock">
<ul id="choices" class="hidden" role="listbox" aria-label="completions"></ul>
<p id="usage" class="quiet"></p>
<p id="answer" class="quiet" role="status" aria-live="polite"></p>
<form id="palette"><label for="line">command</label>
<input id="line" role="combobox" aria-expanded="false" aria-controls="choices" aria-autocomplete="list" aria-describedby="usage" autocomplete="off" autocapitalize="off" spellcheck="false" placeholder="press / to give one, or to go somewhere">
<button>Give</button></form>
</div>
<script>
"##;
