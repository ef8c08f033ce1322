//! The script of a page, in parts. Written by tools/assets.

pub(crate) const SCRIPT_FIRST: &str = r##"// Written by tools/assets.
const Story = {}; Story.text = (() => { const PLAIN = "adfqkup9ccgqacabkkkkkkkkkkbbqqqhwmmmokipoaaliropjpmkjnmvmjmcbcqggjkhkkbkk99i9vkjkkdhdkjqjjhkbkq";
const STRONG = "bfhqmwsaffhqcdccmmmmmmmmmmddqqqiwoonqmmqqccpkvqrnronmqozonnfcfqgglnjnlennbblbxnmnngjfnltklincnq";
const UNIT = 0.032, OTHER = 0.84, SQUARE = 1.02;
const isSquare = (char) => /[…\u1100-\u115f\u2e80-\ua4cf\uac00-\ud7a3\uf900-\ufaff\ufe30-\ufe6f\uff00-\uff60\uffe0-\uffe6]|[\u{1f000}-\u{3ffff}]/u.test(char);
function widthOf(char, widths) { const digit = widths[char.charCodeAt(0) - 32]; if (digit !== undefined) return UNIT * parseInt(digit, 36);
  return /\p{M}/u.test(char) ? 0 : isSquare(char) ? SQUARE : OTHER; }
const wide = (text, size, weight = 400) => [...String(text)].reduce((sum, char) => sum + widthOf(char, weight > 500 ? STRONG : PLAIN), 0) * size;
function cut(text, room, size, weight = 400) { const all = [...String(text)]; if (wide(text, size, weight) <= room) return String(text);
  let left = room - wide("…", size, weight), count = 0;
  while (count < all.length && left >= wide(all[count], size, weight)) left -= wide(all[count++], size, weight);
  return count ? all.slice(0, count).join("") + "…" : "…"; }
const fitting = (texts, room, size, weight = 400) => texts.find((it) => wide(it, size, weight) <= room) ?? cut(texts.at(-1), room, size, weight);
const HIDDEN = /[\u0000-\u0008\u000b-\u001f\u007f-\u009f\u061c\u200e\u200f\u202a-\u202e\u2066-\u2069]/g;
const ENTITIES = { "&": "&amp;", "<": "&lt;", ">": "&gt;", '"': "&quot;", "'": "&#39;" };
const shown = (text) => String(text).replace(HIDDEN, (it) => (it < " " ? String.fromCharCode(0x2400 + it.charCodeAt(0)) : it === "\u007f" ? "\u2421" : "\ufffd"));
const esc = (text) => shown(text).replace(/[&<>"']/g, (it) => ENTITIES[it]);
const parse = (json) => JSON.parse(json.replace(/"[^"\\]*(?:\\.[^"\\]*)*"|-?\d{16,}/g, (it) => (it[0] === '"' ? it : `"${it}"`)));
const grouped = (number) => String(number).replace(/\B(?=(\d{3})+$)/g, ",");
const list = (texts) => (texts.length < 2 ? texts.join("") : `${texts.slice(0, -1).join(", ")} and ${texts.at(-1)}`);
const sentences = (all) => all.filter(Boolean).map((it) => it[0].toUpperCase() + it.slice(1) + (/[.!?]$/.test(it) ? "" : ".")).join(" ");
const NAMED = /\{([^{}]*)\}/g; const plain = (sentence) => sentence.replace(NAMED, "$1"); function rich(sentence, names) {
  return sentence.split(NAMED).map((part, index) => { const t = index % 2 ? names.indexOf(part) : -1;
    return t < 0 ? esc(part.replace(/'/g, "’")) : `<b class="n${t % COLOURS_IN_USE}">${esc(part)}</b>`; }).join(""); }
const COLOURS_IN_USE = 8; return { wide, cut, fitting, shown, esc, parse, grouped, list, sentences, plain, rich, COLOURS_IN_USE }; })(); Story.svg = (() => {
const { esc } = Story.text; const S = 0.75; const M = 1; const L = 1.25; const XL = 1.75; const r1 = (length) => Math.round(length * 10) / 10;
const clamp = (low, value, high) => Math.max(low, Math.min(value, high)); const colour = (t) => t % 8;
const text = (x, y, size, words, kind = "", anchor = "middle") => `<text x="${r1(x)}" y="${r1(y)}" font-size="${r1(size)}" text-anchor="${anchor}" class="${kind}">${esc(words)}</text>`;
const rect = (x, y, w, h, kind, round = 0) => `<rect x="${r1(x)}" y="${r1(y)}" width="${r1(Math.max(w, 0))}" height="${r1(Math.max(h, 0))}" rx="${r1(round)}" class="${kind}"/>`;
const path = (line, kind) => `<path d="${line}" class="${kind}"/>`; const title = (words) => `<title>${esc(words)}</title>`;
const svg = (w, h, label, inside, role = "img") =>
  `<svg xmlns="http://www.w3.org/2000/svg" width="${r1(w)}" height="${r1(h)}" viewBox="0 0 ${r1(w)} ${r1(h)}" class="pic" role="${role}" aria-label="${esc(label)}">${inside}</svg>`;
const COLOURS = { light: {
    paper: "#ffffff", ink: "#101720", soft: "#4f5a67", line: "#c9d0d8", band: "#fff0bf", track: "#e9edf1", bad: "#a3001b", on: "#ffffff",
    c0: "#0a4fb3", c1: "#a83a00", c2: "#6a22a3", c3: "#00635a", c4: "#9b1150", c5: "#4f5900", c6: "#3f4a58", c7: "#7a4b00", }, dark: {
    paper: "#0e1217", ink: "#f2f5f8", soft: "#b4bfcc", line: "#3d4753", band: "#3d3410", track: "#232b34", bad: "#ff9c9c", on: "#0e1217",
    c0: "#8dbdff", c1: "#ffab78", c2: "#d0adff", c3: "#66dccb", c4: "#ff9ac6", c5: "#d3df74", c6: "#c3ccd6", c7: "#e6b873", }, };
const FONT = '"Segoe UI",-apple-system,"Helvetica Neue",Roboto,"Noto Sans","Liberation Sans",Arial,sans-serif';
const STYLE = `.pic text{font-family:${FONT};font-variant-numeric:tabular-nums;fill:var(--ink)}
.pic .b{font-weight:700}.pic .soft,.pic .slate{fill:var(--soft)}.pic .on{fill:var(--on)}.pic .badt{fill:var(--bad)}.pic .strike{text-decoration:line-through}
.pic .box{fill:var(--paper);stroke-width:2}.pic .band{fill:var(--band)}.pic .halo{stroke:var(--paper);stroke-width:5;stroke-linejoin:round;paint-order:stroke}
.pic .ghost{fill:none;stroke:var(--soft);stroke-dasharray:4 3;stroke-width:1.5}.pic .hatch{fill:url(#hatch);stroke:var(--soft)}
.pic .chip{fill:var(--paper);stroke:none}.pic .seg{fill:var(--track)}.pic .tint{fill-opacity:.2;stroke:none}.pic .rule{stroke:var(--line);fill:none}
.pic .pend{fill:none;stroke-width:1.5;stroke-dasharray:3 2}.pic .life{fill:none;stroke-width:3;stroke-opacity:.35}.pic .link{fill:none;stroke-width:2}
.pic .view{fill:none;stroke-width:2;stroke-dasharray:2 4;stroke-linecap:round}.pic .edge{fill:none;stroke:var(--bad);stroke-width:3}.pic .bad{fill:var(--bad)}
.pic .dim{opacity:.28}.pic .ok{fill:none;stroke:var(--soft)}.pic .faint{fill-opacity:.45}.pic .none{fill:none}.pic .mark{stroke:var(--ink);stroke-width:1.5}.pic .inkf{fill:var(--ink)}
${Array.from({ length: 8 }, (_, t) => `.pic .f${t}{fill:var(--c${t})}.pic .s${t}{stroke:var(--c${t})}`).join("")}
`;
const DEFS = '<defs><pattern id="hatch" width="7" height="7" patternUnits="userSpaceOnUse" patternTransform="rotate(45)"><line x1="0" y1="0" x2="0" y2="7" style="stroke:var(--soft);stroke-width:2.5"/></pattern></defs>';
const properties = (colours) => Object.entries(colours).map(([name, value]) => `--${name}:${value}`).join(";");
const bezier = (from, to, bend) => [from, [from[0], from[1] + bend], [to[0], to[1] - bend], to]; const pointAt = (curve, part) => [0, 1].map((k) =>
  (1 - part) ** 3 * curve[0][k] + 3 * part * (1 - part) ** 2 * curve[1][k] + 3 * part * part * (1 - part) * curve[2][k] + part ** 3 * curve[3][k]);
const curved = (curve) => `M${curve[0].map(r1)}C${curve.slice(1).map((point) => point.map(r1)).join(" ")}`;
const head = (x, y, isDown, size, kind) => path(`M${r1(x)} ${r1(y)}l${r1(-size / 2)} ${r1(isDown ? -size : size)}h${r1(size)}z`, kind);
function join(story, at, one, other, [shift, shiftTo] = [0, 0]) {
  const [from, to] = [story.columns[one], story.columns[other]], isDown = to.t > from.t, size = 0.6 * at.u; if (from.t === to.t) {
    const y = at.y(from.t), rise = Math.max(0.5 * at.u, (at.gap / 2 - 0.8 * at.u) / 0.75), [x, toX] = [at.mid(one) + shift, at.mid(other) + shiftTo];
    return { curve: [[x, y], [x, y - rise], [toX, y - rise], [toX, y - 0.5 * at.u]], tip: [toX, y], isDown: true, size }; }
  const start = [at.mid(one) + shift, at.y(from.t) + (isDown ? at.high : 0)], tip = [at.mid(other) + shiftTo, at.y(to.t) + (isDown ? 0 : at.high)];
  const end = [tip[0], tip[1] + (isDown ? -size : size) * 0.9];
  return { curve: bezier(start, end, (isDown ? 1 : -1) * clamp(at.gap * 0.7, Math.abs(end[1] - start[1]) * 0.6, at.lane)), tip, isDown, size }; }
return { S, M, L, XL, r1, clamp, colour, text, rect, path, title, svg, COLOURS, STYLE, DEFS, properties, pointAt, curved, head, join }; })();
Story.story = (() => { const { list, sentences } = Story.text; const DRAWN = /^(read|scan|write|miss|skip|wait|commit|abort|unknown|refused)$/;
const ENDS = /^(commit|abort|unknown)$/; const named = (name) => `{${name}}`; const unique = (all) => [...new Set(all)]; function storyOf(play, text = "") {
  const { columns, at } = columnsOf(play); const story = {
    names: play.names, levels: play.levels, level: unique(play.levels).length === 1 ? play.levels[0] : "", order: play.order ?? null, columns,
    ends: play.names.map((name, t) => columns.findLast((it) => it.t === t && ENDS.test(it.kind))?.kind ?? null), };
  const lines = text.split("\n").map((line) => line.replace(/#.*/, "")); story.waits = waitsOf(play, columns, at); story.views = viewsOf(play, columns, at);
  story.tracks = tracksOf(play, columns); story.always = alwaysOf(play, columns, lines); story.verdict = verdictOf(play, story, at); sayMore(story, lines);
  placeInOrder(story); return story; }
function columnsOf({ moves, names }) { const columns = [], places = moves.map((move) => { if (!DRAWN.test(move.kind)) return null;
    columns.push({ ...move, t: names.indexOf(move.txn), from: null, by: null, frees: [], breaks: null }); return columns.length - 1; });
  const at = (number) => {
    const { txn } = moves[number - 1] ?? {}, next = places.findIndex((place, index) => index >= number - 1 && place !== null && moves[index].txn === txn);
    return next < 0 ? null : places[next]; }; for (const column of columns) { if (!column.writer) continue; column.from = at(column.writer.move);
    column.by = names.indexOf(column.writer.txn); }
  return { columns, at }; }
function waitsOf({ moves, names }, columns, at) { const waits = columns.flatMap((column, from) => { if (column.kind !== "wait") return [];
    const to = columns.findIndex((it, index) => index > from && it.t === column.t && ENDS.test(it.kind));
    const keys = unique(column.for.map((it) => it.key).filter((key) => key !== undefined && key !== null));
    return [{ t: column.t, from, to: to < 0 ? null : to, by: null, for: column.for.map((it) => names.indexOf(it.txn)), keys }]; });
  moves.forEach((move, index) => { for (const number of move.ends ?? []) { const wait = waits.find((it) => it.from === at(number)), by = at(index + 1);
      if (!wait || by === null || (wait.to !== null && wait.to <= by)) continue; wait.by = by; columns[by].frees.push(wait.t); } }); return waits; }
function viewsOf({ moves, names, levels }, columns, at) { return moves.flatMap((move, index) => { const t = names.indexOf(move.txn);
    if (move.kind !== "begin" || levels[t] !== "snapshot" || at(index + 1) === null) return [];
    const next = moves.findIndex((it, other) => other > index && DRAWN.test(it.kind)); return [{ t, at: at(next + 1) }]; }); }
function changesOf({ committed }, before) { if (!committed) return []; const now = new Map(committed), keys = unique([...before.keys(), ...now.keys()]);
  return keys.filter((key) => before.get(key) !== now.get(key)).map((key) => [key, now.get(key) ?? null]); }
function tracksOf({ rows }, columns) { if (!rows) return []; const tracks = new Map(rows.map(([key, value]) => [key, trackOf(key, value)]));
  let before = new Map(rows); columns.forEach((column, index) => { const { t, kind, key } = column; if (kind === "write") {
      if (!tracks.has(key)) tracks.set(key, trackOf(key, null));
      const { pending } = tracks.get(key), before = pending.find((it) => it.t === t && it.to === null);
      if (before) Object.assign(before, { to: index, end: "own" }); pending.push({ t, from: index, to: null, value: column.value, end: null }); }
    if (!ENDS.test(kind)) return;
    for (const { pending } of tracks.values()) for (const it of pending) if (it.t === t && it.to === null) Object.assign(it, { to: index, end: kind });
    for (const [changed, value] of changesOf(column, before)) { const { segments } = tracks.get(changed); segments.at(-1).to = index;
      segments.push({ from: index, to: null, value, t }); }
    before = new Map(column.committed ?? before); });
  return [...tracks.values()].sort(({ key: one }, { key: other }) => (typeof one === "number" && typeof other === "number" ? one - other : 0)); }
const trackOf = (key, value) => ({ key, segments: [{ from: 0, to: null, value, t: null }], pending: [] });
const filled = (words, valueOf) => words.replace(/@?[\p{L}_][\p{L}\p{N}_]*|@\d+/gu, (word) => valueOf(word) ?? (word[0] === "@" ? "–" : word));
const valueIn = (pairs, word) => pairs.find(([key]) => String(key) === word.slice(1))?.[1]; function alwaysOf({ always = [], rows, names }, columns, lines) {
  const done = new Set(); let now = rows ?? [];
  const all = always.map(({ line }) => ({ line, text: (lines[line - 1] ?? "").replace(/^\s*\S+\s*/, "").trim(), states: [] }));
  const valueOf = (word) => (word[0] === "@" ? valueIn(now, word) : names.includes(word) ? Number(done.has(word)) : undefined);
  const note = (judged, from) => judged.forEach(({ holds }, index) => {
    const { text, states } = all[index], words = filled(text, valueOf), last = states.at(-1);
    if (!last || last.holds !== holds || last.words !== words) states.push({ from, holds, words }); }); note(always, 0); columns.forEach((column, index) => {
    if (column.kind !== "commit" || !column.always) return; done.add(column.txn); now = column.committed;
    const held = all.map(({ states }) => states.at(-1).holds); note(column.always, index);
    column.breaks = all.find(({ states }, which) => held[which] && !states.at(-1).holds)?.line ?? null; }); return all; }
function sayMore({ columns, always, names }, lines) { columns.forEach((column, index) => { const said = [column.why];
    if (column.kind === "skip") said.push(whySkipped(column, sawBefore(column, index, columns), lines)); if (column.breaks !== null) {
      const { text, states } = always.find((it) => it.line === column.breaks);
      said.push(`What is to hold is broken: ${text} is now ${states.findLast((it) => it.from <= index).words}`); }
    if (column.frees.length) said.push(`The wait of ${list(unique(column.frees).map((t) => named(names[t])))} is over`); column.why = sentences(said); }); }
function sawBefore({ t }, index, columns) { const saw = new Map(); for (const it of columns.slice(0, index)) { if (it.t !== t) continue;
    if (it.kind === "scan") for (const [key, value] of it.rows) saw.set(key, value);
    else if (it.kind === "read" || it.kind === "write") saw.set(it.key, it.value ?? null); }
  return [...saw]; }
function whySkipped({ line }, saw, lines) { const words = (lines[line - 1] ?? "").split(/\sif\s/)[1]?.trim();
  return words ? `Its condition doesn’t hold: ${words} is ${filled(words, (word) => (word[0] === "@" ? valueIn(saw, word) : undefined))}` : "Its condition doesn’t hold"; }
function placeInOrder({ columns, names, order }) {
  const places = names.map((name) => (order ?? []).flatMap((it, index) => (it === name ? [index] : []))), count = names.map(() => 0), waited = new Set();
  let last = -1; for (const column of columns) { column.isLate = waited.has(column.t) && ENDS.test(column.kind);
    if (!column.isLate) last = Math.max(last, places[column.t][count[column.t]++] ?? last); if (column.kind === "wait") waited.add(column.t);
    column.place = last; } }
const KINDS = [[/unknown/, "unknown"], [/^(not ser|fails)/, "not"], [/another order/, "other"], [/^(serial|holds)/, "serial"]];
const verdictKind = (words = "") => KINDS.find(([form]) => form.test(words))?.[1] ?? "unknown";
const VERDICTS = { not: "not serializable", other: "serializable in another order", serial: "serializable", unknown: "not judged" };
function verdictOf({ together = {}, breaks = null, names, kind: what, level }, story, at) {
  const kind = verdictKind(together.verdict), order = (together.order ?? []).map((name) => names.indexOf(name)), out = names.filter((name, t) => story.ends[t] === "abort");
  const tail = out.length && kind !== "not" ? `${list(out.map(named))} aborted: as if ${out.length > 1 ? "they" : "it"} had never begun.` : "";
  const edges = kind === "not" ? (together.cycle ?? []).map((edge) => edgeOf(edge, story, at)) : [];
  const isWeaker = what === "log" && level !== "serializable" && kind !== "unknown";
  const say = isWeaker ? `${kind === "not" ? "Fails" : "Holds"} at ${level}` : sayVerdict(kind, order.map((t) => named(names[t])), story);
  return { kind, order, edges, tail, breaks, name: together.anomaly ?? "", say }; }
function sayVerdict(kind, order, { ends }) { const then = order.join(", then "); if (kind === "not") return "Not serializable";
  if (kind === "unknown") return "Not judged"; if (!ends.includes("commit")) return "Nobody committed";
  if (kind === "other") return `Serializable, but only in another order: ${then}`;
  return `Serializable${order.length ? `: as if ${then}${order.length === 1 ? " alone" : ""}` : ""}`; }
function edgeOf(edge, { names, columns }, at) { const { kind, key, moves = [] } = edge, [from, to] = [edge.from, edge.to].map((name) => names.indexOf(name));
  const [one, other] = [edge.from, edge.to].map((name) => (name ? named(name) : "the opening rows")), then = `${one}, then ${other}.`; const says = {
    own: `${(edge.words ?? "").replace(/ \(operation \d+\)/g, "").replace(edge.from, () => one)}: there is no time at which both are right.`,
    rw: `${one} read ${key} = ${edge.read ?? "nothing"} before ${other} wrote it: ${then}`, wr: `${other} read what ${one} wrote to ${key}: ${then}`,
    ww: `${other} wrote ${key} after ${one}: ${then}`, };
  const [a, b] = moves.length === 2 ? moves.map((it) => (it === null ? null : at(it))) : endsOf(edge, columns, from, to), isKnown = edge.from !== null && edge.to !== null;
  return { kind: kind === "own" ? "twice" : kind, key, from, to, a: from < 0 ? null : a, b: to < 0 ? null : b, say: isKnown && says[kind] ? says[kind] : `${edge.words}.` }; }
function endsOf({ kind, key, read, words = "" }, columns, from, to) {
  const workOf = (t) => columns.flatMap((it, index) => (it.t === t && /^(read|scan|write|miss)$/.test(it.kind) ? [index] : [])); if (kind === "own") {
    const own = workOf(from), [one, other] = [...words.matchAll(/operation (\d+)/g)].map((it) => own[it[1] - 1]); return [one ?? own[0], other ?? own.at(-1)]; }
  const isRead = (it) => it.kind === "scan" || (it.key === key && (it.kind === "miss" || it.kind === "read")), isWrite = (it) => it.kind === "write" && it.key === key;
  const last = (t, fits) => workOf(t).findLast((index) => fits(columns[index])) ?? null;
  const reads = (t) => last(t, (it) => isRead(it) && (it.kind !== "read" || it.value === (read ?? it.value))) ?? last(t, isRead);
  return [kind === "rw" ? reads(from) : last(from, isWrite), kind === "wr" ? reads(to) : last(to, isWrite)].map((it, index) => it ?? workOf([from, to][index]).at(-1) ?? null); }
function shortVerdict({ verdict, names, ends }) { const out = names.filter((name, t) => ends[t] === "abort"), { kind, order } = verdict;
  if (kind === "not" || verdict.breaks !== null) return kind === "not" ? VERDICTS.not : "broken";
  if (out.length) return `${out.length > 2 ? out.length : out.join(", ")} aborted`;
  if (!order.length || order.length > 3) return kind === "unknown" ? "" : VERDICTS[kind];
  return `${kind === "other" ? "only " : ""}as if ${order.map((t) => names[t]).join(", ")}`; }
function samePlace(from, position, to) { if (position > from.columns.length) return to.columns.length + 1; if (to === from || position === 0) return position;
  if (position === from.columns.length) return to.columns.length;
  return to.columns.findLastIndex((it) => !it.isLate && it.place <= from.columns[position - 1].place) + 1; }
function stepAfter({ columns }, moves) {
  const isEnd = moves > columns.length, own = columns.slice(0, moves).filter(({ steps }) => steps.length).slice(isEnd ? 0 : -1), next = columns.slice(moves);
  return Math.min(Math.max(0, ...own.flatMap(({ steps }) => steps)), ...next.flatMap(({ steps }) => steps.map((it) => it - 1))); }
const movesAt = ({ columns }, step) => columns.findLastIndex(({ steps }) => steps.some((it) => it <= step)) + 1;
return { storyOf, verdictKind, VERDICTS, shortVerdict, samePlace, stepAfter, movesAt }; })(); Story.layout = (() => { const { wide } = Story.text;
const { L, M, S, XL, clamp } = Story.svg; function wordsOf(column) { const { kind, key, value } = column; switch (kind) {
    case "read": return { tops: [`read ${key}`, `r ${key}`, `${key}`], value: value ?? "–" };
    case "scan": return { tops: [`scan ${column.bucket ?? ""}`, "scan"], value: column.rows.map(([row, its]) => `${row}=${its}`).join(" ") || "–" };
    case "write": return { tops: [`${key} :=`, `${key}:=`, `${key}`], value: value ?? "–" };
    case "miss": return { tops: [`${key} :=`, `${key}`], value: column.op === "insert" ? "exists" : "no row" };
    case "skip": return { tops: ["left out", "out"], value: `${key ?? ""}` }; case "refused": return { tops: ["refused", "ref."], value: "⊘" };
    case "commit": return { tops: ["commit", ""], value: "✓" }; case "unknown": return { tops: ["commit", ""], value: "?" };
    case "abort": return { tops: stopped(column), value: "✗" }; default: return { tops: [""], value: "" }; } }
function stopped({ op, key, bucket }) { if (!op) return ["abort", ""]; if (op === "scan") return [`scan ${bucket}`, "scan"];
  return op === "read" ? [`read ${key}`, `r ${key}`, `${key}`] : [`${key} :=`, `${key}`]; }
function need(column, size, isNarrow) { const { tops, value } = wordsOf(column), most = column.kind === "scan" ? 7 : 12, isTight = isNarrow && size === S;
  if (column.kind === "wait") return isTight ? 1.8 : isNarrow ? 2.2 : 3;
  if (column.kind === "commit" || column.kind === "unknown") return isTight ? 1.4 : isNarrow ? 1.7 : 2.4;
  return clamp(1.2, Math.max(wide(tops.at(-1), S), wide(value, column.kind === "scan" ? S : size, 700)) + (isNarrow ? 0.3 : 0.8), most); }
function slotsOf(stories) { const all = stories.map(({ columns }) => { let [place, late] = [-2, 0]; return columns.map((column, index) => {
      const own = stories.length === 1 ? index : column.place; late = own === place ? late + 1 : 0; place = own; return own * 1000 + late; }); });
  const slots = new Map([...new Set(all.flat())].sort((a, b) => a - b).map((slot, index) => [slot, index]));
  return { count: slots.size, of: all.map((its) => its.map((slot) => slots.get(slot))) }; }
function spread(stories, slots, widths, least) {
  const xs = [], last = stories.map(() => new Map()), columnAt = slots.of.map((its) => new Map(its.map((slot, index) => [slot, index])));
  for (let slot = 0; slot < slots.count; slot++) { let x = slot ? xs[slot - 1] + least : 0; stories.forEach(({ columns }, which) => {
      const index = columnAt[which].get(slot); if (index === undefined) return; const before = last[which].get(columns[index].t);
      x = Math.max(x, before === undefined ? widths[which][index] / 2 : xs[slots.of[which][before]] + (widths[which][before] + widths[which][index]) / 2);
      last[which].set(columns[index].t, index); }); xs[slot] = x; }
  return xs; }
const end = (stories, slots, widths, xs) => Math.max(0, ...stories.flatMap((_, which) => widths[which].map((width, index) => xs[slots.of[which][index]] + width / 2)));
function* ways(stories, slots, room, u, isNarrow) {
  const even = (width) => stories.map(({ columns }) => columns.map(() => width)), needs = (size) => stories.map(({ columns }) => columns.map((it) => need(it, size, isNarrow) * u));
  const most = (size) => Math.max(1, ...needs(size).flat()), column = Math.min(8 * u, room / Math.max(slots.count, 1));
  for (const size of isNarrow ? [L] : [XL, L]) if (column >= Math.max(most(size), (isNarrow ? 2.6 : 3.4) * u)) yield { size, widths: even(column), least: column };
  for (const size of isNarrow ? [L, M] : [XL, L, M]) { const least = Math.max(most(size), 2.6 * u);
    for (let width = Math.max(4 * u, least); width >= least; width -= 0.1 * u) yield { size, widths: even(width), least: 1.2 * u }; }
  for (const size of [L, M, S]) for (const least of [1, 0.6]) yield { size, widths: needs(size), least: least * u };
  if (isNarrow) yield { size: S, widths: needs(S), least: 0.3 * u, isTight: true }; }
function layout(story, { w, h, u, all = [story], rows = true }) {
  const isNarrow = w < 34 * u, longest = Math.max(...story.names.map((name) => wide(name, 1, 700)), ...(rows ? story.tracks.map(({ key }) => wide(key, 1, 700)) : [])), nameSize = isNarrow && longest > 2.5 ? S : M;
  const always = rows && story.always.length ? wide("always", S, 700) * u + 0.6 * u : 0;
  const gutter = clamp(Math.max(2.9 * u, always), longest * nameSize * u + (isNarrow ? 0.3 : 1.2) * u, Math.max(w * 0.26, always)), tail = (isNarrow ? 0.4 : 3.2) * u;
  const slots = slotsOf(all), own = slots.of[all.indexOf(story)]; let way, xs, length, pad = (isNarrow ? 1.2 : 2.6) * u, room = w - gutter - pad - tail;
  for (way of ways(all, slots, room, u, isNarrow)) { if (way.isTight) [pad, room] = [0.4 * u, room + pad - 0.4 * u];
    xs = spread(all, slots, way.widths, way.least); length = end(all, slots, way.widths, xs); if (length <= room + 0.5) break; }
  const first = way.widths.flat()[0] ?? 0, isEven = way.least === first, boxes = way.widths.flatMap((its, which) => its.map((width, index) => ({ x: xs[slots.of[which][index]] - first / 2, width })));
  const stretches = boxes.filter(({ x }) => x > 1).map(({ x, width }) => (room - (first + width) / 2) / x), stretch = isEven || length >= room ? 1 : clamp(1, Math.min(2, ...stretches), 2);
  const widths = way.widths[all.indexOf(story)], place = (x) => pad + first / 2 + x * stretch;
  const mid = (index) => place((xs[own[index]] ?? (xs.at(-1) ?? 0) + first) - first / 2), most = Math.max(pad, ...boxes.map(({ x, width }) => place(x) + width / 2));
  const left = (index) => mid(index) - (widths[index] ?? first) / 2, right = (index) => (index ? mid(index - 1) + (widths[index - 1] ?? first) / 2 : pad);
  const high = heights(story, { h, u, rows, isNarrow });
  return { w: Math.max(most + tail, w - gutter), u, count: story.columns.length, gutter, pad, nameSize, size: high.high > 3.6 * u ? way.size : Math.min(way.size, L), isNarrow, mid, left, right,
    width: (index) => widths[index] ?? first, boxes: [], ...high }; }
function heights(story, { h, u, rows, isNarrow }) {
  const lanes = story.names.length, count = rows ? story.tracks.length + story.always.length : 0, top = (story.views.length ? 1.5 : 0.4) * u;
  const least = (lanes > 5 ? 3.3 : isNarrow ? 4.4 : rows ? 3.7 : 2.7) * u, isShort = count > 6 || top + (2.05 * count + 1) * u + lanes * least > h;
  const row = (isShort ? 1.95 : 2.05) * u, low = rows && count ? top + row * count + u : 0;
  const lane = clamp(least, (h - low) / lanes, 9 * u), high = clamp(2.5 * u, lane * (isNarrow ? 0.58 : 0.62), 4.6 * u);
  return { lane, high, gap: lane - high, row, top, y: (t) => t * lane + (lane - high) / 2 }; }
return { wordsOf, layout }; })(); Story.lanes = (() => { const { cut, esc, fitting, plain, wide } = Story.text;
const { DEFS, L, M, S, XL, clamp, colour, curved, head, join, path, pointAt, r1, rect, svg, text, title } = Story.svg; const { wordsOf } = Story.layout;
const ORDINALS = ["1st", "2nd", "3rd"]; function names(story, at, step) {
  const isEnd = step > at.count, { order, kind } = story.verdict, size = at.nameSize * at.u; const parts = story.names.map((name, t) => {
    const y = at.y(t) + at.high / 2, place = isEnd && kind !== "not" ? order.indexOf(t) : -1, isOut = isEnd && story.ends[t] === "abort", isTwo = isOut || (place >= 0 && order.length > 1);
    const under = isOut ? text(2, y + 1.05 * at.u, S * at.u, fitting(["aborted", "out"], at.gutter - 4, S * at.u), "soft", "start") : isTwo ? text(2, y + 1.05 * at.u, S * at.u, ORDINALS[place] ?? `${place + 1}th`, "b", "start") : "";
    return `<g>${title(name)}${text(2, y + (isTwo ? -0.1 : 0.35) * at.u, size, cut(name, at.gutter - 4, size, 700), `b f${colour(t)}`, "start")}${under}</g>`; });
  return svg(at.gutter, at.lane * story.names.length, "transactions", parts.join("")); }
function lines(column, at, box, tops, value, [topKind, valueKind], most = at.size) {
  const { u } = at, room = box.w - (at.isNarrow ? 2 : 4), size = [XL, L, M, S].find((it) => it <= most && wide(value, it * u, 700) <= room) ?? S, isLarge = size > L;
  const top = fitting(tops, room, S * u), middle = box.y + at.high / 2;
  if (top === "") return text(box.x + box.w / 2, middle + 0.36 * size * u, size * u, cut(value, room, size * u, 700), valueKind);
  return text(box.x + box.w / 2, middle - (isLarge ? 0.6 : 0.28) * u, S * u, top, topKind) +
    text(box.x + box.w / 2, middle + (isLarge ? 1.2 : 0.98) * u, size * u, cut(value, room, size * u, 700), valueKind); }
function scanned(column, at, box) {
  const { u } = at, most = Math.max(1, Math.floor((at.high - 1.3 * u) / (0.95 * u))), all = column.rows.map(([key, value]) => `${key}=${value}`);
  const few = all.length > most ? [column.rows.map(([key]) => key).join(" "), `${all.length} rows`].slice(0, most) : all.length ? all : ["–"];
  const top = box.y + at.high / 2 - few.length * 0.475 * u, x = box.x + box.w / 2;
  return text(x, top + 0.3 * u, S * u, fitting(wordsOf(column).tops, box.w - 4, S * u), `f${colour(column.t)}`) +
    few.map((line, index) => text(x, top + (1.25 + index * 0.95) * u, S * u, cut(line, box.w - 4, S * u, 700), "b")).join(""); }
function boxOf(column, at, index) {
  const { u } = at, gap = at.isNarrow ? 1 : at.width(index) < 3.2 * u ? 1.5 : 3, box = { x: at.left(index) + gap, y: at.y(column.t), w: at.width(index) - 2 * gap }, own = colour(column.t), { tops, value } = wordsOf(column);
  const frame = (kind, round = 0.35 * u) => rect(box.x, box.y, box.w, at.high, kind, round), said = (kinds, most) => lines(column, at, box, tops, String(value), kinds, most);
  switch (column.kind) { case "read": return frame(`box s${own}`) + said([`f${own}`, column.by === null ? "b" : `b f${colour(column.by)}`]);
    case "scan": return frame(`box s${own}`) + scanned(column, at, box); case "write": { const whole = `${column.key} := ${value}`, size = at.size * u;
      return frame(`f${own}`) + (wide(whole, size, 700) < box.w - 4 ? text(box.x + box.w / 2, box.y + at.high / 2 + 0.36 * size, size, whole, "b on") : said(["on", "b on"])); }
    case "miss": return frame("ghost") + said(["soft", "b soft"], M); case "skip": return frame("ghost") + said(["soft", "soft strike"], L);
    case "refused": return frame("ghost") + said(["soft", "b soft"], L);
    case "commit": return frame(`box s${own}`, at.high / 2) + said([`f${own}`, `b f${own}`]);
    case "unknown": return frame("ghost", at.high / 2) + said(["soft", "b soft"]); case "abort": return frame("bad") + said(["on", "b on"]);
    default: return ""; } }
function waitBar(story, at, wait, step) {
  const { u } = at, isFree = wait.by !== null && wait.by < step && (wait.to === null || wait.by < wait.to), isOver = wait.to !== null && wait.to < step;
  const to = Math.min(isFree ? at.mid(wait.by) + 0.5 * u : Infinity, isOver ? at.left(wait.to) : at.right(Math.min(step, at.count)));
  const x = at.left(wait.from) + 3, w = Math.max(to - x - 3, 0.6 * u), h = at.high * 0.78, y = at.y(wait.t) + at.high * 0.11, who = wait.for.map((t) => story.names[t]).join(", "), size = S * u;
  const all = `waits for ${who}`, long = wait.keys.length && wait.for.length === 1 ? `${all}, which read ${wait.keys.join(", ")}` : all;
  const said = [[long], [all], ["waits", `for ${who}`]].find((lines) => lines.every((it) => wide(it, size, 700) <= w - 0.8 * u)), bar = rect(x, y, w, h, "hatch", 0.3 * u);
  if (!said) return bar + text(Math.max(0, Math.min(x, at.w - wide(all, size, 700) - 2)), y + h + 0.85 * u, size, cut(all, at.w, size, 700), "b halo", "start");
  const middle = x + Math.min(w / 2, Math.max(...said.map((it) => wide(it, size, 700))) / 2 + 0.3 * u);
  return bar + said.map((it, index) => text(middle, y + h / 2 + (said.length === 1 ? 0.27 : index ? 0.8 : -0.2) * u, size, it, "b halo")).join(""); }
const isNear = (at, index, step) => index < step && (at.count <= 30 || index === step - 1);
const links = (story, at, step) => story.columns.map((column, index) => {
  if (!/read|scan/.test(column.kind) || column.from === null || column.by === column.t || !isNear(at, index, step)) return "";
  const it = join(story, at, column.from, index);
  return path(curved(it.curve), `link s${colour(column.by)}`) + head(...it.tip, it.isDown, it.size, `f${colour(column.by)}`); }).join("");
const frees = (story, at, step) => story.waits.map((wait) => { if (wait.by === null || !isNear(at, wait.by, step)) return "";
  const from = story.columns[wait.by].t, isDown = wait.t > from, y = at.y(from) + (isDown ? at.high : 0), to = at.y(wait.t) + at.high * (isDown ? 0.11 : 0.89);
  return path(`M${r1(at.mid(wait.by))} ${r1(y)}V${r1(to)}`, "ghost") + head(at.mid(wait.by), to, isDown, 0.5 * at.u, "inkf"); }).join("");
const inCycle = (story) => new Set(story.verdict.edges.flatMap(({ a, b }) => [a, b])); function clearance([x, y], [w, h], story, at, used, curves) {
  const kept = inCycle(story), boxes = story.columns.map((column, index) => {
    const free = Math.max(Math.abs(at.mid(index) - x) - (at.width(index) + w) / 2, Math.abs(at.y(column.t) + at.high / 2 - y) - (at.high + h) / 2);
    return kept.has(index) ? free : Math.max(free, -0.25 * at.u); });
  const labels = used.map((it) => Math.max(Math.abs(it.x - x) - (it.w + w) / 2 - 4, Math.abs(it.y - y) - h - 3));
  const tips = curves.map(({ tip }) => Math.max(Math.abs(tip[0] - x) - w / 2 - 0.7 * at.u, Math.abs(tip[1] - y) - h / 2 - 0.9 * at.u));
  return Math.min(...boxes, ...labels, ...tips, x - w / 2, at.w - x - w / 2); }
const SHIFTS = [0, 0.9, -0.9, 1.8]; function intoGap(y, h, at, count) {
  const gap = Math.round(y / at.lane), middle = gap * at.lane, slack = Math.max(0, at.gap / 2 - h / 2 - 1), most = 0.45 * h;
  return gap < 1 || gap >= count ? 0 : clamp(-most, clamp(middle - slack, y, middle + slack) - y, most); }
function edges(story, at) {
  const ends = new Map(), used = [], all = story.verdict.edges.filter((it) => it.a !== null && it.b !== null && it.a !== undefined && it.b !== undefined);
  const shift = (key) => { const count = ends.get(key) ?? 0; ends.set(key, count + 1); return SHIFTS[count % 4] * Math.min(at.u, at.width(0) / 4); };
  const curves = all.map(({ a, b, from, to }) => join(story, at, a, b, [shift(`${a} ${to > from}`), shift(`${b} ${to < from}`)]));
  const type = (at.width(0) < 3 * at.u ? S : M) * at.u, h = 1.45 * type, words = all.map(({ kind, key }) => `${kind} ${key ?? ""}`.trim()), widths = words.map((it) => wide(it, type, 700) + 0.9 * type);
  const place = (index) => {
    const w = widths[index], others = used.filter((_, other) => other !== index), points = Array.from({ length: 41 }, (_, part) => pointAt(curves[index].curve, 0.1 + part * 0.02));
    const [x, y] = points.flatMap(([left, top]) => [0, intoGap(top, h, at, story.names.length)].map((by) => { const point = [left, top + by];
      return [clearance(point, [w, h], story, at, others, curves) - Math.abs(by) / 2, point]; })).sort(([one], [other]) => other - one)[0][1];
    used[index] = { x: clamp(w / 2 + 1, x, at.w - w / 2 - 1), y: Math.max(y, h / 2 + 1), w }; };
  for (let round = 0; round < 3; round++) all.forEach((_, index) => place(index));
  const line = ({ curve, tip, isDown, size }) => path(curved(curve), "edge") + head(...tip, isDown, size * 1.5, "bad");
  const label = ({ x, y, w }, index) => rect(x - w / 2, y - h / 2, w, h, "bad", 0.3 * at.u) + text(x, y + 0.35 * type, type, words[index], "b on");
  return curves.map(line).join("") + used.map(label).join(""); }
function lives(story, at, step) { const firsts = new Map(), lasts = new Map(); story.columns.slice(0, step).forEach(({ t }, index) => {
    if (!firsts.has(t)) firsts.set(t, index); lasts.set(t, index); }); return [...firsts].sort(([one], [other]) => one - other).map(([t, first]) => {
    const last = lasts.get(t), isOver = /commit|abort|unknown/.test(story.columns[last].kind), y = r1(at.y(t) + at.high / 2);
    return path(`M${r1(at.left(first) + 3)} ${y}H${r1(isOver ? at.mid(last) : at.right(step))}`, `life s${colour(t)}`); }).join(""); }
const labelOf = (column, index) => `${index + 1}: ${plain(column.say ?? "")}`; function lanes(story, at, step, isLive = false) {
  const isEnd = step > at.count, now = Math.min(step, at.count), isCycle = isEnd && story.verdict.kind === "not", kept = inCycle(story), h = at.lane * story.names.length;
  const band = now > 0 && !isEnd ? rect(at.left(now - 1), 0, at.width(now - 1), h, "band") : "", dim = (is) => (is ? ' class="dim"' : "");
  const rules = story.names.map((_, t) => path(`M0 ${r1(at.y(t) + at.high / 2)}H${r1(at.w)}`, "rule")).join("");
  const bars = story.waits.filter((wait) => wait.from < now).map((wait) => `<g${dim(isCycle)}>${waitBar(story, at, wait, now)}</g>`).join("");
  const live = (column, index) => isLive ? ` data-step="${index + 1}" role="button" tabindex="${index === now - 1 ? 0 : -1}" aria-label="${esc(labelOf(column, index))}"${index === step - 1 ? ' aria-current="step"' : ""}` : "";
  const boxes = story.columns.slice(0, now).map((column, index) => `<g${live(column, index)}${dim(isCycle && !kept.has(index))}>${at.boxes[index] ??= `${title(plain(column.say ?? ""))}${boxOf(column, at, index)}`}</g>`).join("");
  const under = isCycle ? story.columns.map((column, index) => (column.kind === "wait" ? "" : rect(at.left(index) + 2, at.y(column.t), at.width(index) - 4, at.high, "chip", column.kind === "commit" ? at.high / 2 : 6))).join("") : "";
  const arrows = isCycle ? "" : frees(story, at, now), found = isCycle ? edges(story, at) : links(story, at, now);
  return svg(at.w, h, `Lanes of ${story.names.join(", ")} after ${now} of ${at.count} moves`, DEFS + band + rules + lives(story, at, now) + bars + arrows + under + boxes + found, isLive ? "group" : "img"); }
return { names, labelOf, lanes }; })(); Story.rows = (() => { const { cut, fitting, list, wide } = Story.text;
const { DEFS, M, S, colour, path, r1, rect, svg, text, title } = Story.svg; const NONE = "–";
const height = (story, at) => at.top + at.row * (story.tracks.length + story.always.length) + 4; function keys(story, at) {
  const { u } = at, count = story.tracks.length, room = at.gutter - 4;
  const rows = story.tracks.map(({ key }, index) => `<g>${title(key)}${text(2, at.top + at.row * index + at.row - 0.27 * u, M * u, cut(key, room, M * u, 700), "b", "start")}</g>`);
  const always = story.always.map((it, index) => text(2, at.top + at.row * (count + index) + 1.35 * u, S * u, cut("always", room, S * u, 700), "b", "start"));
  return svg(at.gutter, height(story, at), "rows", (story.views.length ? text(2, at.u, S * u, "row", "soft", "start") : "") + rows.join("") + always.join("")); }
function valuesOf({ segments }, at, now, till) { const size = M * at.u; let before = 0;
  return segments.filter(({ t, from }) => t === null || from < now).map(({ from, to, value, t }) => {
    const isOpening = t === null, isLast = to === null || to >= now, x = isOpening ? 0 : at.mid(from), w = till(0, to) - x || at.pad, words = value ?? NONE, own = wide(words, size, 700);
    const room = Math.max((isLast ? at.w - x : w) - (isOpening ? 6 : 10), at.pad - 8);
    const isLeft = !isOpening && isLast && own > room && own + 8 < x - before, low = isLeft ? x - 4 - own : x + (isOpening ? 5 : 9);
    before = x + Math.min(own, room) + 12;
    return { x, w, t, isLeft, words, said: isLeft ? words : cut(words, room, size, 700), low, high: low + (isLeft ? own : Math.min(own, room)) }; }); }
const overBar = (at) => at.row - 1.19 * at.u; function track(it, at, y, now, till) {
  const { u } = at, { pending } = it, bar = overBar(at), parts = [path(`M0 ${r1(y + at.row - 0.03 * u)}H${r1(at.w)}`, "rule")], base = y + at.row - 0.27 * u;
  for (const { x, w, t, isLeft, words, said, low, high } of valuesOf(it, at, now, till)) { const isOpening = t === null;
    parts.push(rect(x, y + bar, Math.max(w, isOpening ? at.pad - 4 : 2) - 1, at.row - bar - 0.05 * u, isOpening ? "seg" : `tint f${colour(t)}`, 2));
    if (!isOpening) parts.push(rect(x, y + bar, 4, at.row - bar - 0.05 * u, `f${colour(t)}`));
    parts.push(`<g>${title(words)}${text(isLeft ? high : low, base, M * u, said, `b ${isOpening ? "" : `f${colour(t)}`}`, isLeft ? "end" : "start")}</g>`); }
  for (const { t, from, to, value, end } of pending) { if (from >= now) continue;
    const x = at.mid(from), until = till(0, to), w = Math.max(until - x, 2) - 2, isOpen = (to === null || to >= now) && !pending.some((other) => other.from > from && other.from < now);
    const room = Math.max(isOpen ? at.w - x - 6 : w - 4, at.width(from) / 2);
    parts.push(rect(x, y + 0.06 * u, w, bar - 0.1 * u, `pend s${colour(t)}`, 2), text(x + 4, y + bar - 0.14 * u, S * u, cut(value ?? NONE, room, S * u), `f${colour(t)}`, "start"));
    if (end === "abort" && to < now) parts.push(text(until + 1, y + bar - 0.12 * u, S * u, "✗", "b badt", "start")); }
  return parts.join(""); }
function looks(story, at, now, views) { const column = story.columns[now - 1], { u } = at; if (column?.kind !== "read") return "";
  return story.tracks.map(({ key }, index) => { if (key !== column.key) return "";
    const isOwn = column.by === column.t, y = at.top + at.row * index + (isOwn ? 0.4 * u : at.row - 0.6 * u), view = views.find((it) => it.t === column.t), x = at.mid(now - 1), to = view && !isOwn ? view.x : x;
    return path(`M${r1(x)} 0V${r1(y)}H${r1(to)}`, `link s${colour(column.t)}`) + `<circle cx="${r1(to)}" cy="${r1(y)}" r="${r1(0.35 * u)}" class="f${colour(column.t)}"/>`; }).join(""); }
function saidOfView(story, at, views, index) {
  const { u } = at, own = views.filter((it) => it.at === views[index].at), room = (views[index + 1]?.x ?? at.w) - views[index].x - 6, all = list(own.map(({ t }) => story.names[t]));
  if (own.at(-1) !== views[index] || room < 2 * u) return own.length > 1 ? "" : fitting([story.names[views[index].t], ""], room, S * u, 700);
  return fitting(own.length > 1 ? [`views of ${all}`, all] : [`${all}’s view`, all], room, S * u, 700); }
const looking = (story, at, views, values) => views.map(({ x, t }, index) => {
  const { u } = at, said = saidOfView(story, at, views, index), isOne = views.filter((it) => it.at === views[index].at).length === 1;
  const covered = values.flatMap((its, row) => (its.some(({ low, high }) => low - 2 < x && x < high + 2) ? [at.top + at.row * row] : []));
  const line = covered.map((y) => `V${r1(y + overBar(at))}M${r1(x)} ${r1(y + at.row)}`).join("");
  return path(`M${r1(x)} ${r1(0.5 * u)}${line}V${r1(at.top + at.row * story.tracks.length)}`, `view s${colour(t)}`) +
    (said ? text(x + 4, u, S * u, said, `b halo ${isOne ? `f${colour(t)}` : ""}`, "start") : ""); }).join("");
function always({ states, text: words }, at, y, now, right) { const { u } = at; return states.map((state, index) => {
    if (index > 0 && state.from >= now) return "";
    const x = index ? at.mid(state.from) : 0, next = states[index + 1], to = next && next.from < now ? at.mid(next.from) : Math.max(right, at.pad), w = to - x, mark = state.holds ? "✓" : "✗", said = `${mark} ${state.words}`;
    const label = w <= u ? "" : wide(said, S * u, 700) < w - 8 ? text(x + 6, y + 1.02 * u, S * u, said, `b ${state.holds ? "" : "on"}`, "start") : text(x + w / 2, y + 1.02 * u, S * u, mark, state.holds ? "b" : "b on");
    return `<g>${title(`${words}: ${state.words}`)}${rect(x + 1, y, w - 2, 1.5 * u, state.holds ? "ok" : "bad", 3)}${label}</g>`; }).join(""); }
function tracks(story, at, step) {
  const isEnd = step > at.count, now = Math.min(step, at.count), right = isEnd || now === at.count ? at.w : at.right(now), low = at.top + at.row * (story.tracks.length + story.always.length);
  const till = (_, to) => Math.min(right, to === null || to >= now ? right : at.mid(to));
  const seen = story.views.filter((it) => it.at < now || (it.at === now && isEnd)).sort((one, other) => one.at - other.at);
  const views = seen.map((it, index) => ({ t: it.t, at: it.at, x: at.left(it.at) + 3 + 5 * seen.slice(0, index).filter((other) => other.at === it.at).length }));
  const parts = [DEFS, now > 0 && !isEnd ? rect(at.left(now - 1), 0, at.width(now - 1), low + 4, "band") : ""];
  story.tracks.forEach((it, index) => parts.push(track(it, at, at.top + at.row * index, now, till))); if (!isEnd) parts.push(looks(story, at, now, views));
  parts.push(looking(story, at, views, story.tracks.map((it) => valuesOf(it, at, now, till))));
  story.always.forEach((it, index) => parts.push(always(it, at, at.top + at.row * (story.tracks.length + index) + 0.35 * at.u, now, right)));
  return svg(at.w, low + 4, `Rows after ${now} moves`, parts.join("")); }
return { keys, tracks }; })(); Story.cards = (() => { const { cut, esc, grouped, wide } = Story.text;
const { DEFS, S, colour, path, r1, rect, svg, text, title } = Story.svg; const { VERDICTS, verdictKind } = Story.story; const NONE = "–";
function mini(story, w, h, u) {
  const count = Math.max(story.columns.length, 1), column = w / count, lane = h / story.names.length, high = lane * 0.8, y = (t) => t * lane + lane * 0.1, size = Math.min(S * u, high * 0.9);
  const rules = story.names.map((_, t) => path(`M0 ${r1(y(t) + high / 2)}H${r1(w)}`, "rule")).join("");
  const waits = story.waits.map(({ t, from, to, by }) => { const until = by !== null && (to === null || by < to) ? by + 0.6 : to ?? count;
    return rect(from * column + 1, y(t) + high * 0.1, (until - from) * column - 2, high * 0.8, "hatch", 2); }).join("");
  const boxes = story.columns.map((it, index) => (column < 9 ? tiny(it, index * column, y(it.t), column - 0.5, high) : small(it, index * column, y(it.t), column, high, size))).join("");
  return svg(w, h, `the run at ${story.level || "its levels"}`, DEFS + rules + waits + boxes + `<line y2="100%" class="mark" visibility="hidden"/>`); }
const markAt = (story, step) => (step > 0 && step <= story.columns.length ? `${r1((100 * step) / story.columns.length)}%` : null);
function tiny({ kind, t }, x, y, w, h) {
  const kinds = { read: `faint f${colour(t)}`, scan: `faint f${colour(t)}`, write: `f${colour(t)}`, abort: "bad", commit: "inkf" };
  return rect(x, y, w, h, kinds[kind] ?? "none"); }
function small({ kind, t, value, by, rows }, x, y, w, h, size) {
  const own = colour(t), middle = x + w / 2, base = y + h / 2 + size * 0.36, box = [x + 1, y, w - 2, h];
  const said = (words, kinds) => (wide(words, size, 700) < w - 2 ? text(middle, base, size, words, kinds) : ""); switch (kind) {
    case "read": return rect(...box, `box s${own}`, 3) + said(value ?? NONE, `b ${by === null ? "" : `f${colour(by)}`}`);
    case "scan": return rect(...box, `box s${own}`, 3) + said(rows.length, "b"); case "write": return rect(...box, `f${own}`, 3) + said(value ?? NONE, "b on");
    case "skip": case "miss": case "refused": return rect(...box, "chip") + rect(...box, "ghost", 3);
    case "unknown": return rect(middle - size * 0.6, y, size * 1.2, h, "chip") + text(middle, base, size, "?", "b soft");
    case "commit": return rect(middle - size * 0.6, y, size * 1.2, h, "chip") + text(middle, base, size, "✓", `b f${own}`);
    case "abort": return rect(...box, "bad", 3) + text(middle, base, size, "✗", "b on"); default: return ""; } }
const isBroken = (outcome) => verdictKind(outcome.verdict) === "not" || outcome.breaks !== undefined && outcome.breaks !== null;
const sorted = (outcomes) => [...outcomes].sort((one, other) => isBroken(other) - isBroken(one) || other.orders - one.orders);
const rowsOf = ({ rows }) => rows.map(([key, value]) => `${key}=${value}`).join(" "); function saidOutcome(outcome, { orders }) {
  const ends = outcome.ends.map(({ txn, end }) => `${txn} ${end}`).join(", "), broken = outcome.breaks ? `; breaks line ${outcome.breaks}` : "";
  return `${grouped(outcome.orders)} of ${grouped(orders)} orders: ${ends}; ${rowsOf(outcome)}; ${VERDICTS[verdictKind(outcome.verdict)]}${broken}`; }
const BAR = 1.45;
const CUTS = [(name) => `${name.slice(0, 2)}.`, (name) => `${name[0]}…${name.slice(-1)}`, (name) => `${name[0]}…${name.slice(-2)}`, (name) => name[0] + name.slice(-1)];
function namesIn(names, widthOf, room, rest) {
  const sum = (all) => all.reduce((so, it) => so + widthOf(it), 0), cuts = CUTS.map((cutOf) => names.map((name) => (name.length > 3 ? cutOf(name) : name)));
  if (sum(names) <= 0.4 * room) return names; return cuts.find((all) => new Set(all).size === all.length && sum(all) + rest <= room) ?? names.map(() => ""); }
const marked = (name, mark) => `${name} ${mark}`.trim(); function bars(counted, names, w, u, isHere = () => false) {
  const size = S * u, high = BAR * u, all = sorted(counted.outcomes), most = Math.max(...all.map((it) => it.orders)), alike = new Set(all.map((it) => it.ends.map(({ end }) => end).join())).size < all.length;
  const isOther = (outcome) => verdictKind(outcome.verdict) === "other", countOf = (outcome) => `${isBroken(outcome) ? "✗ " : ""}${grouped(outcome.orders)}`;
  const widthOf = (name) => wide(marked(name, "✓"), size, 700) + 0.45 * u, counts = Math.max(...all.map((it) => wide(countOf(it), size, 700))), short = namesIn(names, widthOf, w, counts + 1.9 * u);
  const widths = short.map(widthOf), left = widths.reduce((sum, it) => sum + it, 0.4 * u);
  const afterOf = (outcome) => isBroken(outcome) || isOther(outcome) ? "" : alike ? rowsOf(outcome) : outcome.ends.find(({ end }) => end !== "committed")?.end.replace("aborted ", "") ?? "";
  const mostOf = (outcome) => (w - left - wide(countOf(outcome), size, 700) - wide(afterOf(outcome), size) - 0.9 * u) * most / outcome.orders;
  const room = Math.max(Math.min(2 * u, w - left - counts - 0.5 * u), Math.min((w - left - wide(`✗ ${grouped(most)}`, size, 700)) * 0.5, ...all.map(mostOf).filter((it) => it >= 2 * u)));
  return svg(w, high * all.length, "outcomes of all orders", DEFS + all.map((outcome, index) => {
    const y = index * high, base = y + 1.02 * u, bad = isBroken(outcome), length = Math.max(2, room * outcome.orders / most), words = saidOutcome(outcome, counted), after = afterOf(outcome), count = countOf(outcome);
    const x = left + length + 0.3 * u, next = x + wide(count, size, 700) + 0.5 * u;
    const marks = outcome.ends.map(({ end }, t) => text(0.2 * u + widths.slice(0, t).reduce((sum, it) => sum + it, 0), base, size, marked(short[t], end === "committed" ? "✓" : "✗"), end === "committed" ? `b f${colour(t)}` : "badt", "start"));
    return `<g data-order="${esc(outcome.first?.join(" ") ?? "")}" role="button" tabindex="0" aria-label="${esc(words)}">${title(words)}${rect(0, y, w, high - 1, isHere(outcome) ? "band" : "chip", 3)}${marks.join("")}` +
      rect(left, y + 0.28 * u, length, 0.85 * u, bad ? "bad" : isOther(outcome) ? "hatch" : "slate", 2) + text(x, base, size, cut(count, w - x, size, 700), `b ${bad ? "badt" : ""}`, "start") +
      (wide(after, size) <= w - next ? text(next, base, size, after, "soft", "start") : "") + "</g>"; }).join(""), "group"); }
const hasOutcome = (story) => (outcome) => verdictKind(outcome.verdict) === story.verdict.kind && outcome.ends.every(({ end }, t) => end === endOf(story, t)) &&
  outcome.rows.every(([key, value]) => story.tracks.find((it) => it.key === key)?.segments.at(-1).value === value); function endOf({ ends, columns }, t) {
  if (ends[t] !== "abort") return ends[t] === "commit" ? "committed" : "unended";
  return `aborted ${columns.find((it) => it.t === t && it.kind === "abort").cause}`; }
return { mini, markAt, sorted, saidOutcome, BAR, bars, hasOutcome, endOf }; })(); Story.figure = (() => { const { fitting, plain, wide } = Story.text;
const { COLOURS, L, M, S, STYLE, XL, rect, r1, svg, text } = Story.svg; const { layout } = Story.layout; const { lanes, names } = Story.lanes;
const { keys, tracks } = Story.rows; const painted = (drawing, colours) => drawing.replace(/var\(--(\w+)\)/g, (all, name) => colours[name] ?? all);
function saying(story, step) { if (step === 0) return { say: "", isBad: false };
  if (step > story.columns.length) return { say: plain(story.verdict.say), isBad: story.verdict.kind === "not" || story.verdict.breaks !== null };
  const { say, breaks } = story.columns[step - 1]; return { say: plain(say), isBad: breaks !== null }; }
function figure(story, { step = story.columns.length + 1, width = 1000, theme = "light", title = "" } = {}) {
  const u = 16, at = layout(story, { w: width, h: 480, u }), hasRows = story.tracks.length + story.always.length > 0, { say, isBad } = saying(story, step);
  const heading = title ? 1.6 * u : 0, top = heading + (say ? 2.4 * u : 0), low = top + at.lane * story.names.length + 8, room = at.gutter + at.w, size = [XL, L, M].find((it) => wide(say, it * u, 700) <= room - 4) ?? M;
  const parts = [[0, top, names(story, at, step)], [at.gutter, top, lanes(story, at, step)], ...(hasRows ? [[0, low, keys(story, at)], [at.gutter, low, tracks(story, at, step)]] : [])];
  const high = hasRows ? low + Number(/height="([\d.]+)"/.exec(parts[3][2])[1]) : low;
  const words = (title ? text(2, 1.1 * u, S * u, fitting([title], room - 4, S * u), "soft", "start") : "") + text(2, heading + 1.7 * u, size * u, fitting([say], room - 4, size * u, 700), isBad ? "b badt" : "b", "start");
  const inside = `<style>${STYLE}</style>${rect(0, 0, room, high, "chip")}${words}${parts.map(([x, y, part]) => `<g transform="translate(${r1(x)} ${r1(y)})">${part}</g>`).join("")}`;
  return painted(svg(room, high, title || "a run", inside), COLOURS[theme]); }
return { figure }; })(); Story.log = (() => { const { parse } = Story.text; const MOST = { txns: 12, operations: 60 }; const named = (name) => `{${name}}`;
const same = (one, other) => JSON.stringify(one) === JSON.stringify(other); const isLog = (text) => /^\ufeff?\s*\{/.test(text); function read(text) {
  const lines = text.replace(/^\ufeff/, "").split("\n").flatMap((line, index) => (line.trim() ? [{ ...parse(line), line: index + 1 }] : []));
  return { rows: lines.find((it) => !("txn" in it))?.rows ?? [], txns: lines.filter((it) => "txn" in it).map((it) => ({ ...it, name: String(it.txn), ops: it.ops ?? [] })) }; }
const done = (flag) => flag !== false; function moveOf([op, ...rest], txn, line) {
  const base = { txn, line, op, steps: [], ends: [], why: "" }, [key, value, flag] = rest; switch (op) {
    case "read": return { ...base, kind: "read", key, value: value ?? null, writer: null, say: `${named(txn)} reads ${key}: ${value ?? "no such row"}` };
    case "scan": case "range": { const rows = rest.at(-1) ?? [], where = op === "scan" ? `bucket ${key}` : `${key} to ${value}`;
      return { ...base, kind: "scan", bucket: op === "scan" ? key : `${key}..${value}`, rows, say: `${named(txn)} scans ${where}: ${rows.map(([row, its]) => `${row} = ${its}`).join(", ") || "nothing"}` }; }
    case "delete": return done(value) ? { ...base, kind: "write", key, value: null, say: `${named(txn)} deletes ${key}` } : miss(base, key, "isn't there");
    default: return done(flag) ? { ...base, kind: "write", key, value, say: `${named(txn)} ${op === "insert" ? "inserts" : "writes"} ${key}: ${value}` } : miss(base, key, op === "insert" ? "is there already" : "isn't there"); } }
const miss = (base, key, how) => ({ ...base, kind: "miss", key, value: null, say: `${named(base.txn)} writes nothing: ${key} ${how}` });
function endOf({ name, status, line }) { const base = { txn: name, line, steps: [], ends: [], why: "" };
  if (status === "aborted") return { ...base, kind: "abort", cause: "", op: null, say: `${named(name)} aborts` };
  if (status === "unknown") return { ...base, kind: "unknown", say: `${named(name)} ends, and nobody knows how` };
  return { ...base, kind: "commit", committed: null, say: `${named(name)} commits` }; }
class Before { constructor(count) { this.after = Array.from({ length: count }, () => new Set()); }
  reaches(from, to) { const seen = new Set([from]), left = [from]; while (left.length) { const at = left.pop(); if (at === to) return true;
      for (const next of this.after[at]) if (!seen.has(next)) { seen.add(next); left.push(next); } }
    return false; }
  add(first, second) { if (first === undefined || second === undefined || first === second || this.reaches(second, first)) return;
    this.after[first].add(second); }
  order(moves) { const left = new Set(moves.keys()), blocked = (it) => [...left].some((other) => this.after[other].has(it)), order = []; while (left.size) {
      const free = [...left].filter((it) => !blocked(it)), last = order.length ? moves[order.at(-1)].txn : null, next = free.find((it) => moves[it].txn === last) ?? free[0];
      order.push(next); left.delete(next); }
    return order; } }
const writersOf = (moves, { txn, key, value }) => moves.flatMap((it, index) => (it.kind === "write" && it.txn !== txn && same([it.key, it.value], [key, value]) ? [index] : []));
const foundBy = (it) => (it.kind === "read" ? (it.value === null ? [] : [[it.key, it.value]]) : it.kind === "scan" ? it.rows : []);
function constraints(txns, moves, cycle) {
  const before = new Before(moves.length), at = new Map(txns.map(({ name }) => [name, moves.flatMap((it, index) => (it.txn === name ? [index] : []))]));
  for (const its of at.values()) its.slice(1).forEach((it, index) => before.add(its[index], it)); moves.forEach((it, index) => {
    for (const [key, value] of foundBy(it)) { const [writer, ...more] = writersOf(moves, { txn: it.txn, key, value });
      if (writer !== undefined && !more.length) { before.add(writer, index); it.found = writer; } } }); addTimes(before, txns, at);
  for (const { from, to, ends: [first, second] } of cycle) if (from !== to) before.add(first, second); moves.forEach((it, index) => {
    if (it.found === undefined) return;
    const its = at.get(moves[it.found].txn), end = its.at(-1), later = its.find((other) => other > it.found && moves[other].kind === "write" && same(moves[other].key, it.key));
    if (later !== undefined) before.add(index, later); if (moves[end].kind === "commit") before.add(end, index); else before.add(index, end); });
  return before; }
function addTimes(before, txns, at) { const times = ({ begin, end, at: [invoked, answered] = [] }) => [begin ?? invoked ?? null, end ?? answered ?? null];
  for (const one of txns) for (const other of txns) { const [, ended] = times(one), [began] = times(other);
    if (one !== other && ended !== null && began !== null && ended <= began) before.add(at.get(one.name).at(-1), at.get(other.name)[0]); } }
function chosen(txns, cycle) { const isSmall = txns.length <= MOST.txns && txns.reduce((sum, { ops }) => sum + ops.length, 0) <= MOST.operations;
  if (isSmall || !cycle.length) return isSmall ? txns : txns.slice(0, MOST.txns);
  const names = new Set(cycle.flatMap(({ from, to, source, reader }) => [from, to, source, reader]).filter((it) => it !== null && it !== undefined).map(String));
  return txns.filter(({ name }) => names.has(name)); }
function edgeEnds({ kind, key, read: seen, written, from, to, operations, words = "" }, moves) {
  const own = (name) => moves.flatMap((it, index) => (it.txn === String(name) && /^(read|scan|write|miss)$/.test(it.kind) ? [index] : []));
  if (String(from) === String(to)) { const numbers = operations ?? [...words.matchAll(/operation (\d+)/g)].map((it) => Number(it[1])), its = own(from);
    return [its[numbers[0] - 1] ?? its[0], its[numbers[1] - 1] ?? its.at(-1)]; }
  const isAt = (it) => same(it.key, key), reads = (name, value) => own(name).findLast((it) => foundBy(moves[it]).some((pair) => same(pair, [key, value]))) ?? own(name).findLast((it) => (moves[it].kind === "read" || moves[it].kind === "miss") && isAt(moves[it])) ?? own(name).findLast((it) => moves[it].kind === "scan");
  const writes = (name, value) => own(name).findLast((it) => moves[it].kind === "write" && isAt(moves[it]) && (value === null || value === undefined || same(moves[it].value, value))) ?? own(name).findLast((it) => moves[it].kind === "write" && isAt(moves[it]));
  return [kind === "rw" ? reads(from, seen) : writes(from, kind === "wr" ? seen ?? written : null), kind === "wr" ? reads(to, seen ?? written) : writes(to, kind === "rw" ? written : null)] .map((it, index) => it ?? own(index ? to : from).at(-1)); }
const VERDICT = { holds: "serializable", serializable: "serializable", "serializable in another order": "serializable", fails: "not serializable", "not serializable": "not serializable" };
function playOfLog(text, answer) { const { rows, txns: all } = read(text), edges = answer.cycle ?? [], txns = chosen(all, edges);
  const moves = txns.flatMap((txn) => [...txn.ops.map((op) => moveOf(op, txn.name, txn.line)), endOf(txn)]);
  const cycle = edges.map((edge) => ({ ...edge, from: edge.from === null || edge.from === undefined ? null : String(edge.from), to: edge.to === null ? null : String(edge.to), ends: edgeEnds(edge, moves) }));
  const order = constraints(txns, moves, cycle).order(moves), place = (index) => order.indexOf(index) + 1;
  const told = order.map((index) => ({ ...moves[index], ...found(moves[index], moves, rows, place) })); return {
    kind: "log", level: answer.level ?? "serializable", names: txns.map(({ name }) => name), levels: txns.map(({ level }) => level ?? "serializable"), order: null, moves: told, breaks: null,
    together: { verdict: answer.verdict, anomaly: answer.anomaly ?? "", order: answer.serial_order?.map(String) ?? [], cycle: cycle.map((edge) => ({ ...edge, moves: edge.ends.map((it) => (it === undefined ? null : place(it))) })) },
    about: txns.length < all.length ? `The log has ${all.length} transactions; these are ${edges.length ? "those of the cycle" : "the first ones"}.` : "", }; }
function found(it, moves, rows, place) {
  if (it.found !== undefined) return { writer: { txn: moves[it.found].txn, move: place(it.found) }, why: `${named(moves[it.found].txn)} wrote it` };
  if (it.kind !== "read" || it.value === null) return {};
  const own = moves.some((other) => other.txn === it.txn && other.kind === "write" && same([other.key, other.value], [it.key, it.value]));
  if (own) return { why: "It sees its own write" }; if (rows.some((row) => same(row, [it.key, it.value]))) return { why: "" };
  return { why: writersOf(moves, it).length ? "Several have written this value" : "Nobody here wrote this value" }; }
return { isLog, playOfLog }; })(); Story.view = (() => { const { esc, grouped, plain, rich, sentences } = Story.text; const { layout } = Story.layout;
const { lanes, names } = Story.lanes; const { keys, tracks } = Story.rows; const { bars, hasOutcome, mini } = Story.cards;
const { samePlace, shortVerdict } = Story.story; const WRITTEN = "as written"; function positionOf(at, story) { if (at === "start") return 0;
  if (at === "end") return story.columns.length + 1; const all = story.columns.flatMap((it, index) => (fits(it, at) ? [index + 1] : []));
  return all[(at.nth ?? 1) - 1] ?? -1; }
const fits = (column, { kind, txn, key }) => column.kind === kind && (txn === undefined || column.txn === txn) && (key === undefined || String(column.key ?? column.bucket) === String(key));
function edgesHtml({ verdict, always, names: all }) {
  const broken = always.find((it) => it.line === verdict.breaks), rows = verdict.edges.map((edge) => [`${edge.kind} ${edge.key ?? ""}`, rich(edge.say, all)]);
  if (verdict.breaks !== null) rows.push(["always", `${esc(broken?.text ?? `line ${verdict.breaks}`)} doesn’t hold at the end.`]);
  return rows.length ? `<ul class="${rows.length > 3 ? "two" : ""}">${rows.map(([kind, said]) => `<li><span class="edge-kind">${esc(kind)}</span><span>${said}</span></li>`).join("")}</ul>` : ""; }
function sentence(model, story, { step, mode }) { const column = story.columns[step - 1], { verdict } = story; if (step === 0 || mode === "compare") {
    const asked = model.question || model.title, more = model.question && mode !== "compare" && !model.intro ? model.about : "";
    return `<p>${esc(asked)}</p>${more ? `<p class="why">${esc(more)}</p>` : ""}`; }
  if (column) return `<p class="${column.breaks === null ? "" : "not"}">${rich(column.say, story.names)}</p>${column.why ? `<p class="why">${rich(column.why, story.names)}</p>` : ""}`;
  const isBad = verdict.kind === "not" || verdict.breaks !== null, tail = sentences([verdict.kind === "not" ? verdict.name : "", verdict.tail]);
  return `<p class="verdict ${isBad ? "not" : ""}">${rich(verdict.say, story.names)}</p>${tail ? `<p class="why">${rich(tail, story.names)}</p>` : ""}${edgesHtml(story)}`; }
function sentenceRoom(model, mode) { if (mode === "compare") return 3.2;
  const rows = Object.values(model.stories).map(({ verdict }) => verdict.edges.length + (verdict.breaks === null ? 0 : 1)), most = Math.max(0, ...rows), lines = most > 3 ? Math.ceil(most / 2) : most;
  return Math.max(6, (lines ? 4.8 : 3.2) + 1.4 * lines); }
const cell = (kind, inside) => `<div class="${kind}">${inside}</div>`; const laid = new WeakMap(); function laidOut(story, { w, h, u }) {
  const room = `${w} ${h} ${u}`; if (laid.get(story)?.room !== room) laid.set(story, { room, at: layout(story, { w, h, u }) }); return laid.get(story).at; }
function stage(story, step, room) {
  const at = laidOut(story, room), parts = [cell("names", names(story, at, step)), cell("lanes", lanes(story, at, step, true))];
  if (story.tracks.length + story.always.length) parts.push(cell("names", keys(story, at)), cell("tracks", tracks(story, at, step)));
  return { html: parts.join(""), at }; }
function compared(model, story, step, { w, h, u }) {
  const all = model.levels.map((level) => [level, model.stories[level]]).filter(([, it]) => it), stories = all.map(([, it]) => it), heading = 2.2 * u;
  const at = stories.map((it) => layout(it, { w, h: h / stories.length - heading, u, all: stories, rows: false }));
  const html = all.map(([level, its], index) => {
    const now = samePlace(story, step, its), isEnd = now > its.columns.length, { kind, breaks } = its.verdict, said = now ? rich(isEnd ? its.verdict.say : its.columns[now - 1].say, its.names) : "";
    return `<h2 class="${isEnd && (kind === "not" || breaks !== null) ? "not" : ""}"><span>${esc(level)}</span> ${said}</h2>${cell("names", names(its, at[index], now))}<div class="lanes" data-level="${esc(level)}">${lanes(its, at[index], now, true)}</div>`; }).join("");
  return { html, at: at[stories.indexOf(story)] }; }
const KINDS = [["slate", "serializable"], ["hatch", "in another order"], ["bad", "✗ not serializable"]];
const swatch = ([kind, words]) => `<span class="kind"><svg class="pic" viewBox="0 0 22 16" aria-hidden="true"><rect width="22" height="16" rx="3" class="${kind}"/></svg>${words}</span>`;
function legend({ outcomes, levels, uncounted }) { const counted = levels.map((level) => outcomes[level]).find(Boolean);
  if (counted) return `<p class="st-legend">This order at each level, and all ${grouped(counted.orders)} orders by outcome: ${KINDS.map(swatch).join(" ")}. A bar plays one.</p>`;
  return `<p class="st-legend">This order at each level.${uncounted ? ` ${esc(uncounted)}` : ""}</p>`; }
function cards(model, { level }, { w, u, narrow }) { const inner = (narrow ? w : (w - 0.8 * u * (model.levels.length - 1)) / model.levels.length) - 1.4 * u;
  return legend(model) + model.levels.map((name, index) => { const its = model.stories[name], counted = model.outcomes[name], isHere = name === level;
    if (!its) return `<div class="level"><p class="head">${esc(name)}</p></div>`;
    const isBad = its.verdict.kind === "not" || its.verdict.breaks !== null, head = `<span class="head"><span>${esc(name)}</span> <span class="end ${isBad ? "not" : ""}">${esc(shortVerdict(its))}</span></span>`;
    const small = mini(its, inner, Math.min(3.9, 1.25 * its.names.length) * u, u), label = `this order at ${name}`;
    const card = isHere ? `<div class="card" aria-current="true">${head}${small}</div>` : `<button class="card" data-level="${esc(name)}" title="${index + 1}: ${label}">${head}${small}</button>`;
    return `<div class="level"${isHere ? " data-here" : ""} data-card="${esc(name)}">${card}${counted ? bars(counted, its.names, inner, u, hasOutcome(its)) : ""}</div>`; }).join(""); }
function told(model, story, { level }, hidesAfter = Infinity) { const end = story.columns.length + 1, isOwn = model.isOwnOrder !== false;
  const asides = model.asides.filter((it) => (!it.level || it.level === level) && (!it.verdict || it.verdict === story.verdict.kind) && (isOwn || it.isGeneral));
  const beside = (position) => asides.filter((it) => positionOf(it.at, story) === position).map((it) => `<div class="aside">${it.html}</div>`).join("");
  const tell = (position, html) => (position > hidesAfter ? "" : `<div class="tell" data-step="${position}">${html}</div>${beside(position)}`);
  const moves = story.columns.map((it, index) => tell(index + 1, `<p><b>${index + 1}</b> ${rich(sentences([it.say, it.why]), story.names)}</p>`));
  const { verdict } = story, said = `<p><b>${rich(verdict.say, story.names)}.</b> ${rich([verdict.tail, ...verdict.edges.map((it) => it.say)].filter(Boolean).join(" "), story.names)}</p>`;
  const paragraph = (words, kind) => (words ? `<p class="${kind}">${esc(words)}</p>` : "");
  return tell(0, model.intro ?? paragraph(model.about, "about") + paragraph(model.question, "ask")) + moves.join("") + tell(end, said) + (hidesAfter < end ? "" : model.after ?? ""); }
const lines = (story) => [...story.columns.map((it, index) => `${index + 1}. ${plain(sentences([it.say, it.why]))}`), `${plain(story.verdict.say)}.`].join("\n");
return { WRITTEN, positionOf, sentence, sentenceRoom, stage, compared, legend, cards, told, lines }; })(); Story.ask = (() => {
const { VERDICTS } = Story.story; const { esc, plain, rich } = Story.text; const named = (name) => `{${name}}`;
const isOpen = (story, t, index) => story.columns.some((it, at) => it.t === t && at < index) && !story.columns.some((it, at) => it.t === t && at < index && /commit|abort/.test(it.kind));
const others = (story, t, index) => story.names.map((_, other) => other).filter((other) => other !== t && isOpen(story, other, index));
function candidates(story, key, index) { const track = story.tracks.find((it) => String(it.key) === String(key));
  const seen = [...(track?.segments ?? []), ...(track?.pending ?? [])].filter((it) => it.t === null || it.from < index).map(({ value }) => value ?? "nothing");
  return [...new Set(seen.map(String))]; }
const wasWritten = (story, { t, key }, index) => story.columns.some((it, at) => at < index && it.kind === "write" && it.t !== t && String(it.key) === String(key));
function answerOf(story, column) { const { kind, value } = column; if (kind === "read") return String(value ?? "nothing");
  if (kind === "wait") return `waits for ${column.for.map(({ txn }) => named(txn)).join(", ")}`;
  return { write: "writes", miss: "writes nothing", skip: "leaves it out", commit: "commits", abort: "aborts" }[kind]; }
function choicesOf(story, column, index) { const { kind, t, key } = column, isEnd = /wait|commit/.test(kind) || (kind === "abort" && !column.op);
  if (kind === "read" || (kind === "abort" && column.op === "read")) return [...candidates(story, key, index), "aborts"];
  if (isEnd) return ["commits", ...others(story, t, index).map((other) => `waits for ${named(story.names[other])}`), "aborts"];
  if (kind === "skip") return ["writes", "leaves it out"]; return wasWritten(story, column, index) || kind !== "write" ? ["writes", "aborts"] : []; }
const wordsOf = (column) => { const isEnd = /wait|commit/.test(column.kind) || (column.kind === "abort" && !column.op), me = named(column.txn);
  if (isEnd) return `${me} wants to commit. What happens?`;
  return column.kind === "read" || column.op === "read" ? `${me} reads ${column.key}. What does it find?` : `${me} wants to write ${column.key}. What happens?`; };
function questionAt(story, position) { const column = story.columns[position];
  if (position === story.columns.length) return { words: "And all of it together?", choices: Object.values(VERDICTS).slice(0, 3), right: VERDICTS[story.verdict.kind] };
  if (!column || column.kind === "scan" || column.op === "scan" || column.kind === "refused" || (column.isLate && column.kind === "commit")) return null;
  if (column.kind === "abort" && column.cause === "asked") return null;
  const right = answerOf(story, column), choices = [...new Set([...choicesOf(story, column, position), right])];
  return choices.length > 2 || (choices.length === 2 && !/read/.test(column.kind)) ? { words: wordsOf(column), choices, right } : null; }
const questions = (story) => Array.from({ length: story.columns.length + 1 }, (_, position) => ({ position, ...questionAt(story, position) })).filter((it) => it.words);
const questionHtml = ({ words, choices }, names) => `<p>${rich(words, names)}</p><p class="choices">${choices.map((it, index) => `<button data-choice="${index}"><kbd>${index + 1}</kbd> ${rich(it, names)}</button>`).join(" ")}</p>`;
function result(title, story, answers) {
  const asked = questions(story).filter(({ position }) => answers.has(position)), right = asked.filter(({ position, right: it }) => answers.get(position) === it).length;
  const line = ({ position, words, right: it }) => `${position + 1}. ${plain(words)} ${plain(answers.get(position))} ${answers.get(position) === it ? "✓" : `✗ (${plain(it)})`}`;
  return [`${title}: ${right} of ${asked.length} right`, ...asked.map(line)].join("\n"); }
"##;

pub(crate) const SCRIPT_SECOND: &str = r##"function worksheet(story) {
  const item = ({ position, words, choices }) => `<li value="${Math.min(position + 1, story.columns.length + 1)}"><p>${rich(words, story.names)}</p><p>${choices.map((it) => `☐ ${rich(it, story.names)}`).join(" &nbsp; ")}</p></li>`;
  const asked = new Map(questions(story).map((it) => [it.position, it]));
  const plainly = (column, position) => `<li value="${position + 1}"><p>${rich(column.kind === "scan" ? `${named(column.txn)} scans: ______` : column.kind === "commit" || column.kind === "abort" ? `${named(column.txn)} ends: ______` : column.kind === "read" ? `${named(column.txn)} reads ${column.key}: ______` : column.say, story.names)}</p></li>`;
  const moves = story.columns.map((column, position) => (asked.has(position) ? item(asked.get(position)) : plainly(column, position))).join("");
  const last = asked.get(story.columns.length), rows = story.tracks.map(({ key }) => `${esc(key)} = ______`).join(" &nbsp; ");
  return `<ol class="sheet">${moves}${last ? item(last) : ""}</ol>${rows ? `<p>The rows at the end: ${rows}</p>` : ""}<p>${story.names.map((name, t) => `${rich(named(name), story.names)}: ☐ committed ☐ aborted`).join(" &nbsp; ")}</p>`; }
return { questionAt, questions, questionHtml, result, worksheet }; })(); Story.player = (() => { const { BAR, markAt } = Story.cards;
const { cards, compared, sentence, sentenceRoom, stage, told } = Story.view; const { questionAt, questionHtml, questions, result } = Story.ask;
const { samePlace } = Story.story; const { esc, rich } = Story.text; const NARROW = "(max-width: 50rem)";
const FORWARD = { ArrowRight: 1, ArrowDown: 1, PageDown: 1, ArrowLeft: -1, ArrowUp: -1, PageUp: -1 }; const READING = 700; const LEAST_CARDS = 10;
class Player { constructor(host) { this.host = host; this.model = this.place = null; this.reading = -Infinity; this.answers = new Map(); this.isAsking = false;
    this.drawn = []; this.listen(); }
  get story() { return this.model?.stories[this.place.level] ?? null; }
  get end() { return (this.story?.columns.length ?? 0) + 1; }
  show(model, place, { scrolls = true } = {}) { const isNew = model !== this.model || place.level !== this.place?.level;
    if (model.id !== this.model?.id || place.level !== this.place?.level || !place.asks) { this.answers.clear(); this.isAsking = false; }
    [this.model, this.place] = [model, place]; const { story } = this; if (!story) return this.clear();
    this.unit = parseFloat(getComputedStyle(document.documentElement).fontSize); this.showSentence(story); this.showCards(story); this.showStage(story);
    this.showTold(story, isNew, scrolls); this.showState(story); return undefined; }
  clear() { for (const id of ["st-say", "st-grid", "st-cards", "st-prose"]) byId(id).replaceChildren(); byId("st-position").textContent = ""; }
  showSentence(story) { const { model, place } = this, say = byId("st-say"), question = this.isAsking ? questionAt(story, place.step) : null;
    say.style.minHeight = `${sentenceRoom(model, place.mode)}rem`;
    put(say, question ? questionHtml(question, story.names) : this.feedback(story) + sentence(model, story, place)); }
  feedback(story) { const { asks, step } = this.place, answer = this.answers.get(step - 1); if (!asks || answer === undefined) return "";
    const isRight = answer === questionAt(story, step - 1).right;
    return `<p class="guess ${isRight ? "" : "not"}">${isRight ? "✓ Right." : `✗ The guess was: ${rich(answer, story.names)}.`}</p>`; }
  showCards(story, high = null) {
    const { model, place, unit } = this, box = byId("st-cards"), isHidden = place.mode !== "" || place.asks || model.levels.length < 2, narrow = matchMedia(NARROW).matches;
    box.hidden = isHidden; if (isHidden) return put(box, ""); box.style.setProperty("--cards", model.levels.length);
    if (high === null) box.style.removeProperty("--high"); else box.style.setProperty("--high", `${high}px`);
    const w = box.clientWidth, drawn = [model, place.level, w, unit, narrow, high];
    if (!box.put || drawn.some((it, index) => it !== this.drawn[index])) this.drawCards(box, cards(model, place, { w, u: unit, narrow })); this.drawn = drawn;
    for (const card of box.querySelectorAll("[data-card]")) {
      const its = model.stories[card.dataset.card], mark = card.querySelector(".mark"), x = markAt(its, samePlace(story, place.step, its));
      mark.setAttribute("visibility", x === null ? "hidden" : "visible"); for (const name of ["x1", "x2"]) mark.setAttribute(name, x ?? 0); }
    return undefined; }
  drawCards(box, html) { for (const it of box.querySelectorAll(".more")) it.remove();
    const scrolled = [...box.querySelectorAll(".level")].map((it) => it.scrollTop); put(box, html); box.querySelectorAll(".level").forEach((card, index) => {
      card.scrollTop = scrolled[index] ?? 0; if (card.scrollHeight <= card.clientHeight + 2) return;
      const all = card.querySelectorAll("[data-order]").length, bar = BAR * this.unit, top = card.scrollTop + card.lastElementChild.getBoundingClientRect().top - card.getBoundingClientRect().top - card.clientTop, whole = Math.floor((card.clientHeight - top - 1.2 * this.unit) / bar), h = card.clientHeight - top - whole * bar + 1;
      card.insertAdjacentHTML("beforeend", `<div class="more" style="height: ${h}px; margin-top: -${h}px">${all - whole} more ↓</div>`); }); }
  showStage(story, isLast = false) {
    const { model, place, unit: u } = this, main = byId("st-main"), view = byId("st-stage"), narrow = matchMedia(NARROW).matches, style = getComputedStyle(main);
    const w = Math.floor(main.getBoundingClientRect().width - parseFloat(style.paddingLeft) - parseFloat(style.paddingRight)) - 1, below = byId("st-cards").hidden ? 0 : byId("st-cards").offsetHeight + 0.5 * u;
    const room = { w, h: narrow ? 0 : main.clientHeight - byId("st-say").offsetHeight - below - 1.2 * u, u };
    const { html, at } = place.mode === "compare" ? compared(model, story, place.step, room) : stage(story, place.step, room), hadFocus = view.contains(document.activeElement) && document.activeElement !== view;
    draw(byId("st-grid"), html); const left = byId("st-cards").offsetHeight - (view.scrollHeight - view.clientHeight) - 1;
    if (!narrow && !isLast && below > 0 && view.scrollHeight > view.clientHeight + 1 && left >= LEAST_CARDS * u) { this.showCards(story, left);
      this.showStage(story, true); return; }
    if (hadFocus) (view.querySelector('[tabindex="0"]') ?? view).focus({ preventScroll: true });
    const x = place.step ? at.left(place.step - 1) : 0, edge = view.clientWidth - at.gutter;
    if (x < view.scrollLeft || x + at.width(0) * 1.5 > view.scrollLeft + edge) view.scrollLeft = Math.max(0, x - edge * 0.6);
    view.classList.toggle("cut", view.scrollWidth > view.clientWidth + 1); }
  showTold(story, isNew, scrolls) { const { model, place } = this, prose = byId("st-prose"), { step, asks } = place;
    if (isNew || asks !== prose.asked || asks) put(prose, told(model, story, place, asks ? step : Infinity)); prose.asked = asks;
    prose.classList.toggle("asks", asks === true);
    for (const it of prose.querySelectorAll(".tell")) it.classList.toggle("here", Number(it.dataset.step) === step);
    const here = prose.querySelector(".tell.here");
    if (scrolls && here && prose.scrollHeight > prose.clientHeight) prose.scrollTop = step === 0 ? 0 : here.offsetTop - prose.clientHeight * 0.3; }
  showState(story) { const { step, mode } = this.place, isEnd = step >= this.end;
    byId("st-position").textContent = isEnd ? "verdict" : `${step} / ${story.columns.length}`; byId("st-prev").disabled = step === 0;
    for (const id of ["st-next", "st-end"]) byId(id).disabled = isEnd; byId("st-compare").hidden = this.model.levels.length < 2;
    for (const name of ["compare", "machine"]) byId(`st-${name}`).setAttribute("aria-pressed", mode === name);
    const which = this.model.isOwnOrder === false ? `order ${this.model.order.join(" ")}` : "";
    byId("st-which").textContent = this.place.asks ? this.score(story) : which; byId("st-which").title = which; document.body.dataset.position = step; }
  score(story) { const asked = [...this.answers], right = asked.filter(([position, answer]) => questionAt(story, position).right === answer).length;
    return `${right} of ${asked.length} right, ${questions(story).length} questions`; }
  result() { return result(this.model.title, this.story, this.answers); }
  step(to, options) { const step = Math.max(0, Math.min(this.end, to)); if (this.isAsking) return;
    if (this.place.asks && step === this.place.step + 1 && !this.answers.has(this.place.step) && questionAt(this.story, this.place.step)) {
      this.isAsking = true; this.show(this.model, this.place); } else if (step !== this.place.step) this.host.go({ step: this.place.asks ? Math.min(step, this.furthest()) : step }, false, options); }
  furthest() { const open = questions(this.story).find(({ position }) => !this.answers.has(position) && position >= this.place.step);
    return open ? Math.max(open.position, this.place.step) : this.end; }
  choose(index) { const { choices } = questionAt(this.story, this.place.step); if (!choices[index]) return; this.answers.set(this.place.step, choices[index]);
    this.isAsking = false; this.host.go({ step: this.place.step + 1 }, false); }
  toLevel(level) { const to = this.model.stories[level];
    if (to && level !== this.place.level) this.host.go({ level, step: samePlace(this.story, this.place.step, to) }, true); }
  flip(mode) { if (mode === "compare" && this.model.levels.length < 2) return; this.host.go({ mode: this.place.mode === mode ? "" : mode }, false); }
  listen() { byId("st-prev").addEventListener("click", () => { this.isAsking = false; this.step(this.place.step - 1); });
    byId("st-next").addEventListener("click", () => this.step(this.place.step + 1)); byId("st-end").addEventListener("click", () => this.step(this.end));
    byId("st-compare").addEventListener("click", () => this.flip("compare")); byId("st-machine").addEventListener("click", () => this.flip("machine"));
    for (const id of ["st-say", "st-grid", "st-cards", "st-prose"]) byId(id).addEventListener("click", (event) => this.pressed(event.target));
    const prose = byId("st-prose");
    for (const kind of ["wheel", "touchmove", "pointerdown"]) prose.addEventListener(kind, () => { this.reading = performance.now(); }, { passive: true });
    prose.addEventListener("scroll", () => this.scrolled(prose)); }
  pressed(target) {
    const choice = target.closest("[data-choice]"), bar = target.closest("[data-order]"), move = target.closest("[data-step]"), level = target.closest("[data-level]");
    if (choice) this.choose(Number(choice.dataset.choice));
    else if (bar) this.host.go({ order: bar.dataset.order.split(" "), level: bar.closest("[data-card]").dataset.card, step: 0 }, true);
    else if (move && !target.closest("a, button:not([data-step]), summary, details")) this.toMove(Number(move.dataset.step), level?.dataset.level);
    else if (level && level.tagName === "BUTTON") this.toLevel(level.dataset.level); else return false; return true; }
  toMove(step, level) { if (level && level !== this.place.level) this.host.go({ level, step }, true); else this.step(step); }
  scrolled(prose) { if (performance.now() - this.reading > READING || this.place?.asks || prose.scrollHeight <= prose.clientHeight) return;
    this.reading = performance.now();
    const y = prose.scrollTop + prose.clientHeight * 0.3, all = [...prose.querySelectorAll(".tell")], at = all.filter((it) => it.offsetTop <= y + 8).length - 1, to = Number(all[Math.max(0, at)]?.dataset.step ?? 0);
    if (to !== this.place.step) this.host.go({ step: to }, false, { scrolls: false }); }
  key(event) { const { key, target } = event, press = target.closest?.("[data-order], [data-step][role], button, a, summary"); if (!this.story) return false;
    if ((key === "Enter" || key === " ") && press) { if (!press.matches("[data-order], g[data-step]")) return false; return this.pressed(press); }
    if (this.isAsking && /^[1-9]$/.test(key)) { this.choose(Number(key) - 1); return true; }
    if (this.isAsking && (key === "Escape" || FORWARD[key] < 0)) { this.isAsking = false; this.show(this.model, this.place); return true; }
    if (FORWARD[key]) this.step(this.place.step + FORWARD[key]); else if (key === " ") this.step(this.place.step + (event.shiftKey ? -1 : 1));
    else if (key === "Home") this.step(0); else if (key === "End") this.step(this.end);
    else if (/^[1-4]$/.test(key) && this.model.levels[key - 1]) this.toLevel(this.model.levels[key - 1]);
    else if (key === "c" || key === "m") this.flip(key === "c" ? "compare" : "machine"); else return false; return true; } }
const byId = (id) => document.getElementById(id); function put(element, html) { if (element.put === html) return; element.innerHTML = html; element.put = html; }
function draw(element, html) { if (element.put === html) return; const wanted = element.cloneNode(false); wanted.innerHTML = html; become(element, wanted);
  element.put = html; }
function become(element, wanted) { let own = element.firstChild, its = wanted.firstChild; while (own && its) {
    const [after, next] = [own.nextSibling, its.nextSibling]; if (own.isEqualNode(its)) [own, its] = [after, next];
    else if (next && own.isEqualNode(next)) { element.insertBefore(its, own); its = next; }
    else if (after?.isEqualNode(its)) { own.remove(); own = after; }
    else { if (own.nodeType === Node.ELEMENT_NODE && own.nodeName === its.nodeName) { dress(own, its); become(own, its); } else own.replaceWith(its);
      [own, its] = [after, next]; } }
  while (own) { const after = own.nextSibling; own.remove(); own = after; }
  while (its) { const next = its.nextSibling; element.append(its); its = next; } }
function dress(element, wanted) { for (const name of element.getAttributeNames()) if (!wanted.hasAttribute(name)) element.removeAttribute(name);
  for (const { name, value } of wanted.attributes) if (element.getAttribute(name) !== value) element.setAttribute(name, value); }
function showText(element, text, story, step) {
  const column = story?.columns[step - 1], isEnd = step > (story?.columns.length ?? 0), broken = isEnd ? story?.verdict.breaks : column?.breaks;
  if (element.text !== text) put(element, text.trimEnd().split("\n").map((line) => `<span>${esc(line) || " "}</span>`).join("")); element.text = text;
  for (const line of element.querySelectorAll(".here, .broken")) line.classList.remove("here", "broken");
  element.children[column?.line - 1]?.classList.add("here"); element.children[broken - 1]?.classList.add("broken");
  const here = element.querySelector(".here, .broken") ?? (step === 0 ? element.firstElementChild : null);
  if (here) element.scrollTop = here.offsetTop - element.offsetTop - element.clientHeight / 2; }
return { Player, showText }; })(); Story.page = (() => { const { Player, showText } = Story.player; const { playOfLog } = Story.log;
const { movesAt, stepAfter, storyOf } = Story.story; const { WRITTEN } = Story.view; const LEVELS = ["serializable", "repeatable", "snapshot"];
const byId = (id) => document.getElementById(id); const wordOf = (level) => (level === WRITTEN ? "written" : level);
const same = (one, other) => one.join(" ") === other.join(" ");
const levelOf = ({ level, levels }) => level ?? (new Set(levels).size === 1 ? levels[0] : WRITTEN); function outcomesOf(rows) { if (!rows.length) return {};
  return Object.fromEntries(LEVELS.map((level) => {
    const outcomes = rows.filter((it) => Number(it.levels[level]) > 0).map((it) => ({ ...it, orders: Number(it.levels[level]), first: it.first[level] }));
    return [level, { orders: outcomes.reduce((sum, it) => sum + it.orders, 0), outcomes }]; })); }
class StoryPage { constructor(sheet, objects, panels) { Object.assign(this, { sheet, panels, models: new Map() }); this.text = sheet.text ?? "";
    const log = objects.find((it) => it.kind === "verdict"); this.plays = log ? [playOfLog(this.text, log)] : objects.filter((it) => it.kind === "play");
    this.outcomes = outcomesOf(objects.filter((it) => it.kind === undefined && it.levels !== undefined)); this.isLog = Boolean(log); [this.own] = this.plays;
    this.place = { level: log ? "serializable" : levelOf(this.own), step: 0, mode: "", asks: false }; this.order = this.own.order ?? [];
    this.player = new Player({ go: (change, isEntry, options) => this.go(change, isEntry, options) });
    byId("st-back").addEventListener("click", () => history.back()); addEventListener("resize", () => { if (this.isOpen) this.show(); });
    byId("st-machine").hidden = this.isLog || !panels; }
  model(order) { const id = order.join(" "); if (!this.models.has(id)) { const stories = {};
      for (const play of this.plays) if (same(play.order ?? [], order)) stories[this.isLog ? "serializable" : levelOf(play)] ??= storyOf(play, this.text);
      const { title, about, question } = this.sheet;
      this.models.set(id, { id, title, text: this.text, about: about ?? "", question: question ?? "", stories, outcomes: this.outcomes, levels: [WRITTEN, ...LEVELS].filter((it) => stories[it]),
        order, isOwnOrder: same(order, this.own.order ?? []), asides: [], uncounted: "" }); }
    return this.models.get(id); }
  has(order, level = null) { return this.plays.some((it) => same(it.order ?? [], order) && (level === null || levelOf(it) === level)); }
  open(order, level) { this.order = order; this.place = { ...this.place, level: level ?? this.place.level, step: Infinity, mode: "" }; this.show();
    this.write(); }
  show(options) { const model = this.model(this.order); if (!model.stories[this.place.level]) this.place.level = model.levels[0];
    this.place.step = Math.max(0, Math.min(this.place.step, model.stories[this.place.level].columns.length + 1));
    document.documentElement.classList.add("told"); this.player.show(model, this.place, options);
    showText(byId("st-text"), this.text, this.player.story, this.place.step); byId("st-back").hidden = !(history.state?.depth > 0); }
  get isOpen() { return document.documentElement.classList.contains("told"); }
  go(change, isEntry = false, options = {}) { if (change.mode === "machine") return this.openMachine(); const { order, ...rest } = change;
    if (isEntry) try { history.pushState({ depth: (history.state?.depth ?? 0) + 1 }, "", this.address()); } catch {}
    if (order && this.has(order)) this.order = order; this.place = { ...this.place, ...rest }; this.show(options); this.write(); return undefined; }
  openMachine() { if (!this.panels || this.isLog) return; document.documentElement.classList.remove("told");
    this.opened = stepAfter(this.player.story, this.place.step); this.panels.open(this.opened); }
  close(step) { this.place = { ...this.place, mode: "", step: step === this.opened ? this.place.step : movesAt(this.player.story, step) }; this.show();
    this.write(); }
  address() {
    const { level, step } = this.place, isOwn = same(this.order, this.own.order ?? []), order = isOwn ? "" : `/${this.order.join(".")}`, front = isOwn && level === levelOf(this.own) ? "" : `${wordOf(level)}${order}`;
    return `#${front}${step || front ? `@${step}` : ""}`; }
  write() { const to = this.address();
    if (location.hash !== to) try { history.replaceState(history.state, "", to === "#" ? location.pathname + location.search : to); } catch {} }
  read(hash, isFirst) { if (hash.replace(/^#/, "") === "" && !isFirst) return false;
    const [front, at = ""] = hash.replace(/^#/, "").split("@"), [word, order] = front.split("/"), level = word === "written" ? WRITTEN : word;
    if (!/^\d{0,6}$/.test(at) || (front !== "" && level !== WRITTEN && !LEVELS.includes(level)) || (front === "" && at === "" && hash.replace(/^#/, "") !== "")) return false;
    const asked = order?.split(".") ?? this.own.order ?? []; this.order = this.has(asked) ? asked : this.own.order ?? [];
    this.place = { ...this.place, level: front ? level : levelOf(this.own), step: Number(at || 0), mode: "" };
    if (this.isLog) this.place.level = "serializable"; this.show(); return true; } }
return { StoryPage }; })(); "use strict"; const sheet = Story.text.parse(document.getElementById("data").textContent);
let data = sheet.kind === "levels" ? sheet.trees[0] : sheet; const $ = (id) => document.getElementById(id);
const linesOf = (text) => text.split("\n").filter((line) => line !== "");
const esc = (text) => String(text).replace(/[&<>"]/g, (it) => ({ "&": "&amp;", "<": "&lt;", ">": "&gt;", '"': "&quot;" })[it]); function eventOf(line) {
  const [done, reply] = line.split(" -> "); const words = done.split(" "); const name = done === "detect" ? null : words.shift();
  return { name, op: words[0], args: words.slice(1), event: words.join(" "), reply, r: reply.split(" ") }; }
function versionOf(line) {
  const [, v, key, value, begin, bt, end, et] = /^version (\d+): key (\d+) value (\d+); ([0-9A-F]{16}) begin ([^;]*); ([0-9A-F]{16}) end (.*)$/.exec(line);
  const lock = /^lock readers (\d+) writer (\S+) no-more-reads (\S+)/.exec(et); return { line, v: Number(v), key, value, begin, bt, end, et,
    maker: /^transaction (\d+)/.exec(bt)?.[1] ?? null, made: /^time (\d+)/.exec(bt)?.[1] ?? null, ended: /^time (\d+)/.exec(et)?.[1] ?? null,
    readers: lock ? Number(lock[1]) : 0, writer: lock && lock[2] !== "none" ? lock[2] : null, noMore: lock?.[3] === "set", }; }
const listIn = (field) => { const words = field.split(" ").slice(1); return words[0] === "none" ? [] : words; }; function txnOf(line) {
  const [head, state, ...f] = line.split("; "); const [, id, name, level] = /^txn (\d+) (\S+): (\S+)$/.exec(head); const word = (at) => f[at].split(" ")[1];
  const time = (at) => (word(at) === "none" ? null : word(at)); return {
    line, id, name, level, state, kind: state.split(" ")[0], cause: state.split(" ")[1] ?? "",
    begin: time(0), end: time(1), waits: Number(word(2)), commits: Number(word(3)), finished: word(4) === "set", doomed: word(5) === "set",
    reads: listIn(f[6]), writes: listIn(f[7]), buckets: listIn(f[8]), waiting: listIn(f[9]), dependents: listIn(f[10]), }; }
const bucketOf = (line) => ({ line, bucket: /^bucket (\d+)/.exec(line)[1], holders: listIn(line.split("; ")[1]) }); function lastOf(list, position) {
  let [low, high] = [0, list.length]; while (low < high) { const mid = (low + high) >> 1; if (list[mid][0] <= position) low = mid + 1; else high = mid; }
  return low === 0 ? null : list[low - 1][1]; }
class Run { constructor({ opening, waits, asked }, steps, done) { this.done = done; this.steps = steps.map((it) => ({ ...it, ...eventOf(it.line) }));
    this.last = steps.length; this.past = new Map(); this.touched = [[]]; this.waitsAt = [[0, waits]]; for (const line of linesOf(opening)) this.keep(line, 0);
    steps.forEach((step, index) => { const at = index + 1; this.touched.push([]); for (const line of linesOf(step.changed)) this.keep(line, at);
      for (const subject of linesOf(step.gone)) this.put(subject, at, null); if (step.waits !== null) this.waitsAt.push([at, step.waits]); });
    this.txnIds = [...this.past.keys()].filter((it) => it.startsWith("txn ")).map((it) => it.slice(4)); this.txnIds.sort((a, b) => a - b);
    this.versionIds = [...this.past.keys()].filter((it) => it.startsWith("version ")).map((it) => it.slice(8));
    this.bucketIds = [...this.past.keys()].filter((it) => it.startsWith("bucket ")); this.names = new Map(this.txnIds.map((id) => [id, this.txn(id, 0).name]));
    this.ids = new Map([...this.names].map(([id, name]) => [name, id])); this.short = shortForms([...this.names.values()]);
    const acting = new Set(this.steps.map((it) => it.name));
    this.laneIds = this.txnIds.filter((id) => isTree || acting.has(this.names.get(id)) || this.past.get("txn " + id).length > 1);
    this.hasDetect = acting.has(null); this.follow(linesOf(asked)); Object.assign(this, columnsOf(isTree ? [] : this.polls, this.last)); }
  keep(line, at) { if (line.startsWith("clock")) this.put("clock", at, Number(line.slice(6)));
    else if (line.startsWith("version")) { const it = versionOf(line); this.put("version " + it.v, at, it); }
    else if (line.startsWith("txn")) { const it = txnOf(line); this.put("txn " + it.id, at, it); }
    else { const it = bucketOf(line); this.put("bucket " + it.bucket, at, it); } }
  put(subject, at, it) { let list = this.past.get(subject); if (!list) this.past.set(subject, (list = [])); list.push([at, it]);
    if (at > 0) this.touched[at].push(subject); }
  get(subject, position) { const list = this.past.get(subject); return list ? lastOf(list, position) : null; }
  txn(id, position) { return this.get("txn " + id, position); }
  version(v, position) { return this.get("version " + v, position); }
  clock(position) { return this.get("clock", position); }
  follow(asked) { this.phases = new Map(this.txnIds.map((id) => [id, []])); this.waitings = new Map(this.txnIds.map((id) => [id, []]));
    this.arrows = Array.from({ length: this.last + 1 }, () => []); const open = new Map(); this.polls = [];
    for (const id of this.txnIds) this.notePhase(id, 0); for (const line of asked) { const [id, kind] = line.split(" "); this.openWait(id, 0, kind, open); }
    this.steps.forEach((step, index) => { const at = index + 1; const who = step.name === null ? "detect" : this.ids.get(step.name);
      for (const id of linesOf(step.ends)) this.closeWait(id, at, who, open);
      for (const subject of this.touched[at]) if (subject.startsWith("txn ")) this.noteTxn(subject.slice(4), at, who);
      this.polls[at] = step.r[0] === "waiting" && open.has(who) && this.touched[at].length === 0;
      if (step.r[0] === "waiting") this.openWait(who, at, step.r[1] === "commits" ? "commits" : "waits", open); }); }
  openWait(id, at, kind, open) { if (open.has(id)) return; const wait = { from: at, to: null, kind }; open.set(id, wait); this.waitings.get(id).push(wait); }
  closeWait(id, at, who, open) { const wait = open.get(id); const now = this.txn(id, at); wait.to = at; open.delete(id);
    if (who !== id) this.arrow(at, who, id, now.kind === "aborted" || now.doomed ? "abort" : "free"); }
  noteTxn(id, at, who) { this.notePhase(id, at); const [old, now] = [this.txn(id, at - 1), this.txn(id, at)];
    for (const it of now.dependents) if (!old.dependents.includes(it)) this.arrow(at, it, id, "depends");
    for (const it of old.dependents) if (!now.dependents.includes(it)) this.arrow(at, id, it, this.txn(it, at).doomed ? "abort" : "free");
    if (who === "detect" && now.kind === "aborted" && old.kind !== "aborted") this.arrow(at, who, id, "abort"); }
  arrow(at, from, to, kind) { if (!this.arrows[at].some((it) => it.from === from && it.to === to)) this.arrows[at].push({ from, to, kind }); }
  notePhase(id, at) { const it = this.txn(id, at); const kind = it.kind === "active" && it.finished ? "finished" : it.kind === "not" ? "none" : it.kind;
    const list = this.phases.get(id); if (list.at(-1)?.kind !== kind) list.push({ from: at, kind }); }
  edges(position) { const edges = new Map(); for (const line of linesOf(lastOf(this.waitsAt, position))) { const [from, to, what, number] = line.split(" ");
      const kind = what === "commit" ? "commits" : "waits"; const key = `${from} ${to} ${kind}`;
      if (!edges.has(key)) edges.set(key, { from, to, kind, by: [] });
      edges.get(key).by.push(what === "version" ? `v${number}` : what !== "bucket" ? what : number === undefined ? "listed" : `bucket ${number}`); }
    return [...edges.values()]; } }
const isTree = data.kind === "tree"; let tree = null; let asked = null;
const askedTo = (place) => [...(asked ?? []), ...namesOf(tree, tree.path).slice(asked?.length ?? 0)].slice(0, place); function treeOf(data) {
  const text = (at) => data.texts[at]; const steps = data.steps.map(([line, changed, gone, why, sees, ends, rule, sentence, definition, comes, waits]) => ({
    line: text(line), changed: text(changed), gone: text(gone), why: text(why), sees: text(sees), waits: waits === undefined ? null : text(waits), ends: text(ends), rule: text(rule),
    sentence: text(sentence), definition: text(definition), comes: text(comes), }));
  const nodes = data.nodes.map(([parent, who, places, [outcome = null], counts, joins = []], index) => ({ index, parent, who: who - 1, steps: places.map((at) => steps[at]), outcome, next: [], counts, joins, own: new Set() }));
  for (const node of nodes.slice(1)) nodes[node.parent].next[node.who] = node.index;
  for (const node of nodes) for (const [who, joined] of node.joins) node.next[who - 1] = joined; for (const node of [...nodes].reverse()) {
    if (node.outcome !== null) node.own.add(node.outcome); for (const outcome of node.own) nodes[node.parent].own.add(outcome); }
  return { nodes, names: data.names, moves: data.moves, path: [0], isMerged: nodes.some((it) => it.joins.length > 0) }; }
function pathTo(its, at) { const path = [at]; while (path[0] > 0) path.unshift(its.nodes[path[0]].parent); return path; }
const namesOf = (its, path) => path.slice(1).map((at) => its.names[its.nodes[at].who]); const isJoin = (its, at, next) => its.nodes[next].parent !== at;
function pathOf(its, order) { let at = 0; for (const name of order) { const next = its.nodes[at].next[its.names.indexOf(name)]; if (next === undefined) break;
    at = next; }
  return pathTo(its, at); }
function askedOf(its, path, order) { const part = order.slice(0, path.length - 1); return part.join() === namesOf(its, path).join() ? null : part; }
function movesOn(its, at, outcome = null) { const order = []; let [node, joined] = [its.nodes[at], 0]; while (node.next.length) {
    const ways = node.next.filter((it) => it !== undefined && (outcome === null || its.nodes[it].counts[outcome] > 0));
    const next = ways.find((it) => !isJoin(its, node.index, it) && (outcome === null || its.nodes[it].own.has(outcome))) ?? ways[0];
    order.push(its.names[node.next.indexOf(next)]); if (isJoin(its, node.index, next)) joined = order.length; node = its.nodes[next]; }
  return { order, last: node.index, joined }; }
function movesDone(node) { const done = tree.names.map(() => 0); for (let at = node; at > 0; at = tree.nodes[at].parent) done[tree.nodes[at].who]++;
  return done; }
function runOfPath() { const steps = tree.path.flatMap((at) => tree.nodes[at].steps); return new Run(data, steps, 0); }
function endsOfPath() { let at = 0; return tree.path.map((node) => (at += tree.nodes[node].steps.length)); }
function placeHere() { const ends = endsOfPath(); let place = 0; ends.forEach((end, index) => { if (end <= here) place = index; }); return place; }
let run = null; let here = 0; let pinned = null; let isFuture = false; let isPredict = false; let guess = null;
const told = { right: 0, asked: 0, answers: new Map() }; const MOST_LETTERS = 2; function shortForms(names) {
  const short = new Map(names.filter((it) => it.length <= MOST_LETTERS).map((it) => [it, it]));
  for (const formsOf of [(it) => [it[0]], numberedForms, pairsOf]) { const left = names.filter((it) => !short.has(it)); const uses = new Map();
    for (const name of left) for (const form of new Set(formsOf(name))) uses.set(form, (uses.get(form) ?? 0) + 1); const taken = new Set(short.values());
    for (const name of left) { const form = formsOf(name).find((it) => uses.get(it) === 1 && !taken.has(it));
      if (form) { short.set(name, form); taken.add(form); } } }
  names.forEach((name, index) => { if (!short.has(name)) short.set(name, `${headOf(name)}${index + 1}`); }); return short; }
const headOf = (name) => (name[0] === "v" ? "V" : name[0]); function numberedForms(name) { const [number] = /\d{1,2}$/.exec(name) ?? [];
  return number ? [headOf(name) + number] : []; }
const pairsOf = (name) => [...name.slice(1)].filter((it) => it !== "_").map((it) => (/\d/.test(it) ? headOf(name) : name[0]) + it);
const shortOf = (id) => run.short.get(nameOf(id)) ?? String(id);
const namedTexts = (id, textOf) => (nameOf(id) === shortOf(id) ? [textOf(nameOf(id))] : [textOf(nameOf(id)), textOf(shortOf(id))]);
function columnsOf(polls, last) { const [spans, columnAt] = [[null], [0]]; for (let at = 1; at <= last; at++) {
    if (at > 1 && polls[at] && polls[at - 1]) spans.at(-1).to = at; else spans.push({ from: at, to: at }); columnAt.push(spans.length - 1); }
  return { spans, columnAt }; }
const columnOf = (at) => run.columnAt[at] ?? run.spans.length + at - run.last - 1; const spanOf = (at) => run.spans[columnOf(at)] ?? { from: at, to: at };
const columnCount = () => run.spans.length - 1; const isFolded = (at) => at > 0 && spanOf(at).from < spanOf(at).to;
const positionOn = (at) => (at >= run.last ? at : spanOf(at + 1).to); const positionBack = (at) => (at === 0 ? 0 : spanOf(at).from - 1);
function askedAgain(at) { const counts = new Map(); const { from, to } = spanOf(at); for (let each = from; each <= to; each++) {
    const id = run.ids.get(run.steps[each - 1].name); counts.set(id, (counts.get(id) ?? 0) + 1); }
  return counts; }
const timesSaid = (count) => (count === 1 ? "once" : count === 2 ? "twice" : `${count} times`); function foldedSentence(at) {
  const parts = [...askedAgain(at)].map(([id, count]) => `${tag(id)} asks again <b>${timesSaid(count)}</b>`);
  return `${parts.join(", ")}. Each answer is the same: <b>waiting</b>. Nothing changes.`; }
const nameOf = (id) => run.names.get(String(id)) ?? `transaction ${id}`; const colourOf = (id) => `c${(Number(id) - 1) % 6}`;
const tag = (id) => `<b class="t ${colourOf(id)}">${esc(nameOf(id))}</b>`; const tagName = (name) => (run.ids.has(name) ? tag(run.ids.get(name)) : esc(name));
const things = (count) => (count === "1" || count === 1 ? "1 thing" : `${count} things`);
const preparing = (count) => (count === "1" ? "1 transaction that is still preparing" : `${count} transactions that are still preparing`);
function partsOf(step, position) { const { args, r } = step; const txn = step.name === null ? null : run.txn(run.ids.get(step.name), position);
  const parts = { me: step.name === null ? "" : tagName(step.name), things: things(r[1]), preparing: preparing(r[2]) };
  args.forEach((it, index) => { parts[`a${index}`] = esc(it); });
  r.forEach((it, index) => { parts[`r${index}`] = esc(it); if (/^\d+$/.test(it)) parts[`t${index}`] = tag(it); });
  parts.made = run.touched[position].filter((it) => it.startsWith("version ") && !run.get(it, position - 1)).map((it) => "v" + it.slice(8))[0] ?? "";
  parts.snap = txn?.level === "snapshot" ? `, as of its begin at time ${txn.begin}` : ""; parts.end = txn?.end ?? "";
  parts.rows = r.slice(1).map(esc).join(", ") || "nothing"; parts.cycle = [...r.slice(3), r[3] ?? ""].map((it) => tag(it)).join(" waits for "); return parts; }
function sentenceOf(step, position) { const parts = partsOf(step, position);
  return esc(step.sentence).replace(/\{(\w+)\}/g, (all, name) => parts[name] ?? all).replace(/\*([^*]+)\*/g, "<b>$1</b>"); }
function ruleOf(step) {
  const whose = /^aborted (?!again)/.test(step.rule) ? "It comes to a transaction that " : step.rule.startsWith("refused ") ? "The event " : "";
  return [step.definition, `${step.reply}: ${whose}${step.comes.replace(/`/g, "")}`];
}

/** A reason in the words of `hek run --why`, without its words in hexadecimal, the names as tags. */
function reasonOf(line) {
  const bare = line.trim().replace(/ \(([0-9A-F]{16})(, [0-9A-F]{16})?\)/g, "").replace(/^(version \d+ is .*?) at \d+:/, "$1:");
  return esc(bare)
    .replace(/\bversion (\d+)/g, "v$1")
    .replace(/(^|\bby |\bfor |\bif |\bon |, | and )([a-z][a-z0-9_]*)(?= |,|$)/g, (all, front, name) => (run.ids.has(name) ? front + tagName(name) : all))
    .replace(/ is seen/, " is <b>seen</b>").replace(/ is passed over/, " is <b>passed over</b>");
}

/** What the step changed: short, as chips. */
function changesOf(position) {
  const chips = [];
  const changed = (label, old, now) => chips.push(`<span class="chip">${label} ${old === null ? "" : `<s>${esc(old)}</s> `}<b>${esc(now)}</b></span>`);
  // What may be cut off comes last.
  const rank = (subject) => ["txn", "version", "bucket", "clock"].indexOf(subject.split(" ")[0]);
  for (const subject of [...run.touched[position]].sort((a, b) => rank(a) - rank(b))) {
    const [old, now] = [run.get(subject, position - 1), run.get(subject, position)];
    if (subject === "clock") changed("clock", old, now);
    else if (subject.startsWith("version")) {
      if (!old) changed(`new v${now.v}`, null, `key ${now.key} = ${now.value}`);
      else {
        if (old.begin !== now.begin) changed(`v${now.v} Begin`, saidOfBegin(old), saidOfBegin(now));
        if (old.end !== now.end) changed(`v${now.v} End`, saidOfEnd(old), saidOfEnd(now));
      }
    } else if (subject.startsWith("txn")) {
      const me = tag(now.id);
      if (old.state !== now.state) changed(me, null, now.state);
      if (old.end !== now.end) changed(`${me} end`, null, now.end);
      if (old.waits !== now.waits) changed(`${me} waits for`, old.waits, now.waits);
      if (old.commits !== now.commits) changed(`${me} depends on`, old.commits, now.commits);
      if (!old.finished && now.finished) changed(me, null, "no more waits");
      if (!old.doomed && now.doomed) changed(me, null, "must abort now");
      if (old.waiting.join() !== now.waiting.join()) changed(`${me} waiters`, null, now.waiting.map(nameOf).join(", ") || "none");
    } else changed(subject, null, now ? "locked by " + now.holders.map(nameOf).join(", ") : "free");
  }
  return chips;
}

const saidOfBegin = (it) => (it.maker ? `made by ${nameOf(it.maker)}` : it.made ? `time ${it.made}` : "infinity: never");
function saidOfEnd(it) {
  if (it.ended) return `time ${it.ended}`;
  if (!it.readers && !it.writer) return "infinity";
  const parts = [it.readers === 1 ? "1 reader" : it.readers ? `${it.readers} readers` : "no reader"];
  parts.push(it.writer ? `writer ${nameOf(it.writer)}` : "no writer");
  if (it.noMore) parts.push("no more reads");
  return parts.join(", ");
}

function showSay() {
  const shown = tellingStep();
  const step = here > 0 ? run.steps[shown - 1] : null;
  const covered = coveredStep();
  if (covered) return showQuestion(covered);
  $("say").className = step ? kindOf(step) : "";
  if (!step) {
    const about = (isSpoilerHidden() ? data.question : data.about) || "The rows are loaded, and nobody has begun.";
    $("said").innerHTML = `${askedSaid()}<p class="event"><span class="num">start</span> Before the first step</p><p class="plain${about.length > 150 ? " longer" : about.length > 105 ? " long" : ""}">${esc(about)}</p>`;
    $("because").innerHTML = opening();
    fitSay();
    return;
  }
  const reply = `<span class="reply">${esc(step.reply)}</span>`;
  const verdict = here === run.last && !isTree ? verdictText() : "";
  const onward = verdict && data.next ? `<a class="way onward" href="${esc(data.next[0])}">Next: ${esc(data.next[1])} \u203a</a>` : "";
  const folded = isFolded(shown) && shown === spanOf(shown).to;
  const sentence = folded ? foldedSentence(shown) : sentenceOf(step, shown);
  const isLong = sentence.replace(/<[^>]*>/g, "").length > 92;
  $("said").innerHTML = `${onward}${askedSaid()}<p class="event"><span class="num">${folded ? `${run.done + spanOf(shown).from}\u2013` : ""}${run.done + shown}</span> <code>${step.name ? tagName(step.name) + " " : ""}${esc(step.event)}</code> <span class="arrow">\u2192</span> ${reply}</p>
    <p class="plain${isLong ? " long" : ""}">${sentence}</p>${isTree ? eventsOfMove(shown) : ""}${noteOf(step)}${verdict}`;
  const why = linesOf(step.why).filter((it) => !/(begin|end) [0-9A-F]{16}/.test(it)).map((it) => `<li>${reasonOf(it)}</li>`);
  why.sort((a, b) => b.includes("<b>seen") - a.includes("<b>seen"));
  const chips = changesOf(here);
  const [most, some, hasRest] = thoseThatFit(why, chips);
  if (chips.length > some) chips.splice(some, chips.length, `<span class="soft">and ${chips.length - some} more</span>`);
  const rest = why.length > most && hasRest ? `<li class="soft">and ${why.length - most} more</li>` : "";
  const told = feedback();
  const rule = ruleOf(step);
  $("because").innerHTML = `${told}${why.length ? `<ul class="why" aria-label="Why">${why.slice(0, most).join("")}${rest}</ul>` : ""}
    <p class="chips">${chips.length ? chips.join(" ") : '<span class="soft">Nothing changed.</span>'} <button type="button" class="rule" data-rule="${step.op}" title="What the rule says">rule: ${esc(rule[0])}</button></p>`;
  fitSay();
}

/** Texts of so many characters have room in any case. */
const SURE_TO_FIT = 90;

/** Makes the words of a step smaller where they have no room, as with long numbers or names, in two steps. Short ones aren't measured, since
    that would have the browser lay out the page. */
function fitSay() {
  for (const id of ["said", "because"]) {
    const place = $(id);
    delete place.dataset.fit;
    if (isSmall() || place.textContent.length < SURE_TO_FIT) continue;
    for (const fit of ["1", "2"]) if (place.scrollHeight > place.clientHeight + 2) place.dataset.fit = fit;
  }
}

/** The comment above a step; while replies are guessed, and where a question stands there, the question and then the comment. */
const noteOf = (step) => (step.note && !isSpoilerHidden(step) ? `<p class="note">${esc(step.note)}</p>` : "");

/** Whether comments are hidden, since they say what is to be guessed: where outcomes are hidden, and at the start where replies are guessed. */
const isSpoilerHidden = (step = null) => isSecret || (isPredict && step === null);

/** How many of the reasons and of the changes have room beside the sentence; at least one of each. */
function thoseThatFit(why, chips) {
  if (isSmall() || !sizes.because) return [4, 8, true];
  const [W, H] = sizes.because;
  const u = rem() * (document.body.dataset.lanes <= 2 && !isTree && !isPresent() && H > 8.4 * rem() ? 1.12 : 1);
  const plain = (html) => html.replace(/<[^>]*>/g, "").replace(/&[a-z]+;/g, "x");
  const heights = why.map((it) => Math.ceil((widthOf("because " + plain(it), 1.05 * u) * 1.05 + 1) / W) * 1.36 * u);
  const rowsOf = (count) => {
    let [rows, row] = [1, 0];
    for (const chip of [...chips.slice(0, count), ...(count < chips.length ? ["and 9 more"] : []), "rule: Table.precommit_rule"]) {
      const wide = Math.min(widthOf(plain(chip), rem(), 600) + 1.3 * rem(), W);
      if (row + wide > W) { rows++; row = 0; }
      row += wide;
    }
    return rows * 1.8 * rem();
  };
  let some = chips.length;
  const room = H - 0.4 * rem();
  while (some > 1 && rowsOf(some) > room - (heights[0] ?? 0) - (why.length > 1 ? 1.3 * u : 0)) some--;
  let left = room - rowsOf(some);
  let most = 0;
  for (const height of heights) {
    left -= height;
    if (left < (most + 1 < why.length ? 1.3 * u : 0)) break;
    most++;
  }
  return [Math.max(most, 1), some, most > 0];
}

const isPresent = () => document.documentElement.classList.contains("present");

/** What the bars along a lane mean. */
const KEY = `<span class="key"><i class="ph active"></i>active <i class="ph finished"></i>finished <i class="ph preparing"></i>preparing <i class="ph committed"></i>committed <i class="ph aborted"></i>aborted <i class="ph waiting"></i>waits</span>`;

/** What the arrows of the lanes and of the waits mean. */
const KEY_ARROWS = [["free", "", "this step lets the other one go on"], ["abort", "7 3", "this step makes the other one abort"], ["depends", "2 4", "commits only if the other one does"], ["weak", "6 5", "among the waits: would wait, and has not asked yet"]];

function legend() {
  const line = ([kind, dash, said]) => `<tr><td><svg class="flow ${kind}" width="48" height="14" viewBox="0 0 48 14" aria-hidden="true"><line x1="2" x2="36" y1="7" y2="7"${dash ? ` stroke-dasharray="${dash}"` : ""}/><path d="M46 7l-11 -6v12z"/></svg><td>${said}`;
  const short = run.txnIds.filter((id) => shortOf(id) !== nameOf(id)).map((id) => `<b class="t ${colourOf(id)}">${esc(shortOf(id))}</b> ${esc(nameOf(id))}`);
  const merged = tree?.isMerged ? `<p>${JOINS} A move with this mark leads to a state to which another order leads too. The page goes on after that order.</p>` : "";
  return `<h2>Legend</h2><p>${KEY}</p><table>${KEY_ARROWS.map(line).join("")}</table><p>A bar of a version goes from its Begin to its End. Dashed: if its maker commits. Crossed out: never valid. Dashed over a bar: what goes if its writer commits.</p>${short.length ? `<p>${short.join(" \u00b7 ")}</p>` : ""}${merged}`;
}

function opening() {
  if (isTree) return `<p class="soft">Choose which moves first. ${data.outcomes.length} outcomes, ${total(tree.nodes[0].counts)} orders${statesSaid()}.</p>`;
  return `<p>${KEY}</p><p class="soft">\u2192 Space: on. \u2190: back. ?: guess. h: all keys.</p>`;
}

function verdictText() {
  const last = run.txnIds.map((id) => run.txn(id, run.last)).filter((it) => it.kind === "committed" || (it.kind === "terminated" && it.end && run.phases.get(it.id).some((p) => p.kind === "committed")));
  last.sort((a, b) => a.end - b.end);
  const order = last.map((it) => `${tag(it.id)} at ${it.end}`).join(", then ");
  const promised = data.fault ? `<b>no</b>, from step ${data.fault} on` : "<b>yes</b>";
  return `<p class="note verdict">Each level’s promise is kept: ${promised}. Serializable: ${togetherSaid(order)}.</p>`;
}

function kindOf(step) {
  const first = step.r[0];
  return { waiting: "waits", aborted: "aborts", victim: "aborts", failed: "aborts", refused: "refused", committed: "commits" }[first] ?? "done";
}

/* ================================================================ guessing */

/** Steps whose replies are worth a guess, where no text says which. */
const isTelling = (step) => /^(read|scan|insert|update|delete|precommit|commit|detect|release)$/.test(step.op) && step.r[0] !== "nothing";

/** Whether a step's reply is asked for: one above which a question stands, or where no step has one, each that tells something. */
function isAsked(step) {
  if (run.hasQuestions === undefined) run.hasQuestions = run.steps.some((it) => it.question);
  return run.hasQuestions ? Boolean(step.question) : isTelling(step) && !run.polls[run.steps.indexOf(step) + 1];
}

/** The step whose reply is covered, or null: the one after this position. */
function coveredStep() {
  return isPredict && !isTree && guess !== null ? run.steps[here] : null;
}

/** Whether the graph is covered: while a reply is asked for, until it is shown on demand. */
let isGraphShown = false;
const isGraphCovered = () => coveredStep() !== null && coveredStep() !== undefined && !isGraphShown;

/** Choices of a reply, one of them right, in an order that depends on the step alone. */
function choicesOf(step, at) {
  const options = new Set([step.reply]);
  for (const it of distractors(step, at)) if (options.size < 4) options.add(it);
  const mixed = [...options].map((it) => [it, [...`${at} ${it}`].reduce((sum, char) => (sum * 31 + char.charCodeAt(0)) % 9973, 7)]);
  return mixed.sort((a, b) => a[1] - b[1]).map((it) => it[0]);
}

/** Other replies that could come to such a step at the level of its transaction. */
function distractors(step, at) {
  if (step.op === "detect") return victims(step, at);
  const me = run.txn(run.ids.get(step.name), at);
  const isLocking = me.level !== "snapshot";
  const locked = isLocking ? ["aborted no-more-waits", "aborted no-more-reads"] : [];
  switch (step.op) {
    case "read": return [...valuesOf(step, at).filter((it) => it !== step.reply).slice(-2), "absent", ...locked];
    case "scan": return ["rows", step.reply.startsWith("rows ") ? step.reply.split(" ").slice(0, -1).join(" ") : "rows", ...locked];
    case "insert": return ["done", "exists", ...(isLocking ? locked : ["aborted conflict"])];
    case "update": case "delete": return ["done", "aborted conflict", "absent"];
    case "precommit": return precommits(me, at);
    case "commit": return ["committed", "waiting commits 1", "aborted cascade"];
    case "release": return releases(me, at);
    default: return [];
  }
}

/** What a read of a step's key could find: the values of its versions. */
function valuesOf(step, at) {
  const versions = [...run.past.keys()].filter((it) => it.startsWith("version ")).map((it) => run.get(it, at));
  return versions.filter((it) => it && it.key === step.args[0]).map((it) => `found ${it.value}`);
}

/** A transaction that never waits, since it has no write set, gets no `waiting`. */
function precommits(me, at) {
  const others = [`precommitted ${run.clock(at)}`, `precommitted ${run.clock(at) + 1}`, "aborted deadlock"];
  return me.writes.length || me.waits ? ["waiting 1", others[0], "waiting 2", "aborted deadlock"] : others;
}

function victims(step, at) {
  const its = run.txnIds.map((id) => run.txn(id, at)).filter((it) => it.kind === "active" && it.waits > 0).map((it) => it.id);
  const cycles = its.length < 2 ? [] : [...its].reverse().map((it) => `victim ${it} cycle ${[it, ...its.filter((id) => id !== it)].join(" ")}`);
  return ["no cycle", ...cycles.filter((it) => !step.reply.startsWith(it.split(" cycle")[0] + " "))];
}

function releases(me, at) {
  const reads = me.reads.flatMap((v) => { const w = run.version(v, at).writer; return [`released read ${v}`, ...(w ? [`released read ${v} writer ${w}`] : [])]; });
  return [...reads, ...me.buckets.map((it) => `released bucket ${it}`), "nothing"];
}

function replyInWords(reply) {
  return esc(reply).replace(/^victim (\d+) cycle.*$/, (all, id) => `victim ${nameOf(id)}`).replace(/writer (\d+)/, (all, id) => `\u2014 ${nameOf(id)} goes on`);
}

function showQuestion(step) {
  const me = step.name ? tagName(step.name) + " " : "";
  $("say").className = "asks";
  $("said").innerHTML = `<p class="event"><span class="num">${run.done + here + 1}</span> <code>${me}${esc(step.event)}</code> <span class="arrow">\u2192</span> <span class="cover">?</span></p>
    <p class="plain${(step.question ?? "").length > 92 ? " long" : ""}">${esc(step.question || "What is it answered?")}</p>`;
  $("because").innerHTML = `<div class="choices">${choicesOf(step, here).map((it, index) => `<button type="button" data-choice="${esc(it)}"><kbd>${index + 1}</kbd> ${replyInWords(it)}</button>`).join("")}</div>`;
}

function choose(reply) {
  const step = run.steps[here];
  const isRight = reply === step.reply;
  if (!told.answers.has(here)) {
    told.asked++;
    if (isRight) told.right++;
    told.answers.set(here, reply);
  }
  guess = null;
  move(positionOn(here));
}

function feedback() {
  const answer = told.answers.get(positionBack(here));
  if (!isPredict || answer === undefined) return "";
  const isRight = answer === run.steps[positionBack(here)].reply;
  return `<p class="told ${isRight ? "right" : "wrong"}">${isRight ? "\u2713 Right." : `\u2717 The guess was: ${replyInWords(answer)}.`}</p>`;
}

function showScore() {
  $("score").hidden = !isPredict;
  $("score").textContent = told.asked ? `${told.right} of ${told.asked} right` : "no guess yet";
}

/* ================================================================ drawing */

const drawn = new Map();

/** Puts HTML into a place, unless it is there already. What has the focus there keeps it. */
function put(id, html) {
  if (drawn.get(id) === html) return;
  drawn.set(id, html);
  const place = $(id);
  keepFocus(place, () => { place.innerHTML = html; });
}

/** Draws a place anew. What has the focus there keeps it. */
function keepFocus(place, draw) {
  const focused = place.contains(document.activeElement) ? document.activeElement : null;
  draw();
  if (!focused || place.contains(document.activeElement)) return;
  const key = keyOf(focused);
  ((key && place.querySelector(key)) ?? place.querySelector("[tabindex]"))?.focus();
}

/** What finds an element again after its place is drawn anew; from a step the focus goes on to the step that is shown then. */
function keyOf(element) {
  if (element.dataset.at !== undefined) return '[aria-current="step"]';
  const name = ["v", "txn", "next", "find"].find((it) => element.dataset[it] !== undefined);
  return name ? `[data-${name}="${element.dataset[name]}"]` : null;
}

/** Puts a drawing into a place: its attributes, and layers of parts, each with its shift to the right. A part is the text of one element.
    Those that are there already stay, so that the browser lays out and paints only what a step changes. */
function putDrawing(id, attributes, layers) {
  const place = $(id);
  keepFocus(place, () => {
    if (!(drawn.get(id) instanceof Array)) {
      place.innerHTML = `<svg>${layers.map(() => "<g></g>").join("")}</svg>`;
      drawn.set(id, layers.map(() => new Map()));
    }
    const svg = place.firstElementChild;
    setAttributes(svg, attributes);
    layers.forEach(({ shift, parts }, index) => {
      setAttributes(svg.children[index], { transform: `translate(${f1(shift)} 0)` });
      drawn.get(id)[index] = putParts(svg.children[index], drawn.get(id)[index], parts);
    });
  });
}

function setAttributes(element, attributes) {
  for (const [name, value] of Object.entries(attributes)) if (element.getAttribute(name) !== value) element.setAttribute(name, value);
}

/** Puts these parts, in their order, in place of those that a layer had; answers its elements by their texts. */
function putParts(layer, old, parts) {
  const now = new Map(parts.map((it) => [it, old.get(it)]));
  for (const [text, element] of old) if (!now.has(text)) element.remove();
  let next = layer.firstChild;
  for (const [text, kept] of now) {
    if (kept !== undefined && kept === next) { next = next.nextSibling; continue; }
    const element = kept ?? elementOf(text);
    layer.insertBefore(element, next);
    now.set(text, element);
  }
  return now;
}

const reader = document.createElement("template");
/** The element of SVG that a text is of. */
function elementOf(text) {
  reader.innerHTML = `<svg>${text}</svg>`;
  return reader.content.firstChild.firstChild;
}

/* What a drawing reads of the page's size is measured when the page is built or its type changes, and is not read again while a step is
   drawn: each reading would have the browser lay out what was drawn so far. An observer reports later sizes of the panels. */
const DRAWN = { lanes: () => showLanes(), chains: () => showChains(), graph: () => showGraph(), word: () => { if (!isTree || pinned) showWord(); else showTree(); } };
const sizes = {};
let unit = 16;
let isOneColumn = false;
let viewHeight = 0;
const rem = () => unit;
/** Whether the page is one column, as the style has it. */
const isSmall = () => isOneColumn;
/** Whether the page is for the last row of a room: versions and words have no room then. */
const isFar = () => document.documentElement.classList.contains("far");

function measure() {
  unit = parseFloat(getComputedStyle(document.documentElement).fontSize);
  isOneColumn = matchMedia("(max-width: 40rem)").matches;
  viewHeight = innerHeight;
  for (const id of [...Object.keys(DRAWN), "because"]) sizes[id] = [$(id).clientWidth, $(id).clientHeight];
}

const watcher = new ResizeObserver((entries) => {
  for (const { target: { id, clientWidth, clientHeight } } of entries) {
    const [width, height] = sizes[id];
    const isSame = width === clientWidth && (height === clientHeight || id === "lanes" || (id === "because" && isSmall()));
    sizes[id] = [clientWidth, clientHeight];
    if (!isSame && clientWidth > 0) (DRAWN[id] ?? show)();
  }
});

/** Widths of texts at 100 px, by weight and text: a canvas for each weight, since setting its font costs more than measuring. */
const rulers = new Map();

function rulerOf(weight) {
  const canvas = document.createElement("canvas").getContext("2d");
  canvas.font = `${weight} 100px ${getComputedStyle(document.body).fontFamily}`;
  const ruler = { canvas, widths: new Map() };
  rulers.set(weight, ruler);
  return ruler;
}

function widthOf(text, size, weight = 400) {
  const { canvas, widths } = rulers.get(weight) ?? rulerOf(weight);
  let width = widths.get(text);
  if (width === undefined) widths.set(text, (width = canvas.measureText(text).width));
  return (width * size) / 100;
}
/** The first of some texts that fits a width, else none. */
const fitting = (texts, width, size, weight) => texts.find((it) => widthOf(it, size, weight) <= width) ?? "";
const f1 = (number) => Math.round(number * 10) / 10;
const arrowTip = (x, y, up, size) => { const s = up ? 1 : -1; return `M${f1(x)} ${f1(y)}l${f1(-size * 0.62)} ${f1(s * size)}h${f1(size * 1.24)}z`; };

/* ---- the timeline */

const LABELS = {
  begin: ["begin", "beg"], read: ["read", "rd"], scan: ["scan", "scn"], insert: ["insert", "ins"], update: ["update", "upd"], delete: ["delete", "del"],
  finish: ["finish", "fin"], precommit: ["precommit", "precom", "pre"], release: ["release", "rel"], commit: ["commit", "com"], fail: ["fail"],
  stamp: ["stamp", "stm"], end: ["end"], detect: ["detect", "det"],
};

/** The second line of a cell: what it is about and how it came out, longest first. */
function detailOf(step) {
  const { op, args, r } = step;
  switch (r[0]) {
    case "aborted": return ["aborted", "abort", "\u2717"];
    case "refused": return ["refused", "ref", "\u2298"];
    case "waiting": return r[1] === "commits" ? ["waiting " + r[2], "waits", "wait", "w"] : ["waiting " + r[1], "waits " + r[1], "waits", "wait", "w"];
    case "victim": return [`victim ${nameOf(r[1])}`, `victim ${shortOf(r[1])}`, shortOf(r[1]) + "\u2717"];
    case "no": return ["no cycle", "none", "no", "\u2013"];
    case "failed": return ["aborts", "\u2717"];
    case "committed": return ["\u2713"];
    case "began": case "precommitted": return ["time " + r[1], "t=" + r[1], r[1]];
    case "nothing": return ["nothing", "\u2013"];
    case "over": return ["over", ""];
    case "ready": return ["ready", ""];
    case "found": return [`${args[0]} is ${r[1]}`, `${args[0]}=${r[1]}`];
    case "absent": return [`${args[0]} absent`, `${args[0]}: no`];
    case "exists": return [`${args[0]} exists`, `${args[0]}: is`];
    case "rows": return [`bucket ${args[0]}`, `b ${args[0]}`];
    case "done": return args.length > 1 ? [`${args[0]} := ${args[1]}`, `${args[0]}:=${args[1]}`] : [args[0]];
    case "released": return r[1] === "read" ? [`v${r[2]}`] : r[1] === "bucket" ? ["bucket " + r[2], "b" + r[2]] : [nameOf(r[2]), shortOf(r[2])];
    case "stamped": return [`v${r[2]} ${r[1] === "end" ? "End" : "Begin"}`, `v${r[2]} ${r[1][0].toUpperCase()}`, "v" + r[2]];
    case "left": return ["v" + r[1]];
    default: return [""];
  }
}

/** How wide the text of a card is drawn. */
const CARD = { padding: 0.42, size: 0.98, detail: 0.955 };

/** So wide a second line of a card may be; of what is wider, the first line takes the key and the second one the value. */
const MOST_DETAIL = 5.6;

/** For a step whose key and value are too long for one line: the first line with the key, longest first, and the second one with the value. */
function longCard(step) {
  const { op, args, r } = step;
  const value = r[0] === "found" ? r[1] : r[0] === "done" && args.length > 1 ? args[1] : r[0] === "absent" || r[0] === "exists" ? r[0] : r[0] === "done" ? "" : null;
  if (value === null || widthOf(detailOf(step).at(-1), CARD.detail) <= MOST_DETAIL) return null;
  const labels = LABELS[op] ?? [op];
  return { tops: [...labels.map((it) => `${it} ${args[0]}`), args[0]], bottoms: value === "" ? [""] : [`${r[0] === "found" ? "is" : r[0] === "done" ? ":=" : ""} ${value}`.trim(), value] };
}

/** How wide the columns are at least, so that each card has its key and value. */
function leastCell(u) {
  if (run.leastCell === undefined) {
    let most = 0;
    for (const step of run.steps) {
      const long = longCard(step);
      const texts = long ? [[long.tops.at(-1), CARD.size, 600], [long.bottoms.at(-1), CARD.detail]] : [[detailOf(step).at(-1), CARD.detail], [(LABELS[step.op] ?? [step.op]).at(-1), CARD.size, 600]];
      for (const text of texts) most = Math.max(most, widthOf(...text));
    }
    run.leastCell = most + CARD.padding;
  }
  return run.leastCell * u;
}

/** Which lanes are shown: of many transactions those with a step near here. */
function lanesShown(first, last, most) {
  const all = [...run.laneIds];
  if (all.length <= most) return { ids: all, more: 0 };
  const score = new Map();
  for (let at = first; at < last; at++) {
    const name = run.steps[at].name;
    if (name && run.ids.has(name)) score.set(run.ids.get(name), Math.max(score.get(run.ids.get(name)) ?? 0, 1000 - Math.abs(at + 1 - here)));
  }
  const ids = all.sort((a, b) => (score.get(b) ?? 0) - (score.get(a) ?? 0)).slice(0, most).sort((a, b) => a - b);
  return { ids, more: all.length - most };
}

/** Where the lanes and columns are. */
function laneLayout() {
  const u = rem();
  const isPhone = isSmall();
  const [W] = sizes.lanes;
  const gutter = (isPhone ? 4.6 : 10.9) * u;
  const count = Math.max(columnCount() + (isTree && !isWhole() ? 1 : 0), 1);
  const least = Math.max(isPhone ? 2.6 * u : 2.12 * u, Math.min(leastCell(u), W - gutter));
  let cell = Math.min(Math.max((W - gutter) / count, least), Math.max(6.2 * u, least));
  const fits = Math.max(1, Math.floor((W - gutter) / cell + 0.01));
  let first = 0;
  const isWindow = count > fits;
  if (isWindow) {
    cell = (W - gutter) / fits;
    const lead = Math.max(1, Math.round(fits * 0.3));
    first = Math.min(Math.max(0, columnOf(here) + lead - fits), count - fits);
  }
  const shownLast = Math.min(count, first + fits);
  const isShort = viewHeight < 48 * u && !isPhone;
  const most = isPhone ? 4 : Math.max(3, Math.floor(viewHeight / u / (isShort ? 10 : 9)));
  const { ids, more } = lanesShown(stepsUpTo(first), stepsUpTo(shownLast), most);
  const tight = ids.length > 4 || isShort;
  const roomy = ids.length <= 2 && !isPhone && !tight;
  const laneH = (tight ? 2.85 : roomy ? 5 : ids.length > 3 ? 3.66 : 3.75) * u;
  const axisH = 1.35 * u;
  const detectH = run.hasDetect ? 2.1 * u : 0;
  const stripH = (tight ? 0.42 : roomy ? 1.15 : 1.05) * u;
  // The columns are drawn as if the first one were at the left edge, and shifted: a step's column stays what it is.
  const x = (at) => (columnOf(at) - 1) * cell;
  const shift = gutter - first * cell;
  const [low, high] = [first * cell, W - shift];
  const laneY = new Map(ids.map((id, index) => [id, axisH + index * laneH]));
  if (run.hasDetect) laneY.set("detect", axisH + ids.length * laneH);
  const cellY = (id) => laneY.get(id) + (id === "detect" ? 0.15 * u : stripH + (tight ? 0.3 : 0.25) * u);
  const cellH = laneH - stripH - 0.42 * u;
  return {
    u, W, gutter, cell, first, shownLast, isWindow, isPhone, tight, roomy, ids, more, laneH, stripH, x, shift, low, high, laneY, cellY, cellH,
    H: axisH + ids.length * laneH + detectH + 0.2 * u, heightOf: (id) => (id === "detect" ? detectH - 0.35 * u : cellH),
    xEdge: (at) => Math.min(Math.max(x(at), low), high), columns: run.spans.slice(first + 1, shownLast + 1), horizon: isFuture ? run.last : here,
  };
}

/** The last step of a column. */
const stepsUpTo = (column) => (column === 0 ? 0 : run.spans[column]?.to ?? run.last);

function showLanes() {
  const at = laneLayout();
  const { u, W, H, ids, x, shift, first, cell, shownLast } = at;
  const still = [];
  const out = [];
  const marked = isTree ? tellingStep() : here;
  // the column of this step
  if (marked > 0 && columnOf(marked) > first) still.push(`<rect class="now" x="${f1(x(marked) + shift)}" y="0" width="${f1(cell)}" height="${f1(H)}"/>`);
  out.push(...axisOf(at, marked));
  for (const id of ids) {
    const y = at.laneY.get(id);
    still.push(`<line class="rule" x1="0" x2="${W}" y1="${f1(y)}" y2="${f1(y)}"/>`, laneHead(id, y, at));
    out.push(...laneStrip(id, y, at), ...waitsOf(id, at));
  }
  if (run.hasDetect) {
    const y = at.laneY.get("detect");
    still.push(`<line class="rule" x1="0" x2="${W}" y1="${f1(y)}" y2="${f1(y)}"/>`, `<text class="lane-name soft" x="${f1(0.2 * u)}" y="${f1(y + 1.35 * u)}">${at.isPhone ? "search" : "deadlock search"}</text>`);
  }
  out.push(...arrowsOf(at));
  for (const span of at.columns) out.push(...cardsOf(span, at, marked));
  if (isTree && !isWhole() && here === run.last) out.push(...nextMoves(at));
  if (at.more > 0) still.push(`<text class="tick" x="${f1(0.2 * u)}" y="${f1(0.95 * u)}">+ ${at.more} more</text>`);
  const label = `Steps ${run.done + (run.spans[first + 1]?.from ?? 1)} to ${run.done + stepsUpTo(shownLast)}`;
  putDrawing("lanes", { width: `${W}`, height: `${f1(H)}`, viewBox: `0 0 ${W} ${f1(H)}`, role: "group", "aria-label": label }, [{ shift: 0, parts: still }, { shift, parts: out }]);
  document.body.dataset.lanes = ids.length;
  $("slider").hidden = !at.isWindow;
}

/** The numbers of the steps over their columns. */
function axisOf({ u, x, cell, columns }, marked) {
  const out = [];
  const every = widthOf(String(run.done + run.last), 0.95 * u) > cell * 0.8 ? 5 : 1;
  for (const { from, to } of columns) {
    const [number, isHere] = [run.done + from, columnOf(marked) === columnOf(from)];
    if (every > 1 && !isHere && (number % every || Math.abs(columnOf(from) - columnOf(marked)) < 2)) continue;
    const text = fitting([from < to ? `${number}\u2013${run.done + to}` : `${number}`], cell * 1.15, 0.95 * u) || `${number}`;
    out.push(`<text class="tick${isHere ? " at" : from > here ? " later" : ""}" x="${f1(x(from) + cell / 2)}" y="${f1(0.95 * u)}" text-anchor="middle">${text}</text>`);
  }
  return out;
}

/** The bars along a lane while its transaction waits. */
function waitsOf(id, { x, cell, low, high, cellY, cellH, horizon }) {
  const out = [];
  for (const wait of run.waitings.get(id)) {
    if (wait.from > horizon) continue;
    const to = wait.to !== null && wait.to <= horizon ? x(wait.to) + cell / 2 : x(Math.min(horizon, run.last) + 1);
    const [left, right] = [Math.max(x(wait.from) + cell / 2, low), Math.min(to, high)];
    if (right <= left) continue;
    out.push(`<rect class="waiting" x="${f1(left)}" y="${f1(cellY(id) + cellH * 0.16)}" width="${f1(right - left)}" height="${f1(cellH * 0.68)}"/>`);
  }
  return out;
}

/** The arrows up and down in the columns of their steps. */
function arrowsOf({ u, x, cell, columns, laneY, cellY, heightOf, horizon }) {
  const out = [];
  for (const { from: at } of columns) {
    if (at > horizon) break;
    run.arrows[at].forEach((it, index) => {
      if (!laneY.has(it.from) || !laneY.has(it.to)) return;
      const isDown = laneY.get(it.from) < laneY.get(it.to);
      const spread = run.arrows[at].length > 1 ? (index - (run.arrows[at].length - 1) / 2) * Math.min(0.7 * u, cell / 4) : 0;
      const ax = x(at) + cell / 2 + spread;
      const y1 = isDown ? cellY(it.from) + heightOf(it.from) : cellY(it.from);
      const isDepends = it.kind === "depends";
      const y2 = isDown ? cellY(it.to) + (isDepends ? 0 : heightOf(it.to) * 0.38) : cellY(it.to) + heightOf(it.to) * (isDepends ? 1 : 0.62);
      const tip = 0.62 * u;
      out.push(`<g class="flow ${it.kind}"><title>${esc(ARROWS[it.kind](nameOf(it.to)))}</title><line x1="${f1(ax)}" x2="${f1(ax)}" y1="${f1(y1)}" y2="${f1(isDown ? y2 - tip : y2 + tip)}"/><path d="${arrowTip(ax, y2, !isDown, tip)}"/></g>`);
    });
  }
  return out;
}

/** What an arrow of each kind says of the transaction that it goes to. */
const ARROWS = { free: (name) => `${name} may go on`, abort: (name) => `${name} must abort`, depends: (name) => `commits only if ${name} does` };

/** The cards of a column: of one step, or one for each transaction that asks again in it. */
function cardsOf(span, at, marked) {
  const isNext = span.from === here + 1 && !isTree;
  if (span.from > at.horizon && !isNext) return [];
  if (span.from === span.to) {
    const step = run.steps[span.from - 1];
    return cardOf(span.from, step, step.name === null ? "detect" : run.ids.get(step.name), at, marked, null);
  }
  return [...askedAgain(span.from)].flatMap(([id, count]) => cardOf(span.to, run.steps[span.from - 1], id, at, marked, count));
}

/** A card; `again`: how often the transaction asks again in its column, or null for a card of one step. */
function cardOf(number, step, id, at, marked, again) {
  const { u, x, cell, laneY, cellY, heightOf, tight, roomy } = at;
  if (!laneY.has(id)) return [];
  const isCovered = number > here && !(isFuture && !isPredict);
  const isHere = columnOf(number) === columnOf(marked);
  const kind = isCovered ? "ghost" : kindOf(step);
  const size = (roomy && cell > 5 * u ? 1.1 : tight ? 0.94 : CARD.size) * u;
  const inner = cell - CARD.padding * u;
  const h = heightOf(id);
  const ops = again === null ? (LABELS[step.op] ?? [step.op]) : ["asks again", "again"];
  const about = step.args.length ? (step.op === "scan" ? [`b ${step.args[0]}`] : [step.args[0]]) : [""];
  const details = isCovered ? (again === null ? about : [""]) : again === null ? detailOf(step) : [timesSaid(again), `${again}\u00d7`];
  const long = again === null && !isCovered ? longCard(step) : null;
  const top = long ? fitting(long.tops, inner + 0.14 * u, size, 600) : fitting(ops, inner, size, 600) || ops.at(-1);
  const bottom = fitting(long ? long.bottoms : [...details, details.at(-1).slice(0, 5) + "\u2026"], inner + 0.14 * u, size * 0.975);
  const cx = x(number) + cell / 2;
  const said = again === null ? `step ${run.done + number}: ${step.name ?? ""} ${step.event}${isCovered ? "" : `, ${step.reply}`}` : `steps up to ${run.done + number}: ${nameOf(id)} asks again ${timesSaid(again)}`;
  const line = (text, y, name) => `<text x="${f1(cx)}" y="${f1(cellY(id) + y)}" text-anchor="middle" class="${name}"${tight ? ` style="font-size:${f1(name === "op" ? size : size * 0.975)}px"` : ""}>${esc(text)}</text>`;
  const [one, two, three] = [h / 2 + 0.34 * u, h / 2 - (tight ? 0.12 : 0.14) * u, h / 2 + (tight ? 0.8 : 0.9) * u];
  const lines = id === "detect" ? line(isCovered ? "?" : fitting(detailOf(step), inner, size, 600), one, "op") : !bottom ? line(top, one, "op") : line(top, two, "op") + line(bottom, three, "detail");
  return [`<g class="cell ${kind}${isHere ? " here" : ""}${number > here ? " later" : ""}" data-at="${number}" role="button"${isHere ? ' tabindex="0"' : ""} aria-label="${esc(said)}"${isHere ? ' aria-current="step"' : ""}><rect x="${f1(x(number) + 0.1 * u)}" y="${f1(cellY(id))}" width="${f1(cell - 0.2 * u)}" height="${f1(h)}" rx="${f1(0.3 * u)}"/>${lines}</g>`];
"##;

pub(crate) const SCRIPT_THIRD: &str = r#"}

/** In the explorer: the moves that may come next, each in its lane. */
function nextMoves({ u, x, cell, laneY, cellY, cellH, tight }) {
  const node = tree.nodes[tree.path.at(-1)];
  const done = movesDone(node.index);
  return node.next.map((next, who) => {
    const id = run.ids.get(tree.names[who]);
    if (next === undefined || !laneY.has(id)) return "";
    const words = tree.moves[who][done[who]].split(/,? /);
    const cx = x(run.last + 1) + cell / 2;
    const inner = cell - CARD.padding * u;
    const [op, about] = [fitting(LABELS[words[0]] ?? [words[0]], inner, CARD.size * u, 600), fitting([words.slice(1).join(" "), words.slice(1).join("="), words[1] ?? ""], inner, 0.93 * u)];
    const [two, three] = [cellY(id) + cellH / 2 - 0.14 * u, cellY(id) + cellH / 2 + (tight ? 0.78 : 0.9) * u];
    return `<g class="cell ghost next" data-next="${next}" role="button" tabindex="0" aria-label="${esc(tree.names[who])} moves: ${esc(words.join(" "))}${isJoin(tree, node.index, next) ? `, ${esc(joinSaid(next))}` : ""}"><rect x="${f1(x(run.last + 1) + 0.1 * u)}" y="${f1(cellY(id))}" width="${f1(cell - 0.2 * u)}" height="${f1(cellH)}" rx="${f1(0.3 * u)}"/><text class="op" x="${f1(cx)}" y="${f1(two)}" text-anchor="middle">${esc(op)}</text><text class="detail" x="${f1(cx)}" y="${f1(three)}" text-anchor="middle">${esc(about)}</text></g>`;
  }).filter(Boolean);
}

/** The head of a lane: name, its short form where it has one, level, and those of its fields that say something. */
function laneHead(id, y, { laneH: h, gutter, u, isPhone, tight }) {
  const it = run.txn(id, here);
  const short = shortOf(id);
  const tokenW = short === it.name || isPhone ? 0 : widthOf(short, 0.9 * u, 700) + 0.6 * u;
  const room = gutter - tokenW - 0.8 * u;
  const big = [1.5 * u, 1.2 * u, 0.95 * u].find((size) => widthOf(it.name, size, 700) <= room) ?? 0.95 * u;
  const name = fitting([it.name, it.name.slice(0, 9) + "\u2026", it.name.slice(0, 5) + "\u2026", short], room, big, 700) || short;
  const parts = [`<g class="head ${colourOf(id)}" data-txn="${id}" role="button" tabindex="0" aria-label="transaction ${esc(it.name)}, ${esc(it.level)}, ${esc(it.state)}: all its fields">`];
  parts.push(`<rect class="hit" x="0" y="${f1(y)}" width="${f1(gutter - 0.3 * u)}" height="${f1(h)}"/>`);
  parts.push(`<text class="lane-name" x="${f1(0.2 * u)}" y="${f1(y + 1.35 * u)}" style="font-size:${f1(big)}px">${esc(name)}</text>`);
  const after = 0.2 * u + widthOf(name, big, 700) + 0.5 * u;
  if (tokenW) parts.push(`<g class="token"><rect x="${f1(after - 0.1 * u)}" y="${f1(y + 0.42 * u)}" width="${f1(tokenW)}" height="${f1(1.15 * u)}" rx="${f1(0.55 * u)}"/><text x="${f1(after - 0.1 * u + tokenW / 2)}" y="${f1(y + 1.32 * u)}" text-anchor="middle" style="font-size:${f1(0.9 * u)}px">${esc(short)}</text></g>`);
  const next = after + (tokenW ? tokenW + 0.3 * u : 0);
  const level = fitting([it.level, `${it.level.slice(0, 7)}\u2026`, `${it.level.slice(0, 4)}\u2026`, ""], gutter - next - 0.3 * u, 0.95 * u);
  const state = it.kind === "not" ? "not begun" : it.kind === "active" && it.finished ? "finished" : it.kind;
  if (isPhone) {
    if (it.waits || it.commits) parts.push(`<text class="lane-facts" x="${f1(0.2 * u)}" y="${f1(y + 2.7 * u)}"><tspan class="warn">waits ${it.waits || it.commits}</tspan></text>`);
    return parts.join("") + "</g>";
  }
  if (level) parts.push(`<text class="lane-level" x="${f1(next)}" y="${f1(y + 1.35 * u)}">${esc(level)}</text>`);
  const said = [];
  if (it.begin) said.push(`begin ${it.begin}`);
  if (it.end) said.push(`end ${it.end}`);
  if (it.waits) said.push(`<tspan class="warn">waits ${it.waits}</tspan>`);
  if (it.commits) said.push(`<tspan class="warn">depends ${it.commits}</tspan>`);
  if (it.doomed && it.kind !== "aborted") said.push(`<tspan class="bad">must abort</tspan>`);
  const front = tight || (level && !said.length) ? state : level ? "" : it.level;
  const facts = [front, ...(tight ? said.slice(-1) : said)].filter(Boolean);
  // What has no room beside the cards: the last fact tells most.
  while (facts.length > 1 && widthOf(facts.join(" \u00b7 ").replace(/<[^>]*>/g, ""), u) > gutter - 0.3 * u) facts.shift();
  parts.push(`<text class="lane-facts" x="${f1(0.2 * u)}" y="${f1(y + (tight ? 2.5 : 2.75) * u)}">${facts.join(" \u00b7 ")}</text>`);
  return parts.join("") + "</g>";
}

const PHASES = { active: ["active", "act\u2026"], finished: ["finished", "fin\u2026"], preparing: ["preparing", "prep\u2026"], committed: ["committed", "com\u2026"], aborted: ["aborted", "abo\u2026"] };

/** The parts of the strip of a lane: its phases, each with its pattern and, where lanes are high, its name. */
function laneStrip(id, y, { stripH: h, x, xEdge, first, shownLast, horizon, u, cell, tight }) {
  const list = run.phases.get(id);
  const out = [];
  const lastShown = stepsUpTo(Math.min(shownLast, columnCount()));
  const top = y + (tight ? 0.15 : 0.2) * u;
  list.forEach((phase, index) => {
    if (phase.kind === "none" || phase.from > horizon) return;
    const until = Math.min(list[index + 1]?.from ?? Infinity, horizon + 1, run.last + 1);
    const isOpen = !(list[index + 1]?.from <= horizon);
    const from = Math.max(phase.from, 1);
    if (columnOf(until) <= first || from > lastShown) return;
    const [left, right] = [xEdge(from) + (columnOf(from) > first ? cell * 0.12 : 0), xEdge(until) + (until <= lastShown ? cell * 0.12 : 0)];
    if (right <= left) return;
    if (phase.kind === "terminated") { out.push(`<line class="over" x1="${f1(left)}" x2="${f1(right)}" y1="${f1(top + h / 2)}" y2="${f1(top + h / 2)}"/>`); return; }
    out.push(`<rect class="strip ${phase.kind}${isOpen ? " open" : ""}" x="${f1(left)}" y="${f1(top)}" width="${f1(right - left)}" height="${f1(h)}"><title>${phase.kind}</title></rect>`);
    const text = tight ? "" : fitting(PHASES[phase.kind], right - left - 0.6 * u, 0.95 * u, 600);
    if (text) out.push(`<g><rect class="plate ${phase.kind}" x="${f1(left + 0.2 * u)}" y="${f1(y + 0.28 * u)}" width="${f1(widthOf(text, 0.95 * u, 600) + 0.4 * u)}" height="${f1(h - 0.16 * u)}"/><text class="phase ${phase.kind}" x="${f1(left + 0.4 * u)}" y="${f1(y + 0.2 * u + h * 0.78)}">${text}</text></g>`);
  });
  return out;
}

/* ---- the versions on an axis of time */

/** What the transaction of the step sees of each version that it looks at, and the time at which it looks. */
function sightsOf(step) {
  const sights = new Map();
  const [first, ...lines] = linesOf(step?.sees ?? "");
  for (const line of lines) {
    const [, v, how, , ifCommits] = /^(\d+) (seen|passed over)( if (\S+))?$/.exec(line);
    sights.set(v, { isSeen: how === "seen", ifCommits: ifCommits ?? null });
  }
  return { sights, time: first ? Number(first.slice(3)) : null };
}

/** The last time on the axis of the clock: a few past now, in steps of three, so that it neither jumps nor says how many are to come. */
const lastTime = () => Math.max(4, Math.ceil((run.clock(here) + 1) / 3) * 3);

/** Keys with their versions, the ones that matter here first if not all fit. */
function keysShown(rows, step, sights) {
  const keys = new Map();
  for (const v of run.versionIds) {
    const it = run.version(v, here);
    if (!it) continue;
    if (!keys.has(it.key)) keys.set(it.key, { key: it.key, versions: [], last: 0 });
    const kept = keys.get(it.key);
    kept.versions.push(it);
  }
  const all = [...keys.values()].sort((a, b) => (BigInt(a.key) < BigInt(b.key) ? -1 : 1));
  const count = all.reduce((sum, it) => sum + it.versions.length, 0);
  if (count <= rows) return { keys: all, hidden: 0 };
  const touched = new Set(run.touched[here].filter((it) => it.startsWith("version ")).map((it) => it.slice(8)));
  const spoken = new Set([...(step?.why ?? "").matchAll(/version (\d+)/g)].map((it) => it[1]));
  const me = step?.name ? run.txn(run.ids.get(step.name), here) : null;
  const mine = new Set(me ? [...me.reads, ...me.writes.map((it) => it.split("-")[1])] : []);
  const weight = (it) => (mine.has(String(it.v)) ? 1e8 : 0) + (spoken.has(String(it.v)) || sights.has(String(it.v)) || touched.has(String(it.v)) ? 1e9 : it.writer || it.maker ? 2e6 : it.readers ? 1e6 : 0) + (it.ended ? 0 : 1e5) + Math.min(it.v, 9e4);
  const best = all.flatMap((it) => it.versions).sort((a, b) => weight(b) - weight(a)).slice(0, rows);
  const kept = new Set(best);
  const some = all.map((it) => ({ ...it, versions: it.versions.filter((v) => kept.has(v)) })).filter((it) => it.versions.length);
  return { keys: some, hidden: count - rows };
}

/** The type of a key and a value that take a line each. */
const LONG = { size: 0.78 };

/** How wide the longest key or value of the run is, in its own line, if one is too long to stand beside the others; else 0. */
function longestNumber() {
  if (run.longest === undefined) {
    const its = [...run.past].filter(([subject]) => subject.startsWith("version ")).flatMap(([, list]) => list.map(([, it]) => it));
    const texts = [...new Set(its.flatMap((it) => [it.key, it.value]))];
    const isLong = its.some((it) => it.key.length > 6 || it.value.length > 4);
    run.longest = isLong ? Math.max(...texts.map((it) => widthOf(it, LONG.size, 700))) : 0;
  }
  return run.longest;
}

/** Where the columns and rows of the versions are. */
function chainLayout(step, sights, time) {
  const u = rem();
  const [W, room] = sizes.chains;
  const isPhone = isSmall();
  const isLow = viewHeight < 48 * u && !isPhone;
  const lookH = !isLow && run.steps.some((it) => it.sees !== "") ? 1.4 * u : 0;
  const axisH = 1.5 * u + lookH;
  const longest = longestNumber();
  const least = (longest ? (isLow ? 1.65 : 2.15) : isLow ? 1.6 : 2.05) * u;
  const bucketH = bucketIsShown() ? (isLow ? 1.5 : 1.7) * u : 0;
  const fitRows = (buckets) => (isPhone ? 12 : Math.max(bucketH ? 1 : 2, Math.floor((room - axisH - buckets * bucketH - 0.3 * u) / least)));
  let { keys, hidden } = keysShown(fitRows(bucketH ? 1 : 0), step, sights);
  let groups = groupsOf(keys, bucketH > 0);
  if (groups.length > 1 && bucketH) { ({ keys, hidden } = keysShown(fitRows(groups.length), step, sights)); groups = groupsOf(keys, true); }
  const count = keys.reduce((sum, it) => sum + it.versions.length, 0);
  const boxesH = bucketH * groups.length;
  const each = Math.max((room - axisH - boxesH - 0.4 * u) / Math.max(count, 1), least);
  const k = isPhone ? 1 : Math.max(1, Math.min(1.28, each / (3.3 * u), (W / u - 20) / 19));
  const rowH = isPhone ? least * 1.15 : Math.min(each, 6.4 * u * k);
  const narrow = W < 36 * u;
  const usual = (isPhone ? 7 : narrow ? 8.8 : 9.2) * u * k;
  const values = longest ? Math.max(usual, (longest + 2.6) * u * k) : usual;
  const r = Math.min(rowH * 0.36, 0.9 * u * k);
  const marks = { from: values, readers: narrow || isPhone ? 2 : 3, r, wide: marksWidth(narrow || isPhone ? 2 : 3, r, u * k) };
  const left = values + marks.wide;
  const right = (isPhone ? 1.9 : narrow ? 2.6 : 9.8) * u * k;
  return { u, k, W, isPhone, narrow, axisH, lookH, bucketH, groups, hidden, count, rowH, marks, left, right, H: axisH + count * rowH + boxesH + 0.4 * u, foot: axisH + count * rowH + boxesH };
}

/** How wide the column of locks is, so that it has room for the locks of each version of the run. */
function marksWidth(readers, r, u) {
  if (run.lockCounts === undefined) {
    const its = [...run.past].filter(([subject]) => subject.startsWith("version ")).flatMap(([, list]) => list.map(([, it]) => it)).filter((it) => it.readers || it.writer);
    run.lockCounts = [...new Set(its.map((it) => `${Math.min(it.readers, 5)} ${it.writer ? 1 : 0} ${it.noMore ? 1 : 0}`))].map((it) => it.split(" ").map(Number));
  }
  const wide = run.lockCounts.map(([count, writer, gate]) => Math.min(count, readers) * (2 * r + 0.12 * u) + writer * (2 * r + 1.2 * u) + gate * (2 * r + 0.2 * u));
  return wide.length ? Math.max(...wide, 2.6 * u) + 0.7 * u : 0;
}

/** Keys as they are shown: in groups by bucket where a bucket is locked in the run, else in one group. */
function groupsOf(keys, byBucket) {
  if (!byBucket) return [{ bucket: null, keys }];
  const groups = new Map();
  for (const it of keys) { const bucket = String(BigInt(it.key) % BigInt(data.buckets)); groups.set(bucket, [...(groups.get(bucket) ?? []), it]); }
  for (const it of run.bucketIds.map((id) => run.get(id, here)).filter(Boolean)) if (!groups.has(it.bucket)) groups.set(it.bucket, []);
  return [...groups].sort(([a], [b]) => a - b).map(([bucket, its]) => ({ bucket, keys: its }));
}

/** The places of the times on the axis: each time a place; those between which nothing lies are left out where there are many. */
function axisPlaces({ groups, W, left, right }, time, now) {
  let times = Array.from({ length: Math.min(lastTime(), 13) + 1 }, (_, at) => at);
  if (lastTime() > 13) {
    const its = new Set([0, now, ...(time !== null ? [time] : [])]);
    for (const it of groups.flatMap((group) => group.keys).flatMap((key) => key.versions)) { if (it.made) its.add(Number(it.made)); if (it.ended) its.add(Number(it.ended)); const m = it.maker && run.txn(it.maker, here).end; if (m) its.add(Number(m)); }
    times = [...its].sort((a, b) => a - b);
  }
  const unit = (W - left - right) / (times.length + 1.7);
  return { times, unit, place: new Map(times.map((it, index) => [it, left + (index + 0.35) * unit])) };
}

/** What the plate over the line of a look says, longest first: at which time the transaction reads, and which time that is. */
function lookTexts(step, actor, time) {
  const verb = /^(insert|update|delete)$/.test(step.op) ? "looks" : "reads";
  const which = run.txn(actor, here).level === "snapshot" ? "its begin" : "the clock";
  return [...namedTexts(actor, (name) => `${name} ${verb} at ${which}, ${time}`), `${verb} at ${which}, ${time}`, `${verb} at ${time}`];
}

function showChains() {
  const step = here > 0 ? run.steps[here - 1] : null;
  const { sights, time } = sightsOf(step);
  const actor = step?.name ? run.ids.get(step.name) : null;
  const it = chainLayout(step, sights, time);
  const { u, k, W, H, isPhone, narrow, axisH, lookH, rowH, left, right, foot, marks } = it;
  const now = run.clock(here);
  const { times, unit, place } = axisPlaces(it, time, now);
  const X = (t) => place.get(Number(t)) ?? left;
  const endX = W - right - 0.5 * u;
  const futureX = X(now) + unit * 0.55;
  const out = [`<rect class="ahead" x="${f1(X(now))}" y="${f1(axisH)}" width="${f1(endX - X(now) + 0.5 * u)}" height="${f1(foot - axisH)}"/>`];
  const lookX = time !== null && place.has(time) ? X(time) : null;
  const plate = lookX === null ? null : plateOf(lookTexts(step, actor, time), lookX, W, u);
  const nowWide = widthOf((unit > 2.05 * u ? "now " : "") + now, 1.05 * u, 700);
  let until = -Infinity;
  for (const t of times) {
    const isNow = t === now;
    out.push(`<line class="grid${isNow ? " nowline" : ""}" x1="${f1(X(t))}" x2="${f1(X(t))}" y1="${f1(axisH)}" y2="${f1(foot)}"/>`);
    if (plate && !lookH && X(t) > plate.from - 0.5 * u && X(t) < plate.from + plate.wide + 0.5 * u) continue;
    const half = isNow ? nowWide / 2 : widthOf(String(t), 0.95 * u) / 2;
    if (!isNow && (X(t) - half < until + 0.3 * u || X(t) + half > (t < now ? X(now) - nowWide / 2 - 0.3 * u : endX - 0.8 * u))) continue;
    until = X(t) + half;
    out.push(`<text class="tick${isNow ? " at" : ""}" x="${f1(X(t))}" y="${f1(lookH + 1.05 * u)}" text-anchor="middle">${isNow ? (unit > 2.05 * u ? "now " : "") + t : t}</text>`);
  }
  const isUnderPlate = (from, to) => plate !== null && !lookH && from < plate.from + plate.wide + 0.2 * u && to > plate.from - 0.2 * u;
  if (endX - X(now) > nowWide / 2 + 0.8 * u && !isUnderPlate(endX - 0.5 * u, endX + 0.5 * u)) out.push(`<text class="tick inf" x="${f1(endX)}" y="${f1(lookH + 1.12 * u)}" text-anchor="middle">\u221e</text>`);
  if (marks.wide && !isUnderPlate(marks.from + 0.25 * u, marks.from + 0.25 * u + widthOf("locks", 0.95 * u))) out.push(`<text class="tick" x="${f1(marks.from + 0.25 * u)}" y="${f1(lookH + 1.05 * u)}">${fitting(["locks"], marks.wide - 0.6 * u, 0.95 * u)}</text>`);
  const readers = readersHere();
  const tokens = [];
  let y = axisH;
  for (const { bucket, keys } of it.groups) {
    const top = y;
    if (bucket !== null) { out.push(bucketHead(bucket, y, it)); y += it.bucketH; }
    for (const { key, versions } of keys) {
      out.push(`<line class="rule" x1="0" x2="${W}" y1="${f1(y)}" y2="${f1(y)}"/>`);
      if (longestNumber()) out.push(`<text class="keyname" x="${f1(0.3 * u)}" y="${f1(y + rowH / 2 - 0.15 * u * k)}" style="font-size:${f1(LONG.size * u * k)}px">${esc(fitting([`key ${key}`, key], marks.from - 0.5 * u, LONG.size * u * k) || key)}</text>`);
      else out.push(`<text class="keyname" x="${f1(0.3 * u)}" y="${f1(y + rowH / 2 + 0.38 * u * k)}">${esc(fitting([`key ${key}`, key, ...[5, 4, 3, 2].map((count) => key.slice(0, count) + "\u2026")], marks.from - (isPhone ? 4.8 : narrow ? 4.9 : 5.4) * u * k, u * k))}</text>`);
      for (const version of versions) {
        const [under, over] = versionRow(version, y, rowH, { u: u * k, W, X, endX, futureX, left, right, marks, sights, actor, isPhone, narrow, now, readers, lookX });
        out.push(under);
        tokens.push(over);
        y += rowH;
      }
    }
    if (bucket !== null) out.push(`<rect class="bucketbox" x="0.7" y="${f1(top + 1)}" width="${f1(W - 1.4)}" height="${f1(y - top - 2)}" rx="${f1(0.3 * u)}"/>`);
  }
  if (lookX !== null) {
    out.push(`<g class="look ${colourOf(actor)}"><line x1="${f1(lookX)}" x2="${f1(lookX)}" y1="${f1(1.3 * u)}" y2="${f1(foot)}"/><path d="${arrowTip(lookX, foot, false, 0.6 * u)}"/></g>`, ...tokens.splice(0));
    const isNow = time === now;
    const tick = `${isNow && unit > 2.05 * u ? "now " : ""}${time}`;
    // Where the time that is now would touch the tick, the plate alone says the time of the look.
    const isTick = lookH > 0 && (isNow || X(now) - lookX > (nowWide + widthOf(tick, 1.05 * u, 700)) / 2 + 0.4 * u);
    out.push(`<g class="look ${colourOf(actor)}"><rect class="plate" x="${f1(plate.from)}" y="${f1(0.04 * u)}" width="${f1(plate.wide)}" height="${f1(1.26 * u)}" rx="${f1(0.3 * u)}"/><text class="looktext" x="${f1(plate.from + plate.wide / 2)}" y="${f1(0.98 * u)}" text-anchor="middle">${esc(plate.text)}</text>${isTick ? plateTick(tick, lookX, lookH, u, isNow) : ""}</g>`);
  }
  out.push(...tokens);
  if (it.hidden) out.push(`<text class="tick" x="${f1(0.2 * u)}" y="${f1(lookH + 1.05 * u)}">+ ${it.hidden} more</text>`);
  const attributes = { width: `${W}`, height: `${f1(H)}`, viewBox: `0 0 ${W} ${f1(H)}`, style: `font-size:${f1(u * k)}px`, role: "group", "aria-label": "Versions" };
  putDrawing("chains", attributes, [{ shift: 0, parts: out }]);
}

/** The plate over the line at which a transaction looks. */
function plateOf(texts, x, W, u) {
  const text = fitting(texts, W - u, 0.95 * u, 600);
  const wide = widthOf(text, 0.95 * u, 600) + 0.6 * u;
  return { text, wide, from: Math.max(Math.min(x - wide / 2, W - wide), 0) };
}

/** The time of a look over the line that goes through its tick. */
function plateTick(text, x, lookH, u, isNow) {
  const wide = widthOf(text, (isNow ? 1.05 : 0.95) * u, 700) + 0.3 * u;
  return `<rect class="byplate" x="${f1(x - wide / 2)}" y="${f1(lookH + 0.15 * u)}" width="${f1(wide)}" height="${f1(1.15 * u)}"/><text class="tick at" x="${f1(x)}" y="${f1(lookH + 1.05 * u)}" text-anchor="middle">${text}</text>`;
}

/** The transactions that read-lock each version here. */
function readersHere() {
  const readers = new Map();
  for (const id of run.txnIds) for (const v of run.txn(id, here).reads) readers.set(v, [...(readers.get(v) ?? []), id]);
  return readers;
}

function versionRow(it, y, h, at) {
  const { u, W, X, endX, futureX, left, right, marks, sights, isPhone, narrow, lookX } = at;
  const sight = sights.get(String(it.v));
  const touched = run.touched[here].includes("version " + it.v);
  const maker = it.maker ? run.txn(it.maker, here) : null;
  const writer = it.writer ? run.txn(it.writer, here) : null;
  const isNever = it.bt === "infinity" || maker?.kind === "aborted";
  const out = [];
  const label = `version ${it.v}, key ${it.key}, value ${it.value}: ${saidOfBegin(it)}; End ${saidOfEnd(it)}${sight ? `; ${sight.isSeen ? "seen" : "passed over"}` : ""}`;
  out.push(`<g class="version${touched ? " touched" : ""}${isNever ? " never" : ""}${pinned?.v === it.v ? " pinned" : ""}" data-v="${it.v}" role="button" tabindex="0" aria-label="${esc(label)}">`);
  out.push(`<rect class="hit" x="${f1(marks.from - 5.4 * u)}" y="${f1(y + 1)}" width="${f1(W - marks.from + 5.4 * u)}" height="${f1(h - 2)}"/>`);
  const base = y + h / 2 + 0.38 * u;
  if (longestNumber()) {
    const [line, type] = [y + h / 2 + 0.68 * u, `style="font-size:${f1(LONG.size * u)}px"`];
    out.push(`<text class="vname" x="${f1(0.3 * u)}" y="${f1(line)}" ${type}>v${it.v}</text><text class="value" x="${f1(marks.from - 0.35 * u)}" y="${f1(line)}" text-anchor="end" ${type}>${esc(it.value)}</text>`);
  } else out.push(`<text class="vname" x="${f1(marks.from - (isPhone ? 4.4 : narrow ? 4.6 : 5) * u)}" y="${f1(base)}">v${it.v}</text><text class="value" x="${f1(marks.from - 0.35 * u)}" y="${f1(base)}" text-anchor="end">${esc(fitting([it.value, ...[4, 3, 2].map((count) => it.value.slice(0, count) + "\u2026")], 3.1 * u, 1.15 * u, 700) || "\u2026")}</text>`);
  const barH = Math.min(h * 0.72, 3.5 * u);
  const barY = y + (h - barH) / 2;
  // from where
  let x0;
  let open0 = "";
  if (isNever) x0 = null;
  else if (it.made) x0 = X(it.made);
  else if (maker.end && (maker.kind === "preparing" || maker.kind === "committed" || maker.kind === "terminated")) { x0 = X(maker.end); if (maker.kind === "preparing") open0 = "promised"; }
  else { x0 = futureX; open0 = "unborn"; }
  // until where
  let x1 = endX;
  let close = "live";
  if (it.ended) { x1 = X(it.ended); close = "ended"; }
  else if (writer) {
    if (writer.end && (writer.kind === "committed" || writer.kind === "terminated")) { x1 = X(writer.end); close = "ended"; }
    else if (writer.end && writer.kind === "preparing") { x1 = X(writer.end); close = "promised"; }
    else if (writer.kind !== "aborted") close = "written";
  }
  if (isNever) {
    out.push(`<rect class="bar neverbar" x="${f1(futureX)}" y="${f1(barY)}" width="${f1(Math.max(endX - futureX, 0))}" height="${f1(barH)}"/>`);
  } else {
    const owner = open0 ? colourOf(it.maker) : "";
    const wide = Math.max(x1 - x0, 0.28 * u);
    const arrow = Math.min(barH * 0.42, 0.7 * u);
    const shape = close === "live" || close === "written"
      ? `M${f1(x0)} ${f1(barY)}H${f1(endX - arrow)}L${f1(endX + 0.3 * u)} ${f1(barY + barH / 2)}L${f1(endX - arrow)} ${f1(barY + barH)}H${f1(x0)}Z`
      : `M${f1(x0)} ${f1(barY)}h${f1(wide)}v${f1(barH)}h${f1(-wide)}Z`;
    out.push(`<path class="bar ${open0} ${owner}" d="${shape}"/>`);
    // what a writer would take away, if it commits: the rest of the bar is struck out in its colour
    if (close === "written") {
      const from = Math.max(x0, futureX);
      out.push(`<path class="taken ${colourOf(it.writer)}" d="M${f1(from)} ${f1(barY + 2)}H${f1(endX - arrow)}L${f1(endX + 0.3 * u - 3)} ${f1(barY + barH / 2)}L${f1(endX - arrow)} ${f1(barY + barH - 2)}H${f1(from)}Z"/>`);
      const text = fitting([...namedTexts(it.writer, (name) => `until ${name} commits`), ...namedTexts(it.writer, (name) => `until ${name}`)], endX - from - 0.75 * u, 0.95 * u, 600);
      if (text && it.writer !== it.maker && x0 < from - 0.2 * u) out.push(`<text class="by ${colourOf(it.writer)}" x="${f1(from + 0.45 * u)}" y="${f1(y + h / 2 + 0.33 * u)}">${esc(text)}</text>`);
    }
    if (close === "promised") out.push(`<path class="tail ${colourOf(it.writer)}" d="M${f1(x1)} ${f1(barY)}H${f1(endX)}M${f1(x1)} ${f1(barY + barH)}H${f1(endX)}"/><line class="cut ${colourOf(it.writer)}" x1="${f1(x1)}" x2="${f1(x1)}" y1="${f1(barY - 2)}" y2="${f1(barY + barH + 2)}"/>`);
  }
  // the locks: readers as round tokens, the writer as a square one with a lock
  const under = out.splice(0).join("") + "</g>";
  out.push(`<g class="version${touched ? " touched" : ""}${isNever ? " never" : ""}" data-v="${it.v}">`);
  const mid = y + h / 2;
  out.push(marksOf(it, writer, at.readers.get(String(it.v)) ?? [], mid, marks, u));
  if (it.made && it.made === it.ended && !it.writer) out.push(`<text class="by" x="${f1(x1 + 0.7 * u)}" y="${f1(mid + 0.33 * u)}">at no time</text>`);
  // which transaction made it, until that is decided
  if (!isNever && it.maker) {
    const words = it.writer === it.maker ? [...namedTexts(it.maker, (name) => `written over by ${name} itself`), ...namedTexts(it.maker, (name) => `gone, by ${name}`), "gone"] : open0 === "unborn" ? [`made by ${nameOf(it.maker)}, not committed`, ...namedTexts(it.maker, (name) => `valid if ${name} commits`), ...namedTexts(it.maker, (name) => `if ${name} commits`), `${shortOf(it.maker)}'s`]
      : open0 === "promised" ? [...namedTexts(it.maker, (name) => `if ${name} commits`), `${shortOf(it.maker)}?`] : namedTexts(it.maker, (name) => `by ${name}, not stamped yet`).concat(namedTexts(it.maker, (name) => `by ${name}`));
    let from = x0 + 0.45 * u;
    if (lookX !== null && from < lookX + 0.4 * u && from + 4 * u > lookX) from = lookX + 0.4 * u;
    const text = fitting(words, Math.min(x1, close === "written" && !open0 ? futureX : endX - 0.5 * u) - from - 0.1 * u, 0.95 * u, open0 ? 600 : 400);
    if (text) out.push(`<text class="by ${open0 ? colourOf(it.maker) : ""}" x="${f1(from)}" y="${f1(mid + 0.33 * u)}">${esc(text)}</text>`);
  }
  if (isNever) {
    const words = maker ? [...namedTexts(it.maker, (name) => `${name} aborted`), "aborted", "\u2717"] : ["never valid", "never", "\u2717"];
    const text = fitting(words, endX - futureX - 0.5 * u, 0.95 * u) || "\u2717";
    const wide = widthOf(text, 0.95 * u) + 0.4 * u;
    const from = (futureX + endX - wide) / 2;
    out.push(`<rect class="byplate" x="${f1(from)}" y="${f1(mid - 0.62 * u)}" width="${f1(wide)}" height="${f1(1.24 * u)}"/><text class="by" x="${f1(from + 0.2 * u)}" y="${f1(mid + 0.33 * u)}">${esc(text)}</text>`);
  }
  // what is seen of it, and its End word
  const isTall = h > 2.9 * u;
  if (!narrow && (!sight || isTall)) out.push(`<text class="endword" x="${f1(W - right + 0.5 * u)}" y="${f1(sight ? base + 0.75 * u : base)}">${it.end}</text>`);
  if (sight) {
    const words = sight.isSeen
      ? sight.ifCommits ? [...namedTexts(run.ids.get(sight.ifCommits), (name) => `\u2713 if ${name} commits`), "\u2713?"] : ["\u2713 seen", "\u2713"]
      : sight.ifCommits ? [...namedTexts(run.ids.get(sight.ifCommits), (name) => `\u2013 if ${name} commits`), "\u2013?"] : ["\u2013 passed over", "\u2013"];
    out.push(`<text class="sight ${sight.isSeen ? "seen" : "unseen"}" x="${f1(W - right + 0.6 * u)}" y="${f1(isTall && !narrow ? base - 0.6 * u : base)}">${esc(fitting(words, right - 0.6 * u, 1.05 * u, 700) || words.at(-1))}</text>`);
  }
  out.push("</g>");
  return [under, out.join("")];
}

const padlock = (x, mid, s) => `M${f1(x)} ${f1(mid - s * 0.1)}h${f1(s * 1.7)}v${f1(s * 1.2)}h${f1(-s * 1.7)}zM${f1(x + s * 0.25)} ${f1(mid - s * 0.1)}v${f1(-s * 0.5)}a${f1(s * 0.6)} ${f1(s * 0.6)} 0 0 1 ${f1(s * 1.2)} 0v${f1(s * 0.5)}h${f1(-s * 0.3)}v${f1(-s * 0.5)}a${f1(s * 0.3)} ${f1(s * 0.3)} 0 0 0 ${f1(-s * 0.6)} 0v${f1(s * 0.5)}z`;


/** The locks of a version, in their column: readers as round tokens, then no more reads, then the writer as a square one with a lock. */
function marksOf(it, writer, readers, mid, { from, readers: most, r }, u) {
  const out = [];
  let x = from + 0.35 * u;
  readers.slice(0, most).forEach((id, index) => {
    const more = readers.length > most && index === most - 1 ? readers.length - most + 1 : 0;
    out.push(readerToken(id, x + r, mid, r, u, more));
    x += 2 * r + 0.12 * u;
  });
  if (it.noMore) {
    out.push(`<g class="gate"><title>no more reads</title><circle cx="${f1(x + r)}" cy="${f1(mid)}" r="${f1(r - 1)}"/><path d="M${f1(x + r - r * 0.62)} ${f1(mid)}h${f1(r * 1.24)}"/></g>`);
    x += 2 * r + 0.2 * u;
  }
  if (it.writer) {
    const text = shortOf(it.writer);
    out.push(`<g class="writer ${colourOf(it.writer)}${writer.kind === "aborted" ? " gone" : ""}"><title>${esc(nameOf(it.writer))} writes</title><rect x="${f1(x)}" y="${f1(mid - r)}" width="${f1(2 * r + 1 * u)}" height="${f1(2 * r)}" rx="2"/><path d="${padlock(x + 0.22 * u, mid, 0.42 * u)}"/><text x="${f1(x + 1.05 * u)}" y="${f1(mid + 0.34 * u)}">${esc(text)}</text></g>`);
  }
  return out.join("");
}

/** A reader, or a holder, as a round token; `more`: of so many others too. */
function readerToken(id, x, mid, r, u, more = 0) {
  const said = more ? `+${more}` : shortOf(id);
  const usual = 0.98 * u;
  const size = Math.min(usual, (usual * 1.7 * r) / widthOf(said, usual, 700));
  return `<g class="reader ${colourOf(id)}"><title>${esc(nameOf(id))}</title><circle cx="${f1(x)}" cy="${f1(mid)}" r="${f1(r)}"/><text x="${f1(x)}" y="${f1(mid + 0.35 * size)}" text-anchor="middle"${size < usual ? ` style="font-size:${f1(size)}px"` : ""}>${esc(said)}</text></g>`;
}

/* ---- buckets: who locks one, and who waits for those */

/** Whether buckets are drawn: where one is locked at some position. */
const bucketIsShown = () => run.bucketIds.length > 0;

/** The transactions that lock a bucket at a position, and those that wait for one of them because of the bucket. */
function bucketAt(bucket, position) {
  const holders = run.get("bucket " + bucket, position)?.holders ?? [];
  const waiters = run.edges(position).filter((it) => it.by.includes(`bucket ${bucket}`)).map((it) => it.from);
  return { holders, waiters: [...new Set(waiters)] };
}

const sameList = (a, b) => a.join() === b.join();

/** Whether a step changes who locks a bucket, or who waits for those. */
function bucketMoved(bucket, position) {
  if (position === 0) return false;
  const [old, now] = [bucketAt(bucket, position - 1), bucketAt(bucket, position)];
  return !sameList(old.holders, now.holders) || !sameList(old.waiters, now.waiters);
}

/** The buckets that the step here changes. */
const bucketsMoved = () => (here === 0 ? [] : run.bucketIds.map((it) => it.slice(7)).filter((it) => bucketMoved(it, here)));

/** Transactions as round tokens from a place on, and the place after them; "nobody" where there is none. */
function tokensOf(ids, x, mid, r, u, most) {
  if (!ids.length) return [`<text class="vname" x="${f1(x)}" y="${f1(mid + 0.34 * u)}">nobody</text>`, x + widthOf("nobody", u) + 0.2 * u];
  const shown = ids.slice(0, most);
  const out = shown.map((id, index) => readerToken(id, x + r + index * (2 * r + 0.12 * u), mid, r, u, ids.length > most && index === most - 1 ? ids.length - most + 1 : 0));
  return [out.join(""), x + shown.length * (2 * r + 0.12 * u) + 0.2 * u];
}

/** The head of a bucket's box over its versions: its lockers, and the waiters. */
function bucketHead(bucket, y, { u, W, bucketH, narrow, isPhone }) {
  const { holders, waiters } = bucketAt(bucket, here);
  const mid = y + bucketH / 2;
  const r = Math.min(bucketH * 0.4, 0.72 * u);
  const base = f1(mid + 0.36 * u);
  const most = narrow || isPhone ? 3 : 6;
  const out = [`<g class="bucket${bucketMoved(bucket, here) ? " moved" : ""}" style="font-size:${f1(u)}px"><title>${esc(bucketSaid(bucket, here))}</title><rect class="head" x="0.7" y="${f1(y + 1)}" width="${f1(W - 1.4)}" height="${f1(bucketH - 1)}" rx="${f1(0.3 * u)}"/>`];
  let x = 0.4 * u;
  const say = (text, name = "vname") => { out.push(`<text class="${name}" x="${f1(x)}" y="${base}">${text}</text>`); x += widthOf(text, u, name === "bucketname" ? 700 : 400) + 0.5 * u; };
  const show = (ids) => { const [html, next] = tokensOf(ids, x, mid, r, u * 0.94, most); out.push(html); x = next + 0.5 * u; };
  say(`bucket ${bucket}`, "bucketname");
  if (holders.length) { say(narrow || isPhone ? "locked:" : "locked by"); show(holders); } else say("no lock");
  if (waiters.length) { say(narrow || isPhone ? "wait:" : "waiting for that lock"); show(waiters); }
  return out.join("") + "</g>";
}

const namesSaid = (ids) => ids.map(nameOf).join(", ") || "nobody";
function bucketSaid(bucket, position) {
  const { holders, waiters } = bucketAt(bucket, position);
  return `bucket ${bucket}: locked by ${namesSaid(holders)}; waiting: ${namesSaid(waiters)}`;
}

/** A bucket as the step changes it: before and after, as words are. */
function drawBucket({ bucket }, W, u, density, isSingle) {
  const rowH = [2.3, 1.8, 1.3, 1.1][density] * u;
  const head = [1.4, 1.25, 1.05, 0.95][density] * u;
  const [old, now] = [bucketAt(bucket, here - 1), bucketAt(bucket, here)];
  const [first, second] = [3.6 * u, 3.6 * u + (W - 3.6 * u) / 2];
  const r = Math.min(rowH * 0.4, 0.85 * u);
  const most = Math.max(2, Math.floor((W - 3.6 * u) / 2 / (2 * r + 0.12 * u)) - 1);
  const out = [`<text class="field" x="${f1(first)}" y="${f1(u)}">LockList</text><text class="field" x="${f1(second)}" y="${f1(u)}">${fitting(["who waits for them", "waiters"], (W - 3.6 * u) / 2, 0.95 * u)}</text>`];
  let y = head;
  for (const [label, it, isMoved] of [["before", old, false], ["after", now, true]]) {
    out.push(`<text class="rowname" x="0" y="${f1(y + rowH * 0.66)}">${label}</text>`);
    for (const [from, list, before] of [[first, it.holders, old.holders], [second, it.waiters, old.waiters]]) {
      const lit = isMoved && !sameList(list, before) ? " moved" : "";
      out.push(`<rect class="slot${lit}" x="${f1(from)}" y="${f1(y + 1)}" width="${f1((W - 3.6 * u) / 2 - 0.5 * u)}" height="${f1(rowH - 3)}" rx="3"/>`, tokensOf(list, from + 0.3 * u, y + rowH / 2 - 0.5, r, u * 0.94, most)[0]);
    }
    y += rowH;
  }
  const html = `<figure class="wordbox">${isSingle ? "" : `<figcaption><span>Bucket ${bucket}: <b>its lock</b></span></figcaption>`}<svg width="${W}" height="${f1(y)}" viewBox="0 0 ${W} ${f1(y)}" style="font-size:${f1(u)}px" role="img" aria-label="before, ${esc(bucketSaid(bucket, here - 1))}; after, ${esc(bucketSaid(bucket, here))}">${out.join("")}</svg></figure>`;
  return { html, height: y + (isSingle ? 0.4 : 1.75) * u };
}

/* ---- who waits for whom */

/** How many transactions are drawn at most. */
const MOST_NODES = 8;

/** Whether three or more wait in a row or in a ring somewhere in the run: the panel is higher then. */
function hasRing() {
  if (run.hasRing === undefined) run.hasRing = run.waitsAt.some(([, waits]) => new Set(linesOf(waits).flatMap((it) => it.split(" ").slice(0, 2))).size > 2);
  return run.hasRing;
}

function showGraph() {
  const together = togetherHere();
  if (together && !isGraphCovered()) { showTogether(together); return; }
  const edges = run.edges(here).filter((it) => !isEnded(it.from));
  const step = here > 0 ? run.steps[here - 1] : null;
  const cycle = step?.r[0] === "victim" ? step.r.slice(3) : [];
  const live = run.txnIds.filter((id) => { const it = run.txn(id, here); return it.kind !== "not" && it.kind !== "terminated"; });
  const busy = new Set(edges.flatMap((it) => [it.from, it.to]));
  const near = nearby(step?.name ? run.ids.get(step.name) : cycle[0], edges, cycle);
  const nodes = live.length <= MOST_NODES ? live : near.length ? near : live.filter((id) => busy.has(id)).slice(0, MOST_NODES);
  const told = edges.map((it) => `${nameOf(it.from)} ${it.kind === "waits" ? "waits for" : "commits after"} ${nameOf(it.to)} (${it.by.join(", ")})`);
  $("graph-said").textContent = isGraphCovered() ? "" : told.join("; ") || "nobody waits";
  showGraphTitle(edges, nodes, 0);
  if (isGraphCovered()) { put("graph", `<p class="soft quiet">Hidden while you guess. <button type="button" data-do="graph">Show</button></p>`); return; }
  if (!nodes.length) { put("graph", ""); return; }
  const bare = drawGraph(nodes, edges, cycle, cycle.length ? step.r[1] : null);
  if (bare) showGraphTitle(edges, nodes, bare);
}

/** Whether a transaction has ended, so that it waits for nobody. */
const isEnded = (id) => ["aborted", "committed", "terminated"].includes(run.txn(id, here).kind);

/** Whether a transaction has asked for what it waits for. */
const hasAsked = (edge) => run.waitings.get(edge.from).some((it) => it.kind === "waits" && it.from <= here && (it.to === null || it.to > here));

/** The title, with what the lines don't say; `bare`: how many of them have no room for a label. */
function showGraphTitle(edges, nodes, bare) {
  const left = edges.filter((it) => !nodes.includes(it.from) || !nodes.includes(it.to)).length;
  const isWeak = edges.some((it) => it.kind === "waits" && !hasAsked(it) && run.txn(it.from, here).kind === "active");
  const isDotted = edges.some((it) => it.kind === "commits");
  const notes = [left ? `and ${left} waits of others` : "", isWeak ? "dashed: has not asked yet" : "", isDotted ? "dotted: may commit only after" : "", bare ? `${bare} without a label` : ""].filter(Boolean);
  const note = edges.length ? notes.join("; ") : "nobody";
  $("waits-title").innerHTML = `Who waits for whom${isGraphCovered() || !note ? "" : ` <small>${note}</small>`}`;
}

/** Where the nodes are: two side by side, more on an ellipse, or in a row where the panel is low or narrow. */
function graphLayout(nodes, W, H) {
  const count = nodes.length;
  const k = H < 3.4 * rem() ? Math.max(H / (3.4 * rem()), 0.6) : count > 2 && H < 8 * rem() ? 0.9 : Math.max(1, Math.min(1.35, H / (8 * rem()), W / (27 * rem())));
  const u = rem() * k;
  const r = count > 6 ? Math.min(1.02 * u, H / 8.4) : 1.25 * u;
  const isFlat = count > 2 && (H < (count > 4 ? 7.2 : 6.2) * u || W < 24 * rem());
  const isBelow = isFlat || (W < 26 * rem() && count <= 2);
  // in a very low panel the nodes have no room for words below them
  const isWide = count > 6 && !isFlat;
  const isLow = isBelow && H < 2 * r + 3.2 * u;
  const spot = new Map();
  const gap = isFlat ? Math.min((W - 5 * u) / (count - 1), 10 * u) : 0;
  if (count <= 2) nodes.forEach((id, index) => spot.set(id, { x: count === 1 ? W / 2 : W / 2 + (index ? 1 : -1) * Math.max(2.5 * u, Math.min(W / 2 - (isBelow ? 3 : 6.9) * u, 8 * u)), y: H / 2 - (isLow ? 0 : 0.3) * u }));
  else if (isFlat) nodes.forEach((id, index) => spot.set(id, { x: W / 2 + (index - (count - 1) / 2) * gap, y: Math.max(Math.min(H * 0.56, H - r - (isLow ? 0.1 : 1.55) * u), r) }));
  else {
    const [rx, ry] = [isWide ? Math.min(W / 2 - r - 0.8 * u, 26 * u) : Math.min(W / 2 - 7 * u, 11 * u), H / 2 - r - 0.4 * u];
    const turn = count % 2 === 0 ? Math.PI / count : 0;
    nodes.forEach((id, index) => {
      const angle = (2 * Math.PI * index) / count - Math.PI / 2 + turn;
      spot.set(id, { x: W / 2 + rx * Math.cos(angle), y: ry * Math.sin(angle) });
    });
    // the nodes take the whole height, though no node may be at the foot of the ellipse
    const ys = [...spot.values()].map((it) => it.y);
    const [low, high] = [Math.min(...ys), Math.max(...ys)];
    for (const it of spot.values()) it.y = r + 0.4 * u + ((it.y - low) / (high - low)) * 2 * ry;
  }
  return { u, r, W, H, isFlat, isBelow, isLow, isWide, spot, gap };
}

/** Draws the nodes and lines; answers how many lines have no label. */
function drawGraph(nodes, edges, cycle, victim) {
  const [W, H] = [sizes.graph[0], Math.max(sizes.graph[1], 2 * rem())];
  const at = graphLayout(nodes, W, H);
  const { u, r, spot, isFlat } = at;
  const inCycle = new Set(cycle.map((id, index) => `${id} ${cycle[(index + 1) % cycle.length]}`));
  const shapes = [];
  for (const edge of edges) {
    if (!spot.has(edge.from) || !spot.has(edge.to)) continue;
    const isHot = edge.kind === "waits" && inCycle.has(`${edge.from} ${edge.to}`);
    const both = edges.some((it) => it.from === edge.to && it.to === edge.from);
    shapes.push(edgeShape(spot.get(edge.from), spot.get(edge.to), { ...edge, isHot, isWeak: !isHot && edge.kind === "waits" && !hasAsked(edge) }, r, u, both, isFlat ? Math.abs(nodes.indexOf(edge.from) - nodes.indexOf(edge.to)) : 0));
  }
  return putGraph(shapes, nodes.map((id) => graphNode(id, at, victim === id)), at);
}

/** Puts lines, labels and nodes into the panel; answers how many lines have a label that has no room. */
function putGraph(shapes, circles, at) {
  const { u, W, H } = at;
  const heads = shapes.map((it) => it.head);
  // words that a line's head would cover are left out: the node's short form, and its title, still say whose it is
  for (const it of circles) if (heads.some((head) => isOver(head, it.box))) { it.svg = it.bare; it.box = { left: 0, right: 0, top: 0, bottom: 0 }; }
  placeLabels(shapes, circles.map((it) => it.box), at);
  const out = [...shapes.map((it) => it.line), ...shapes.map((it) => edgeLabel(it, u)), ...circles.map((it) => it.svg)];
  put("graph", `<svg width="${W}" height="${f1(H)}" viewBox="0 0 ${W} ${f1(H)}" style="font-size:${f1(u)}px" role="img" aria-labelledby="graph-said">${out.join("")}</svg>`);
  return shapes.filter((it) => it.label && !it.spot).length;
}

/** The words of a node at the left or right edge of a wide graph: above it, or below it in the lower half. */
function noteAtEdge(x, y, { u, r, W, H }, texts, isBad) {
  const side = x < W / 2 ? -1 : 1;
  return nodeNote(fitting(texts, W / 4, u), side < 0 ? Math.max(x - r, 2) : Math.min(x + r, W - 2), y < H / 2 ? y - r - 0.35 * u : y + r + 1.05 * u, side < 0 ? "start" : "end", u, isBad);
}

/** The words of a node, and the box that they take. */
function nodeNote(note, x, y, anchor, u, isBad) {
  const wide = widthOf(note, u);
  const left = anchor === "start" ? x : anchor === "end" ? x - wide : x - wide / 2;
  return { svg: `<text class="nodenote${isBad ? " bad" : ""}" x="${f1(x)}" y="${f1(y)}" text-anchor="${anchor}">${esc(note)}</text>`, box: { left, right: left + wide, top: y - 0.9 * u, bottom: y + 0.25 * u } };
}

/** A transaction: its name in the circle, or its short form there and its name beside it; the same without the words beside it, and the box of these. */
function graphNode(id, at, isHit) {
  const { u, r, W, isBelow, isLow, spot, gap } = at;
  const { x, y } = spot.get(id);
  const it = run.txn(id, here);
  const isDead = it.kind === "aborted";
  const [name, short] = [nameOf(id), shortOf(id)];
  const isWhole = name === short || (name.length <= 3 && widthOf(name, 1.2 * u, 700) < 2 * r - 0.4 * u);
  const out = [`<g class="node ${colourOf(id)}${isDead ? " dead" : ""}${isHit ? " victim" : ""}"><title>${esc(name)}</title><circle cx="${f1(x)}" cy="${f1(y)}" r="${f1(r)}"/><text class="nodename" x="${f1(x)}" y="${f1(y + 0.44 * u)}" text-anchor="middle">${esc(isWhole ? name : short)}</text>`];
  if (isDead) out.push(`<circle class="crossed" cx="${f1(x + r * 0.8)}" cy="${f1(y - r * 0.8)}" r="${f1(0.5 * u)}"/><path class="cross" d="M${f1(x + r * 0.8 - 0.22 * u)} ${f1(y - r * 0.8 - 0.22 * u)}l${f1(0.44 * u)} ${f1(0.44 * u)}m0 ${f1(-0.44 * u)}l${f1(-0.44 * u)} ${f1(0.44 * u)}"/>`);
  // the inner nodes of a wide graph have their words between them
  const side = (x < W / 2 - u ? -1 : 1) * (at.isWide ? -1 : 1);
  const phase = isHit ? "victim" : it.doomed && !isDead ? "must abort" : it.kind === "active" && it.finished ? "finished" : it.kind;
  const withNote = ({ svg, box }) => ({ svg: `${out.join("")}${svg}</g>`, bare: `${out.join("")}</g>`, box });
  if (at.isWide && Math.abs(x - W / 2) > W / 3.4) return withNote(noteAtEdge(x, y, at, isWhole ? [phase] : [name, short], isHit || it.doomed));
  const beside = [...spot.values()].filter((o) => (o.x - x) * side > 1 && Math.abs(o.y - y) < r + 0.55 * u).map((o) => Math.abs(o.x - x) - r);
  const room = isBelow ? (isLow ? 0 : Math.min((gap || 8 * u) - 0.3 * u, 2 * Math.min(x, W - x))) : (at.isWide ? Math.abs(x - W / 2) : Math.min(side < 0 ? x : W - x, ...beside)) - r - 0.45 * u;
  const note = fitting(isWhole ? [phase, ...[4, 3].map((count) => `${phase.slice(0, count)}\u2026`)] : [`${name}, ${phase}`, name], room, u);
  return withNote(nodeNote(note, isBelow ? x : x + side * (r + 0.35 * u), isBelow ? y + r + 1.1 * u : y + 0.33 * u, isBelow ? "middle" : side < 0 ? "end" : "start", u, isHit || it.doomed));
}

/** The transaction that moves, and some around it: first a cycle, then those that it waits for, and those that wait for it. */
function nearby(me, edges, cycle) {
  if (!me) return [];
  const found = new Set([me, ...cycle]);
  for (const it of edges) if (it.from === me) found.add(it.to);
  for (const it of edges) if (it.to === me) found.add(it.from);
  if (found.size === 1) return [];
  return [...found].slice(0, Math.max(MOST_NODES, cycle.length)).sort((a, b) => a - b);
}

/** What a line of each kind says. */
const EDGES = { waits: "waits for", commits: "commits after", before: "comes before" };

/** The line of an edge with its arrow head, the box of the head, the curve's three points, and the edge's label with its width. */
function edgeShape(a, b, edge, r, u, both, apart) {
  const [dx, dy] = [b.x - a.x, b.y - a.y];
  const far = Math.hypot(dx, dy) || 1;
  const [ux, uy] = [dx / far, dy / far];
  const bend = apart > 1 ? Math.max(Math.min((1 + apart / 2) * u, 2 * (a.y - r * 0.8 - 0.75 * u)), 0) : both ? 1.5 * u : 0.5 * u;
  const [nx, ny] = apart > 1 ? [0, -1] : [-uy, ux];
  const tip = 0.85 * u;
  const off = apart > 1 ? r * 0.8 : both ? 0.55 * u : 0.1 * u;
  const [near, nearer] = apart > 1 ? [r * 0.6, r * 0.75] : [r + 2, r + 3];
  const p = { x: a.x + ux * near + nx * off, y: a.y + uy * near + ny * off };
  const q = { x: b.x - ux * nearer + nx * off, y: b.y - uy * nearer + ny * off };
  const m = { x: (p.x + q.x) / 2 + nx * bend, y: (p.y + q.y) / 2 + ny * bend };
  const [tx, ty] = [q.x - m.x, q.y - m.y];
  const tl = Math.hypot(tx, ty) || 1;
  const [vx, vy] = [tx / tl, ty / tl];
  const end = { x: q.x - vx * tip * 0.8, y: q.y - vy * tip * 0.8 };
  const corners = [[0, 0], [-vx * tip - vy * tip * 0.55, -vy * tip + vx * tip * 0.55], [-vx * tip + vy * tip * 0.55, -vy * tip - vx * tip * 0.55]];
  const [xs, ys] = [corners.map((it) => q.x + it[0]), corners.map((it) => q.y + it[1])];
  const label = edge.kind === "commits" ? "depends" : edge.by.join(", ");
  const kind = `${edge.kind}${edge.isHot ? " hot" : ""}${edge.isWeak ? " weak" : ""}`;
  const said = `${nameOf(edge.from)} ${EDGES[edge.kind]} ${nameOf(edge.to)}${edge.by.length ? ` (${edge.by.join(", ")})` : ""}`;
  return {
    edge, kind, label, wide: widthOf(label, 0.95 * u, 600) + 0.5 * u, curve: [p, m, end], spot: null,
    head: { left: Math.min(...xs), right: Math.max(...xs), top: Math.min(...ys), bottom: Math.max(...ys) },
    line: `<g class="edge ${kind}"><title>${esc(said)}</title><path class="line" d="M${f1(p.x)} ${f1(p.y)}Q${f1(m.x)} ${f1(m.y)} ${f1(end.x)} ${f1(end.y)}"/>
    <path class="tip" d="M${f1(q.x)} ${f1(q.y)}l${f1(-vx * tip - vy * tip * 0.55)} ${f1(-vy * tip + vx * tip * 0.55)}l${f1(vy * tip * 1.1)} ${f1(-vx * tip * 1.1)}z"/></g>`,
  };
}

/** Where along its line a label may stand: the middle first, then further out. */
const LABEL_PLACES = [0.5, 0.45, 0.55, 0.4, 0.6, 0.35, 0.65, 0.3, 0.7, 0.25, 0.75, 0.2, 0.8, 0.15, 0.85];

const isOver = (a, b) => a.left < b.right && b.left < a.right && a.top < b.bottom && b.top < a.bottom;

/** Whether a box touches a circle. */
const isOnCircle = (box, { x, y }, r) => Math.hypot(Math.max(box.left - x, 0, x - box.right), Math.max(box.top - y, 0, y - box.bottom)) < r;

/** Gives each label a place on its line where it covers no node, no words of one, no arrow head and no other label. First come a cycle's, then
    those of the transaction that moves. A label that has no such place is left out; the title of its edge says it. */
function placeLabels(shapes, notes, { u, r, W, H, spot }) {
  const me = here > 0 ? run.ids.get(run.steps[here - 1].name) : undefined;
  const rank = ({ edge, wide }) => (edge.isHot ? 0 : edge.from === me || edge.to === me ? 1000 : edge.isWeak ? 3000 : 2000) + wide / u;
  const taken = [...notes, ...shapes.map((it) => it.head)];
  for (const shape of shapes.filter((it) => it.label).sort((a, b) => rank(a) - rank(b))) {
    const [p, m, end] = shape.curve;
    for (const t of LABEL_PLACES) {
      const along = (axis) => (1 - t) * (1 - t) * p[axis] + 2 * t * (1 - t) * m[axis] + t * t * end[axis];
      const [x, y] = [along("x"), along("y")];
      const box = { left: x - shape.wide / 2, right: x + shape.wide / 2, top: y - 0.65 * u, bottom: y + 0.65 * u };
      if (box.left < 0 || box.right > W || box.top < 0 || box.bottom > H) continue;
      if ([...spot.values()].some((it) => isOnCircle(box, it, r + 1)) || taken.some((it) => isOver(box, it))) continue;
      shape.spot = { x, y };
      taken.push(box);
      break;
    }
  }
}

/** The label of an edge, over a ground that hides the lines below it; none where it has no place. */
function edgeLabel({ kind, label, wide, spot }, u) {
  if (!spot) return "";
  const { x, y } = spot;
  return `<g class="edge ${kind}"><rect class="back" x="${f1(x - wide / 2)}" y="${f1(y - 0.65 * u)}" width="${f1(wide)}" height="${f1(1.3 * u)}"/><text x="${f1(x)}" y="${f1(y + 0.33 * u)}" text-anchor="middle">${esc(label)}</text></g>`;
}

/* ---- who comes before whom */

const { verdictKind } = Story.story;

/** What is said of the committed transactions together, at the end of a run that isn't serializable by end time. */
function togetherHere() {
  const told = isTree || here !== run.last ? null : data.together;
  return told && verdictKind(told.verdict) !== "serial" ? told : null;
}

/** Whether the committed transactions can follow one another, with the order or with who comes before whom. */
function togetherSaid(byEnd) {
  const told = data.together;
  switch (verdictKind(told.verdict)) {
    case "serial": return `<b>yes</b>${byEnd ? `, by end time: ${byEnd}` : ""}`;
    case "other": return `<b>yes</b>, in another order: ${told.order.map(tagName).join(", then ")}${byEnd ? ` (by end time: ${byEnd})` : ""}`;
    case "not": return `<b>no</b>: ${told.cycle.length > 1 ? told.cycle.map(beforeSaid).join(", ") : esc(told.cycle[0]?.words ?? "no order")}`;
    default: return "not serializable by end time; whether in another order is unknown";
  }
}

const beforeSaid = ({ from, to }) => `${from === null ? "the opening" : tagName(from)} before ${to === null ? "the opening" : tagName(to)}`;

/** The pairs that are drawn: the edges of a cycle with the key that each is by, or each transaction of an order and the next. */
function beforesOf(told) {
  if (told.cycle) return told.cycle.filter((it) => it.from !== null && it.to !== null).map((it) => ({ from: it.from, to: it.to, by: it.key === null ? [] : [String(it.key)] }));
  return told.order.slice(1).map((to, index) => ({ from: told.order[index], to, by: [] }));
}

/** Draws who comes before whom in the place of who waits for whom. */
function showTogether(told) {
  const pairs = beforesOf(told).map((it) => ({ kind: "before", from: run.ids.get(it.from), to: run.ids.get(it.to), by: it.by, isHot: Boolean(told.cycle) }));
  const nodes = [...new Set(pairs.flatMap((it) => [it.from, it.to]))].sort((a, b) => a - b).slice(0, MOST_NODES);
  $("waits-title").innerHTML = `Who comes before whom <small>${told.cycle ? "in no order" : "in another order"}</small>`;
  $("graph-said").textContent = told.cycle ? told.cycle.map((it) => it.words).join("; ") : told.order.join(", then ");
  if (!nodes.length) { put("graph", ""); return; }
  const [W, H] = [sizes.graph[0], Math.max(sizes.graph[1], 2 * rem())];
  const at = graphLayout(nodes, W, H);
  const shown = pairs.filter((it) => at.spot.has(it.from) && at.spot.has(it.to));
  const shapes = shown.map((it) => {
    const both = shown.some((other) => other.from === it.to && other.to === it.from);
    return edgeShape(at.spot.get(it.from), at.spot.get(it.to), it, at.r, at.u, both, at.isFlat ? Math.abs(nodes.indexOf(it.from) - nodes.indexOf(it.to)) : 0);
  });
  putGraph(shapes, nodes.map((id) => graphNode(id, at, false)), at);
}

/* ---- a word, field by field */

const bitsOf = (word) => BigInt("0x" + word).toString(2).padStart(64, "0");

/** The words to draw: pinned ones, else those the step changed, else those its reasons speak of. */
function wordsShown() {
  if (pinned) {
    const now = run.version(pinned.v, here);
    if (now) {
      const old = here > 0 ? run.version(pinned.v, here - 1) : null;
      return { list: ["end", "begin"].map((which) => ({ v: pinned.v, which, now, old: old && old[which] !== now[which] ? old : null })), more: 0, title: `v${pinned.v}, pinned` };
    }
  }
  const changed = [];
  for (const subject of run.touched[here]) {
    if (!subject.startsWith("version ")) continue;
    const [old, now] = [here > 0 ? run.get(subject, here - 1) : null, run.get(subject, here)];
    if (!old) changed.push({ v: now.v, which: "begin", now, old: null, isNew: true });
    else {
      if (old.end !== now.end) changed.push({ v: now.v, which: "end", now, old });
      if (old.begin !== now.begin) changed.push({ v: now.v, which: "begin", now, old });
    }
  }
  changed.sort((a, b) => (a.isNew ? 1 : 0) - (b.isNew ? 1 : 0));
  const buckets = bucketsMoved().map((bucket) => ({ bucket, now: {}, old: {} }));
  changed.unshift(...buckets);
  if (changed.length) return { list: changed.slice(0, 2), more: changed.length - 2, title: buckets.length === changed.length ? "The bucket that changed" : buckets.length ? "What changed" : changed.length > 1 ? "Words that changed" : "The word that changed" };
  const step = here > 0 ? run.steps[here - 1] : null;
  const spoken = [...(step?.why ?? "").matchAll(/version (\d+)[^\n]*\(([0-9A-F]{16})(, [0-9A-F]{16})?\)/g)].map((it) => it[1]);
  const list = [...new Set(spoken)].map((v) => ({ v: Number(v), which: "end", now: run.version(v, here), old: null })).filter((it) => it.now);
  if (list.length) return { list: list.slice(0, 2), more: list.length - 2, title: "No word changed; it looked at" };
  for (let at = here - 1; at > 0; at--) {
    const subject = run.touched[at].find((it) => it.startsWith("version ") && run.get(it, at - 1) && run.get(it, at - 1).end !== run.get(it, at).end);
    if (subject) return { list: [{ v: Number(subject.slice(8)), which: "end", now: run.get(subject, at), old: run.get(subject, at - 1) }], more: 0, title: `No word changed; the last one that did, at step ${run.done + at}` };
  }
  const first = run.versionIds.length ? run.version(run.versionIds[0], here) : null;
  return { list: first ? [{ v: first.v, which: "end", now: first, old: null }] : [], more: 0, title: "No word changed" };
}

function fieldsOf(word, which) {
  const bits = bitsOf(word);
  if (bits[0] === "0") return [{ name: "ContentType", from: 0, to: 1 }, { name: "Time", from: 1, to: 64 }];
  if (which === "begin") return [{ name: "ContentType", from: 0, to: 1 }, { name: "", from: 1, to: 10 }, { name: "TransactionId", from: 10, to: 64 }];
  return [{ name: "ContentType", from: 0, to: 1 }, { name: "NoMoreReadLocks", from: 1, to: 2 }, { name: "ReadLockCount", from: 2, to: 10 }, { name: "WriteLock", from: 10, to: 64 }];
}

function showWord() {
  const u = rem();
  const { list: all, more: rest, title } = wordsShown();
  if (!all.length) { $("words-title").textContent = title; put("word", '<p class="soft quiet">Click a version to see its words.</p>'); return; }
  const [W, H] = sizes.word;
  const room = isSmall() ? Infinity : H;
  const ways = all.length > 1 ? [[2, 1, false]] : [];
  ways.push([1, 0, true], [1, 1, true], [1, 1, false], [1, 2, false], [1, 3, false], [1, 4, false]);
  let made = null;
  for (const [count, density, hasHex] of ways) {
    const isSingle = count === 1 && !pinned;
    const parts = all.slice(0, count).map((it) => (it.bucket === undefined ? drawWord(it, W, u, density, isSingle, hasHex) : drawBucket(it, W, u, Math.min(density, 3), isSingle)));
    made = { list: all.slice(0, count), html: parts.map((it) => it.html).join(""), isSingle };
    if (parts.reduce((sum, it) => sum + it.height, 0) <= room + 0.1 * u) break;
  }
  const { list, html, isSingle } = made;
  const more = Math.max(rest, 0) + all.length - list.length;
  const note = list[0].old && !/^No/.test(title) ? "" : title.startsWith("No word changed; the last") ? title.replace(/.*, at/, "at") : list[0].isNew ? "new" : "unchanged";
  // a note that has no room beside the caption is left out
  const caption = isSingle ? captionOf(list[0]) : "";
  const hasRoom = widthOf(caption.replace(/<[^>]*>/g, ""), 1.05 * u, 700) + widthOf(note, 0.95 * u) + u <= W;
  const lead = isSingle ? `${caption}${hasRoom ? ` <small>${note}</small>` : ""}` : esc(title);
  $("words-title").innerHTML = lead + (pinned ? ' <button type="button" data-do="unpin">unpin</button>' : more > 0 ? ` <small>${isSingle && note ? "\u00b7 " : ""}and ${more} more</small>` : "");
  put("word", html);
}

/** Which word it is, and what it says: before, and after. */
function captionOf({ v, which, now, old, bucket }) {
  if (bucket !== undefined) return `Bucket ${bucket}: <b>its lock</b>`;
  const said = which === "end" ? saidOfEnd : saidOfBegin;
  return `${which === "end" ? "End" : "Begin"} of v${v}: ${old ? `<s>${esc(said(old))}</s> \u2192 ` : ""}<b>${esc(said(now))}</b>`;
}

/** Where the run of equal bits after the head of the words ends: these bits are folded. */
function foldOf(words) {
  let until = 61;
  for (const bits of words) {
    let at = 10;
    while (at < 64 && bits[at] === bits[10]) at++;
    until = Math.min(until, at);
  }
  return Math.max(until, 11);
}

/** A word as HTML, and its height. */
function drawWord(it, W, u, density, isSingle, hasHex) {
  const { v, which, now, old, isNew } = it;
  const word = now[which];
  const rows = old ? [{ word: old[which], label: "before" }, { word, label: "after" }] : [{ word, label: isNew ? "new" : "" }];
  const all = rows.map((row) => bitsOf(row.word));
  const fold = foldOf(all);
  const tail = 64 - fold;
  const labelW = 3.6 * u;
  const gaps = 1.4 * u;
  const foldW = 5.4 * u;
  const bit = Math.min((W - labelW - gaps - foldW - 0.4 * u) / (10 + tail), 1.75 * u);
  const x = (at) => labelW + (at <= 10 ? at * bit : 10 * bit + foldW + (at - fold) * bit) + (at >= 1 ? 0.35 * u : 0) + (at >= 2 ? 0.35 * u : 0) + (at >= 10 ? 0.7 * u : 0);
  const rowH = [2.3, 1.68, 1.2, 1.1, 0.98][density] * u;
  const head = [1.4, 1.25, 1.02, 0.88, 0][density] * u;
  // where there is little room the names of the fields are small, and stand only over the word as it is; with the least room there are none
  const isTight = density >= 2;
  const type = isTight ? `style="font-size:${f1(0.8 * u)}px"` : "";
  const line = isTight ? head - 0.2 * u : u;
  const out = [];
  let y = 0;
  rows.forEach((row, index) => {
    const bits = all[index];
    const fields = fieldsOf(row.word, which);
    const names = fields.map((it) => it.name).join();
    const before = index > 0 ? fieldsOf(rows[index - 1].word, which).map((it) => it.name).join() : null;
    if (head && names !== before && !(isTight && index === 0 && rows.length > 1 && fieldsOf(rows[1].word, which).map((it) => it.name).join() !== names)) {
      for (const it of fields) {
        const [l, r] = [x(it.from), it.to >= 64 ? x(63) + bit : x(it.to - 1) + bit];
        const texts = { ContentType: ["ContentType", "type", "T"], NoMoreReadLocks: ["NoMoreReadLocks", "NoMore", "NM"], ReadLockCount: ["ReadLockCount", "readers"], WriteLock: ["WriteLock"], TransactionId: ["Transaction"], Time: ["Time"] }[it.name] ?? [it.name];
        const slack = it.name === "ContentType" ? l - 0 + bit - 0.2 * u : r - l;
        if (it.name === "ContentType") { const t = fitting(["type"], labelW + bit, 0.95 * u) || "T"; out.push(`<text class="field" x="${f1(r)}" y="${f1(y + line)}" ${type} text-anchor="end">${t}</text>`); }
        else if (it.name === "NoMoreReadLocks") out.push(`<text class="field" x="${f1(l)}" y="${f1(y + line)}" ${type}>${fitting(["NoMore", "NM"], bit + 2.4 * u, 0.95 * u)}</text>`);
        else { const shift = it.name === "ReadLockCount" ? Math.max(0, widthOf("NoMore", 0.95 * u) - bit - 0.1 * u) : 0; out.push(`<text class="field" x="${f1(l + shift)}" y="${f1(y + line)}" ${type}>${fitting(texts, slack - shift, 0.95 * u)}</text>`); }
      }
      y += head;
    } else if (index === 0) y += 0.25 * u;
    out.push(`<text class="rowname" x="0" y="${f1(y + rowH * 0.66)}">${row.label}</text>`);
    const isTime = bits[0] === "0";
    const isInfinite = isTime && !bits.slice(1).includes("0");
    const moved = (at) => index > 0 && all[index - 1][at] !== bits[at];
    if (isInfinite) {
      const isMoved = index > 0;
      out.push(bitBox(x(0), y, bit, rowH, "0", moved(0), u));
      out.push(`<rect class="whole${isMoved ? " moved" : ""}" x="${f1(x(1))}" y="${f1(y + 1)}" width="${f1(x(63) + bit - x(1))}" height="${f1(rowH - 3)}" rx="3"/><text class="infinity" x="${f1((x(1) + x(63) + bit) / 2)}" y="${f1(y + rowH * 0.68)}" text-anchor="middle">\u221e &#160; infinity (63 ones)</text>`);
    } else {
      for (let at = 0; at < 10; at++) out.push(bitBox(x(at), y, bit, rowH, bits[at], moved(at), u));
      const left = x(10);
      const isFoldMoved = index > 0 && all[index - 1].slice(10, fold) !== bits.slice(10, fold);
      out.push(`<rect class="folded${isFoldMoved ? " moved" : ""}" x="${f1(left)}" y="${f1(y + 1)}" width="${f1(x(fold) - left - 1)}" height="${f1(rowH - 3)}" rx="3"/><text class="foldtext" x="${f1((left + x(fold)) / 2)}" y="${f1(y + rowH * 0.67)}" text-anchor="middle">${fold - 10} ${bits[10] === "1" ? "ones" : "zeros"}</text>`);
      for (let at = fold; at < 64; at++) out.push(bitBox(x(at), y, bit, rowH, bits[at], moved(at), u));
    }
    y += rowH;
  });
  const hex = (word, from) => [...word].map((it, at) => (from && from[at] !== it ? `<b>${it}</b>` : it)).join("");
  const told = old
    ? `<code>${old[which]}</code> \u2192 <code class="new">${hex(word, old[which])}</code>`
    : `<code class="new">${word}</code>`;
  const caption = captionOf(it);
  const html = `<figure class="wordbox">${isSingle ? "" : `<figcaption><span>${caption}</span> <code>${hex(word, old?.[which])}</code></figcaption>`}
    <svg width="${W}" height="${f1(y)}" viewBox="0 0 ${W} ${f1(y)}" role="img" aria-label="${caption.replace(/<[^>]*>/g, "")}: ${word}">${out.join("")}</svg>${hasHex && isSingle ? `<p class="hex">${told}</p>` : ""}</figure>`;
  const lines = Math.ceil((widthOf(caption.replace(/<[^>]*>/g, ""), 1.02 * u, 600) + 10.5 * u) / W);
  return { html, height: y + (isSingle ? (hasHex ? (old && W < 23 * u ? 2.65 : 1.35) * u : 0) : lines * 1.35 * u + 0.4 * u) };
}

const bitBox = (x, y, w, h, bit, isMoved, u) => `<rect class="bit b${bit}${isMoved ? " moved" : ""}" x="${f1(x + 0.5)}" y="${f1(y + 1)}" width="${f1(w - 2)}" height="${f1(h - 3)}" rx="2"/><text class="bittext b${bit}${isMoved ? " moved" : ""}" x="${f1(x + w / 2 - 0.5)}" y="${f1(y + h * 0.5 + 0.34 * Math.min(u, w * 1.4))}" text-anchor="middle"${w < 0.72 * u ? ` style="font-size:${f1(w * 1.4)}px"` : ""}>${bit}</text>`;

/* ================================================================ the explorer */

/** In the explorer: the place of the step of this move that tells most, where the move is over here; else this step's. */
function tellingStep() {
  if (!isTree) return here;
  const ends = endsOfPath();
  const place = placeHere();
  if (ends[place] !== here || place === 0) return here;
  const first = ends[place - 1] + 1;
  let best = here;
  for (let at = here; at >= first; at--) if (weightOf(run.steps[at - 1]) > weightOf(run.steps[best - 1])) best = at;
  return best;
}

/** How much a step tells, beside others of its move. */
function weightOf(step) {
  return ({ victim: 6, failed: 5, waiting: 4, committed: 3 })[step.r[0]] ?? (step.r[0] === "aborted" ? (step.op === "precommit" ? 1 : 5) : /^(read|scan|insert|update|delete)$/.test(step.op) ? 2 : 0);
}

/** In the explorer: the events of the move up to here, each a button. */
function eventsOfMove(shown) {
  const ends = endsOfPath();
  let place = ends.findIndex((end) => end >= here);
  while (ends[place + 1] === ends[place] && place < placeHere()) place++;
  if (place < 1) return "";
  const first = ends.slice(0, place).reduce((most, it) => (it < here ? Math.max(most, it) : most), 0) + 1;
  const items = [];
  const all = [];
  for (let at = first; at <= Math.min(ends[place], run.last); at++) all.push(at);
  const telling = [...all].sort((a, b) => (b === shown) - (a === shown) || weightOf(run.steps[b - 1]) - weightOf(run.steps[a - 1])).slice(0, 4);
  for (const at of all) {
    if (!telling.includes(at)) continue;
    const step = run.steps[at - 1];
    items.push(`<button type="button" data-at="${at}" class="${kindOf(step)}${at > here ? " ahead" : ""}"${at === shown ? ' aria-current="step"' : ""}>${step.name ? tagName(step.name) + " " : ""}${esc(step.op)} \u2192 ${esc(step.reply)}</button>`);
  }
  if (items.length < 2) return "";
  return `<p class="events" aria-label="The events of this move">${items.join(" ")}${all.length > items.length ? ` <span class="soft">and ${all.length - items.length} more</span>` : ""}</p>`;
}

const total = (counts) => counts.reduce((sum, it) => sum + it, 0);
const isWhole = () => tree.nodes[tree.path.at(-1)].next.length === 0;

/** The rows at the end of an outcome. */
const rowsAtEnd = ({ rows }) => rows.map(([key, value]) => `${key}=${value}`).join(" ");

/** The ends and the rows of an outcome, as `hek permute` words them. */
const endsAndRows = (outcome) => [...outcome.ends.map(({ txn, end }) => `${txn} ${end}`), `rows ${rowsAtEnd(outcome)}`.trim()].join("; ");

/** The verdict of an outcome, and the line of the first invariant that it breaks. */
const verdictOf = ({ verdict, breaks }) => verdict + (breaks === undefined ? "" : `; breaks line ${breaks}`);

/** An outcome whole, as a line of `hek permute` has it. */
const outcomeText = (outcome) => `${endsAndRows(outcome)}; ${verdictOf(outcome)}`;

/** Whether an outcome is serializable, and breaks no invariant. */
const isGood = ({ verdict, breaks }) => breaks === undefined && verdictKind(verdict) !== "not";

/** How a transaction ends, in a sentence. */
const endSaid = (end) => (end === "committed" ? "commits" : end === "unended" ? "goes on" : `aborts (${end.replace("aborted ", "")})`);

/** An outcome in few words: of more than two transactions those that don't commit. A verdict that is serializable by end time isn't said. */
function outcomeOf(outcome) {
  const { ends, verdict, breaks } = outcome, isPlain = breaks === undefined && verdictKind(verdict) === "serial";
  const telling = ends.length > 2 ? ends.filter(({ end }) => end !== "committed") : ends;
  const said = telling.map(({ txn, end }) => `${tagName(txn)} ${endSaid(end)}`).join(", ") || "all commit";
  return `${said}<span class="soft"> \u00b7 ${esc(rowsAtEnd(outcome))}${isPlain ? "" : ` \u00b7 <b>${esc(verdictOf(outcome))}</b>`}</span>`;
}

/** An outcome for a line that may be cut: what differs among the outcomes alone, and first what tells it from those in which the same transactions commit. */
function tellingOf(outcome) {
  const differs = (outcomes) => (of) => new Set(outcomes.map(of)).size > 1, isTelling = differs(data.outcomes);
  const telling = ({ ends }) => ends.filter((_, t) => isTelling((it) => it.ends[t].end)), valueIn = ({ rows }, key) => rows.find((it) => it[0] === key)?.[1];
  const marks = (it) => telling(it).map(({ txn, end }) => `${shortTag(txn)} ${end === "committed" ? "\u2713" : end === "unended" ? "\u2013" : "\u2717"}`).join(" ");
  const isNeeded = differs(data.outcomes.filter((it) => marks(it) === marks(outcome)));
  const others = [
    ({ rows }) => rowsAtEnd({ rows: rows.filter(([key]) => isTelling((it) => valueIn(it, key))) }),
    (it) => telling(it).map(({ end }) => end).filter((end) => end.startsWith("aborted ")).map((end) => end.slice(8)).join(", "),
    (it) => verdictOf(it).replace("serializable in", "in"),
  ].filter(isTelling).sort((one, other) => isNeeded(other) - isNeeded(one));
  return [marks(outcome), ...others.map((of) => esc(of(outcome)))].filter(Boolean).join(" \u00b7 ") || outcomeOf(outcome);
}

const letterOf = (outcome) => "ABCDEFGHIJKLMNOPQRSTUVWXYZ"[outcome] ?? String(outcome);
let isSecret = false;

/** How many orders, and how many of them lead to each outcome where these are few and a choice has room for so many letters. */
function countsSaid(counts, room) {
  const orders = `${total(counts)} ${total(counts) === 1 ? "order" : "orders"}`;
  const each = counts.map((count, at) => (count ? `${count} ${letterOf(at)}` : "")).filter(Boolean);
  const whole = `${orders}: ${each.join(", ")}`;
  if (orders.length > room) return String(total(counts));
  return (counts.length > 3 && each.length > 1) || whole.length > room ? orders : whole;
}

/** The outcomes that have room, the possible ones first if not all have. */
function outcomesShown(counts) {
  const all = [...counts.keys()];
  const room = isSmall() ? all.length : Math.max(2, Math.floor((sizes.word[1] + 0.1 * rem()) / (1.95 * rem())));
  if (all.length <= 3 || all.length <= room) return all;
  return [...all].sort((a, b) => (counts[b] > 0) - (counts[a] > 0)).slice(0, room - 1).sort((a, b) => a - b);
}

function outcomeBar(counts) {
  if (isSecret) return "";
  return `<span class="share">${counts.map((it, at) => (it ? `<i class="o${at % 6}" style="flex:${it}"></i>` : "")).join("")}</span>`;
}

/** The mark of a move that joins. */
const JOINS = '<svg viewBox="0 0 20 16" class="icon" aria-hidden="true"><path d="M2 3.500c5 0 5 4.500 9 4.500M2 12.500c5 0 5 -4.500 9 -4.500h3" fill="none" stroke="currentColor" stroke-width="1.800"/><path d="M13 4.500v7l5 -3.500z"/></svg>';
const shortTag = (name) => `<b class="t ${colourOf(run.ids.get(name))}">${esc(shortOf(run.ids.get(name)))}</b>`;
const joinSaid = (next) => `joins the state after ${namesOf(tree, pathTo(tree, next)).join(" ")}`;
const statesSaid = () => (tree.isMerged ? `, ${tree.nodes.length} states` : "");

/** How many orders are left; where states are merged, at the start how many states there are. */
function ordersSaid(reach, place) {
  const all = total(tree.nodes[0].counts);
  if (tree.isMerged && place === 0) return `${all} orders${statesSaid()}`;
  return tree.isMerged && all > 1e9 ? `${reach} orders left` : `${reach} of ${all} orders left`;
"#;

pub(crate) const SCRIPT_FOURTH: &str = r##"}

/** Two orders of more moves are said without what they have in common at the start; their names, if they have more letters, in short. */
const MOST_MOVES = 8;
const MOST_LETTERS_SAID = 40;

/** That the page shows another order than the one that was asked for, where it begins to. */
function askedSaid() {
  if (asked === null || placeHere() !== asked.length || endsOfPath()[asked.length] !== here) return "";
  const shown = namesOf(tree, tree.path).slice(0, asked.length);
  const cut = asked.length > MOST_MOVES ? asked.findIndex((it, index) => it !== shown[index]) : 0;
  const isLong = 2 * asked.slice(cut).join(" ").length > MOST_LETTERS_SAID;
  const [one, other] = [asked, shown].map((order) => (cut > 0 ? "\u2026 " : "") + order.slice(cut).map(isLong ? shortTag : tagName).join(" "));
  const isOver = tree.nodes[tree.path[asked.length]].next.length === 0;
  return `<p class="joined">${JOINS} ${isOver ? `${one} ends as ${other} does: the page shows that order.` : `After ${one} the same can happen as after ${other}: the page goes on from there.`}</p>`;
}

function showTree() {
  const place = placeHere();
  const ends = endsOfPath();
  const node = tree.nodes[tree.path[place]];
  const isAt = ends[place] === here;
  const done = movesDone(node.index);
  // breadcrumbs
  const order = askedTo(tree.path.length - 1);
  const crumbs = order.map((name, index) => {
    const nth = order.slice(0, index).filter((it) => it === name).length;
    return `<button type="button" data-crumb="${index + 1}" class="${index + 1 <= place ? "" : "ahead"}"${index + 1 === place ? ' aria-current="true"' : ""}>${tagName(name)} ${esc(tree.moves[tree.names.indexOf(name)][nth])}</button>`;
  });
  $("path").hidden = false;
  $("path").innerHTML = `<button type="button" data-crumb="0"${place === 0 ? ' aria-current="true"' : ""}>start</button>${crumbs.map((it) => `<span aria-hidden="true">\u203a</span>${it}`).join("")}<span class="space"></span><button type="button" data-do="undo"${place === 0 ? " disabled" : ""} title="Backspace">\u21b6 undo</button>`;
  const current = $("path").querySelector('[aria-current="true"]');
  if (current) {
    const path = $("path"), covered = path.lastElementChild.offsetWidth + 8, last = current.offsetLeft + current.offsetWidth + covered - path.clientWidth;
    path.scrollLeft = Math.max(0, current.offsetLeft - path.clientWidth * 0.4, Math.min(current.offsetLeft, last));
  }
  // the choices
  const whole = node.next.length === 0;
  const reach = total(node.counts);
  const ways = node.next.filter((it) => it !== undefined).length;
  // More choices than have room beside one another: there may be so many where states are merged.
  const isCrowd = tree.isMerged && ways > 3;
  const room = !tree.isMerged ? Infinity : ways > 6 ? 12 : 20;
  const choices = node.next.map((next, who) => {
    if (next === undefined) return "";
    const it = tree.nodes[next];
    const move = tree.moves[who][done[who]];
    const isTaken = tree.path[place + 1] === next;
    const joins = isJoin(tree, node.index, next);
    const idle = (joins ? hasEnded(tree.names[who]) : it.steps.length === 0) ? ' <span class="soft">(has aborted)</span>' : "";
    return `<button type="button" class="choice${isTaken ? " taken" : ""}" data-next="${next}"${joins ? ` title="${esc(joinSaid(next))}"` : ""}><kbd>${who + 1}</kbd> <span>${joins ? `${JOINS} ` : ""}${(isCrowd ? shortTag : tagName)(tree.names[who])} <b>${esc(move)}</b>${idle}</span>${outcomeBar(it.counts)}<span class="count">${isSecret ? "" : countsSaid(it.counts, room)}</span></button>`;
  }).join("");
  const found = whole && isAt ? `<p class="whose">This order is complete.</p><p class="final">${outcomeOf(data.outcomes[node.outcome])}</p><p>All together: <b>${esc(verdictOf(data.outcomes[node.outcome]))}</b>. ${reachSaid(node)}</p>` : "";
  const inside = isAt ? "" : `<p class="whose">In the middle of a move</p><p>\u2192 goes on with it.</p>`;
  $("because").innerHTML = `<div class="moves">${found || inside || `<p class="whose">Who moves next?</p><div class="pick${tree.isMerged ? " merged" : ""}${isCrowd ? " crowd" : ""}" style="--n:${isCrowd ? Math.ceil(ways / 2) : Math.min(ways, 3)}">${choices}</div>`}</div>`;
  // the outcomes that can still be reached
  if (!pinned) {
    $("words-title").innerHTML = `Outcomes from here <small>${ordersSaid(reach, place)}</small>`;
    if (isSecret) $("words-title").textContent = "Outcomes: what do you think?";
    const shown = isSecret ? [] : outcomesShown(node.counts);
    const rowsOf = (say) => shown.map((at) => {
      const count = node.counts[at];
      return `<li class="${count ? "" : "out"}"><span class="n">${count}</span><span class="swatch o${at % 6}"></span><b>${letterOf(at)}</b><span class="what" title="${esc(outcomeText(data.outcomes[at]))}">${say(data.outcomes[at])}</span><button type="button" data-find="${at}"${count ? "" : " disabled"}>find one</button><span class="rail"><i class="o${at % 6}" style="width:${f1((100 * count) / Math.max(reach, 1))}%"></i></span></li>`;
    });
    const left = isSecret ? 0 : data.outcomes.length - shown.length;
    const digits = Math.max(...shown.map((at) => String(tree.nodes[0].counts[at]).length));
    const listed = (say, isMany) => put("word", `<ul class="outcomes${isMany ? " many" : ""}"${digits > 3 ? ` style="--digits:${digits}"` : ""}>${rowsOf(say).join("")}${left ? `<li class="rest soft">and ${left} more</li>` : ""}</ul>`);
    listed(outcomeOf, data.outcomes.length > 3);
    // Lines that are broken may need more room than there is.
    if (!isSmall() && $("word").scrollHeight > $("word").clientHeight + 2) $("word").firstElementChild.classList.add("many");
    if ([...$("word").querySelectorAll(".many .what")].some((it) => it.scrollWidth > it.clientWidth + 1)) listed(tellingOf, true);
  }
}

/** How common an outcome is. */
function reachSaid(node) {
  const [count, all] = [tree.nodes[0].counts[node.outcome], total(tree.nodes[0].counts)];
  return `${count} of all ${all} orders end so.`;
}

/** Whether a transaction has ended here. */
const hasEnded = (name) => ["aborted", "terminated"].includes(run.txn(run.ids.get(name), here).kind);

/** Goes on with a move; another one than the path had takes the rest of the path away, and one that joins all of it. */
function takeMove(next) {
  const place = placeHere();
  let order = asked;
  if (tree.path[place + 1] !== next) {
    const who = tree.nodes[tree.path[place]].next.indexOf(next);
    order = [...askedTo(place), tree.names[who]];
    tree.path = pathTo(tree, next);
    order = askedOf(tree, tree.path, order);
    run = runOfPath();
  }
  // A move of a transaction that has aborted does nothing.
  goToPlace(place + 1, order);
}

/** Goes to the end of the moves of an order, after which nothing has moved. */
function goToOrder(order) {
  tree.path = pathOf(tree, order);
  run = runOfPath();
  goToPlace(order.length, askedOf(tree, tree.path, order));
}

/** Goes to a place of the order that was asked for: what comes before the move that joined has steps of its own. */
function goToAsked(place) {
  if (asked !== null && place < asked.length) goToOrder(asked.slice(0, place));
  else goToPlace(place);
}

function goToPlace(place, order = asked) {
  move(endsOfPath()[place], order);
  if (place > 0 && tree.nodes[tree.path[place]].next.length === 0) tellLeaf();
}

/** Shows the moves from here to an outcome; if one of them joins, it is at the last that does. */
function findOutcome(outcome) {
  const place = placeHere();
  const before = askedTo(place);
  const { order, last, joined } = movesOn(tree, tree.path[place], outcome);
  tree.path = pathTo(tree, last);
  run = runOfPath();
  if (joined === 0) move(here);
  else goToPlace(place + joined, [...before, ...order.slice(0, joined)]);
}

/* ================================================================ the same moves at all levels */

const isLevels = sheet.kind === "levels";
/** The levels in the order of the trees. */
const LEVELS = ["serializable", "repeatable", "snapshot"];
/** The trees at the levels, which level's explorer is shown (null: the table of all), and the order that stands in three columns. */
const levels = { trees: [], shown: null, order: [] };

function plantLevels() {
  levels.trees = sheet.trees.map(treeOf);
  const marked = outcomesAtLevels().find(({ outcome, counts }) => !isGood(outcome) && counts.some(Boolean)) ?? outcomesAtLevels()[0];
  const at = marked.counts.findIndex(Boolean);
  levels.order = orderTo(levels.trees[at], placeOf(sheet.trees[at], marked.text));
}

/** The place among a tree's outcomes of the one with a text. */
const placeOf = (its, text) => its.outcomes.findIndex((it) => outcomeText(it) === text);

/** Each outcome, with its text and how many orders have it at each level. */
function outcomesAtLevels() {
  const all = new Map(sheet.trees.flatMap((it) => it.outcomes).map((it) => [outcomeText(it), it]));
  return [...all].map(([text, outcome]) => ({ text, outcome, counts: sheet.trees.map((it, at) => levels.trees[at].nodes[0].counts[placeOf(it, text)] ?? 0) }));
}

/** The first order of a tree that has an outcome: the names of those that move. */
const orderTo = (its, outcome) => movesOn(its, 0, outcome).order;

/** The steps of an order at a level that tell something, and its outcome. */
function columnAt(at) {
  const its = levels.trees[at];
  const path = pathOf(its, levels.order);
  const steps = path.flatMap((node) => its.nodes[node].steps).map((it) => eventOf(it.line)).filter((it) => /^(read|scan|insert|update|delete|precommit|commit|fail)$/.test(it.op) || it.op === "detect").filter(isNews());
  const lines = steps.map((it) => `<li class="${kindOf(it)}"><b class="t c${Math.max(its.names.indexOf(it.name), 0) % 6}">${esc(it.name ?? "")}</b> ${esc(it.event)} <span aria-hidden="true">\u2192</span> <b>${esc(it.reply)}</b></li>`);
  const outcome = its.nodes[path.at(-1)].outcome;
  const other = askedOf(its, path, levels.order) === null ? "" : `<p class="joined">${JOINS} Shown as ${esc(namesOf(its, path).join(" "))}, which ends the same.</p>`;
  return `<section><h3>${LEVELS[at]} <button type="button" data-level="${at}">story</button></h3>${other}<ol>${lines.join("")}</ol><p class="ends">${outcome === null ? "" : endsSaid(sheet.trees[at].outcomes[outcome])}</p></section>`;
}

/** Whether a step says what its transaction hasn't said last. */
function isNews() {
  const last = new Map();
  return ({ name, event, reply }) => { const said = `${event} ${reply}`; const isNew = last.get(name) !== said; last.set(name, said); return isNew; };
}

/** An outcome in words: how each transaction ends, the rows, and the verdict. */
function endsSaid(outcome) {
  return `${esc(endsAndRows(outcome))}; <b class="${isGood(outcome) ? "good" : "bad"}">${esc(verdictOf(outcome))}</b>`;
}

function showLevels() {
  const orders = total(levels.trees[0].nodes[0].counts);
  const rows = outcomesAtLevels().map(({ text, outcome, counts }) => {
    const cells = counts.map((count, at) => (count ? `<td class="n"><button type="button" data-level="${at}" data-outcome="${esc(text)}" aria-label="${count} orders at ${LEVELS[at]}, show one of: ${esc(text)}">${count}</button></td>` : '<td class="n none">0</td>'));
    return `<tr>${cells.join("")}<td>${endsSaid(outcome)}</td></tr>`;
  });
  $("levels").innerHTML = `<p class="plain long">${esc((isSecret ? data.question : data.about) || "The same moves, with all transactions at one level.")}</p>
    <table><caption>${orders} orders of the moves at each level. A number shows the story of one of them.</caption><thead><tr>${LEVELS.map((it) => `<th scope="col">${it}</th>`).join("")}<th scope="col">ends, rows, verdict</th></tr></thead><tbody>${isSecret ? "" : rows.join("")}</tbody></table>
    <h2>One order: ${levels.order.map(esc).join(" ")}</h2><div class="columns">${isSecret ? "" : LEVELS.map((it, at) => columnAt(at)).join("")}</div>`;
}

/** Goes to the story of the order that stands in the columns, or of the first one whose outcome has a text, at a level. */
function goToLevel(at, text) {
  if (text !== undefined) levels.order = orderTo(levels.trees[at], placeOf(sheet.trees[at], text));
  takeLevel(at);
  tree.path = pathOf(tree, levels.order);
  run = runOfPath();
  move(0, askedOf(tree, tree.path, levels.order));
}

function takeLevel(at) {
  levels.shown = at;
  data = sheet.trees[at];
  tree = levels.trees[at];
  pinned = null;
  document.body.classList.remove("levels");
  measure();
}

/** Back to the table of all levels. */
function leaveLevel() {
  if (!isLevels) return;
  levels.order = [...namesOf(tree, tree.path), ...movesOn(tree, tree.path.at(-1)).order];
  levels.shown = null;
  document.body.classList.add("levels");
  show();
}

/* ================================================================ a step as one picture: SVG with its style inside */

const SVG = "http://www.w3.org/2000/svg";
/** What a part of a drawing has of its style. */
const STYLES = ["fill", "fill-opacity", "stroke", "stroke-width", "stroke-dasharray", "stroke-linecap", "opacity", "font-size", "font-weight", "font-family", "text-anchor", "text-decoration-line"];

/** An element of SVG with these attributes. */
function svgOf(name, attributes, text = "") {
  const made = document.createElementNS(SVG, name);
  for (const [key, value] of Object.entries(attributes)) made.setAttribute(key, value);
  if (text) made.textContent = text;
  return made;
}

/** A copy of a drawing that has its style in attributes, and nothing that a picture has no use for. */
function styledCopy(drawing) {
  const copy = drawing.cloneNode(true);
  const pairs = [drawing, ...drawing.querySelectorAll("*")].map((it, index) => [it, index]);
  const copies = [copy, ...copy.querySelectorAll("*")];
  for (const [it, index] of pairs) {
    const [style, made] = [getComputedStyle(it), copies[index]];
    for (const name of ["class", "style", "role", "tabindex", ...Object.keys(it.dataset).map((key) => "data-" + key)]) made.removeAttribute(name);
    for (const { name } of [...made.attributes]) if (name.startsWith("aria-")) made.removeAttribute(name);
    if (it.tagName === "title") { made.remove(); continue; }
    if (it.classList.contains("hit")) { made.remove(); continue; }
    for (const name of STYLES) {
      const value = style.getPropertyValue(name).replace(/url\("[^"#]*(#[^"]*)"\)/, "url($1)");
      if (value && value !== "none" || name === "fill") made.setAttribute(name === "text-decoration-line" ? "text-decoration" : name, value);
    }
  }
  return copy;
}

/** A drawing of the page at its place. */
function placedDrawing(drawing, origin) {
  const box = drawing.getBoundingClientRect();
  const copy = styledCopy(drawing);
  for (const [name, value] of Object.entries({ x: box.left - origin.left, y: box.top - origin.top, width: box.width, height: box.height })) copy.setAttribute(name, f1(value));
  copy.setAttribute("overflow", "hidden");
  return copy;
}

const isClear = (colour) => colour === "transparent" || /, 0\)$/.test(colour);

/** The box of an element, where it has a ground or an edge. */
function boxOf(element, origin) {
  const style = getComputedStyle(element);
  const box = element.getBoundingClientRect();
  const outcome = [...element.classList].find((it) => /^o\d$/.test(it));
  const ground = outcome ? getComputedStyle(document.documentElement).getPropertyValue(`--${outcome}`) : style.backgroundColor;
  const parts = [];
  const place = { x: f1(box.left - origin.left), y: f1(box.top - origin.top), width: f1(box.width), height: f1(box.height), rx: f1(parseFloat(style.borderTopRightRadius) || 0) };
  const edge = parseFloat(style.borderTopWidth);
  if (box.width && (!isClear(ground) || edge)) parts.push(svgOf("rect", { ...place, fill: isClear(ground) ? "none" : ground, ...(edge ? { stroke: style.borderTopColor, "stroke-width": edge } : {}) }));
  const side = parseFloat(style.borderLeftWidth);
  if (side > 3) parts.push(svgOf("rect", { ...place, width: side, rx: 0, fill: style.borderLeftColor }));
  return parts;
}

/** The lines of a text, each word with the words beside it, at their places. */
function linesOfText(node, origin) {
  const style = getComputedStyle(node.parentElement);
  const lines = [];
  const range = document.createRange();
  for (const { 0: word, index } of node.data.matchAll(/\S+/g)) {
    range.setStart(node, index);
    range.setEnd(node, index + word.length);
    const box = range.getBoundingClientRect();
    if (!box.width) continue;
    const last = lines.at(-1);
    if (last && Math.abs(last.top - box.top) < 2) { last.text += " " + word; last.right = box.right; } else lines.push({ text: word, top: box.top, left: box.left, right: box.right, height: box.height });
  }
  return lines.map((it) => svgOf("text", {
    x: f1(it.left - origin.left), y: f1(it.top - origin.top + it.height * 0.79), fill: style.color, "font-size": style.fontSize, "font-weight": style.fontWeight, "font-family": style.fontFamily,
    textLength: f1(it.right - it.left), lengthAdjust: "spacingAndGlyphs", ...(style.textDecorationLine.includes("underline") ? { "text-decoration": "underline" } : {}),
  }, it.text));
}

/** What the style writes before an element, as "because". */
function wordsBefore(element, origin) {
  const style = getComputedStyle(element, "::before");
  const text = /^"(.*)"$/.exec(style.content)?.[1] ?? "";
  if (!text.trim()) return [];
  const box = element.getBoundingClientRect();
  return [svgOf("text", { x: f1(box.left - origin.left), y: f1(box.top - origin.top + parseFloat(getComputedStyle(element).lineHeight || style.fontSize) * 0.76), fill: style.color, "font-size": style.fontSize, "font-family": style.fontFamily }, text)];
}

const NOT_IN_PICTURES = "#slider, #path, .rule, .hidden, .onward, [data-do], [data-find], script";

/** Adds an element with all that it shows to a picture. */
function addToPicture(element, origin, picture) {
  if (element.matches(NOT_IN_PICTURES) || !element.getClientRects().length) return;
  if (element.tagName === "svg") { picture.append(placedDrawing(element, origin)); return; }
  picture.append(...boxOf(element, origin), ...wordsBefore(element, origin));
  for (const node of element.childNodes) {
    if (node.nodeType === Node.TEXT_NODE) picture.append(...linesOfText(node, origin));
    else if (node.nodeType === Node.ELEMENT_NODE) addToPicture(node, origin, picture);
  }
}

/** This step as a picture: an element of SVG. It needs no style and no script. */
function pictureOf() {
  const box = document.querySelector("main").getBoundingClientRect();
  const head = 2.2 * rem();
  const origin = { left: box.left, top: box.top - head };
  const [W, H] = [box.width, Math.max(box.height, document.querySelector("main").scrollHeight) + head];
  const picture = svgOf("svg", { xmlns: SVG, width: f1(W), height: f1(H), viewBox: `0 0 ${f1(W)} ${f1(H)}` });
  const style = getComputedStyle(document.body);
  const at = isTree ? placeSaid().replace(/\./g, " ") : `after step ${run.done + here} of ${run.done + run.last}`;
  picture.append(styledCopy(document.querySelector(".defs defs")), svgOf("rect", { width: "100%", height: "100%", fill: style.backgroundColor }));
  picture.append(svgOf("text", { x: f1(0.8 * rem()), y: f1(1.6 * rem()), fill: style.color, "font-size": `${f1(1.15 * rem())}px`, "font-weight": "700", "font-family": style.fontFamily }, `${$("title").textContent} \u00b7 ${at}`));
  for (const part of document.querySelectorAll("#lanes, #say, .panel")) addToPicture(part, origin, picture);
  return picture;
}

const pictureText = () => new XMLSerializer().serializeToString(pictureOf());

/** Saves this step as a file. */
function savePicture() {
  const link = document.createElement("a");
  const name = `${data.title} ${isTree ? placeSaid() || "start" : run.done + here}`.replace(/[^\p{L}\p{N}]+/gu, "-").toLowerCase();
  link.href = URL.createObjectURL(new Blob([pictureText()], { type: "image/svg+xml" }));
  link.download = `${name}.svg`;
  link.click();
  setTimeout(() => URL.revokeObjectURL(link.href), 1000);
}

/* ---- in print: the telling steps as pictures, and all steps as a table; of an explorer its outcomes */

/** A run has at most so many pictures in print. */
const MOST_PICTURES = 24;

/** The positions of steps with a wait, an abort or a comment. */
function tellingPositions() {
  const its = run.steps.map((step, index) => [step, index + 1]).filter(([step, at]) => spanOf(at).to === at && (step.note || /^(waiting|victim|failed|aborted)/.test(step.reply)));
  return its.map(([, at]) => at).slice(0, MOST_PICTURES);
}

function picturesInPrint() {
  const kept = here;
  const theme = document.documentElement.dataset.theme;
  document.documentElement.dataset.theme = "light";
  guess = null;
  const pictures = tellingPositions().map((at) => { here = at; show(); const it = pictureOf(); it.setAttribute("class", "picture"); return it; });
  if (theme) document.documentElement.dataset.theme = theme; else delete document.documentElement.dataset.theme;
  here = kept;
  show();
  return pictures;
}

function tableInPrint() {
  const acting = new Set(run.steps.map((it) => it.name));
  const ids = run.txnIds.filter((id) => acting.has(nameOf(id)));
  const rows = run.steps.map((step, index) => {
    const cells = ids.map((id) => `<td>${step.name === nameOf(id) ? `${esc(step.event)} \u2192 <b>${esc(step.reply)}</b>` : ""}</td>`).join("");
    const whole = step.name === null ? `<td colspan="${ids.length}">detect \u2192 <b>${esc(step.reply)}</b></td>` : cells;
    return `<tr><td>${run.done + index + 1}</td>${whole}<td>${step.note ? `<i>${esc(step.note)}</i><br>` : ""}${linesOf(step.why).map(reasonOf).join("<br>")}</td><td>${changesOf(index + 1).join(" ")}</td></tr>`;
  });
  return `<caption>${esc(data.title)}. ${esc(data.about ?? "")}</caption><thead><tr><th>#</th>${ids.map((id) => `<th>${esc(nameOf(id))} <small>${esc(run.txn(id, 0).level)}</small></th>`).join("")}<th>why</th><th>changes</th></tr></thead><tbody>${rows.join("")}</tbody>`;
}

/** The first order that leads to an outcome, as its transactions one after another. */
const firstOrder = (outcome) => movesOn(tree, 0, outcome).order.join(" ");

function outcomesInPrint() {
  const counts = tree.nodes[0].counts;
  const rows = data.outcomes.map((outcome, at) => `<tr><td>${letterOf(at)}</td><td>${counts[at]}</td><td>${esc(endsAndRows(outcome))}</td><td><b>${esc(verdictOf(outcome))}</b></td><td>${esc(firstOrder(at))}</td></tr>`);
  return `<caption>${esc(data.title)}. ${esc(data.about ?? "")} ${total(counts)} orders of the moves.</caption><thead><tr><th></th><th>orders</th><th>ends and rows</th><th>verdict</th><th>the first of these orders</th></tr></thead><tbody>${rows.join("")}</tbody>`;
}

function buildPrint() {
  if (storyPage?.isOpen) return;
  const table = document.createElement("table");
  table.innerHTML = isTree ? outcomesInPrint() : tableInPrint();
  $("print").replaceChildren(...(isTree ? [] : picturesInPrint()), table);
}
addEventListener("beforeprint", buildPrint);
addEventListener("afterprint", () => { $("print").replaceChildren(); });

/* ================================================================ moving */

function show() {
  if (isLevels && levels.shown === null) { document.body.dataset.position = 0; showLevels(); return; }
  document.body.dataset.position = run.done + here;
  $("position").textContent = positionSaid();
  document.querySelector('[data-do="first"]').disabled = document.querySelector('[data-do="back"]').disabled = here === 0;
  document.querySelector('[data-do="on"]').disabled = document.querySelector('[data-do="last"]').disabled = here === run.last && guess === null;
  const slider = $("slider");
  slider.max = run.last;
  slider.value = here;
  slider.setAttribute("aria-valuetext", `after step ${run.done + here} of ${run.done + run.last}`);
  $("about").hidden = isSpoilerHidden();
  document.body.toggleAttribute("data-ring", !isTree && hasRing());
  showLanes();
  showSay();
  if (isTree) showTree();
  if (!isFar()) showChains();
  showGraph();
  if ((!isTree || pinned) && !isFar()) showWord();
  showScore();
  tellParent();
}

/** How far the page is: in steps; in the explorer, whose step is the one of the move that tells most, in moves. */
function positionSaid() {
  const place = isTree ? placeHere() : 0;
  return isTree && endsOfPath()[place] === here ? `${place} / ${total(tree.moves.map((it) => it.length))}` : `${run.done + here} / ${run.done + run.last}`;
}

/** Goes to a position; `order` is the one that was asked for, where the page shows another one. */
function move(position, order = asked) {
  here = Math.min(Math.max(position, 0), run.last);
  asked = order !== null && here >= endsOfPath()[order.length] ? order : null;
  show();
  clearTimeout(telling);
  telling = setTimeout(tellAddress, 120);
}

/** The place, as the address has it: the number of steps done; in the explorer the moves, and the step where one isn't over. */
function placeSaid() {
  if (!isTree) return String(run.done + here);
  const level = !isLevels ? "" : levels.shown === null ? "" : `${LEVELS[levels.shown]}:`;
  if (isLevels && level === "") return "";
  return level + askedTo(tree.path.length - 1).join(".") + (here < run.last ? "@" + here : "");
}

let telling = 0;
function tellAddress() {
  // A page that is a text within another one has no address of its own.
  if (location.protocol !== "about:") history.replaceState(null, "", "#" + placeSaid());
  const step = here > 0 ? run.steps[here - 1] : null;
  document.title = step && !coveredStep() ? `${run.done + here} ${step.name ? step.name + " " : ""}${step.event} \u2192 ${step.reply} \u00b7 ${data.title}` : `${data.title} \u00b7 Hek`;
}

/** One step on: where replies are guessed the next one is covered first. */
function on() {
  if (guess !== null) { guess = null; move(positionOn(here)); return; }
  if (here === run.last) { show(); return; }
  if (isPredict && !isTree && isAsked(run.steps[here]) && !told.answers.has(here)) { guess = here; show(); return; }
  move(positionOn(here));
}

function back() {
  if (guess !== null) { guess = null; show(); return; }
  const to = positionBack(here);
  if (asked !== null && to < endsOfPath()[asked.length]) goToAsked(asked.length - 1);
  else move(to);
}

function jump(position, order = asked) { guess = null; move(position, order); }

function press(name, isOn) { document.querySelector(`[data-do="${name}"]`).setAttribute("aria-pressed", String(isOn)); }

const DOES = {
  first: () => jump(0), last: () => jump(run.last), back, on,
  levels: () => leaveLevel(),
  secret: () => { isSecret = !isSecret; press("secret", isSecret); show(); },
  predict: () => { if (isTree) return DOES.secret(); isPredict = !isPredict; guess = null; if (isPredict) { isFuture = false; press("future", false); } press("predict", isPredict); show(); },
  future: () => { isFuture = !isFuture; press("future", isFuture); show(); },
  present: () => { const isOn = document.documentElement.classList.toggle("present"); press("present", isOn); resized(); },
  far: () => { document.documentElement.classList.toggle("far"); resized(); },
  theme: () => { const isDark = document.documentElement.dataset.theme ? document.documentElement.dataset.theme === "dark" : matchMedia("(prefers-color-scheme: dark)").matches; document.documentElement.dataset.theme = isDark ? "light" : "dark"; tellParent(); },
  help: () => tell(HELP), legend: () => tell(legend()), picture: () => savePicture(),
  pin: () => {
    const its = run.versionIds.filter((v) => run.version(v, here)).map(Number).sort((a, b) => a - b);
    if (!its.length) return;
    pinned = { v: its[(its.indexOf(pinned?.v ?? -1) + 1) % its.length] };
    show();
  },
  fields: () => { const step = run.steps[here - 1]; tellTxn(step?.name ? run.ids.get(step.name) : run.txnIds[0]); },
  unpin: () => { pinned = null; show(); },
  undo: () => { const place = placeHere(); if (place > 0) goToOrder(askedTo(place - 1)); },
  story: () => { if (storyPage) (isTree ? tellLeaf() : storyPage.close(run.done + here)); },
  graph: () => { isGraphShown = !isGraphShown; showGraph(); },
  blank: () => { $("blank").hidden = !$("blank").hidden; tellParent(); },
};

const HELP = `<h2>Keys</h2><table><tr><td><kbd>\u2192</kbd> <kbd>\u2193</kbd> <kbd>Space</kbd> <kbd>Page Down</kbd><td>one step on<tr><td><kbd>\u2190</kbd> <kbd>\u2191</kbd> <kbd>Shift Space</kbd> <kbd>Page Up</kbd><td>one step back
<tr><td><kbd>Home</kbd> <kbd>End</kbd><td>to the start, to the end<tr><td><kbd>1</kbd> .. <kbd>9</kbd>, then <kbd>Enter</kbd><td>to that step (at a question or in the explorer: that choice)<tr><td><kbd>?</kbd><td>guess each reply before it is shown
<tr><td><kbd>f</kbd><td>show the steps to come<tr><td><kbd>p</kbd><td>larger type<tr><td><kbd>l</kbd><td>for the last row: the step, the lanes and the waits alone, as large as they go<tr><td><kbd>d</kbd><td>light or dark<tr><td><kbd>w</kbd><td>the words of the next version, pinned until <kbd>Esc</kbd><tr><td><kbd>t</kbd><td>all fields of the transaction that moves<tr><td><kbd>g</kbd><td>what bars, arrows and short names mean<tr><td><kbd>i</kbd><td>save this step as one picture, SVG<tr><td><kbd>.</kbd> <kbd>b</kbd><td>blank the screen<tr><td><kbd>Backspace</kbd><td>explorer: take a move back<tr><td><kbd>Esc</kbd><td>unpin a word</table>
<p>A click on a step goes there; on a version it shows its words; on a name all fields of that transaction. Swipe left and right on a touch screen. The address ends in the step: <code>#6</code>.</p>`;

function tell(html) { $("dialog-body").innerHTML = html; $("dialog").showModal(); }

function tellTxn(id) {
  const it = run.txn(id, here);
  const names = (list) => list.map((one) => nameOf(one)).join(", ") || "none";
  const rows = [["level", it.level], ["state", it.state], ["begin time", it.begin ?? "none"], ["end time", it.end ?? "none"], ["WaitForCounter", it.waits], ["CommitDepCounter", it.commits], ["NoMoreWaitFors", it.finished ? "set" : "clear"], ["AbortNow", it.doomed ? "set" : "clear"],
    ["read set", it.reads.map((v) => "v" + v).join(", ") || "none"], ["write set", it.writes.map((one) => one.replace(/^(\w)(\w+)-(\d+)/, (all, a, b, v) => `${a.toUpperCase()}${b} of v${v}`)).join(", ") || "none"], ["bucket locks", it.buckets.join(", ") || "none"], ["WaitingTxnList", names(it.waiting)], ["CommitDepSet", names(it.dependents)]];
  tell(`<h2>${tag(id)} after step ${run.done + here}</h2><table>${rows.map(([name, said]) => `<tr><th scope="row">${name}<td>${esc(said)}`).join("")}</table>`);
}

let digits = "";
const MOVES = { ArrowRight: 1, ArrowDown: 1, PageDown: 1, ArrowLeft: -1, ArrowUp: -1, PageUp: -1 };
const LETTERS = { "?": "predict", f: "future", p: "present", l: "far", d: "theme", h: "help", w: "pin", t: "fields", g: "legend", i: "picture", ".": "blank", b: "blank", m: "story" };

/** The keys of the story, and of the page that has it. */
function storyKey(event) {
  const { key } = event;
  if (key === "d") DOES.theme();
  else if (key === "b" || key === ".") DOES.blank();
  else if (!storyPage.player.key(event)) return;
  event.preventDefault();
}

function onKey(event) {
  if (event.ctrlKey || event.altKey || event.metaKey) { tellPrint(event); return; }
  const { key } = event;
  // A dialog is shut by whatever a presenter's remote sends; Tab and Enter stay with it.
  if ($("dialog").open) {
    if (key === "Escape" || key === "h" || key === "g" || key in MOVES) { $("dialog").close(); event.preventDefault(); }
    return;
  }
  if (!$("blank").hidden) { DOES.blank(); event.preventDefault(); return; }
  if (storyPage?.isOpen) { storyKey(event); return; }
  if (key === " " && event.target.tagName === "BUTTON") return;
  if (key === " ") (event.shiftKey ? back : on)();
  else if (key in MOVES) (MOVES[key] > 0 ? on : back)();
  else if (key === "Home") jump(0);
  else if (key === "End") jump(run.last);
  else if (key === "Escape" && (digits || pinned)) { digits = ""; DOES.unpin(); }
  else if (key === "Backspace" && isTree) DOES.undo();
  else if (/^\d$/.test(key)) onDigit(key);
  else if (key === "Enter" && digits) { jump(Number(digits) - run.done); digits = ""; }
  else if (key === "Enter" && event.target.closest("g[tabindex]")) event.target.dispatchEvent(new MouseEvent("click", { bubbles: true }));
  else if (key in LETTERS && (key !== "m" || storyPage)) DOES[LETTERS[key]]();
  else { tellKey(event); return; }
  event.preventDefault();
}

function onDigit(key) {
  const button = coveredStep() ? document.querySelectorAll("[data-choice]")[key - 1] : isTree ? [...document.querySelectorAll("button[data-next]")].find((it) => it.querySelector("kbd").textContent === key) : null;
  if (button) { button.click(); return; }
  if (isTree || coveredStep()) return;
  digits = (digits + key).slice(-5);
  $("position").textContent = `${digits}\u2026`;
}

document.addEventListener("keydown", onKey);
document.addEventListener("click", (event) => {
  const hit = (attribute) => event.target.closest(`[${attribute}]`);
  const does = hit("data-do");
  const button = event.target.closest("button");
  if (button && event.detail > 0) button.blur();
  if (does) return DOES[does.dataset.do]();
  const at = hit("data-at");
  if (at) return jump(Number(at.dataset.at));
  const version = hit("data-v");
  if (version) { const v = Number(version.dataset.v); pinned = pinned?.v === v ? null : { v }; return show(); }
  const txn = hit("data-txn");
  if (txn) return tellTxn(txn.dataset.txn);
  const choice = hit("data-choice");
  if (choice) return choose(choice.dataset.choice);
  const rule = hit("data-rule");
  if (rule) { const [name, said] = ruleOf(run.steps[here - 1]); return tell(`<h2>${esc(name)}</h2><p>${esc(said)}</p><p class="soft">docs/RULES.md, "Every reply"</p>`); }
  const level = hit("data-level");
  if (level) return goToLevel(Number(level.dataset.level), level.dataset.outcome);
  const next = hit("data-next");
  if (next) return takeMove(Number(next.dataset.next));
  const crumb = hit("data-crumb");
  if (crumb) return goToAsked(Number(crumb.dataset.crumb));
  const find = hit("data-find");
  if (find) return findOutcome(Number(find.dataset.find));
});
$("skip").addEventListener("click", (event) => { event.preventDefault(); $("said").focus(); });
$("slider").addEventListener("input", () => jump(Number($("slider").value)));
$("blank").addEventListener("click", () => DOES.blank());
for (const kind of ["hashchange", "popstate"]) addEventListener(kind, () => goToHash());

let touch = null;
addEventListener("touchstart", (event) => { touch = event.touches.length === 1 && !event.target.closest("#path, input") ? { x: event.touches[0].clientX, y: event.touches[0].clientY } : null; }, { passive: true });
addEventListener("touchend", (event) => {
  if (!touch || storyPage?.isOpen) return;
  const [dx, dy] = [event.changedTouches[0].clientX - touch.x, event.changedTouches[0].clientY - touch.y];
  if (Math.abs(dx) > 50 && Math.abs(dx) > 2 * Math.abs(dy)) (dx < 0 ? on : back)();
  touch = null;
});

/* ---- in a frame: the page around it learns where this one is, and sends it elsewhere */

const isFramed = parent !== window;
/** Whether the page around this one has asked where it is: nothing is told to one that hasn't. */
let isWatched = false;
let isGoing = false;

/** What stays from one page to the next. */
function modesNow() {
  const all = document.documentElement;
  return { present: all.classList.contains("present"), far: isFar(), theme: all.dataset.theme ?? "", ...(isTree ? { secret: isSecret } : { predict: isPredict, future: isFuture }) };
}

/** Tells the page around this one the place, the modes, and for each guess its step and whether it was right. `isOver`: an order has come to its end here;
    `went`: it was sent here. */
function tellParent(went = false) {
  if (!isFramed || isGoing || !isWatched) return;
  const guesses = [...told.answers].map(([at, reply]) => [run.done + at + 1, reply === run.steps[at].reply]);
  parent.postMessage({ hek: "place", place: placeSaid(), modes: modesNow(), isBlank: !$("blank").hidden, guesses, isOver: isTree && isWhole() && here === run.last, went }, "*");
}

/** A key that means nothing here is one for the page around this one, if that hasn't sent it. */
function tellKey({ key }) { if (isFramed && isWatched && !isGoing) parent.postMessage({ hek: "key", key }, "*"); }

/** The page around this one is printed in its place. */
function tellPrint(event) {
  if (!isFramed || event.key !== "p" || event.altKey) return;
  event.preventDefault();
  tellKey({ key: "print" });
}

function takeModes(modes) {
  if (/^(light|dark)$/.test(modes.theme)) document.documentElement.dataset.theme = modes.theme;
  for (const [name, isOn] of Object.entries(modesNow())) if (name !== "theme" && name in modes && modes[name] !== isOn) DOES[name]();
}

/** Takes a message of the known form: an object of modes, a place, a key that is pressed. */
function go({ modes, place, key, isShift }) {
  if (modes !== null && typeof modes === "object") takeModes(modes);
  if (typeof place === "string") fromHash(place);
  if (typeof key === "string") document.body.dispatchEvent(new KeyboardEvent("keydown", { key, shiftKey: isShift === true, bubbles: true }));
}

addEventListener("message", ({ source, data: sent }) => {
  if (!isFramed || source !== parent || sent?.hek !== "go") return;
  isWatched = true;
  isGoing = true;
  go(sent);
  isGoing = false;
  tellParent(true);
});

/* ---- the start */

/** The address's place in words; each address has one. */
function placeIn(hash) {
  try { return decodeURIComponent(hash.slice(1)); } catch { return ""; }
}

/** Goes to a place of the machine or the explorer. What is none is the start. */
function fromHash(hash = placeIn(location.hash)) {
  document.documentElement.classList.remove("told");
  if (!isTree) { jump(Math.trunc(Number(hash) - run.done) || 0); return; }
  const [level, place = ""] = isLevels ? hash.split(":") : ["", hash];
  if (isLevels) {
    if (!LEVELS.includes(level)) { document.body.classList.add("levels"); levels.shown = null; show(); return; }
    takeLevel(LEVELS.indexOf(level));
  }
  const [moves, at] = place.split("@");
  const order = moves.split(".").filter(Boolean);
  tree.path = pathOf(tree, order);
  run = runOfPath();
  const other = askedOf(tree, tree.path, order);
  // A number of steps is one of the order in the address.
  jump(at === undefined || other !== null ? run.last : Math.trunc(Number(at)) || 0, other);
}

// ---- the story, if its plays are here

let storyPage = null;

function plantStory() {
  const objects = $("plays").textContent.trim().split("\n").filter(Boolean).map(Story.text.parse);
  if (!objects.length) return;
  storyPage = new Story.page.StoryPage(sheet, objects, { open: (step) => { fromHash(isTree ? placeSaid() : String(step)); resized(); } });
  $("st-title").textContent = $("title").textContent;
  document.querySelector('[data-do="story"]').hidden = false;
}

/** Goes where the address says: to the story, or to the machine and the explorer. */
function goToHash() {
  if (!storyPage?.read(location.hash, !isTree)) fromHash();
}

/** At the end of an order the explorer shows the verdict of its story, where nobody is to guess the outcome. */
function tellLeaf() {
  const order = askedTo(tree.path.length - 1), level = isLevels ? LEVELS[levels.shown] : null;
  if (!isSecret && storyPage?.has(order, level)) storyPage.open(order, level);
}

function resized() {
  measure();
  show();
}

if (isLevels) plantLevels();
if (isTree) { tree = isLevels ? levels.trees[0] : treeOf(data); run = runOfPath(); } else {
  const lines = linesOf(data.trace).map((it) => it.replace(/^\d+ /, ""));
  run = new Run(data, data.steps.map((it, index) => ({ ...it, line: lines[index] })), data.done);
}
$("title").textContent = (data.lesson ? `${data.lesson}. ` : "") + data.title;
plantStory();
$("about").textContent = /^[^.:]*[.:]?/.exec(data.about ?? "")[0].replace(/:$/, ".");
for (const [way, ids] of [["previous", ["previous", "st-previous"]], ["next", ["next", "st-after"]]]) {
  // A link goes to another page, and runs nothing.
  if (!data[way] || /^\s*(?!https?:)[a-z][a-z0-9+.-]*:/i.test(data[way][0])) continue;
  const [file, title] = data[way];
  for (const link of ids.map($)) {
    link.hidden = false;
    link.href = file;
    link.title = `${way}: ${title}`;
    link.innerHTML = way === "next" ? `<span class="hidden">${esc(title)}</span> \u203a` : `\u2039 <span class="hidden">${esc(title)}</span>`;
  }
}
if (isLevels) document.querySelector('[data-do="levels"]').hidden = false;
if (isTree) {
  document.body.classList.add("tree");
  document.querySelector('[data-do="secret"]').hidden = false;
  for (const name of ["predict", "future"]) document.querySelector(`[data-do="${name}"]`).hidden = true;
}
measure();
goToHash();
measure();
show();
for (const id of [...Object.keys(DRAWN), "because"]) watcher.observe($(id));
let pending = 0;
addEventListener("resize", () => { cancelAnimationFrame(pending); pending = requestAnimationFrame(resized); });
"##;
