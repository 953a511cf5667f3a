//! The page up to the JSON: its style, and the part of its script that draws the map. Its policy
//! names the styles and the scripts by their hashes, which `.ci/page` compares.

/// The text before the JSON.
pub(crate) const HEAD: &str = r##"<!DOCTYPE html>
<html lang="en">
<head>
<meta charset="utf-8">
<meta http-equiv="Content-Security-Policy" content="default-src 'none'; base-uri 'none'; form-action 'none';
 script-src 'sha256-r1f57gpW1BgiuFOH8WpJ9rNPBkxsYQVQ1AYV1wHm0F4=' 'sha256-bdco4xR7Ic9d5+GvPn0ywi7wNf77G6HsMmvD8c368qY='
 'sha256-p5TDg3GyUuUx7FA5adcknXI+1rpGyjTuxspBPzxr1fM=';
 style-src 'sha256-nS0B97NHYua8LfyB+0du0UNqCVg+2wVYGdZrz3ew5fk=' 'sha256-sPHmrOm/UuubxpQb78f/WQ8zZl3stHOYMbsktkrfNJQ='">
<meta name="viewport" content="width=device-width, initial-scale=1">
<title>Crash</title>
<style>
:root { --back: #fff; --fore: #1b1f24; --muted: #57606a; --line: #8c959f; --chosen: #fff1b8; --bad: #a40e26; }
:root { background: var(--back); color: var(--fore); color-scheme: light dark; scrollbar-gutter: stable; }
:root { font: 93.75%/1.45 system-ui, sans-serif; }
@media (prefers-color-scheme: dark) {
  :root { --back: #14171a; --fore: #e6e8ea; --muted: #a9b1ba; --line: #6b747d; --chosen: #4a3d0a; --bad: #ff9b8f; }
}
body { margin: 0 auto; max-width: 84rem; padding: 1rem; }
h1 { font-size: 1.5rem; margin: 0; overflow-wrap: anywhere; }
h2 { font-size: 1.15rem; margin: 2rem 0 .5rem; }
h2, p, li, summary { overflow-wrap: anywhere; }
dl { display: grid; gap: .2rem 1rem; grid-template-columns: max-content minmax(0, 1fr); margin: 1rem 0; }
dt, th, .note { color: var(--muted); font-weight: normal; }
dd { margin: 0; overflow-wrap: anywhere; }
dd, td, li, p, summary { unicode-bidi: isolate; }
details { margin: .3rem 0; }
summary { cursor: pointer; }
table { border-collapse: collapse; width: 100%; }
th, td { border-bottom: 1px solid var(--line); padding: .2rem .8rem .2rem 0; text-align: left; vertical-align: top; }
td { overflow-wrap: break-word; }
.long { min-width: 14rem; overflow-wrap: anywhere; }
.word { white-space: nowrap; }
.code, .registers { font: 13px/1.6 ui-monospace, monospace; }
.code { white-space: nowrap; }
.scroll { overflow-x: auto; }
.registers { columns: 15rem; list-style: none; margin: .5rem 0; padding: 0; }
.registers.placed { columns: 34rem; }
.registers li { break-inside: avoid; white-space: pre-wrap; }
.inline td { color: var(--muted); }
.damage { border-left: .3rem solid var(--bad); padding-left: .8rem; }
.damage h2 { color: var(--bad); margin-top: 1rem; }
.marked { background: var(--chosen); outline: 1px solid var(--fore); }
.tools { align-items: center; display: flex; flex-wrap: wrap; gap: .4rem .6rem; margin: .5rem 0; }
button { background: var(--back); border: 1px solid var(--muted); border-radius: .25rem; color: inherit; cursor: pointer; font: inherit; padding: .1rem .6rem; }
#space { border: 1px solid var(--line); box-sizing: border-box; display: block; width: 100%; }
#space text { fill: var(--fore); font: 12px ui-monospace, monospace; pointer-events: none; }
#space .word { paint-order: stroke; stroke: var(--back); stroke-width: 4px; }
#space .name { fill: #fff; }
.axis { stroke: var(--fore); }
.gap { fill: var(--fore); fill-opacity: .1; }
.module { fill: #2f6db5; }
.memory { fill: #2b7a4e; }
.stack { fill: #8f5a0c; }
.module, .memory, .stack { cursor: pointer; stroke: var(--back); stroke-width: .5px; }
#space .chosen { stroke: var(--fore); stroke-width: 3px; }
.instruction, .address, .pointer { fill: none; pointer-events: none; stroke: var(--fore); stroke-width: 2px; }
.address { stroke-dasharray: 6 2; }
.pointer { stroke-dasharray: 2 2; }
@media (max-width: 60rem), print {
  thead { display: none; }
  table, tbody, tr, td { display: block; }
  tr { border-bottom: 1px solid var(--line); padding: .3rem 0; }
  td { border: 0; min-height: 1.45em; padding: 0 0 0 8rem; position: relative; }
  td:empty { display: none; }
  .long { min-width: 0; }
  td::before { color: var(--muted); content: attr(data-label); font: 1rem/1.45 system-ui, sans-serif; left: 0; position: absolute; width: 7.5rem; }
}
@media (max-width: 30rem) {
  dl { display: block; }
  dt { margin-top: .4rem; }
}
#crash.plain { display: block; font: 13px/1.6 ui-monospace, monospace; overflow-wrap: anywhere; white-space: pre-wrap; }
</style>
<noscript><style>
#crash { display: block; font: 13px/1.6 ui-monospace, monospace; overflow-wrap: anywhere; white-space: pre-wrap; }
</style></noscript>
<script>
// Shows the JSON itself where a script fails before all is shown.
window.addEventListener("error", () => window.addEventListener("DOMContentLoaded", () => {
  document.getElementById("crash").className = "plain";
}));
</script>
<script>
"use strict";
// What the dump says is shown as text alone: no element, style or link is made of it.

const SVG = "http://www.w3.org/2000/svg";
// A page of memory, and the most bytes between two ranges of one stretch.
const PAGE = 4096n;
const NEAR = 1n << 24n;
// The fewest bytes that the drawing shows.
const FEWEST = 16;
// In pixels: a block and what is between two, a line of text, a letter, and the least width of a block of its own.
const BLOCK = 30;
const SPACE = 8;
const LINE = 18;
const LETTER = 7.4;
const NARROW = 3;
const KINDS = ["module", "stack", "memory"];

// ---- Texts and elements

// Returns a member of an object, or null if there is none.
function part(value, name) {
  return value !== null && typeof value === "object" && Object.hasOwn(value, name) ? value[name] : null;
}

function list(value) {
  return Array.isArray(value) ? value : [];
}

// Returns a value as text, with its control characters and marks of direction as escapes.
function shown(value) {
  const text = value === null || value === undefined ? "" : typeof value === "object" ? JSON.stringify(value) : String(value);
  return text.replace(/[\0-\x1f\x7f-\x9f\u061c\u200e\u200f\u2028-\u202e\u2066-\u2069]/g,
    (c) => "\\u{" + c.codePointAt(0).toString(16) + "}");
}

// Returns the number of a text in hexadecimal, or null.
function address(value) {
  return typeof value === "string" && /^0x[0-9a-f]{1,16}$/i.test(value) ? BigInt(value) : null;
}

function hex(n) {
  return "0x" + n.toString(16);
}

// Returns a number with commas between its thousands.
function counted(n) {
  return String(n).replace(/\B(?=(\d{3})+$)/g, ",");
}

// Returns what a path ends with, behind its last `/` or `\`.
function last(path) {
  return shown(path === null ? "" : String(path).split(/[\/\\]/).pop());
}

// Appends a text, which may be broken behind `/`, `\`, `-` and `_`, and behind `+` and `::`.
function put(place, value) {
  const pieces = shown(value).replace(/([\/\\_+-]|::)(?=[^\/\\_+:-])/g, "$1\0").split("\0");
  if (pieces[0] === "") return;
  const few = pieces.length <= 64 ? pieces : [pieces.join("")];
  few.forEach((piece, i) => {
    if (i > 0) place.appendChild(document.createElement("wbr"));
    place.appendChild(document.createTextNode(piece));
  });
}

// Returns whether a text has a word that has to be broken.
function isLong(value) {
  return /[^\s\/\\_+-]{31}|\S{128}/.test(shown(value));
}

// Makes an element with a text, in a class of the page's own.
function element(name, text, kind) {
  const made = document.createElement(name);
  if (kind) made.className = kind;
  if (text !== undefined) put(made, text);
  return made;
}

// Makes a shape. The text is one line.
function shape(name, attributes, text) {
  const made = document.createElementNS(SVG, name);
  for (const key of Object.keys(attributes)) made.setAttribute(key, String(attributes[key]));
  if (text !== undefined) made.appendChild(document.createTextNode(shown(text)));
  return made;
}

function button(words, act, label) {
  const made = element("button", words);
  made.type = "button";
  if (label) made.setAttribute("aria-label", label);
  made.addEventListener("click", act);
  return made;
}

// ---- The axis: stretches of addresses, with shortened gaps between them

// Returns the stretches that contain the ranges and the marks, each with its place and its width on the axis.
function stretchesOf(ranges, marks) {
  const all = ranges.map((range) => [range.start, range.end]);
  for (const mark of marks) all.push([mark.at - (mark.at % PAGE), mark.at - (mark.at % PAGE) + PAGE]);
  all.sort((a, b) => (a[0] < b[0] ? -1 : a[0] > b[0] ? 1 : 0));
  const stretches = [];
  for (const [start, end] of all) {
    const before = stretches[stretches.length - 1];
    if (before !== undefined && start <= before.end + NEAR) {
      if (before.end < end) before.end = end;
    } else {
      stretches.push({ start, end });
    }
  }
  let place = 0.5;
  for (const stretch of stretches) {
    stretch.place = place;
    stretch.width = Math.log2(Number(stretch.end - stretch.start) + 1);
    place += stretch.width + 1;
  }
  return stretches;
}

// Returns the last stretch that begins at or before an address or a place, or else the first.
function stretchBefore(stretches, member, value) {
  let low = 0;
  let high = stretches.length;
  while (low < high) {
    const middle = (low + high) >> 1;
    if (stretches[middle][member] <= value) low = middle + 1;
    else high = middle;
  }
  return stretches[Math.max(low - 1, 0)];
}

// Returns the place of an address on the axis.
function placeOf(stretches, at) {
  const stretch = stretchBefore(stretches, "start", at);
  const share = Number(at - stretch.start) / Number(stretch.end - stretch.start);
  return stretch.place + stretch.width * Math.min(Math.max(share, 0), 1);
}

// Returns the address at a place of the axis, or that of the end of the stretch before it.
function addressAt(stretches, place) {
  const stretch = stretchBefore(stretches, "place", place);
  const share = Math.min(Math.max((place - stretch.place) / stretch.width, 0), 1);
  const at = stretch.start + BigInt(Math.round(share * Number(stretch.end - stretch.start)));
  return at > stretch.end ? stretch.end : at;
}

// ---- The map of the address space

// Draws ranges and marks, and lets a range be chosen, which `chosen` is then told.
class AddressMap {
  constructor(svg, ranges, marks, chosen) {
    Object.assign(this, { svg, marks, chosen, range: null, blocks: [] });
    this.stretches = stretchesOf(ranges, marks);
    const end = this.stretches[this.stretches.length - 1];
    this.whole = end.place + end.width + 0.5;
    this.from = 0;
    this.to = this.whole;
    this.lanes = KINDS.map((kind) => ranges.filter((range) => range.kind === kind)).filter((lane) => lane.length > 0);
    this.lanes.forEach((lane, number) => lane.forEach((range, index) => {
      const left = placeOf(this.stretches, range.start);
      Object.assign(range, { lane: number, index, left, right: placeOf(this.stretches, range.end) });
    }));
    this.listen();
  }

  listen() {
    const choose = (event) => {
      if (this.isDrawing) return;
      const block = this.blocks.find((one) => one.node === event.target);
      if (block !== undefined) this.choose(block.ranges.includes(this.range) ? this.range : block.ranges[0]);
    };
    this.svg.addEventListener("click", choose);
    this.svg.addEventListener("focusin", choose);
    this.svg.addEventListener("keydown", (event) => this.press(event));
    this.svg.addEventListener("wheel", (event) => this.turn(event), { passive: false });
    window.addEventListener("resize", () => {
      if (this.measured() !== this.width) this.draw();
    });
    window.addEventListener("beforeprint", () => this.svg.setAttribute("viewBox", "0 0 " + this.width + " " + this.svg.getAttribute("height")));
    window.addEventListener("afterprint", () => this.svg.removeAttribute("viewBox"));
  }

  // Returns the width that the drawing has on the page, in pixels.
  measured() {
    return Math.round(this.svg.getBoundingClientRect().width) || 1000;
  }

  x(place) {
    return ((place - this.from) / (this.to - this.from)) * this.width;
  }

  isSeen(left, right) {
    return right >= 0 && left <= this.width;
  }

  // Draws what is in view. The block that has the focus keeps it.
  draw() {
    const focused = this.blocks.some((block) => block.node === document.activeElement);
    this.width = this.measured();
    this.top = LINE * this.marks.length + SPACE;
    this.bottom = this.top + (BLOCK + SPACE) * this.lanes.length;
    this.svg.setAttribute("height", String(this.bottom + LINE + SPACE));
    this.svg.replaceChildren();
    this.drawStretches();
    this.blocks = this.lanes.flatMap((lane) => this.blocksOf(lane));
    this.blocks.forEach((block) => this.drawBlock(block));
    this.nameBlocks();
    this.marks.forEach((mark, i) => this.drawMark(mark, i));
    this.showChoice();
    this.isDrawing = true;
    if (focused) this.focus({ preventScroll: true });
    this.isDrawing = false;
  }

  // Draws the gaps, the axis, and the address where each stretch begins, if there is room for it. Of the gaps and the
  // stretches that share a pixel some are left out.
  drawStretches() {
    let before = 0;
    let free = 0;
    let drawn = -1;
    for (const stretch of this.stretches) {
      const left = this.x(stretch.place);
      const right = this.x(stretch.place + stretch.width);
      if (left - before >= 0.25 && this.isSeen(before, left)) this.drawGap(before, left);
      before = right;
      if (!this.isSeen(left, right) || right - drawn < 1) continue;
      drawn = right;
      const y = this.bottom;
      this.svg.appendChild(shape("line", { class: "axis", x1: Math.max(left, 0), y1: y, x2: Math.min(right, this.width), y2: y }));
      const from = Math.max(left, 2);
      const words = hex(left < 0 ? addressAt(this.stretches, this.from) : stretch.start);
      const width = LETTER * words.length;
      if (from < free || from + width > this.width) continue;
      free = from + width + SPACE;
      this.svg.appendChild(shape("text", { class: "word", x: from, y: y + LINE - 3 }, words));
    }
    if (before < this.width) this.drawGap(before, this.width);
  }

  drawGap(left, right) {
    const x = Math.max(left, 0);
    const width = Math.min(right, this.width) - x;
    this.svg.appendChild(shape("rect", { class: "gap", x, y: 0, width: Math.max(width, 0), height: this.bottom }));
  }

  // Returns the blocks of a lane that are in view. Ranges that are the same, or too narrow to tell apart, are one block.
  blocksOf(lane) {
    const blocks = [];
    for (const range of lane) {
      const left = this.x(range.left);
      const right = this.x(range.right);
      if (!this.isSeen(left, right)) continue;
      const before = blocks[blocks.length - 1];
      const isNarrow = right - left < NARROW;
      if (before !== undefined && isOne(before.ranges[0], range)) {
        before.ranges.push(range);
      } else if (isNarrow && before !== undefined && before.isNarrow && left < before.right + 1) {
        before.ranges.push(range);
        before.right = Math.max(before.right, right);
      } else {
        blocks.push({ ranges: [range], left, right: Math.max(right, left + NARROW), isNarrow, lane: range.lane });
      }
    }
    return blocks;
  }

  drawBlock(block) {
    const x = Math.max(block.left, -NARROW);
    const y = this.top + (BLOCK + SPACE) * block.lane;
    const width = Math.min(block.right, this.width + NARROW) - x;
    block.node = shape("rect", { class: block.ranges[0].kind, x, y, width, height: BLOCK, role: "button", "aria-label": wordsOf(block.ranges) });
    this.svg.appendChild(block.node);
  }

  // Writes the name of a block into it, if there is room, and returns where the lane is free behind it.
  nameBlock(block, free) {
    const name = block.ranges.every((range) => isOne(range, block.ranges[0])) ? nameOf(block.ranges[0]) : counted(block.ranges.length) + " ranges";
    const from = Math.max(block.left, 0) + 5;
    const end = from + widthOf(name);
    if (from < free || end > Math.min(block.right, this.width) - 5) return free;
    const y = this.top + (BLOCK + SPACE) * block.lane + 20;
    this.svg.appendChild(shape("text", { class: "name", "aria-hidden": "true", x: from, y }, name));
    return end + SPACE;
  }

  nameBlocks() {
    this.lanes.forEach((_, lane) => {
      this.blocks.filter((block) => block.lane === lane).reduce((free, block) => this.nameBlock(block, free), 0);
    });
  }

  // Draws a mark as a line through the lanes, with its name in a line of text of its own.
  drawMark(mark, i) {
    const at = this.x(placeOf(this.stretches, mark.at));
    if (!this.isSeen(at, at)) return;
    const y = LINE * (i + 1) - 3;
    this.svg.appendChild(shape("line", { class: mark.kind, x1: at, y1: y - 9, x2: at, y2: this.bottom }));
    const words = mark.name + " " + hex(mark.at);
    const width = widthOf(words);
    const x = at + 5 + width <= this.width ? at + 5 : Math.max(at - 5 - width, 2);
    this.svg.appendChild(shape("text", { class: "word", x, y }, words));
  }

  // ---- What is chosen

  blockOf(range) {
    return this.blocks.find((block) => block.ranges.includes(range)) ?? null;
  }

  choose(range) {
    if (range === this.range) return;
    this.range = range;
    this.showChoice();
    this.chosen(range);
  }

  // Marks the block of the range that is chosen, and lets the tabulator key come to it, or else to the first.
  showChoice() {
    const chosen = this.range === null ? null : this.blockOf(this.range);
    this.blocks.forEach((block, i) => {
      const isFirst = block === (chosen ?? this.blocks[0]);
      block.node.setAttribute("tabindex", isFirst ? "0" : "-1");
      block.node.setAttribute("class", block.ranges[0].kind + (block === chosen ? " chosen" : ""));
    });
    const ranges = chosen === null || chosen.ranges.length === 1 ? this.range && [this.range] : chosen.ranges;
    document.getElementById("choice").textContent = ranges ? wordsOf(ranges) : "No block is chosen.";
    const first = this.stretches.find((stretch) => stretch.place + stretch.width > this.from) ?? this.stretches[0];
    const ends = [addressAt(this.stretches, Math.max(this.from, first.place)), addressAt(this.stretches, this.to)];
    const view = document.getElementById("view");
    const words = "In view: " + ends.map(hex).join(" to ");
    if (view.textContent !== words) view.textContent = words;
  }

  // Gives the focus to the block that is chosen, or else to the first.
  focus(how) {
    const block = (this.range === null ? null : this.blockOf(this.range)) ?? this.blocks[0];
    if (block !== undefined) block.node.focus(how);
  }

  // Chooses the next block of the lane, or the one before.
  step(by) {
    if (this.range === null) return;
    const block = this.blockOf(this.range);
    const ranges = block === null ? [this.range] : block.ranges;
    const next = this.lanes[this.range.lane][by < 0 ? ranges[0].index - 1 : ranges[ranges.length - 1].index + 1];
    if (next !== undefined) this.goTo(next);
  }

  // Chooses the nearest range of the next lane, or of the one before.
  climb(by) {
    const lane = this.range === null ? undefined : this.lanes[this.range.lane + by];
    if (lane === undefined) return;
    const { start, end } = this.range;
    const far = (range) => (range.start >= end ? range.start - end + 1n : range.end <= start ? start - range.end + 1n : 0n);
    this.goTo(lane.reduce((nearest, range) => (far(range) < far(nearest) ? range : nearest)));
  }

  // Chooses a range, moves it into view, and gives it the focus.
  goTo(range) {
    this.choose(range);
    const half = (this.to - this.from) / 2;
    if (range.left < this.from || range.right > this.to) this.show(range.left - half, range.left + half);
    this.focus();
  }

  // ---- What is in view

  // Returns the least width of the view at a place: sixteen bytes, or more where numbers can't tell so few apart.
  least(place) {
    const stretch = stretchBefore(this.stretches, "place", place);
    const bytes = Number(stretch.end - stretch.start);
    return Math.max(stretch.width * Math.min(FEWEST / bytes, 1), (place + 1) * 2 ** -44);
  }

  // Shows a part of the axis: no more than all of it, and no fewer than sixteen bytes.
  show(from, to) {
    const middle = (from + to) / 2;
    const width = Math.min(Math.max(to - from, this.least(middle)), this.whole);
    this.from = Math.min(Math.max(middle - width / 2, 0), this.whole - width);
    this.to = this.from + width;
    this.draw();
  }

  showAll() {
    this.show(0, this.whole);
  }

  showRange(start, end) {
    const [left, right] = [placeOf(this.stretches, start), placeOf(this.stretches, end)];
    this.show(left - (right - left) / 2, right + (right - left) / 2);
  }

  // Zooms by a factor about a place, which stays where it is, or about what is chosen. Returns whether the view changed.
  zoom(factor, about = this.middle()) {
    const before = this.to - this.from;
    const width = Math.min(Math.max(before * factor, this.least(about)), this.whole);
    if (width === before) return false;
    const from = about - (about - this.from) * (width / before);
    this.show(from, from + width);
    return true;
  }

  // Returns the middle of the range that is chosen, if it is in view, or of the view; of a gap the nearer end.
  middle() {
    const chosen = this.range === null ? -1 : (this.range.left + this.range.right) / 2;
    const place = chosen > this.from && chosen < this.to ? chosen : (this.from + this.to) / 2;
    const stretch = stretchBefore(this.stretches, "place", place);
    const end = stretch.place + stretch.width;
    if (place <= end) return Math.max(place, stretch.place);
    const next = this.stretches[this.stretches.indexOf(stretch) + 1];
    return next === undefined || place - end < next.place - place ? end : next.place;
  }

  move(share) {
    const by = (this.to - this.from) * share;
    this.show(this.from + by, this.to + by);
  }

  press(event) {
    const acts = {
      "+": () => this.zoom(0.5), "=": () => this.zoom(0.5), "-": () => this.zoom(2), Home: () => this.showAll(),
      ArrowLeft: () => this.step(-1), ArrowRight: () => this.step(1), ArrowUp: () => this.climb(-1), ArrowDown: () => this.climb(1),
      Enter: () => this.showRange(this.range.start, this.range.end), " ": () => this.showRange(this.range.start, this.range.end),
    };
    if (!Object.hasOwn(acts, event.key) || this.range === null || event.ctrlKey || event.metaKey || event.altKey) return;
    event.preventDefault();
    acts[event.key]();
  }

  // Zooms by the wheel, by as much as it turns. Where nothing is left to zoom, the page scrolls.
  turn(event) {
    const box = this.svg.getBoundingClientRect();
    const about = this.from + ((event.clientX - box.left) / box.width) * (this.to - this.from);
    const steps = event.deltaMode === 0 ? Math.min(Math.max(event.deltaY / 100, -1), 1) : Math.sign(event.deltaY);
    if (steps !== 0 && this.zoom(1.25 ** steps, about)) event.preventDefault();
  }
}

// Returns the most pixels that a text takes.
function widthOf(text) {
  return LETTER * Array.from(text).reduce((sum, c) => sum + (c < "\u0300" ? 1 : 2), 0);
}

function nameOf(range) {
  return range.kind === "module" ? last(range.name) : range.kind === "stack" ? shown(range.name) : "memory";
}

function isOne(a, b) {
  return a.start === b.start && a.end === b.end;
}

// Returns words for the ranges of a block.
function wordsOf(ranges) {
  const [first] = ranges;
  const end = ranges.reduce((most, range) => (range.end > most ? range.end : most), first.end);
  const ends = hex(first.start) + " to " + hex(end);
  const others = ranges.length - 1;
  if (ranges.some((range) => !isOne(range, first))) {
    return counted(ranges.length) + " ranges of the kind " + first.kind + ", " + ends + ", zoom in to tell them apart";
  }
  const name = first.kind === "memory" ? "memory" : first.kind + (first.kind === "stack" ? " of " : " ") + shown(first.name);
  const more = others === 0 ? "" : " and " + counted(others) + (others === 1 ? " other" : " others");
  return name + more + ", " + ends + ", " + counted(first.end - first.start) + " bytes" + (first.rights === "" ? "" : ", " + first.rights);
}
</script>
</head>
<body>
<h1 id="what">Crash</h1>
<noscript><p>Without its script this page shows the dump as JSON.</p></noscript>
<main id="page"></main>
<script type="application/json" id="crash">"##;
