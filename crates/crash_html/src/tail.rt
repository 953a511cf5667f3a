//! The page after the JSON: the part of its script that shows what the JSON says.

/// The text after the JSON.
pub(crate) const TAIL: &str = r##"</script>
<script>
"use strict";
// The most rows that a list has before all are asked for, and the most rows of folded lists that are made before these
// are opened.
const MOST = 200;
let ahead = 300;

const json = document.getElementById("crash").textContent;
const crash = JSON.parse(json);
const minidump = part(crash, "minidump");
const thread = part(crash, "crashing_thread");
const exceptions = list(part(minidump, "exceptions"));
const counting = exceptions[part(minidump, "exception")] ?? null;
const point = part(minidump, "point");

// ---- Sections and tables

// Makes a section of the page with a heading.
function section(id, heading, kind) {
  const made = element("section", undefined, kind);
  made.id = id;
  made.appendChild(element("h2", heading));
  document.getElementById("page").appendChild(made);
  return made;
}

// Makes a part under a heading that opens it, filled at once while `ahead` lasts. Returns what opens it.
function folded(place, words, count, fill) {
  const made = element("details");
  made.appendChild(element("summary", words));
  place.appendChild(made);
  let isFilled = false;
  const ensure = () => {
    if (!isFilled) fill(made);
    isFilled = true;
  };
  ahead -= Math.min(count, MOST);
  if (ahead >= 0) ensure();
  else made.addEventListener("toggle", ensure);
  return () => {
    ensure();
    made.open = true;
  };
}

// Makes items, of many the first, and a button that makes the others: those from the number on that `clear` returns.
function some(place, items, make, clear = () => MOST) {
  items.slice(0, MOST).forEach(make);
  if (items.length <= MOST) return;
  const all = button("Show all " + counted(items.length), () => {
    place.removeChild(all);
    const from = clear();
    items.slice(from).forEach((item, i) => make(item, from + i));
    // The button is gone, so the place takes the focus.
    place.setAttribute("tabindex", "-1");
    place.focus({ preventScroll: true });
  });
  place.appendChild(all);
}

// A table of some rows. A cell is a value, or makes an element; a column without any is left out.
class Table {
  constructor(place, columns, rows, kinds = []) {
    this.kinds = kinds;
    this.rows = rows;
    this.columns = columns.map((column, i) => ({ name: column[0], kind: column[1], i }))
      .filter(({ i }) => rows.some((row) => row[i] !== null && row[i] !== undefined && row[i] !== ""));
    this.body = element("tbody");
    this.body.setAttribute("role", "rowgroup");
    const made = element("table");
    made.setAttribute("role", "table");
    made.appendChild(this.head());
    made.appendChild(this.body);
    const scroll = element("div", undefined, "scroll");
    scroll.appendChild(made);
    place.appendChild(scroll);
    this.marked = null;
    this.clear();
    some(place, rows, (row, i) => this.add(row, i), () => {
      this.clear();
      return 0;
    });
  }

  clear() {
    this.body.replaceChildren();
    this.lines = [];
  }

  head() {
    const line = element("tr");
    for (const { name } of this.columns) {
      const made = element("th", name);
      made.setAttribute("scope", "col");
      line.appendChild(made);
    }
    const head = element("thead");
    head.appendChild(line);
    return head;
  }

  add(row, number) {
    const line = element("tr", undefined, number === this.marked ? "marked" : this.kinds[number]);
    line.setAttribute("role", "row");
    for (const { name, kind, i } of this.columns) {
      const made = element("td", undefined, typeof row[i] !== "function" && isLong(row[i]) ? "long" : kind);
      made.setAttribute("role", "cell");
      made.setAttribute("data-label", name);
      if (typeof row[i] === "function") made.appendChild(row[i]());
      else put(made, row[i]);
      line.appendChild(made);
    }
    this.body.appendChild(line);
    this.lines[number] = line;
  }

  // Marks a row, and no other. Where it isn't there yet, the rows about it take the place of the others.
  mark(number) {
    this.marked = number;
    if (this.lines[number] === undefined) {
      this.clear();
      const from = number - (number % MOST);
      this.rows.slice(from, from + MOST).forEach((row, i) => this.add(row, from + i));
    }
    this.lines.forEach((line, i) => line.setAttribute("class", i === number ? "marked" : this.kinds[i] ?? ""));
  }
}

// Adds a section with a list of names and values, but for those that are absent.
function addFacts(id, heading, facts) {
  const there = facts.filter(([, value]) => value !== null && value !== undefined && value !== "");
  if (there.length === 0) return;
  const made = element("dl");
  for (const [name, value] of there) {
    made.appendChild(element("dt", name));
    made.appendChild(element("dd", value));
  }
  section(id, heading).appendChild(made);
}

// ---- Words

// Joins words that are not absent.
function joined(words, between) {
  return words.filter((word) => word !== null && word !== undefined && word !== "").join(between);
}

function labelled(label, value) {
  return value === null || value === "" ? null : label + value;
}

// Returns members of an object, one after another.
function membersOf(value, names) {
  return joined(names.map((name) => part(value, name)), " ");
}

// Compares two numbers, as a sort asks for it.
function ascending(a, b) {
  return a < b ? -1 : a > b ? 1 : 0;
}

// Returns rows of the members of the objects of a list.
function rowsOf(value, names) {
  return list(value).map((one) => names.map((name) => part(one, name)));
}

// Returns a text in hexadecimal, or null if it is that of 0.
function unlessZero(value) {
  return value === "0x0" ? null : value;
}

// Returns the frame of the crash, or null.
function firstFrame() {
  return list(part(thread, "frames"))[0] ?? null;
}

// Returns the address of the instruction pointer, or null.
function instructionPointer() {
  return part(part(point, "instruction"), "address") ?? part(firstFrame(), "offset");
}

// Returns the id of a thread, or other words for it, and its name.
function threadName(thread, id = part(thread, "thread_id")) {
  const name = part(thread, "thread_name");
  return String(id) + (name === null || name === "" ? "" : " \u201c" + String(name) + "\u201d");
}

// Returns the id of a thread, also in hexadecimal, and its name.
function threadHeading(thread) {
  const id = part(thread, "thread_id");
  return threadName(thread, id === null ? id : id + " (" + hex(id) + ")");
}

// Returns the ends of a region, or null.
function endsOf(region) {
  const start = address(part(region, "base_addr"));
  const size = part(region, "size");
  return start === null || !Number.isInteger(size) ? null : [start, start + BigInt(size)];
}

function rangeWords(range) {
  const base = part(range, "base_addr");
  return base === null ? null : base + ", " + counted(part(range, "size")) + " bytes";
}

function streamName(number) {
  const stream = list(part(minidump, "streams")).find((one) => part(one, "type") === number);
  return part(stream ?? null, "name") ?? number;
}

// Returns words for something that is there and can't be read.
function damageWords(damage) {
  const thread = part(damage, "thread_id");
  const error = part(damage, "error");
  switch (part(damage, "what")) {
    case "stream": return joined([streamName(part(damage, "number")), error], ": ");
    case "entries": return "entries of the directory, outside the file: " + counted(part(damage, "count"));
    case "regions": return "regions of the plain list of memory, outside the file: " + counted(part(damage, "count"));
    case "modules": return "modules without addresses: " + counted(part(damage, "count"));
    case "texts": return "texts of " + streamName(part(damage, "number")) + ": " + counted(part(damage, "count"));
    case "records": return "records of " + streamName(part(damage, "number")) + ": " + counted(part(damage, "count"));
    case "exception": return joined(["an exception before the last", error], ": ");
    case "parameters": return "parameters of the exception on thread " + thread + ": " + counted(part(damage, "count"));
    case "exception_context": return joined(["the context of the exception on thread " + thread + ", outside the file", error], ": ");
    case "thread_context": return joined(["the context of thread " + thread + ", outside the file", error], ": ");
    case "stack": return joined(["the stack of thread " + thread + ", outside the file", error], ": ");
    default: return shown(damage);
  }
}

// Returns words for a module of whose entry a part can't be read.
function unreadableWords(module) {
  const what = part(module, "part") === "name" ? "the name of module " : "the CodeView record of module ";
  return what + joined([part(module, "index"), rangeWords(module)], " at ");
}

// Returns words and the thread of an index, or null.
function stackWords(words, index) {
  const found = list(part(crash, "threads"))[index] ?? null;
  return found === null ? null : words + threadName(found);
}

// Returns the state of memory, or the rights of what is there, or null.
function memoryWords(memory) {
  if (memory === null) return null;
  if (part(memory, "state") !== "committed") return "memory " + part(memory, "state");
  const rights = [["is_readable", "r"], ["is_writable", "w"], ["is_executable", "x"]];
  const letters = rights.map(([name, letter]) => (part(memory, name) === true ? letter : "-")).join("");
  return "memory " + letters + (part(memory, "is_guarded") === true ? " guarded" : "");
}

// Returns the module that has an address and the offset in it, or null.
function placeWords(facts) {
  const module = list(part(crash, "modules"))[part(facts, "module")] ?? null;
  return module === null ? null : last(part(module, "filename")) + "+" + part(facts, "module_offset");
}

// Returns an address, where it lies, and what is known of it.
function addressWords(at, facts) {
  const unloaded = list(part(crash, "unloaded_modules"))[part(facts, "unloaded_module")] ?? null;
  return joined([
    joined([at, labelled("in ", placeWords(facts))], " "),
    labelled("null + ", part(facts, "null_offset")),
    part(facts, "is_canonical") === false ? "not canonical" : null,
    unloaded === null ? null : "in unloaded " + last(part(unloaded, "filename")),
    stackWords("in the stack of thread ", part(facts, "stack_of")),
    stackWords("below the stack of thread ", part(facts, "below_stack")),
    memoryWords(part(facts, "memory")),
  ], ", ");
}

// Returns the process that sent a signal, its user and how, or null.
function senderWords(exception) {
  const sender = part(exception, "sender");
  if (sender === null) return null;
  const process = labelled("process ", part(sender, "process_id")) ?? "an unknown process";
  return joined([process, labelled("user ", part(sender, "user_id")), part(sender, "code")], ", ");
}

// Returns why the context of an exception or a thread isn't used, with its size where that is said, or null.
function problemWords(of) {
  const size = part(of, "context_size");
  return joined([part(of, "context_problem"), size === null ? null : size + " bytes"], ", ") || null;
}

function parametersOf(exception) {
  return list(part(exception, "parameters")).join(", ");
}

function assertionWords() {
  const assertion = part(minidump, "assertion");
  if (assertion === null) return part(part(crash, "crash_info"), "assertion");
  const kind = part(assertion, "kind");
  return joined([
    joined([kind === null ? null : "(" + kind + ")", part(assertion, "expression")], " "),
    labelled("function ", part(assertion, "function")),
    labelled("file ", part(assertion, "file")),
    labelled("line ", part(assertion, "line")),
  ], ", ");
}

// Returns the time of a count of seconds since 1970.
function timeWords(seconds) {
  return seconds === null ? null : new Date(seconds * 1000).toISOString().replace(".000", "");
}

// ---- The crash

// Returns what the page is about: the reason, the code of an exception without one, or why there is none.
function titleOf() {
  const reason = part(part(crash, "crash_info"), "type");
  if (reason !== null) return reason;
  const code = part(counting, "code");
  if (code !== null) return "Exception " + code;
  const isThere = exceptions.length > 0 || list(part(minidump, "damage")).some((one) => streamName(part(one, "number")) === "ExceptionStream");
  return isThere ? "Exception that can\u2019t be read" : "No exception";
}

function addTitle() {
  const title = shown(titleOf());
  document.title = joined([title, last(part(crash, "path"))], ", ");
  document.getElementById("what").textContent = title;
}

function addDamage() {
  const damage = list(part(minidump, "damage"));
  const unreadable = list(part(minidump, "unreadable_modules"));
  if (damage.length === 0 && unreadable.length === 0) return;
  const place = section("damage", "Can\u2019t be read", "damage");
  const lines = element("ul");
  place.appendChild(lines);
  const words = [...damage.map(damageWords), ...unreadable.map(unreadableWords)];
  some(place, words, (one) => lines.appendChild(element("li", one)));
}

function crashFacts() {
  const info = part(crash, "crash_info");
  return [
    ["Reason", part(info, "type")],
    ["Address", addressWords(part(info, "address"), part(minidump, "address"))],
    ["Signature", part(minidump, "signature")],
    ["Code", counting === null ? null : part(counting, "code") + " at " + part(counting, "exception_address")],
    ["Description", part(counting, "description")],
    ["Flags", unlessZero(part(counting, "flags"))],
    ["Nested record", unlessZero(part(counting, "nested"))],
    ["Access", part(counting, "access")],
    ["Sent by", senderWords(counting)],
    ["Parameters", parametersOf(counting)],
    ["Assertion", assertionWords()],
    ["Thread", thread === null ? null : threadName(thread)],
    ["Instruction pointer", addressWords(instructionPointer(), part(point, "instruction"))],
    ["Bytes there", list(part(point, "code")).map((byte) => Number(byte).toString(16).padStart(2, "0")).join(" ")],
    ["Registers", labelled("of the context of the ", part(minidump, "registers_of"))],
    ["Exception\u2019s context", labelled("not used: ", problemWords(counting))],
  ];
}

// Returns the soft errors. Their numbers, of any size, stay as they are written, where the browser tells how.
function softErrors() {
  const asWritten = (_, value, context) => {
    return typeof value === "number" && JSON.rawJSON && context?.source ? JSON.rawJSON(context.source) : value;
  };
  return part(crash, "soft_errors") === null ? null : part(JSON.parse(json, asWritten), "soft_errors");
}

function systemFacts() {
  const system = part(crash, "system_info");
  const uptime = part(minidump, "uptime");
  const resident = part(minidump, "resident_size");
  const main = list(part(crash, "modules"))[part(crash, "main_module")] ?? null;
  return [
    ["Dump", part(crash, "path")],
    ["Program", part(main, "filename")],
    ["Command line", part(minidump, "command_line")],
    ["Comment", part(minidump, "comment")],
    ["Wide comment", part(minidump, "wide_comment")],
    ["System", membersOf(system, ["os", "os_ver", "cpu_arch"])],
    ["Processor", part(system, "cpu_info")],
    ["Microcode", part(system, "cpu_microcode_version")],
    ["Processors", part(system, "cpu_count")],
    ["Release", membersOf(part(crash, "lsb_release"), ["id", "release", "codename", "description"])],
    ["Dumped", timeWords(part(minidump, "written"))],
    ["Dump requested by thread", part(minidump, "requesting_thread_id")],
    ["Dump written by thread", part(minidump, "dump_thread_id")],
    ["Process", part(crash, "pid")],
    ["Parent process", part(minidump, "parent_process_id")],
    ["Resident memory", resident === null ? null : counted(resident) + " bytes"],
    ["Uptime", uptime === null ? null : uptime + " s"],
    ["Boot arguments", part(crash, "mac_boot_args")],
    ["Crashpad\u2019s report", part(part(minidump, "crashpad"), "report_id")],
    ["Crashpad\u2019s client", part(part(minidump, "crashpad"), "client_id")],
    ["Soft errors", softErrors()],
    ["Lines of the memory map", part(crash, "linux_memory_map_count")],
    ["Environment variables", part(minidump, "environment_count")],
    ["Status", joined([part(crash, "status"), labelled("exit status ", part(minidump, "status"))], ", ")],
  ];
}

// ---- Threads and modules

// Returns how much of the context of a thread's registers there is, or null if it is whole.
function shortWords(short) {
  return short === null ? null : "context of " + part(short, "size") + " of " + part(short, "whole") + " bytes";
}

// Adds what is known of a thread besides its frames.
function addThreadFacts(place, of) {
  const stack = rangeWords(part(of, "stack"));
  const memory = rangeWords(part(of, "stack_memory"));
  const words = joined([
    part(of, "is_listed") === false ? "not in the list of threads" : null,
    labelled("last error ", part(of, "last_error_value")),
    labelled("its own context: ", problemWords(of)),
    shortWords(part(of, "short_context")),
    labelled("stack ", stack),
    memory === stack ? null : labelled("stack memory ", memory),
    labelled("end: ", part(of, "end") === null ? null : String(part(of, "end")).replaceAll("_", " ")),
  ], "; ");
  if (words !== "") place.appendChild(element("p", words));
}

// Returns a file and a line of it.
function sourceWords(place) {
  return joined([part(place, "file"), part(place, "line")], ":");
}

function functionWords(frame) {
  const name = part(frame, "function");
  if (name === null) return part(frame, "missing_symbols") === true ? "no symbols" : null;
  return joined([name, part(frame, "function_offset")], " + ");
}

const TRUST = { cfi: "call frame information", frame_pointer: "frame pointer", link_register: "link register" };

// Returns the rows of a frame: the inlined calls there, innermost first, and the frame itself.
function rowsOfFrame(frame) {
  const at = part(frame, "offset");
  const rows = list(part(frame, "inlines")).map((call) => [at, part(call, "function"), sourceWords(call), null, "inline"]);
  const offset = part(frame, "module_offset");
  const module = joined([part(frame, "module") ?? "no module", offset], "+");
  const trust = part(frame, "trust");
  const pointers = ["instruction", "stack_pointer", "frame_pointer"].map((name) => part(frame, name));
  rows.push([at, functionWords(frame), sourceWords(frame), module, Object.hasOwn(TRUST, trust) ? TRUST[trust] : trust, ...pointers]);
  return rows;
}

const FRAME = [["Frame", "code"], ["Address", "code"], ["Function", ""], ["Line", ""], ["Module", ""], ["Known by", "word"],
  ["Instruction", "code"], ["Stack", "code"], ["Frame pointer", "code"]];

// Adds a table of frames, numbered from a number on, and returns the number of the next.
function addRows(place, frames, from) {
  const rows = frames.flatMap(rowsOfFrame).map((row, i) => ["#" + (from + i), ...row]);
  const kinds = rows.map((row) => (row[5] === "inline" ? "inline" : ""));
  if (rows.length > 0) new Table(place, FRAME, rows, kinds);
  return from + rows.length;
}

// Adds the frames of a thread, and its candidates under a heading that opens them.
function addFrames(place, of) {
  addThreadFacts(place, of);
  const frames = list(part(of, "frames"));
  const count = part(of, "frame_count") ?? frames.length;
  const end = count - (part(of, "candidate_count") ?? 0);
  const callers = frames.slice(0, end);
  const candidates = frames.slice(end);
  const next = addRows(place, callers, 0);
  if (frames.length === 0) place.appendChild(element("p", count === 0 ? "No frames." : "No frames are listed."));
  if (count > frames.length) {
    const listed = "Listed are " + counted(frames.length) + " of " + counted(count) + " frames and candidates";
    place.appendChild(element("p", listed + "; candidates: " + counted(count - end) + "."));
  }
  if (candidates.length > 0) {
    folded(place, "Candidates: " + counted(candidates.length), candidates.length, (made) => addRows(made, candidates, next));
  }
}

// Adds a list of registers, each with the module or the stack that its value lies in, if there are any.
function addRegisters(place, heading, registers) {
  const all = Object.entries(registers ?? {});
  if (all.length === 0) return;
  const places = list(part(point, "registers"));
  const factsOf = (name) => places.find((one) => part(one, "name") === name);
  const lines = element("ul", undefined, all.some(([name]) => factsOf(name) !== undefined) ? "registers placed" : "registers");
  for (const [name, value] of all) {
    const words = name.padEnd(6) + " " + shown(value);
    const facts = factsOf(name);
    lines.appendChild(element("li", facts === undefined ? words : addressWords(words, facts)));
  }
  place.appendChild(element("h3", heading));
  place.appendChild(lines);
}

function addCrashed() {
  if (thread === null) return;
  const place = section("crashed", "Crashing thread: " + threadHeading(thread));
  addFrames(place, thread);
  addRegisters(place, "Registers", part(firstFrame(), "registers"));
  addRegisters(place, "Flags and segments", part(point, "flags"));
  const set = list(part(point, "set_flags"));
  if (set.length > 0) place.appendChild(element("p", "Flags set: " + set.join(" ")));
  const words = list(part(point, "words"));
  if (words.length === 0) return;
  folded(place, "Words from the stack pointer up: " + counted(words.length), words.length, (made) => new Table(made,
    [["Address", "code"], ["Value", "code"], ["Module", ""]],
    words.map((word) => [part(word, "address"), part(word, "value"), placeWords(word)])));
}

function addThreads() {
  const others = list(part(crash, "threads")).filter((_, i) => i !== part(thread, "threads_index"));
  if (others.length === 0) return;
  const place = section("threads", (thread === null ? "Threads: " : "Other threads: ") + counted(others.length));
  const lines = element("div");
  place.appendChild(lines);
  some(place, others, (other) => {
    const frames = list(part(other, "frames"));
    const first = part(frames[0], "function") ?? part(frames[0], "module");
    const count = part(other, "frame_count") ?? frames.length;
    const words = threadHeading(other) + (first === null ? "" : ", in " + first) + ", frames and candidates: " + count;
    folded(lines, words, frames.length, (made) => addFrames(made, other));
  });
}

// Returns words for what is known of the symbols of a module.
function symbolWords(module) {
  const states = [["loaded_symbols", "loaded"], ["missing_symbols", "missing"], ["corrupt_symbols", "corrupt"],
    ["no_memory_for_symbols", "no memory for them"]];
  return joined(states.map(([name, words]) => (part(module, name) === true ? words : null)), ", ");
}

// Returns the path of a module, or null if it is the name of its file alone.
function pathOf(module) {
  const path = part(module, "path");
  return path === part(module, "filename") ? null : path;
}

function addModules() {
  const modules = list(part(crash, "modules"));
  if (modules.length === 0) return;
  const main = part(crash, "main_module");
  const rows = modules.map((module, i) => [
    part(module, "base_addr"), part(module, "end_addr"), part(module, "filename"), pathOf(module), part(module, "version"), symbolWords(module),
    membersOf(module, ["debug_file", "debug_id"]), part(module, "code_id"), i === main ? "main" : null,
  ]).sort((a, b) => ascending(address(a[0]), address(b[0])));
  new Table(section("modules", "Modules: " + counted(modules.length)), [["Base", "code"], ["End", "code"], ["File", ""], ["Path", ""],
    ["Version", ""], ["Symbols", ""], ["Debug file", ""], ["Code", ""], ["Program", ""]], rows);
}

// ---- Other lists

// Adds a table under a heading that opens it, if it has rows.
function addMore(name, columns, rows) {
  if (rows.length === 0) return;
  const place = document.getElementById("more") ?? section("more", "Lists");
  folded(place, name + ": " + counted(rows.length), rows.length, (made) => new Table(made, columns, rows));
}

// Returns the index of the module that annotations are of, with the name of its file if there is one of that index.
function ownerOf(annotations) {
  const index = part(annotations, "module_index");
  return "module " + joined([index, part(list(part(crash, "modules"))[index] ?? null, "filename")], " ");
}

// Returns the annotations of Crashpad, each with its name and whose it is.
function annotationsOf() {
  const crashpad = part(minidump, "crashpad");
  const rows = rowsOf(part(crashpad, "annotations"), ["name", "value"]).map((row) => ["process", ...row]);
  for (const module of list(part(crashpad, "modules"))) {
    const owner = ownerOf(module);
    const own = [...list(part(module, "annotations")), ...list(part(module, "objects"))];
    for (const text of list(part(module, "list"))) rows.push([owner, "", text]);
    for (const row of rowsOf(own, ["name", "value"])) rows.push([owner, ...row]);
  }
  return rows;
}

function addExceptions() {
  const names = ["thread_id", "code", "flags", "exception_address", "nested", "access", "address", "type", "description", "error"];
  const rows = rowsOf(exceptions, names).map((row, i) => {
    const one = exceptions[i];
    return [one === counting ? "counts" : "", ...row, problemWords(one), parametersOf(one), senderWords(one)];
  });
  addMore("Exceptions", [["Counts", ""], ["Thread", ""], ["Code", "code"], ["Flags", "code"], ["At", "code"], ["Nested record", "code"], ["Access", ""],
    ["Address", "code"], ["Reason", ""], ["Description", ""], ["Error", ""], ["Context", ""], ["Parameters", ""], ["Sent by", ""]], rows);
}

function addLists() {
  addExceptions();
  addMore("Annotations", [["Of", ""], ["Name", ""], ["Value", ""]], annotationsOf());
  const mac = ["module", "message", "message2", "signature_string", "backtrace", "thread", "dialog_mode", "abort_cause"];
  const heads = ["Module", "Message", "Message 2", "Signature", "Backtrace", "Thread", "Dialog mode", "Abort cause"];
  addMore("macOS\u2019s crash information", heads.map((head) => [head, ""]), rowsOf(part(part(crash, "mac_crash_info"), "records"), mac));
  addMore("Kinds of handles", [["Type", ""], ["Handles", ""]], rowsOf(part(minidump, "handle_kinds"), ["type_name", "count"]));
  addMore("Handles", [["Handle", "code"], ["Type", ""], ["Name", ""]], rowsOf(part(crash, "handles"), ["handle", "type_name", "object_name"]));
  addMore("Limits of the process", [["Name", ""], ["Soft", ""], ["Hard", ""], ["Unit", ""]],
    rowsOf(part(part(crash, "proc_limits"), "limits"), ["name", "soft", "hard", "unit"]));
  addMore("Environment", [["Name", ""], ["Value", ""]], rowsOf(part(minidump, "environment"), ["name", "value"]));
  const unloaded = list(part(crash, "unloaded_modules"));
  addMore("Unloaded modules", [["Base", "code"], ["End", "code"], ["File", ""], ["Path", ""], ["Code", ""]],
    unloaded.map((one) => [part(one, "base_addr"), part(one, "end_addr"), part(one, "filename"), pathOf(one), part(one, "code_id")]));
  addMore("Streams", [["Type", "code"], ["Name", ""], ["Bytes", ""], ["At", "code"], ["Error", ""]],
    rowsOf(part(minidump, "streams"), ["type", "name", "size", "rva", "error"]));
  addMore("Other members", [["Member", ""], ["Value", ""]], otherMembers());
}

// The members that have a place of their own on the page, by the object that they are of.
const KNOWN = {
  "": "path status system_info crash_info main_module modules unloaded_modules pid thread_count threads crashing_thread lsb_release mac_crash_info "
    + "mac_boot_args handles soft_errors linux_memory_map_count proc_limits minidump",
  system_info: "os os_ver cpu_arch cpu_info cpu_count cpu_microcode_version",
  crash_info: "type address crashing_thread assertion",
  minidump: "written uptime status streams memory damage address exceptions exception registers_of assertion crashpad signature "
    + "command_line comment wide_comment point environment environment_count parent_process_id resident_size requesting_thread_id "
    + "dump_thread_id handle_kinds unreadable_modules",
  "minidump.point": "instruction registers code words flags set_flags",
  "minidump.address": "address module module_offset null_offset is_canonical unloaded_module stack_of below_stack memory",
  crashing_thread: "threads_index thread_id thread_name is_listed last_error_value stack stack_memory context_problem context_size short_context frame_count "
    + "candidate_count end frames",
  mac_crash_info: "num_records records",
  proc_limits: "limits",
};

// Returns the members that have no place of their own, with their values.
function otherMembers() {
  return Object.keys(KNOWN).flatMap((path) => {
    const names = KNOWN[path].split(" ");
    const value = path.split(".").reduce((value, name) => (name === "" ? value : part(value, name)), crash);
    return Object.entries(value ?? {}).filter(([name, one]) => !names.includes(name) && one !== null)
      .map(([name, one]) => [joined([path, name], "."), one]);
  });
}

// ---- The address space

// Returns the modules, the stacks and the regions of memory, ascending.
function rangesOf() {
  const found = [];
  const add = (kind, ends, name) => {
    if (ends === null || ends[0] === null || ends[1] === null || ends[0] >= ends[1]) return;
    found.push({ kind, start: ends[0], end: ends[1], name, rights: rightsOf(ends) });
  };
  for (const module of list(part(crash, "modules"))) {
    add("module", [address(part(module, "base_addr")), address(part(module, "end_addr"))], part(module, "filename"));
  }
  for (const one of list(part(crash, "threads"))) add("stack", endsOf(part(one, "stack")), "thread " + threadName(one));
  for (const region of list(part(minidump, "memory"))) add("memory", endsOf(region), "");
  return found.sort((a, b) => ascending(a.start, b.start));
}

// Returns the rights of the memory between two addresses, where it is known of one of them, or an empty text.
function rightsOf([start, end]) {
  const known = [
    ["crash address", part(part(crash, "crash_info"), "address"), part(minidump, "address")],
    ["instruction pointer", instructionPointer(), part(point, "instruction")],
  ];
  const words = known.map(([name, text, facts]) => {
    const at = address(text);
    return at === null || at < start || at >= end ? null : labelled(name + ": ", memoryWords(part(facts, "memory")));
  });
  return joined(words, ", ");
}

function marksOf() {
  return [
    ["instruction", "instruction pointer", instructionPointer()],
    ["address", "crash address", part(part(crash, "crash_info"), "address")],
    ["pointer", "stack pointer", part(firstFrame(), "stack_pointer")],
  ].map(([kind, name, at]) => ({ kind, name, at: address(at) })).filter((mark) => mark.at !== null);
}

function swatch(kind, name) {
  const made = shape("svg", { width: 14, height: 14, "aria-hidden": "true" });
  made.appendChild(KINDS.includes(kind) ? shape("rect", { class: kind, width: 14, height: 14 })
    : shape("line", { class: kind, x1: 7, y1: 0, x2: 7, y2: 14 }));
  const sign = element("span");
  sign.appendChild(made);
  sign.appendChild(document.createTextNode(" " + name));
  return sign;
}

// Adds the buttons of the map, and what its colours mean.
function addTools(place, map) {
  const tools = element("div", undefined, "tools");
  tools.id = "tools";
  const acts = [["+", () => map.zoom(0.5), "Zoom in"], ["\u2212", () => map.zoom(2), "Zoom out"], ["\u2190", () => map.move(-0.25), "Lower addresses"],
    ["\u2192", () => map.move(0.25), "Higher addresses"], ["All", () => map.showAll(), "Show all"]];
  for (const [words, act, label] of acts) tools.appendChild(button(words, act, label));
  for (const mark of map.marks) {
    const page = mark.at - (mark.at % PAGE);
    const made = button("", () => map.showRange(page, page + PAGE), "Show the " + mark.name);
    made.appendChild(swatch(mark.kind, mark.name));
    tools.appendChild(made);
  }
  for (const lane of map.lanes) tools.appendChild(swatch(lane[0].kind, lane[0].kind));
  place.appendChild(tools);
}

// Adds the map, and returns it, or null if there is nothing to draw.
function addMap(ranges, chosen) {
  if (ranges.length === 0) return null;
  const place = section("addresses", "Address space");
  const space = shape("svg", { id: "space", role: "group", "aria-label": "Address space: modules, stacks, and the memory that the dump holds" });
  const map = new AddressMap(space, ranges, marksOf(), chosen);
  addTools(place, map);
  place.appendChild(space);
  for (const [id, live] of [["view", "polite"], ["choice", "off"]]) {
    const line = element("p", "", id === "view" ? "note" : "");
    line.id = id;
    line.setAttribute("aria-live", live);
    place.appendChild(line);
  }
  place.appendChild(element("p", "Gaps are shortened; within a stretch between two gaps, widths are in proportion. On a block, the arrow keys go to "
    + "the next one, + and \u2212 zoom, Enter shows it, and Home shows all.", "note"));
  map.draw();
  return map;
}

// Adds the list of the ranges, and returns what marks the row of a range, and opens the list.
function addRanges(ranges, show) {
  if (ranges.length === 0) return () => {};
  const columns = [["Map", ""], ["Kind", ""], ["From", "code"], ["To", "code"], ["Bytes", ""], ["Name", ""], ["Rights", ""]];
  const rows = ranges.map((range) => [
    () => button("Show", () => show(range), "Show " + joined([range.kind, shown(range.name)], " ") + " at " + hex(range.start)),
    range.kind, hex(range.start), hex(range.end), counted(range.end - range.start), range.name, range.rights,
  ]);
  let table = null;
  const open = folded(section("ranges", "Ranges: " + counted(ranges.length)), "Modules, stacks and memory, by address", ranges.length,
    (made) => table = new Table(made, columns, rows));
  return (range) => {
    open();
    table.mark(ranges.indexOf(range));
  };
}

function addAll() {
  addTitle();
  addDamage();
  addFacts("facts", "Crash", crashFacts());
  addCrashed();
  addFacts("system", "System", systemFacts());
  const ranges = rangesOf();
  let mark = () => {};
  const map = addMap(ranges, (range) => mark(range));
  addThreads();
  addModules();
  addLists();
  mark = addRanges(ranges, (range) => {
    map.choose(range);
    map.showRange(range.start, range.end);
    map.focus();
  });
}

addAll();
</script>
</body>
</html>
"##;
