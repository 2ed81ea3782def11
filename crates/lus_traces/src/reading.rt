//! What stands in a page behind the text of its journals: the end of the text, and the beginning of the script that draws them.

/// The end of the text, and the script's first part: it reads what the journals say. A page needs no network.
pub const READING: &str = "</pre>
<script>
'use strict';
const HEAD = 48, LANE = 36, LEAST = 18, MARGIN = 30, MOST = 15000000;
const byId = (id) => document.getElementById(id);
const color = (name) => getComputedStyle(document.documentElement).getPropertyValue('--' + name);
const feed = String.fromCharCode(10);
const SIDES = { input: 'in', output: 'out', local: 'var' };

// ---- What the journals say. Their text is gone over once, and no line is kept but by its place.

const text = byId('journals').textContent;
let here = 0;

// Goes on behind a word, if it stands here.
function skip(word) {
  const is = text.startsWith(word, here);
  if (is) here += word.length;
  return is;
}

// Goes on behind brackets of structures, and what is between their fields.
function skipBrackets() {
  const isOne = (code) => code === 123 || code === 125 || code === 59 || code === 32;
  while (isOne(text.charCodeAt(here))) here += 1;
}

// How many of numbers in order are at most this one.
function upTo(numbers, most) {
  let low = 0, high = numbers.length;
  while (low < high) {
    const middle = (low + high) >> 1;
    if (numbers[middle] <= most) low = middle + 1;
    else high = middle;
  }
  return low;
}

// The least and the most of numbers, some of which may be none.
function extent(numbers) {
  let least = Infinity, most = -Infinity;
  for (const number of numbers) {
    if (number < least) least = number;
    if (number > most) most = number;
  }
  return [least, most];
}

// A signal: the values that it has one behind the other, each with the instant at which it begins.
class Signal {
  constructor(name, side, isLeaf) {
    Object.assign(this, { name, side, isLeaf, starts: [], values: [], last: '', shown: true, height: LANE, isJoined: false });
  }

  isEnd(code) {
    return code === 44 || code === 41 || code === 10 || this.isLeaf && (code === 59 || code === 125);
  }

  // Takes the value that stands here, if any: mostly it is the last one again.
  take(instant) {
    let end = here + this.last.length;
    const isSame = instant > 0 && text.startsWith(this.last, here) && this.isEnd(text.charCodeAt(end));
    if (!isSame) {
      for (end = here; !this.isEnd(text.charCodeAt(end));) end += 1;
      if (end === here) return false;
      this.last = text.slice(here, end);
      this.starts.push(instant);
      this.values.push(this.last);
    }
    here = end;
    return true;
  }

  // Leaves out what begins at an instant or behind it.
  cut(instant) {
    this.starts.length = this.values.length = upTo(this.starts, instant - 1);
  }

  // The place of the value at an instant.
  run(instant) {
    return upTo(this.starts, instant) - 1;
  }

  at(instant) {
    return this.values[this.run(instant)];
  }

  // What it is: truth values, numbers from the least to the most, or boxes.
  measure() {
    const present = this.values.filter((value) => value !== '-'), is = (test) => present.length > 0 && present.every(test);
    this.kind = is((value) => value === 'true' || value === 'false') ? 'truth' : is((value) => /^-?[0-9]+$/.test(value)) ? 'number' : 'box';
    this.longest = present.reduce((most, value) => Math.max(most, value.length), 1);
    const number = this.kind === 'truth' ? (value) => Number(value === 'true') : Number;
    this.numbers = Float64Array.from(this.values, (value) => value === '-' ? NaN : number(value));
    [this.least, this.most] = this.kind === 'number' ? extent(this.numbers) : [0, 1];
  }
}

// An instance: its signals, of each accepted instant its number since the last reset and its line, and the marks before instants.
class Instance {
  constructor(name, node, first) {
    Object.assign(this, { name, node, first, last: first, early: '', isEnded: false, isBroken: false, isNamed: false, order: [] });
    Object.assign(this, { input: [], output: [], local: [], numbers: [], lines: [], marks: [], places: [] });
    Object.assign(this, { entries: 0, number: 0, told: 0, saved: new Map() });
  }

  get count() {
    return this.numbers.length;
  }

  // The places of the marks from one instant to another.
  marked(from, to) {
    return this.marks.slice(upTo(this.places, from - 1), upTo(this.places, to));
  }

  mark(isRefused, text, line) {
    this.marks.push({ place: this.count, isRefused, text, line });
    this.places.push(this.count);
  }

  // Gives a side's items numbers as names, by the text of the first row.
  enumerate(side) {
    const row = text.slice(here, text.indexOf(')', here));
    this[side] = row === '' ? [] : row.split(', ').map((_, place) => [new Signal(side + ' ' + (place + 1), SIDES[side], false)]);
  }

  // Takes a row of a side. An item that is a structure has a signal for each leaf, all of which are absent where it is.
  take(side, instant) {
    if (!skip('(')) return false;
    if (!this.isNamed && instant === 0) this.enumerate(side);
    const items = this[side];
    for (let place = 0; place < items.length; place += 1) {
      if (place > 0 && !skip(', ')) return false;
      const leaves = items[place], item = here, isAbsent = leaves.length > 1 && text[here] === '-';
      for (const leaf of leaves) {
        if (isAbsent) here = item;
        else if (this.isNamed) skipBrackets();
        if (!leaf.take(instant)) return false;
      }
      if (this.isNamed) skipBrackets();
    }
    return skip(')');
  }

  // Takes a row, or those of a burst: how many there are, or NaN.
  rows(side, isBurst) {
    if (!isBurst) return this.take(side, this.count) ? 1 : NaN;
    if (!skip('(')) return NaN;
    let rows = 0;
    if (skip(')')) return rows;
    do {
      if (!this.take(side, this.count + rows)) return NaN;
      rows += 1;
    } while (skip(', '));
    return skip(')') ? rows : NaN;
  }

  // Reads a step or a burst that was accepted, if it's one.
  accept(line, end) {
    const isBurst = skip('burst');
    if (!isBurst && !skip('step')) return false;
    const rows = this.rows('input', isBurst);
    if (!skip(' -> ') || this.rows('output', isBurst) !== rows || here !== end) return false;
    if (isBurst) this.mark(false, 'burst ' + rows, line);
    for (let row = 0; row < rows; row += 1) {
      this.number += 1;
      this.numbers.push(this.number);
      this.lines.push(line);
    }
    return true;
  }

  // Reads a call that was refused or accepted no instant, if it's one.
  pass(line, end) {
    const [, request, reply] = /^(.+) -> (.+)$/.exec(text.slice(here, end)) || ['', '', ''], [word, slot] = request.split(' ');
    if (reply.startsWith('refused ')) this.mark(true, text.slice(line, end), line);
    else if (reply !== 'done' || word !== 'reset' && word !== 'save' && !this.saved.has(slot)) return false;
    else {
      if (word === 'save') this.saved.set(slot, this.number);
      else this.number = word === 'restore' ? this.saved.get(slot) : 0;
      this.mark(false, request, line);
    }
    return true;
  }

  // Leaves out what was taken of a row that is none.
  cut() {
    if (!this.isNamed && !this.count) this.input = this.output = [];
    [this.input, this.output].flat(2).forEach((signal) => signal.cut(this.count));
  }

  // Reads the next entry, if the line is that.
  enter(line, end) {
    if (!skip(this.entries + 1 + ' ')) return false;
    here = text.indexOf(' ', here) + 1;
    const is = text[end - 1] === ')' ? this.accept(line, end) : this.pass(line, end);
    if (is) this.entries += 1;
    else this.cut();
    return is;
  }

  // Reads the line of a number: an entry, how many there are, or what an audit told behind it. Where it's none of these, no more is read.
  read(line, end, number) {
    if (this.isBroken) return;
    this.last = number;
    this.isEnded = false;
    if (text.endsWith('# cut short', end) || this.enter(line, end)) return;
    here = line;
    const [word, ...words] = text.slice(line, end).split(' ');
    if (this.isNamed && skip('+ ')) this.tell();
    else if (word === 'entries' && words.join(' ') === String(this.entries)) this.isEnded = true;
    else if (Object.hasOwn(SIDES, word) && (this.isNamed || number === this.first + 1)) this.call(word, words);
    else if (this.isNamed && word === 'shown') this.order = words;
    else if (this.isNamed && word === 'ends') this.early = ', ' + text.slice(line, end);
    else this.isBroken = true;
  }

  // Takes the values of other variables at the next instant.
  tell() {
    this.take('local', this.told);
    this.told += 1;
  }

  // Calls the leaves of a side's next item by their names.
  call(side, names) {
    this[side].push(names.map((name) => new Signal(name, SIDES[side], true)));
    this.isNamed = true;
  }

  // Once all is read: where it is broken or ends early, and its signals, those that are shown in their order, and the others behind them.
  finish() {
    if (this.isBroken) this.early = ', broken at line ' + this.last;
    else if (!this.isNamed && !this.isEnded) this.early = ', ends early at line ' + this.last;
    const places = new Map(this.order.map((name, place) => [name, place])), place = (signal) => places.get(signal.name) ?? places.size;
    this.signals = [this.input, this.output, this.local].flat(2).sort((a, b) => place(a) - place(b));
    this.signals.forEach((signal) => {
      signal.measure();
      signal.shown = !places.size || places.has(signal.name);
    });
  }
}

// The instances of the text, each behind its first line.
function read() {
  const found = [];
  for (let line = 0, number = 1, end; (end = text.indexOf(feed, line)) >= 0; line = end + 1, number += 1) {
    here = line;
    const [name, node] = skip('instance ') ? text.slice(here, end).split(' ') : [];
    if (name !== undefined) found.push(new Instance(name, node || '', number));
    else if (found.length) found[found.length - 1].read(line, end, number);
  }
  found.forEach((instance) => instance.finish());
  return found;
}

";
