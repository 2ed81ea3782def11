//! The second part of a page's script: what it shows.

/// It draws what is seen of the lanes of signals, and tells what the journal has at the cursor.
pub const SHOWING: &str = "// ---- What is shown.

const COLORS = ['number', 'event', 'box', 'truth'];
const all = read();
let at = 0, scale = 40, cursor = 0, marker = null, chosen = null, dragged = null, pinned = false, isDue = false;

const count = () => all[at].count;
const shown = () => all[at].signals.filter((row) => row.shown);
const room = () => byId('scroll').clientWidth - byId('names').offsetWidth;
const fitting = () => Math.max((room() - MARGIN) / Math.max(count(), 1), 0.001);

// The lanes below each other, from a height on, with the signals of each: a joined number is in the lane of the one above it, on one axis.
function lanes(top) {
  const lanes = [];
  for (const row of shown()) {
    const last = lanes[lanes.length - 1];
    if (row.isJoined && row.kind === 'number' && last && last.rows[0].kind === 'number') last.rows.push(row);
    else lanes.push({ rows: [row] });
  }
  for (const lane of lanes) {
    const { rows } = lane, height = Math.max(rows[0].height, rows.length * LEAST), rim = Math.min(height / 4, 8), low = top + height - rim;
    const least = Math.min(...rows.map((row) => row.least)), most = Math.max(...rows.map((row) => row.most));
    const y = (number) => low - (most === least ? 0.5 : (number - least) / (most - least)) * (height - 2 * rim);
    Object.assign(lane, { top, height, high: top + rim, low, y });
    top += height;
  }
  return lanes;
}

// Draws a signal between two instants: the lines or boxes of its values, and a bar for each pixel in which it changes.
function drawSignal(pen, lane, row, from, to, x) {
  const isBox = row.kind === 'box';
  pen.strokeStyle = color(row === lane.rows[0] ? row.kind : COLORS[lane.rows.indexOf(row) % COLORS.length]);
  pen.fillStyle = color(row.kind === 'truth' ? 'lit' : 'text');
  pen.lineWidth = 1.5;
  pen.beginPath();
  for (let start = from, run = row.run(from), end, last = null; start < to; start = end, run += row.starts[run + 1] === start) {
    end = Math.min(row.starts[run + 1] ?? to, to);
    const left = x(start), isAbsent = row.values[run] === '-';
    if (end < to && x(end) - left < 1) {
      end = Math.min(start + Math.ceil(1 / scale), to);
      const first = run;
      while (row.starts[run + 1] < end) run += 1;
      drawBar(pen, isBox ? [lane.low, lane.high] : extent(row.numbers.subarray(first, run + 1)).map(lane.y), left);
      last = isBox || row.values[run] === '-' ? null : lane.y(row.numbers[run]);
    } else if (isAbsent) last = null;
    else if (isBox) drawBox(pen, row.values[run], left, x(end), lane);
    else last = drawLevel(pen, lane, row, run, left, x(end), last);
  }
  pen.stroke();
}

function drawBar(pen, [low, high], left) {
  pen.moveTo(left, low + 0.75);
  pen.lineTo(left, high - 0.75);
}

function drawLevel(pen, lane, row, run, left, right, last) {
  const y = lane.y(row.numbers[run]);
  if (row.values[run] === 'true') pen.fillRect(left, y, right - left, lane.low - y);
  pen.moveTo(left, last === null ? y : last);
  pen.lineTo(left, y);
  pen.lineTo(right, y);
  if (row.kind === 'number' && row === lane.rows[0]) drawWord(pen, row.values[run], left, right, y < lane.low - 12 ? y + 8 : y - 7, lane);
  return y;
}

function drawBox(pen, value, left, right, lane) {
  const slope = Math.min(4, (right - left) / 2), middle = (lane.low + lane.high) / 2;
  pen.moveTo(left, middle);
  pen.lineTo(left + slope, lane.high);
  pen.lineTo(right - slope, lane.high);
  pen.lineTo(right, middle);
  pen.lineTo(right - slope, lane.low);
  pen.lineTo(left + slope, lane.low);
  pen.closePath();
  drawWord(pen, value, left, right, middle, lane);
}

// A value stands in the part of its run that is seen, where it fits.
function drawWord(pen, value, left, right, y, lane) {
  const from = Math.max(left, 0), to = Math.min(right, pen.canvas.clientWidth);
  if (lane.height >= LANE && to - from > 12 && pen.measureText(value).width + 8 <= to - from) pen.fillText(value, (from + to) / 2, y);
}

// The least of 1, 2, 5, 10 and so on that leaves room for numbers.
function stride() {
  for (let unit = 1; ; unit *= 10) for (const step of [1, 2, 5]) if (unit * step * scale >= 44) return unit * step;
}

function drawAxis(pen, from, to, x, bottom) {
  const step = stride();
  pen.lineWidth = 1;
  pen.strokeStyle = color('grid');
  pen.fillStyle = color('soft');
  for (let place = Math.max(Math.ceil(from / step), 1) * step; place <= to; place += step) {
    pen.strokeRect(Math.round(x(place)) + 0.5, 20, 0, bottom - 20);
    pen.fillText(place, (x(place - 1) + x(place)) / 2, 11);
  }
}

// A dashed line through all lanes where events stand before an instant, with their names where there is room; a red mark for refused calls.
function drawMarks(pen, from, to, x, bottom) {
  const marks = all[at].marked(from, to), event = color('event'), refused = color('refused');
  let drawn = -1, free = -1;
  pen.strokeStyle = event;
  pen.lineWidth = 1;
  pen.textAlign = 'left';
  pen.setLineDash([4, 4]);
  for (let next = 0; next < marks.length;) {
    const place = marks[next].place, left = Math.round(x(place)) + 0.5, names = [], before = next;
    for (; next < marks.length && marks[next].place === place; next += 1) if (!marks[next].isRefused) names.push(marks[next].text);
    pen.fillStyle = event;
    if (names.length && left > drawn) {
      pen.beginPath();
      pen.moveTo(left, left < free ? HEAD - 12 : 20);
      pen.lineTo(left, bottom);
      pen.stroke();
      drawn = left;
    }
    if (names.length && left >= free) {
      pen.fillText(names.join(', '), left + 3, 27);
      free = left + pen.measureText(names.join(', ')).width + 8;
    }
    pen.fillStyle = refused;
    if (next - before > names.length) pen.fillRect(Math.max(left - 3, 0), 37, 6, 6);
  }
  pen.setLineDash([]);
}

function drawFrame(pen, place, x, bottom, name, width) {
  pen.strokeStyle = color(name);
  pen.lineWidth = width;
  pen.strokeRect(Math.round(x(place)) + 0.5, 20, Math.max(scale - 1, 0), bottom - 20);
}

// A pen for as much of the page as the lanes have.
function takePen(width, height) {
  const canvas = byId('picture'), ratio = window.devicePixelRatio || 1;
  Object.assign(canvas.style, { left: byId('names').offsetWidth + 'px', width: width + 'px', height: height + 'px' });
  Object.assign(canvas, { width: width * ratio, height: height * ratio });
  const pen = canvas.getContext('2d');
  pen.scale(ratio, ratio);
  pen.font = '12px DejaVu Sans Mono, Menlo, Consolas, monospace';
  pen.textAlign = 'center';
  pen.textBaseline = 'middle';
  return pen;
}

// Draws what is seen: the ruler, and below it the lanes.
function draw() {
  const scroll = byId('scroll'), width = room(), height = scroll.clientHeight, left = scroll.scrollLeft, top = HEAD - scroll.scrollTop;
  const pen = takePen(width, height), seen = lanes(top), bottom = Math.min(seen.reduce((sum, lane) => sum + lane.height, top), height);
  const x = (place) => place * scale - left;
  const from = Math.max(Math.floor(left / scale), 0), to = Math.min(Math.ceil((left + width) / scale), count());
  isDue = false;
  pen.fillStyle = color('band');
  if (count()) pen.fillRect(x(cursor), 20, Math.max(scale, 1), bottom - 20);
  drawAxis(pen, from, to, x, bottom);
  pen.save();
  pen.beginPath();
  pen.rect(0, HEAD, width, height);
  pen.clip();
  for (const lane of seen.filter((lane) => lane.top < height && lane.top + lane.height > HEAD)) {
    pen.strokeStyle = color('grid');
    pen.lineWidth = 1;
    pen.strokeRect(0, lane.top + lane.height - 0.5, width, 0);
    lane.rows.forEach((row) => drawSignal(pen, lane, row, from, to, x));
  }
  pen.restore();
  drawMarks(pen, from, to, x, bottom);
  if (marker !== null) drawFrame(pen, marker, x, bottom, 'marker', 1);
  if (count()) drawFrame(pen, cursor, x, bottom, 'cursor', pinned ? 2 : 1);
}

// Draws before the next frame, however often it is asked for.
function redraw() {
  if (!isDue) requestAnimationFrame(() => { if (isDue) draw(); });
  isDue = true;
}

// The name of a signal, with its value at the cursor. It can be clicked and dragged.
function nameOf(row, lane, place) {
  const line = document.createElement('div');
  line.className = 'row ' + row.side + (row === chosen ? ' chosen' : '');
  line.style.height = lane.height / lane.rows.length + 'px';
  line.draggable = true;
  for (const [kind, text] of [['side', row.side], ['name', row.name], ['value', count() ? row.at(cursor) : '']]) {
    const word = document.createElement('span');
    word.className = kind;
    word.textContent = text;
    word.title = text;
    if (place > 0 && kind === 'name') word.style.color = 'var(--' + COLORS[place % COLORS.length] + ')';
    line.append(word);
  }
  line.lastChild.style.minWidth = row.longest + 'ch';
  line.onclick = () => { chosen = chosen === row ? null : row; show(); };
  line.ondragstart = (event) => { dragged = row; event.dataTransfer.setData('text/plain', row.name); };
  line.ondragend = () => { dragged = null; };
  line.ondragover = (event) => { if (dragged) event.preventDefault(); };
  line.ondrop = (event) => { event.preventDefault(); if (dragged) move(dragged, row); };
  return line;
}

// The line of the journal at a place of the text.
const lineAt = (place) => text.slice(place, text.indexOf(feed, place));

// What the journal has at the cursor: the instant, its line, and what stands before it; and how far the marker is.
function tell() {
  const instance = all[at], footer = byId('line');
  footer.replaceChildren();
  const say = (words, kind) => { const part = document.createElement(kind); part.textContent = words + feed; footer.append(part); };
  const marks = (place) => instance.marked(place, place).forEach((mark) => say(lineAt(mark.line), mark.isRefused ? 'b' : 'span'));
  marks(cursor);
  if (!count()) return;
  say('instant ' + (cursor + 1) + ' (' + instance.numbers[cursor] + ' since the last reset): ' + lineAt(instance.lines[cursor]), 'span');
  if (cursor + 1 === count()) marks(count());
  const far = Math.abs(cursor - marker), side = cursor < marker ? 'before' : 'behind';
  if (marker !== null) say(far + (far === 1 ? ' instant ' : ' instants ') + side + ' the marker at instant ' + (marker + 1), 'i');
}

// Makes the page as wide as its instants are now.
function widen() {
  byId('wide').style.minWidth = count() * scale + MARGIN + 'px';
  redraw();
}

function show() {
  byId('names').replaceChildren(...lanes(HEAD).flatMap((lane) => lane.rows.map((row, place) => nameOf(row, lane, place))));
  tell();
  widen();
}

";
