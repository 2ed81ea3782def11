//! The third part of a page's script: what one can do.

/// What its keys, fields, buttons and the mouse do, and what is shown first.
pub const ACTING: &str = "// ---- What one can do.

// The signals that keys are about: the one that was clicked, otherwise all that are shown.
const meant = () => chosen && chosen.shown ? [chosen] : shown();
const within = (place) => Math.min(Math.max(place, 0), Math.max(count() - 1, 0));

function zoom(factor, about) {
  const scroll = byId('scroll'), place = (scroll.scrollLeft + about) / scale;
  scale = Math.min(Math.max(scale * factor, fitting()), Math.min(160, MOST / Math.max(count(), 1)));
  widen();
  scroll.scrollLeft = place * scale - about;
}

// Puts the cursor to an instant, where it stays, and scrolls there.
function go(place) {
  cursor = within(place);
  pinned = true;
  const scroll = byId('scroll'), left = cursor * scale;
  if (left < scroll.scrollLeft || left + scale > scroll.scrollLeft + room()) scroll.scrollLeft = left - room() / 2;
  show();
}

// The mouse moves the cursor where it isn't pinned. A click pins it, another at its place lets it go. The marks there are named.
function point(event, clicked) {
  const far = event.offsetX + byId('scroll').scrollLeft, place = within(Math.floor(far / scale));
  const marks = all[at].marked(Math.ceil((far - 4) / scale), Math.floor((far + 4) / scale));
  byId('picture').title = marks.map((mark) => mark.text).join(feed);
  if (clicked) pinned = !pinned || place !== cursor;
  if (clicked || !pinned && place !== cursor) { cursor = place; show(); }
}

// Goes to the nearest instant on a side of the cursor at which one of the signals that are meant begins to have a value that is wanted, if
// there is one.
function seek(step, isWanted) {
  const places = [];
  for (const row of meant()) {
    let run = step > 0 ? row.run(cursor) + 1 : row.run(cursor - 1);
    while (run >= 0 && run < row.starts.length && !isWanted(row.values[run], run)) run += step;
    if (run >= 0 && run < row.starts.length) places.push(row.starts[run]);
  }
  if (places.length) go(places.reduce((a, b) => step * (a - b) < 0 ? a : b));
  return places.length > 0;
}

// The next value of the field, or the one before.
function find(step) {
  const wanted = byId('value').value.trim();
  byId('value').classList.toggle('missing', !seek(step, (value) => value === wanted));
}

// Goes to the instant of the field.
function reach() {
  const place = byId('place').value.trim() - 1, is = all.length > 0 && count() > 0 && Number.isInteger(place) && within(place) === place;
  byId('place').classList.toggle('missing', !is);
  if (!is) return;
  go(place);
  byId('scroll').focus();
}

// Chooses the next signal or the one before, behind the last none, as a click does.
function pick(step) {
  const rows = [null, ...shown()];
  chosen = rows[(rows.indexOf(chosen) + step + rows.length) % rows.length];
  show();
  if (chosen) byId('names').children[rows.indexOf(chosen) - 1].scrollIntoView({ block: 'nearest' });
}

// Makes lanes higher or lower.
function stretch(factor) {
  const rows = meant(), those = lanes(0).filter((lane) => lane.rows.some((row) => rows.includes(row)));
  for (const { rows: [row] } of those) row.height = Math.min(Math.max(row.height * factor, LEAST), 16 * LEAST);
  show();
}

// Joins the number that was clicked to the one above it, or parts it.
function join() {
  if (chosen) chosen.isJoined = !chosen.isJoined && chosen.kind === 'number';
  show();
}

// Puts the marker to the cursor, or takes it from there.
function mark() {
  marker = marker === cursor || !count() ? null : cursor;
  show();
}

// Puts a signal in the place of another.
function move(row, other) {
  const rows = all[at].signals;
  dragged = null;
  rows.splice(rows.indexOf(other), 0, rows.splice(rows.indexOf(row), 1)[0]);
  show();
}

const listed = () => all[at].signals.filter((row) => row.name.includes(byId('filter').value));

// Lists the signals that can be shown; with a truth value, which says so, all of them are or aren't.
function choose(is) {
  byId('signals').replaceChildren(...listed().map((row) => {
    if (is !== undefined) row.shown = is;
    const label = document.createElement('label'), box = document.createElement('input');
    box.type = 'checkbox';
    box.checked = row.shown;
    box.onchange = () => { row.shown = box.checked; show(); };
    label.append(box, ' ' + row.name);
    return label;
  }));
}

function visit(place) {
  at = place;
  cursor = 0;
  marker = chosen = null;
  pinned = false;
  byId('title').textContent = all[at].name + ': ' + all[at].node + all[at].early;
  document.title = byId('title').textContent;
  choose();
  show();
  scale = Math.min(Math.max(fitting(), 12), 80, MOST / Math.max(count(), 1));
  byId('scroll').focus();
  widen();
}

// Where the cursor is seen, else the middle.
function middle() {
  const place = cursor * scale - byId('scroll').scrollLeft;
  return place >= 0 && place <= room() ? place : room() / 2;
}

function enter(id) {
  byId(id).focus();
  byId(id).select();
}

const keys = {
  ArrowLeft: () => go(cursor - 1), ArrowRight: () => go(cursor + 1), Home: () => go(0), End: () => go(count() - 1),
  ArrowUp: () => pick(-1), ArrowDown: () => pick(1),
  n: () => seek(1, () => true), p: () => seek(-1, (_, run) => run > 0), g: () => enter('place'), '/': () => enter('value'),
  N: () => find(1), P: () => find(-1), m: mark, ']': () => stretch(2), '[': () => stretch(0.5), j: join,
  '+': () => zoom(1.5, middle()), '-': () => zoom(1 / 1.5, middle()), f: () => zoom(0, 0),
  '?': () => { byId('help').hidden = !byId('help').hidden; show(); },
};
const isField = (target) => target.matches('select,input:not([type=checkbox])');
byId('scroll').onscroll = draw;
document.onkeydown = (event) => {
  const { key, target } = event, menu = byId('menu');
  if (key === 'Escape') {
    if (menu.open) menu.open = false;
    else pinned = pinned && isField(target);
    byId('scroll').focus();
    show();
  } else if (all.length && keys[key] && !event.ctrlKey && !event.altKey && !event.metaKey && !isField(target)) {
    event.preventDefault();
    keys[key]();
  }
};
document.onmousedown = (event) => { if (!byId('menu').contains(event.target)) byId('menu').open = false; };
byId('place').onkeydown = (event) => { if (event.key === 'Enter') reach(); };
byId('value').onkeydown = (event) => { if (event.key === 'Enter') find(event.shiftKey ? -1 : 1); };
byId('picture').onmousemove = (event) => point(event, false);
byId('picture').onclick = (event) => point(event, true);
byId('picture').addEventListener('wheel', (event) => {
  if (!event.ctrlKey) return;
  event.preventDefault();
  zoom(event.deltaY < 0 ? 1.2 : 1 / 1.2, event.offsetX);
}, { passive: false });
for (const [id, key] of [['closer', '+'], ['farther', '-'], ['whole', 'f'], ['previous', 'p'], ['next', 'n']]) byId(id).onclick = keys[key];
byId('filter').oninput = () => choose();
for (const [id, is] of [['every', true], ['none', false]]) byId(id).onclick = () => { choose(is); show(); };
byId('instance').replaceChildren(...all.map((instance, place) => new Option(instance.name, place)));
byId('instance').onchange = (event) => visit(Number(event.target.value));
byId('instance').hidden = all.length < 2;
window.onresize = show;
matchMedia('(prefers-color-scheme:dark)').onchange = show;
if (all.length) visit(0);
</script>
";
