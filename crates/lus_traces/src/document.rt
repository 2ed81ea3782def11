//! What stands in a page before the text of its journals: its style, and what is on it.

/// The page up to the text of its journals, on light and on dark ground.
pub const OPENING: &str = "<!DOCTYPE html>
<html lang='en'>
<meta charset='utf-8'>
<meta name='viewport' content='width=device-width'>
<title>Journals</title>
<style>
:root{color-scheme:light dark;--ground:#ffffff;--text:#1e293b;--soft:#64748b;--grid:#e2e8f0;--band:#f8fafc;--line:#cbd5e1;
--truth:#0f766e;--lit:#99f6e4;--number:#1d4ed8;--box:#7c3aed;--event:#d97706;--refused:#be123c;--cursor:#0ea5e9;
--marker:#c026d3;--local:#3f6212}
@media (prefers-color-scheme:dark){:root{--ground:#0f172a;--text:#e2e8f0;--soft:#94a3b8;--grid:#1e293b;--band:#131d33;--line:#334155;
--truth:#2dd4bf;--lit:#134e4a;--number:#60a5fa;--box:#a78bfa;--event:#fbbf24;--refused:#fb7185;--cursor:#38bdf8;
--marker:#e879f9;--local:#bef264}}
*{box-sizing:border-box}
body{margin:0;height:100vh;display:flex;flex-direction:column;background:var(--ground);color:var(--text);font:14px system-ui,sans-serif}
header{position:relative;display:flex;flex-wrap:wrap;gap:8px;align-items:center;padding:8px 12px;border-bottom:1px solid var(--line)}
h1{font-size:16px;margin:0 8px 0 0}
button,select,input,summary{font:inherit;color:inherit;background:var(--band);border:1px solid var(--line);border-radius:6px;padding:3px 8px}
button:hover,summary:hover{border-color:var(--cursor)}
summary{list-style:none;cursor:pointer}
#choice{position:absolute;right:12px;top:100%;z-index:3;max-height:60vh;overflow:auto;min-width:240px;padding:8px;background:var(--ground);
border:1px solid var(--line);border-radius:6px}
#choice label{display:block;padding:2px 0;white-space:nowrap}
#choice input[type=search]{width:100%;margin-bottom:6px}
input.missing{outline:2px solid var(--refused)}
main{flex:1;min-height:0;overflow:auto;overscroll-behavior:contain;display:grid;grid-template-columns:max-content 1fr;outline:none}
#names{position:sticky;left:0;min-width:180px;max-width:50vw;border-right:1px solid var(--line)}
#names::before{content:'';position:sticky;top:0;z-index:1;display:block;height:48px;background:var(--ground)}
.row{display:flex;overflow:hidden;scroll-margin-top:48px;align-items:center;gap:8px;padding:0 10px;border-bottom:1px solid var(--grid);
cursor:grab;white-space:nowrap}
.row.chosen{background:var(--band);box-shadow:inset 3px 0 var(--cursor)}
.row span{overflow:hidden;text-overflow:ellipsis;line-height:1.5}
.row .name{flex:1 1000 auto;min-width:3em}
.row .side{font-size:11px;color:var(--soft);width:24px;flex:none}
.row.var .name{color:var(--local)}
.row .value{flex:0 1 auto;text-align:right;font-family:'DejaVu Sans Mono',Menlo,Consolas,monospace}
#wide{contain:size;overflow:clip}
canvas{position:sticky;top:0;display:block}
footer{padding:8px 12px;color:var(--soft);border-top:1px solid var(--line);min-height:44px;max-height:30vh;overflow:auto;
font:13px 'DejaVu Sans Mono',Menlo,Consolas,monospace;white-space:pre-wrap}
footer b{color:var(--refused);font-weight:normal}
footer i{color:var(--marker);font-style:normal}
#help{margin:0;padding:4px 12px;color:var(--soft);font-size:12px}
</style>
<header>
<h1 id='title'></h1>
<select id='instance' aria-label='instance'></select>
<button id='previous' title='previous change (p)'>&#9664; change</button>
<button id='next' title='next change (n)'>change &#9654;</button>
<input id='place' size='7' placeholder='instant' title='go to an instant (g)' aria-label='instant'>
<input id='value' size='9' placeholder='value' title='find a value (/); Enter: next, Shift and Enter: previous' aria-label='value'>
<button id='farther' title='farther (-)'>&#8722;</button>
<button id='closer' title='closer (+)'>+</button>
<button id='whole' title='all instants (f)'>all</button>
<details id='menu'><summary>signals</summary><div id='choice'><input id='filter' type='search' placeholder='name'>
<button id='every'>all</button> <button id='none'>none</button><div id='signals'></div></div></details>
</header>
<main id='scroll' tabindex='0'><div id='names'></div><div id='wide'><canvas id='picture'></canvas></div></main>
<footer id='line'></footer>
<p id='help'>left, right, Home, End: go &#183; up, down: choose &#183; n, p: change &#183; g: instant &#183;
/, then Enter, N, P: value &#183; m: marker &#183; +, -, f, Ctrl and wheel: zoom &#183; [, ]: height of lanes &#183;
j: one axis with the number above &#183; Esc: follow the mouse &#183; ?: this line</p>
<pre id='journals' hidden>
";
