//! The style of a page. Written by tools/assets.

pub(crate) const STYLE: &str = r#"/* Written by tools/assets. */
:root{--paper:#ffffff;--ink:#101720;--soft:#4f5a67;--line:#c9d0d8;--band:#fff0bf;--track:#e9edf1;--bad:#a3001b;--on:#ffffff;--c0:#0a4fb3;--c1:#a83a00;--c2:#6a22a3;--c3:#00635a;--c4:#9b1150;--c5:#4f5900;--c6:#3f4a58;--c7:#7a4b00}
@media screen and (prefers-color-scheme:dark){:root:not([data-theme=light]){--paper:#0e1217;--ink:#f2f5f8;--soft:#b4bfcc;--line:#3d4753;--band:#3d3410;--track:#232b34;--bad:#ff9c9c;--on:#0e1217;--c0:#8dbdff;--c1:#ffab78;--c2:#d0adff;--c3:#66dccb;--c4:#ff9ac6;--c5:#d3df74;--c6:#c3ccd6;--c7:#e6b873}}
@media screen{:root[data-theme=dark]{--paper:#0e1217;--ink:#f2f5f8;--soft:#b4bfcc;--line:#3d4753;--band:#3d3410;--track:#232b34;--bad:#ff9c9c;--on:#0e1217;--c0:#8dbdff;--c1:#ffab78;--c2:#d0adff;--c3:#66dccb;--c4:#ff9ac6;--c5:#d3df74;--c6:#c3ccd6;--c7:#e6b873}}
.pic text{font-family:"Segoe UI",-apple-system,"Helvetica Neue",Roboto,"Noto Sans","Liberation Sans",Arial,sans-serif;font-variant-numeric:tabular-nums;fill:var(--ink)}
.pic .b{font-weight:700}.pic .soft,.pic .slate{fill:var(--soft)}.pic .on{fill:var(--on)}.pic .badt{fill:var(--bad)}.pic .strike{text-decoration:line-through}
.pic .box{fill:var(--paper);stroke-width:2}.pic .band{fill:var(--band)}.pic .halo{stroke:var(--paper);stroke-width:5;stroke-linejoin:round;paint-order:stroke}
.pic .ghost{fill:none;stroke:var(--soft);stroke-dasharray:4 3;stroke-width:1.5}.pic .hatch{fill:url(#hatch);stroke:var(--soft)}
.pic .chip{fill:var(--paper);stroke:none}.pic .seg{fill:var(--track)}.pic .tint{fill-opacity:.2;stroke:none}.pic .rule{stroke:var(--line);fill:none}
.pic .pend{fill:none;stroke-width:1.5;stroke-dasharray:3 2}.pic .life{fill:none;stroke-width:3;stroke-opacity:.35}.pic .link{fill:none;stroke-width:2}
.pic .view{fill:none;stroke-width:2;stroke-dasharray:2 4;stroke-linecap:round}.pic .edge{fill:none;stroke:var(--bad);stroke-width:3}.pic .bad{fill:var(--bad)}
.pic .dim{opacity:.28}.pic .ok{fill:none;stroke:var(--soft)}.pic .faint{fill-opacity:.45}.pic .none{fill:none}.pic .mark{stroke:var(--ink);stroke-width:1.5}.pic .inkf{fill:var(--ink)}
.pic .f0{fill:var(--c0)}.pic .s0{stroke:var(--c0)}.pic .f1{fill:var(--c1)}.pic .s1{stroke:var(--c1)}.pic .f2{fill:var(--c2)}.pic .s2{stroke:var(--c2)}.pic .f3{fill:var(--c3)}.pic .s3{stroke:var(--c3)}.pic .f4{fill:var(--c4)}.pic .s4{stroke:var(--c4)}.pic .f5{fill:var(--c5)}.pic .s5{stroke:var(--c5)}.pic .f6{fill:var(--c6)}.pic .s6{stroke:var(--c6)}.pic .f7{fill:var(--c7)}.pic .s7{stroke:var(--c7)}
:root { --s: 0.75rem; --m: 1rem; --l: 1.25rem; --xl: 1.75rem; --xxl: 2.5rem; --mono: ui-monospace, Menlo, Consolas, "Liberation Mono", "DejaVu Sans Mono", monospace; }
.story { font: var(--m)/1.4 "Segoe UI", -apple-system, "Helvetica Neue", Roboto, "Noto Sans", "Liberation Sans", Arial, sans-serif; font-variant-numeric: tabular-nums; color: var(--ink); background: var(--paper); }
.story[hidden], .story [hidden] { display: none !important; }
.story, .story * { box-sizing: border-box; }
.story button, .story select { font: inherit; color: inherit; background: var(--paper); border: 1px solid var(--line); border-radius: 0.35rem; padding: 0.15rem 0.7rem; cursor: pointer; }
.story button:hover:not(:disabled), .story select:hover { border-color: var(--soft); background: var(--track); }
.story button:disabled { color: var(--soft); cursor: default; }
.story button[aria-pressed="true"] { background: var(--ink); color: var(--paper); }
.story :focus-visible { outline: 3px solid var(--c0); outline-offset: 1px; }
.st-bar { display: flex; gap: 0.6rem; align-items: center; padding: 0.5rem 1.2rem; }
.st-bar select { max-width: 22rem; min-width: 0; font-weight: 700; border-color: transparent; padding-left: 0; }
.st-bar nav { display: flex; gap: 0.3rem; align-items: center; flex: none; }
.st-bar nav button { padding: 0.15rem 0.8rem; }
.st-bar :is(h1, .way) { margin: 0; font-size: var(--m); font-weight: 700; min-width: 0; white-space: nowrap; overflow: hidden; text-overflow: ellipsis; flex: 0 1 auto; }
#st-position { min-width: 4.2rem; text-align: center; font-weight: 700; white-space: nowrap; }
#st-which { flex: 1; color: var(--soft); font-size: var(--s); min-width: 0; white-space: nowrap; overflow: hidden; text-overflow: ellipsis; }
.st-body { flex: 1; min-height: 0; display: grid; grid-template-columns: minmax(0, 1fr) minmax(0, var(--beside, clamp(15rem, 27vw, 27rem))); }
#st-main { display: flex; flex-direction: column; min-height: 0; min-width: 0; padding: 0 1.2rem 0.8rem; }
#st-say { font-size: var(--xl); line-height: 1.25; font-weight: 650; flex: none; overflow-wrap: anywhere; }
#st-say p { margin: 0.2rem 0 0; text-wrap: pretty; }
#st-say .why { font-size: var(--l); line-height: 1.35; font-weight: 400; }
#st-say .verdict { font-size: var(--xxl); line-height: 1.1; font-weight: 750; }
#st-say .guess { font-size: var(--l); }
.story .not { color: var(--bad); }
#st-say ul { margin: 0.35rem 0 0; padding: 0; list-style: none; font-size: var(--m); line-height: 1.35; font-weight: 400; }
#st-say li { display: flex; break-inside: avoid; }
#st-say li span { min-width: 0; }
#st-say .two { columns: 2; column-gap: 1.5rem; }
.edge-kind { flex: none; align-self: start; margin-top: 0.25em; min-width: 4.6em !important; font-size: var(--s); font-weight: 700; background: var(--bad); color: var(--on); border-radius: 0.25rem; padding: 0 0.4em; margin-right: 0.5em; text-align: center; }
#st-say .choices { display: flex; flex-wrap: wrap; gap: 0.5rem; margin-top: 0.5rem; font-size: var(--l); font-weight: 400; }
.story kbd { font: inherit; font-size: var(--s); color: var(--soft); border: 1px solid var(--line); border-radius: 0.2rem; padding: 0 0.3em; }
#st-stage { overflow: auto; flex: 0 1 auto; min-height: 6rem; outline-offset: -3px; }
#st-grid { display: grid; grid-template-columns: max-content max-content; width: max-content; row-gap: 0.3rem; }
#st-grid > div { line-height: 0; }
#st-grid h2 { grid-column: 1 / -1; position: sticky; left: 0; width: max-content; max-width: 100%; margin: 0.3rem 0 -0.3rem; font-size: var(--l); line-height: 1.3; font-weight: 400; color: var(--ink); }
#st-grid h2 > span:first-child { display: inline-block; min-width: 8rem; font-weight: 700; }
#st-grid h2.not { color: var(--bad); font-weight: 700; }
.names { position: sticky; left: 0; background: var(--paper); z-index: 1; }
.lanes [data-step] { cursor: pointer; }
.lanes g:focus-visible { outline: 3px solid var(--ink); outline-offset: 2px; }
#st-cards { display: grid; grid-template-columns: repeat(var(--cards, 3), minmax(0, 1fr)); gap: 0.8rem; margin-top: auto; padding-top: 0.5rem; flex: 0 0 auto; max-height: var(--high, 14.5rem); overflow: hidden; }
.level { max-height: calc(var(--high, 14.5rem) - 2rem); border: 1px solid var(--line); border-radius: 0.4rem; padding: 0.35rem 0.6rem 0.5rem; min-width: 0; overflow: hidden auto; scrollbar-width: none; position: relative; }
.level[data-here] { border: 3px solid var(--ink); padding: calc(0.35rem - 2px) calc(0.6rem - 2px) calc(0.5rem - 2px); }
.story .card { display: block; width: 100%; margin: 0 0 0.35rem; border: 0; padding: 0; text-align: left; line-height: 0; background: none; }
.level .head { display: flex; justify-content: space-between; gap: 0.5rem; line-height: 1.5; font-weight: 700; }
.level .head > span:first-child { flex: none; }
.level .end { font-weight: 400; white-space: nowrap; overflow: hidden; text-overflow: ellipsis; }
.level .end.not { font-weight: 700; }
.st-legend { grid-column: 1 / -1; margin: 0 0 -0.4rem; font-size: var(--s); color: var(--soft); }
.kind { white-space: nowrap; margin-left: 0.5em; }
.kind svg { width: 1.3em; height: 0.85em; vertical-align: -0.08em; margin-right: 0.35em; }
.more { position: sticky; bottom: -0.5rem; margin: 0 -0.6rem -0.5rem; padding: 0.1rem 0.8rem 0.35rem; background: var(--paper); font-size: var(--s); color: var(--soft); pointer-events: none; }
.level svg { display: block; }
.level [data-order] { cursor: pointer; }
.level [data-order]:hover .chip { fill: var(--track); }
#st-beside { display: flex; flex-direction: column; min-height: 0; min-width: 0; border-left: 1px solid var(--line); }
#st-text { flex: none; max-height: 40%; overflow: auto; margin: 0; padding: 0.1rem 0 0.5rem; font: var(--s)/1.5 var(--mono); border-bottom: 1px solid var(--line); }
#st-text span { display: block; padding: 0 1.1rem 0 2.2rem; text-indent: -1.1rem; white-space: pre-wrap; overflow-wrap: anywhere; }
#st-text .here { background: var(--band); font-weight: 700; }
#st-text .broken { background: var(--bad); color: var(--on); font-weight: 700; }
#st-prose { flex: 1; min-height: 0; overflow-y: auto; padding: 0.5rem 1.1rem 0; position: relative; outline-offset: -3px; }
#st-prose::after { content: ""; display: block; height: 45vh; }
#st-prose p { margin: 0 0 0.6rem; }
#st-prose .ask { font-weight: 700; }
#st-prose .tell { border-left: 4px solid transparent; margin: 0 -1.1rem 0.35rem; padding: 0.1rem 1.1rem 0.1rem calc(1.1rem - 4px); color: var(--soft); cursor: pointer; }
#st-prose .tell > p { margin: 0; }
#st-prose .tell:empty { display: none; }
#st-prose .tell.here { border-color: var(--ink); background: var(--band); color: var(--ink); }
#st-prose .aside { margin: 0.3rem 0 0.9rem; }
#st-prose.asks details { display: none; }
.n0 { color: var(--c0); } .n1 { color: var(--c1); } .n2 { color: var(--c2); } .n3 { color: var(--c3); } .n4 { color: var(--c4); } .n5 { color: var(--c5); } .n6 { color: var(--c6); } .n7 { color: var(--c7); }
@media screen and (max-width: 50rem) {
  .st-bar { position: sticky; top: 0; background: var(--paper); z-index: 3; flex-wrap: wrap; padding: 0.4rem 0.7rem; border-bottom: 1px solid var(--line); gap: 0.4rem; }
  .st-bar select { max-width: none; flex: 1 1 8rem; }
  .st-bar nav { order: 8; flex: 1 1 auto; }
  .st-bar nav button { flex: 1 1 auto; padding: 0.35rem 0.3rem; min-width: 2.2rem; }
  .st-bar > button { order: 9; padding: 0.35rem 0.4rem; }
  .st-bar > :is(#more, #st-back) { order: 1; }
  .st-bar :is(#st-end, #st-compare, #st-machine) { font-size: var(--s); }
  #st-position { min-width: 3.4rem; }
  #st-which { flex-basis: 100%; order: 10; } #st-which:empty { display: none; }
  .story { --xl: 1.25rem; --xxl: 1.75rem; }
  .st-body { display: block; }
  #st-grid h2 { max-width: calc(100vw - 0.8rem); }
  #st-main { padding: 0.3rem 0.4rem; display: block; } #st-cards { grid-template-columns: minmax(0, 1fr); max-height: none; } .level { max-height: none; } #st-say .two { columns: 1; }
  #st-beside { border: 0; } #st-text { max-height: none; } #st-prose { overflow: visible; } #st-prose::after { height: 2rem; }
}
@media screen and (max-width: 32rem) { .st-bar select { flex-basis: 14rem; } }
:root { --bg: #ffffff; --panel: #f4f6f8; --ink: #101720; --soft: #47515e; --line: #c3cad3; --strong: #101720; --here: #ffe28a; --here-ink: #101720; --c0: #0a4fb3; --c1: #a83a00; --c2: #6a22a3; --c3: #00635a; --c4: #9b1150; --c5: #4f5900; --on: #ffffff; --act: #cfe0f5; --act-line: #35598a; --com: #14532d; --com-on: #ffffff; --bad: #a3001b; --bad-bg: #fde3e3; --good: #14532d; --good-bg: #dff3e4; --warn: #8a4b00; --warn-bg: #ffe7bd; --bar: #dde3ea; --bar-line: #44505e; --moved: #ffd24d; --moved-ink: #101720; --shade: #eceff3; --o0: #0a4fb3; --o1: #c2570c; --o2: #6a22a3; --o3: #00857a; --o4: #c0246b; --o5: #7c8a00; color-scheme: light; }
:root[data-theme="dark"] { --bg: #0e1217; --panel: #171d25; --ink: #f2f5f8; --soft: #b4bfcc; --line: #46515f; --strong: #f2f5f8; --here: #5c4a00; --here-ink: #ffffff; --c0: #8dbdff; --c1: #ffab78; --c2: #d0adff; --c3: #66dccb; --c4: #ff9ac6; --c5: #d3df74; --on: #0e1217; --act: #26405f; --act-line: #9cc3f2; --com: #8ee0a8; --com-on: #0e1217; --bad: #ff9c9c; --bad-bg: #4a1418; --good: #8ee0a8; --good-bg: #12351f; --warn: #ffc66b; --warn-bg: #4a3100; --bar: #2b3643; --bar-line: #b4bfcc; --moved: #ffd24d; --moved-ink: #101720; --shade: #1b222b; --o0: #8dbdff; --o1: #ffab78; --o2: #d0adff; --o3: #66dccb; --o4: #ff9ac6; --o5: #d3df74; color-scheme: dark; }
@media (prefers-color-scheme: dark) {
  :root:not([data-theme="light"]) { --bg: #0e1217; --panel: #171d25; --ink: #f2f5f8; --soft: #b4bfcc; --line: #46515f; --strong: #f2f5f8; --here: #5c4a00; --here-ink: #ffffff; --c0: #8dbdff; --c1: #ffab78; --c2: #d0adff; --c3: #66dccb; --c4: #ff9ac6; --c5: #d3df74; --on: #0e1217; --act: #26405f; --act-line: #9cc3f2; --com: #8ee0a8; --com-on: #0e1217; --bad: #ff9c9c; --bad-bg: #4a1418; --good: #8ee0a8; --good-bg: #12351f; --warn: #ffc66b; --warn-bg: #4a3100; --bar: #2b3643; --bar-line: #b4bfcc; --moved: #ffd24d; --moved-ink: #101720; --shade: #1b222b; --o0: #8dbdff; --o1: #ffab78; --o2: #d0adff; --o3: #66dccb; --o4: #ff9ac6; --o5: #d3df74; color-scheme: dark; }
}
html { font-size: clamp(13px, min(max(1.25vw, 0.55vw + 9px), 2.05vh), 80px); }
html.present { font-size: clamp(16px, min(max(1.52vw, 0.66vw + 11px), 2.45vh), 100px); }
html.present main { grid-template-rows: auto minmax(0, 0.85fr) minmax(6.3rem, 1.15fr); } @media (min-width: 40.01rem) { html.present #say { height: 7.4rem !important; } } @media (min-width: 52rem) { html.present .hex { display: none; } }
html.far { font-size: clamp(16px, min(2.1vw, 3.4vh), 140px); } html.far :is(#versions, #words, .note, .modes, #about, .legend), html.far body:not(.tree) #say:not(.asks) #because { display: none; }
html.far main { grid-template-columns: minmax(0, 1fr); grid-template-rows: auto minmax(0, 1fr); } html.far #waits { grid-column: 1; grid-row: 2; }
html.far body:not(.tree) #say { height: 6.4rem !important; } html.far body:not(.tree) #say:not(.asks) { grid-template-columns: minmax(0, 1fr); }
html.present .sub { display: none; } html.present .legend { margin-left: 0; }
html, body { overscroll-behavior-x: none; touch-action: pan-y pinch-zoom; }
* { box-sizing: border-box; scrollbar-color: var(--soft) var(--track); }
body { margin: 0; height: 100vh; height: 100dvh; display: flex; flex-direction: column; overflow: hidden; background: var(--bg); color: var(--ink);
  font-family: "Segoe UI", -apple-system, "Helvetica Neue", Roboto, "Noto Sans", "Liberation Sans", Arial, sans-serif; font-size: 1rem; line-height: 1.3; }
button, input, kbd, code { font: inherit; }
code { font-family: ui-monospace, "SF Mono", Consolas, "Liberation Mono", monospace; font-size: 0.94em; }
button { color: var(--ink); background: var(--bg); border: 1px solid var(--bar-line); border-radius: 0.35rem; padding: 0.15rem 0.6rem; cursor: pointer; }
button:hover:not(:disabled) { background: var(--shade); }
button:disabled { opacity: 0.45; cursor: default; }
button[aria-pressed="true"] { background: var(--ink); color: var(--bg); }
:focus-visible { outline: 0.2rem solid var(--c0); outline-offset: 1px; }
[hidden] { display: none !important; }
.skip { position: absolute; left: 0.5rem; top: -9rem; z-index: 8; background: var(--bg); color: var(--ink); border: 2px solid var(--ink); border-radius: 0.35rem; padding: 0.3rem 0.8rem; } .skip:focus { top: 0.3rem; } #said:focus { outline: none; }
.hidden { position: absolute; width: 1px; height: 1px; overflow: hidden; clip-path: inset(50%); white-space: nowrap; }
.defs { position: absolute; }
.soft { color: var(--soft); }
.space { flex: 1; }
#bar { display: flex; align-items: center; gap: 0.5rem; padding: 0.35rem 0.8rem; border-bottom: 1px solid var(--line); min-height: 2.7rem; }
#bar h1 { font-size: 1.15rem; margin: 0; min-width: 0; white-space: nowrap; overflow: hidden; text-overflow: ellipsis; flex: 0 1 auto; }
#about { font-weight: 400; font-size: 0.95rem; color: var(--soft); margin-left: 0.4rem; }
#bar nav, .modes { display: flex; align-items: center; gap: 0.3rem; flex: none; }
#bar nav button { min-width: 2.3rem; }
#position { min-width: 4.4rem; text-align: center; font-weight: 700; font-size: 1.1rem; font-variant-numeric: tabular-nums; }
.way { color: var(--ink); text-decoration: none; border: 1px solid var(--line); border-radius: 0.35rem; padding: 0.1rem 0.6rem; white-space: nowrap; flex: none; }
.way:hover { background: var(--shade); }
.way span:not(.hidden) { color: var(--soft); font-size: 0.9rem; }
#score { font-weight: 700; color: var(--good); white-space: nowrap; flex: none; }
main { flex: 1; min-height: 0; display: grid; grid-template-columns: minmax(0, 1.32fr) minmax(0, 1fr); grid-template-rows: auto minmax(8.4rem, 0.82fr) minmax(0, 1.18fr); gap: 0.6rem; padding: 0.4rem 0.8rem 0.7rem; }
body[data-ring] main { grid-template-rows: auto minmax(min(10.5rem, 22vh), 1.12fr) minmax(6.7rem, 0.88fr); } html.present body[data-ring] main { grid-template-rows: auto minmax(0, 0.95fr) minmax(6.5rem, 1fr); }
@media (max-width: 56rem) { [data-do="legend"], [data-do="picture"] { display: none; } }
@media (max-width: 62rem) { html.present :is(.why, .note) { font-size: 0.96rem; line-height: 1.15; } html.present .event { font-size: 1.05rem; } html.present .chips { line-height: 1.45; font-size: 0.94rem; } html.present .plain { line-height: 1.15; } html.present .plain { font-size: 1.14rem; } html.present .plain.long { font-size: 1.02rem; } html.present .plain.long ~ .note:not(.verdict) { display: none; } }
#top { grid-column: 1 / -1; min-width: 0; }
#versions { grid-column: 1; grid-row: 2 / 4; }
#waits { grid-column: 2; grid-row: 2; }
#words { grid-column: 2; grid-row: 3; }
.panel { background: var(--panel); border-radius: 0.5rem; padding: 0.4rem 0.7rem; display: flex; flex-direction: column; min-height: 0; min-width: 0; overflow: hidden; position: relative; }
.panel h2 { font-size: 1rem; margin: 0 0 0.15rem; flex: none; } #words h2, #waits h2 { white-space: nowrap; overflow: hidden; text-overflow: ellipsis; }
.panel h2 s { color: var(--soft); text-decoration: none; font-weight: 400; } .panel h2 small { font-weight: 400; color: var(--soft); font-size: 0.95rem; }
.panel h2 button { padding: 0 0.4rem; font-size: 0.9rem; }
.fill { flex: 1; min-height: 0; overflow: hidden auto; position: relative; contain: layout paint style; }
.fill svg, #lanes svg { display: block; }
.quiet { position: absolute; left: 0; bottom: 0; margin: 0; }
:where(text:not(.pic *)) { fill: var(--ink); font-size: 1rem; }
.c0 { --c: var(--c0); } .c1 { --c: var(--c1); } .c2 { --c: var(--c2); } .c3 { --c: var(--c3); } .c4 { --c: var(--c4); } .c5 { --c: var(--c5); }
.t { color: var(--c); font-weight: 700; }
#lanes { overflow: hidden; cursor: default; touch-action: pan-y; }
#lanes .now { fill: var(--here); }
.rule { stroke: var(--line); stroke-width: 1; fill: none; }
.tick { fill: var(--soft); font-size: 0.95rem; font-variant-numeric: tabular-nums; }
.tick.at { fill: var(--ink); font-weight: 700; font-size: 1.05rem; }
#lanes .tick.at { fill: var(--here-ink); }
.lane-name { font-size: 1.5rem; font-weight: 700; fill: var(--c, var(--ink)); }
.lane-name.soft { font-size: 1rem; font-weight: 400; fill: var(--soft); }
.token rect { fill: var(--c); } .token text { fill: var(--on); font-weight: 700; }
.lane-level { font-size: 0.95rem; fill: var(--soft); }
.lane-facts { font-size: 1rem; fill: var(--ink); }
.warn { fill: var(--warn); font-weight: 700; }
.bad { fill: var(--bad); color: var(--bad); font-weight: 700; }
.hit { fill: transparent; }
[data-txn], [data-v], [data-at] { cursor: pointer; }
[data-txn]:hover .hit, [data-v]:hover .hit { fill: var(--shade); }
.strip { stroke: var(--bar-line); stroke-width: 1; }
.strip.active, .ph.active { fill: var(--act); }
.strip.finished { fill: url(#p-finished); }
.strip.preparing { fill: url(#p-preparing); }
.strip.committed { fill: var(--com); }
.strip.aborted { fill: url(#p-aborted); }
.over { stroke: var(--soft); stroke-width: 2; stroke-dasharray: 2 5; }
.plate { fill: var(--bg); }
.plate.active { fill: var(--act); } .plate.committed { fill: var(--com); }
.phase { font-size: 0.95rem; font-weight: 600; fill: var(--ink); }
.phase.committed { fill: var(--com-on); }
.phase.aborted { fill: var(--bad); }
.pf1 { fill: var(--act); } .pf2 { fill: var(--act-line); }
.pp1 { fill: var(--bg); } .pp2 { fill: var(--ink); }
.pa1 { fill: var(--bg); } .pa2 { stroke: var(--bad); stroke-width: 1.6; fill: none; }
.pw1 { fill: var(--warn-bg); } .pw2 { fill: var(--warn); }
.pn1 { fill: var(--panel); } .pn2 { stroke: var(--soft); stroke-width: 1; fill: none; }
.waiting { fill: url(#p-wait); stroke: var(--warn); stroke-width: 1.5; }
.cell rect { fill: var(--bg); stroke: var(--bar-line); stroke-width: 1.2; }
.cell text { pointer-events: none; }
.op { font-weight: 600; font-size: 0.98rem; }
.detail { font-size: 0.95rem; }
.cell.waits rect { fill: var(--warn-bg); stroke: var(--warn); stroke-width: 2.2; }
.cell.aborts rect { fill: var(--bad); stroke: var(--bad); }
.cell.aborts text { fill: var(--bg); }
.cell.commits rect { fill: var(--com); stroke: var(--com); }
.cell.commits text { fill: var(--com-on); }
.cell.refused rect { stroke-dasharray: 3 3; }
.cell.ghost rect { fill: none; stroke-dasharray: 4 4; stroke-width: 1.6; }
.cell.ghost text { fill: var(--soft); } .cell.next { cursor: pointer; } .cell.next rect { fill: var(--bg); stroke: var(--ink); } .cell.next text { fill: var(--ink); }
.cell.later:not(.ghost) { opacity: 0.7; }
.cell.here rect { stroke: var(--strong); stroke-width: 3.2; }
.cell:hover rect { stroke-width: 3; }
.flow line { stroke-width: 3; stroke: var(--ink); } .flow path { fill: var(--ink); }
.flow.free line { stroke: var(--good); } .flow.free path { fill: var(--good); }
.flow.abort line { stroke: var(--bad); stroke-dasharray: 7 3; } .flow.abort path { fill: var(--bad); }
.flow.weak line { stroke: var(--soft); stroke-width: 2; } .flow.weak path { fill: var(--soft); }
.flow.depends line { stroke: var(--ink); stroke-dasharray: 2 4; stroke-linecap: round; }
#slider { width: 100%; margin: 0; height: 1.2rem; accent-color: var(--ink); display: block; }
#say { display: grid; grid-template-columns: minmax(0, 1.25fr) minmax(0, 1fr); gap: 0.2rem 1.4rem; height: 7.6rem; padding: 0.45rem 0.8rem 0.3rem; margin-top: 0.35rem; border-left: 0.5rem solid var(--bar-line); background: var(--panel); border-radius: 0 0.5rem 0.5rem 0; overflow: hidden; }
#say.waits { border-color: var(--warn); } #say.aborts { border-color: var(--bad); } #say.commits { border-color: var(--com); } #say.asks { border-color: var(--c2); }
#say p { margin: 0; }
#said, #because { min-width: 0; overflow: hidden auto; } #said { overflow-wrap: anywhere; }
.event { font-size: 1.2rem; line-height: 1.25; }
.num { display: inline-block; background: var(--here); color: var(--here-ink); font-weight: 700; border-radius: 0.3rem; padding: 0 0.45rem; margin-right: 0.25rem; }
.reply { font-family: ui-monospace, "SF Mono", Consolas, "Liberation Mono", monospace; font-weight: 700; }
#say.waits .reply { color: var(--warn); } #say.aborts .reply { color: var(--bad); } #say.commits .reply { color: var(--good); }
.plain { font-size: 1.42rem; line-height: 1.22; margin-top: 0.2rem !important; text-wrap: pretty; }
.plain.long { font-size: 1.2rem; } .plain.longer { font-size: 1.08rem !important; }
.note { color: var(--soft); font-size: 1rem; margin-top: 0.15rem !important; }
.note::before { content: "\201c"; } .note::after { content: "\201d"; }
.verdict::before, .verdict::after { content: none; }
.verdict { color: var(--ink); }
html.present #said:has(.verdict) .plain { font-size: 1rem; } html.present .verdict { font-size: 0.9rem; line-height: 1.18; }
.why { margin: 0 0 0.25rem; padding: 0; list-style: none; font-size: 1.05rem; line-height: 1.28; }
.why li::before { content: "because "; color: var(--soft); font-size: 0.95rem; }
.why li + li::before { content: "and "; }
.why li.soft::before { content: none; }
.chips { line-height: 1.62; font-size: 1rem; }
.chip { background: var(--bg); border: 1px solid var(--line); border-radius: 0.3rem; padding: 0 0.4rem; display: inline-block; max-width: 100%; line-height: 1.35; margin-bottom: 0.15rem; }
.chip s, figcaption s { color: var(--soft); text-decoration: none; }
.chip s::after { content: " \2192"; }
.rule[type] { border: 0; background: none; color: var(--soft); padding: 0; text-decoration: underline; stroke: none; font-size: 0.95rem; }
.onward { float: right; font-size: 1rem; margin-left: 0.6rem; }
.note { white-space: nowrap; overflow: hidden; text-overflow: ellipsis; } .verdict { white-space: normal; }
#said[data-fit] :is(.plain, .plain.long) { font-size: 1.05rem !important; line-height: 1.15; margin-top: 0.1rem !important; } #said[data-fit] .event { font-size: 1rem; line-height: 1.15; }
#said[data-fit="2"] :is(.plain, .plain.long) { font-size: 0.92rem !important; line-height: 1.1; } #said[data-fit="2"] .event { font-size: 0.92rem; } #said[data-fit="2"] .note:not(.verdict) { display: none; } #said[data-fit="2"] .verdict { font-size: 0.9rem; line-height: 1.1; }
#because[data-fit] .why { font-size: 0.94rem; line-height: 1.15; } #because[data-fit] .chips { font-size: 0.92rem; line-height: 1.4; }
#because[data-fit="2"] .why { font-size: 0.84rem; line-height: 1.1; margin-bottom: 0.1rem; } #because[data-fit="2"] .chips { font-size: 0.84rem; line-height: 1.3; } #because[data-fit="2"] .chip { line-height: 1.15; margin-bottom: 0; white-space: nowrap; overflow: hidden; text-overflow: ellipsis; }
@media (min-width: 62rem) and (min-height: 42rem) { :root:not(.present) body:is([data-lanes="1"], [data-lanes="2"]):not(.tree) #say { height: 9.6rem; } :root:not(.present) body:is([data-lanes="1"], [data-lanes="2"]):not(.tree) .plain { font-size: 1.65rem; } :root:not(.present) body:is([data-lanes="1"], [data-lanes="2"]):not(.tree) .why { font-size: 1.12rem; } :root:not(.present) body:is([data-lanes="1"], [data-lanes="2"]):not(.tree) .plain.long { font-size: 1.4rem !important; } }
.key .ph { display: inline-block; width: 1.9rem; height: 0.85rem; margin: 0 0.25rem 0 0.7rem; border: 1px solid var(--bar-line); vertical-align: -0.05rem; }
.key .ph:first-child { margin-left: 0; }
.ph.active { background: var(--act); } .ph.committed { background: var(--com); }
.ph.finished { background: repeating-linear-gradient(135deg, var(--act) 0 6px, var(--act-line) 6px 8px); }
.ph.preparing { background: radial-gradient(var(--ink) 1.6px, transparent 2px) 0 0 / 6px 6px; }
.ph.aborted { background: repeating-linear-gradient(45deg, var(--bad) 0 1.5px, transparent 1.5px 6px), repeating-linear-gradient(135deg, var(--bad) 0 1.5px, transparent 1.5px 6px); }
.ph.waiting { background: repeating-linear-gradient(135deg, var(--warn) 0 4px, var(--warn-bg) 4px 9px); }
.cover { display: inline-block; background: var(--ink); color: var(--bg); border-radius: 0.3rem; padding: 0 2.2rem; font-weight: 700; }
.choices { display: grid; grid-template-columns: 1fr 1fr; gap: 0.45rem; }
.choices button { font-size: 1.12rem; padding: 0.45rem 0.6rem; text-align: left; border-width: 2px; }
p.told { font-weight: 700; font-size: 1.1rem; margin-bottom: 0.15rem !important; }
.told.right { color: var(--good); } .told.wrong { color: var(--bad); }
kbd { display: inline-block; min-width: 1.5em; text-align: center; border: 1px solid var(--bar-line); border-radius: 0.25rem; padding: 0 0.3em; font-size: 0.88em; background: var(--bg); color: var(--ink); }
:where(#chains text, #graph text) { font-size: 1em; }
.ahead { fill: var(--shade); }
.grid { stroke: var(--line); stroke-dasharray: 2 4; }
.nowline { stroke: var(--ink); stroke-width: 2; stroke-dasharray: none; }
.inf { font-size: 1.25em; }
.keyname { font-size: 1em; fill: var(--soft); }
.vname { font-size: 1em; fill: var(--soft); }
.value { font-size: 1.15em; font-weight: 700; }
.bar { fill: var(--bar); stroke: var(--bar-line); stroke-width: 1.6; }
.touched .bar { stroke: var(--strong); stroke-width: 3; }
.pinned .vname { fill: var(--ink); font-weight: 700; text-decoration: underline; }
.bar.unborn, .bar.promised { fill: var(--bg); stroke: var(--c); stroke-dasharray: 7 4; stroke-width: 2.4; }
.neverbar { fill: url(#p-never); stroke: var(--soft); stroke-dasharray: 3 3; }
.never .value { fill: var(--soft); text-decoration: line-through; }
.taken { fill: var(--bg); fill-opacity: 0.62; stroke: var(--c); stroke-width: 2.4; stroke-dasharray: 7 4; }
.tail { stroke: var(--c); stroke-width: 2; stroke-dasharray: 3 5; fill: none; }
.cut { stroke: var(--c); stroke-width: 4; stroke-dasharray: 5 3; }
.reader circle { fill: var(--bg); stroke: var(--c); stroke-width: 2.6; }
.reader text { fill: var(--c); font-weight: 700; font-size: 0.98em; }
.writer rect { fill: var(--c); }
.writer text { fill: var(--on); font-weight: 700; font-size: 0.98em; }
.writer path { fill: var(--on); }
.writer.gone rect { fill: var(--soft); }
.gate circle { fill: var(--bad); } .gate path { stroke: var(--bg); stroke-width: 4; }
.by { font-size: 0.95em; fill: var(--ink); } .by.c0, .by.c1, .by.c2, .by.c3, .by.c4, .by.c5 { fill: var(--c); font-weight: 600; }
.byplate { fill: var(--panel); }
.look line { stroke: var(--c); stroke-width: 3.4; } .look path { fill: var(--c); }
.look .plate { fill: var(--c); } .looktext { fill: var(--on); font-size: 0.95em; font-weight: 600; }
.sight { font-weight: 700; font-size: 1em; } .sight.seen { fill: var(--good); } .sight.unseen { fill: var(--soft); font-weight: 400; }
#chains .tick { font-size: 0.95rem; } #chains .tick.at { font-size: 1.05rem; } #chains .inf { font-size: 1.2rem; } #chains .bucket { font-size: 1rem; } #chains .looktext { font-size: 0.95rem; }
.bucketbox { fill: none; stroke: var(--bar-line); stroke-width: 1.4; } .bucket .head { fill: var(--shade); } .bucket.moved .head { fill: var(--moved); } .bucket.moved :is(.vname, .bucketname) { fill: var(--moved-ink); }
.bucketname { font-weight: 700; } .slot { fill: var(--bg); stroke: var(--line); } .slot.moved { fill: var(--moved); stroke: var(--moved-ink); stroke-width: 2; } .slot.moved + .vname { fill: var(--moved-ink); }
.node circle { fill: var(--c); }
.nodename { fill: var(--on); font-weight: 700; font-size: 1.2em; }
.nodenote { font-size: 1em; fill: var(--soft); } .nodenote.bad { fill: var(--bad); }
.node.dead circle { fill: var(--bg); stroke: var(--bad); stroke-width: 3; } .node.dead .nodename { fill: var(--bad); }
.crossed { fill: var(--bad) !important; stroke: var(--bg) !important; stroke-width: 1 !important; } .cross { stroke: var(--bg); stroke-width: 2.6; fill: none; }
.endword { font-family: ui-monospace, "SF Mono", Consolas, "Liberation Mono", monospace; font-size: 0.94em; fill: var(--soft); } .touched .endword { fill: var(--ink); font-weight: 700; }
.node.victim circle { stroke-width: 5; }
.edge .line { fill: none; stroke: var(--ink); stroke-width: 3.4; } .edge .tip { fill: var(--ink); }
.edge .back { fill: var(--panel); } .edge text { font-size: 0.95em; font-weight: 600; }
.edge.hot .line { stroke: var(--bad); stroke-width: 6; } .edge.hot .tip { fill: var(--bad); } .edge.hot text { fill: var(--bad); }
.edge.weak .line { stroke: var(--soft); stroke-width: 2; stroke-dasharray: 6 5; } .edge.weak .tip, .edge.weak text { fill: var(--soft); }
.edge.commits .line { stroke-dasharray: 2 5; stroke-linecap: round; }
.wordbox { margin: 0 0 0.4rem; } .wordbox:last-child { margin: 0; } figcaption { font-size: 1.02rem; line-height: 1.3; display: flex; justify-content: space-between; gap: 0.5rem; } figcaption code b { background: var(--moved); color: var(--moved-ink); }
.hex { margin: 0; font-size: 1.02rem; line-height: 1.25; color: var(--soft); } .hex .new { color: var(--ink); } .hex .new b { background: var(--moved); color: var(--moved-ink); }
.field { font-size: 0.95rem; fill: var(--soft); } .rowname { font-size: 0.95rem; fill: var(--soft); }
.bit { fill: var(--bg); stroke: var(--line); } .bit.b1 { fill: var(--ink); stroke: var(--ink); }
.bittext { font-size: 1.02rem; font-weight: 600; } .bittext.b1 { fill: var(--bg); } .bittext.b0 { fill: var(--soft); font-weight: 400; }
.bit.moved { fill: var(--moved); stroke: var(--moved-ink); stroke-width: 2; } .bittext.moved { fill: var(--moved-ink); font-weight: 700; }
.folded, .whole { fill: var(--bg); stroke: var(--line); stroke-dasharray: 4 3; } .folded.moved, .whole.moved { fill: var(--moved); stroke: var(--moved-ink); }
.foldtext, .infinity { font-size: 0.98rem; fill: var(--soft); } .folded.moved + text, .whole.moved + text { fill: var(--moved-ink); }
#path { display: flex; align-items: center; gap: 0.3rem; overflow-x: auto; white-space: nowrap; padding: 0.25rem 0; scrollbar-width: thin; }
#path button { padding: 0.05rem 0.5rem; } #path [aria-current] { background: var(--here); color: var(--here-ink); font-weight: 700; }
#path [data-do="undo"] { position: sticky; right: 0; }
#path button.ahead { border-style: dashed; opacity: 0.8; }
.moves { display: grid; gap: 0.3rem; } .whose { font-size: 1.05rem; font-weight: 700; }
.tree #say { grid-template-columns: minmax(0, 1.2fr) minmax(0, 1fr); height: 9.1rem; } .pick { display: grid; grid-template-columns: repeat(var(--n), minmax(0, 1fr)); gap: 0.5rem; } .pick[style="--n:3"] .choice { font-size: 1rem; padding-left: 0.45rem; padding-right: 0.45rem; column-gap: 0.4rem; }
.choice { display: grid; grid-template-columns: auto 1fr; gap: 0.1rem 0.6rem; align-items: center; text-align: left; border-width: 2px; font-size: 1.12rem; padding: 0.25rem 0.6rem 0.35rem; }
.choice.taken { border-style: dashed; }
.joined { font-size: 1rem; line-height: 1.2; } #said[data-fit] .joined { font-size: 0.94rem; line-height: 1.1; } #said[data-fit="2"] .joined { font-size: 0.88rem; white-space: nowrap; overflow: hidden; text-overflow: ellipsis; } .columns .joined { margin: 0 0 0.3rem; color: var(--soft); }
.pick.merged .count { white-space: nowrap; overflow: hidden; text-overflow: ellipsis; } .pick.merged .choice { line-height: 1.15; padding: 0.1rem 0.5rem 0.15rem; gap: 0.05rem 0.5rem; } .pick.merged .share { height: 0.45rem; } .pick.crowd { gap: 0.3rem; } .pick.crowd .choice { font-size: 1rem; line-height: 1.15; padding: 0.05rem 0.4rem 0.1rem; gap: 0.05rem 0.4rem; } .pick.crowd .choice > span:not(.share) { white-space: nowrap; overflow: hidden; text-overflow: ellipsis; } .pick.crowd .share { height: 0.4rem; }
.choice .share, .choice .count { grid-column: 1 / -1; } .choice .count { color: var(--soft); font-size: 0.95rem; }
.share { display: flex; height: 0.6rem; background: var(--bg);  } .share i { display: block; border-right: 1px solid var(--bg); }
.o0 { background: var(--o0); } .o1 { background: repeating-linear-gradient(45deg, var(--o1) 0 5px, var(--bg) 5px 7px); } .o2 { background: radial-gradient(var(--bg) 1.2px, var(--o2) 1.6px) 0 0 / 6px 6px; }
.o3 { background: repeating-linear-gradient(90deg, var(--o3) 0 4px, var(--bg) 4px 6px); } .o4 { background: repeating-linear-gradient(0deg, var(--o4) 0 3px, var(--bg) 3px 5px); } .o5 { background: var(--o5); }
.outcomes { list-style: none; margin: 0.2rem 0 0; padding: 0; display: grid; gap: 0.55rem; }
.outcomes li { display: grid; grid-template-columns: 2.6rem 1rem 1rem 1fr auto; gap: 0.1rem 0.5rem; align-items: center; }
.outcomes .n { font-size: 1.5rem; font-weight: 700; text-align: right; font-variant-numeric: tabular-nums; } .swatch { width: 1rem; height: 1rem; }
.outcomes .what { font-size: 1.05rem; line-height: 1.2; } .outcomes .rail { grid-column: 4 / -1; height: 0.5rem; background: var(--bg); } .rail i { display: block; height: 100%; }
.outcomes .out { color: var(--soft); } .outcomes .out .swatch { visibility: hidden; }
.outcomes[style] li { grid-template-columns: calc(var(--digits) * 0.7rem) 1rem 1rem 1fr auto; } .outcomes[style] .n { font-size: 1.1rem; } @media (max-width: 62rem) { .outcomes[style] li { grid-template-columns: calc(var(--digits) * 0.58rem) 1rem 1rem 1fr auto; } .outcomes[style] .n { font-size: 0.9rem; } }
.outcomes.many { gap: 0.2rem; margin-top: 0; } .many .rail { display: none; } .many .what { white-space: nowrap; overflow: hidden; text-overflow: ellipsis; } .many .n { font-size: 1.2rem; line-height: 1.2; } .many button { padding-top: 0.1rem; padding-bottom: 0.1rem; }
.many .rest { display: block; padding-left: 3.1rem; } @media (max-width: 40rem) { .many .what { white-space: normal; } }
.tree main { grid-template-rows: auto minmax(7.4rem, 0.7fr) minmax(0, 1.3fr); }
.final { font-size: 1.25rem; }
.events { display: flex; flex-wrap: wrap; gap: 0.2rem; margin-top: 0.25rem !important; } .events button { font-size: 0.95rem; padding: 0 0.4rem; border-color: var(--line); } .events .waits { background: var(--warn-bg); border-color: var(--warn); } .events .aborts { border-color: var(--bad); color: var(--bad); font-weight: 700; } .events .commits { border-color: var(--com); color: var(--good); font-weight: 700; } .events [aria-current] { outline: 2px solid var(--ink); outline-offset: -2px; } .events .ahead { border-style: dashed; }
.tree .plain { font-size: 1.3rem; }
#levels { display: none; } body.levels main > :not(#levels) { display: none; } body.levels main { display: block; overflow: auto; } body.levels #levels { display: block; } body.levels #bar nav { visibility: hidden; }
#levels table { border-collapse: collapse; width: 100%; margin: 0.6rem 0 1rem; } #levels caption { text-align: left; color: var(--soft); padding-bottom: 0.3rem; } #levels :is(td, th) { text-align: left; padding: 0.2rem 0.7rem; border-bottom: 1px solid var(--line); } #levels thead th { font-weight: 600; }
#levels .n { width: 8rem; } #levels .n button { min-width: 5rem; font-size: 1.2rem; font-weight: 700; } #levels .none { color: var(--soft); padding-left: 1.4rem; font-size: 1.2rem; } #levels h2 { font-size: 1.1rem; margin: 0 0 0.4rem; } .good { color: var(--good); }
.columns { display: grid; grid-template-columns: repeat(3, minmax(0, 1fr)); gap: 0.8rem; } .columns section { background: var(--panel); border-radius: 0.5rem; padding: 0.4rem 0.7rem; } .columns h3 { margin: 0 0 0.3rem; font-size: 1.05rem; } .columns ol { list-style: none; margin: 0; padding: 0; } .columns li { padding: 0 0.3rem; border-left: 0.3rem solid var(--line); } .columns .waits { border-color: var(--warn); } .columns .aborts { border-color: var(--bad); color: var(--bad); } .columns .commits { border-color: var(--com); } .columns .ends { margin: 0.4rem 0 0; }
@media (max-width: 40rem) { .columns { grid-template-columns: 1fr; } #levels .n { width: auto; } #levels .n button { min-width: 3rem; } }
dialog { border: 1px solid var(--bar-line); border-radius: 0.6rem; background: var(--bg); color: var(--ink); max-width: 46rem; font-size: 1.1rem; padding: 1rem 1.4rem; }
dialog h2 { margin: 0 0 0.5rem; font-size: 1.3rem; } dialog td, dialog th { text-align: left; padding: 0.12rem 1rem 0.12rem 0; font-weight: 400; } dialog th { color: var(--soft); }
dialog::backdrop { background: #0009; }
#blank { position: fixed; inset: 0; background: #000; z-index: 9; }
#print { display: none; }
@media (prefers-reduced-motion: no-preference) {
  .touched .bar, .bit.moved, .folded.moved, .whole.moved { animation: lit 0.5s ease-out; }
  @keyframes lit { from { opacity: 0.15; } }
}
@media (max-width: 62rem) { #about, .way span:not(.hidden) { display: none; } }
@media (max-width: 40rem) {
  html { font-size: 16px; } html.present { font-size: 19px; }
  body { display: block; height: auto; overflow: auto; }
  #bar { flex-wrap: wrap; padding: 0.3rem 0.5rem; gap: 0.3rem; } #bar > :is(h1, .way) { order: -1; } #about { display: none; } #bar h1 { font-size: 1.05rem; flex: 1 1 40%; } #bar .space { display: none; } .modes { flex: 1 1 14rem !important; min-width: 0; overflow-x: auto; } .modes button { min-height: 2.4rem; white-space: nowrap; } #bar nav { flex: none; gap: 0.15rem; } #bar nav button { min-width: 2.3rem; min-height: 2.4rem; padding: 0; } #position { min-width: 3.7rem; font-size: 1rem; }
  [data-do="present"] { display: none; } [data-do="legend"] { display: inline-block; }
  .modes { padding-right: 2.2rem; -webkit-mask-image: linear-gradient(90deg, #000 calc(100% - 2.4rem), transparent); mask-image: linear-gradient(90deg, #000 calc(100% - 2.4rem), transparent); }
  main { display: block; padding: 0.2rem 0.5rem; }
  #top { position: sticky; top: 0; background: var(--bg); z-index: 2; padding-bottom: 0.3rem; }
  #say, .tree #say { display: block; height: auto; } .plain { font-size: 1.2rem; } .event { font-size: 1.05rem; }
  .choices button { font-size: 0.95rem; padding: 0.4rem 0.35rem; } .pick { grid-template-columns: 1fr; gap: 0.3rem; }
  .panel { margin-top: 0.5rem; } .legend { display: block; margin-left: 0; } .legend svg:first-child { margin-left: 0; } #waits .fill { height: 8rem; flex: none; } .fill { overflow: visible; contain: none; }
}
@media print {
  body { display: block; height: auto; overflow: visible; background: #fff; color: #000; }
  body > :not(#print) { display: none !important; }
  #print { display: block; } #print .picture { display: block; width: 100%; height: auto; max-height: 17cm; break-inside: avoid; margin-bottom: 8pt; border: 0.5pt solid #888; }
  #print table { border-collapse: collapse; font-size: 8.5pt; width: 100%; } #print caption { text-align: left; font-size: 12pt; font-weight: 700; margin-bottom: 4pt; }
  #print td, #print th { border: 0.5pt solid #888; padding: 1.5pt 4pt; vertical-align: top; text-align: left; } #print tr { break-inside: avoid; } #print thead { display: table-header-group; }
  .chip { display: inline; border: 0; padding: 0; } .chip + .chip::before { content: "; "; }
}
.icon { height: 0.95em; width: auto; display: inline-block; vertical-align: -0.1em; fill: currentColor; }
.legend { margin-left: 1rem; white-space: nowrap; } .legend svg { height: 1em; width: 1em; display: inline-block; vertical-align: -0.15em; margin: 0 0.25em 0 0.7em; fill: none; stroke: var(--ink); stroke-width: 2.5; } .legend rect { fill: var(--ink); } .legend .g { fill: var(--bad); stroke: none; } .legend .g path { stroke: var(--bg); stroke-width: 4; }
html:not(.told) #story { display: none; }
html.told body > :is(#bar, main, .skip) { display: none; }
html.told { font-size: clamp(14px, min(1.2vw + 1px, 2.1vh), 40px); }
#story { flex: 1; min-height: 0; display: flex; flex-direction: column; }
@media screen and (max-width: 50rem) { html.told { font-size: 15px; } html.told, html.told body { height: auto; overflow: visible; } html.told body { display: block; } #story { display: block; } }
@media print { html.told body > #story { display: block; } html.told .st-bar { display: none; } html.told .st-body { display: block; } html.told :is(#st-main, #st-beside, #st-stage, #st-prose, #st-text) { display: block; overflow: visible; max-height: none; height: auto; border: 0; } html.told #st-prose { columns: 2; padding: 1rem 0; } }
"#;
