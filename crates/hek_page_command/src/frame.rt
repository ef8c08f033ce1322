//! The page around its title, style, data and script. Written by tools/assets.

pub(crate) const FRONT: &str = r#"<!DOCTYPE html>
<html lang="en">
<head>
<meta charset="utf-8">
<meta name="viewport" content="width=device-width, initial-scale=1">
<meta http-equiv="Content-Security-Policy" content="default-src 'none'; script-src 'sha256-yBB6FwGNAGEXnKQ+zFeU6fV4nVePFCaqAkmnJl99B9c='; style-src 'sha256-o2J2S7XvsGtXwHqjjZtoZSxgQURfn1a8txMgK3Cb1Cc='; style-src-attr 'unsafe-inline'; img-src data:; base-uri 'none'; form-action 'none'">
<title>"#;

pub(crate) const HEAD: &str = r#"</title>
<style>
"#;

pub(crate) const MIDDLE: &str = r##"</style>
</head>
<body>
<a id="skip" class="skip" href="#said">To the step</a>
<svg width="0" height="0" aria-hidden="true" class="defs"><defs>
<pattern id="p-finished" width="10" height="10" patternUnits="userSpaceOnUse" patternTransform="rotate(45)"><rect width="10" height="10" class="pf1"/><rect width="1.6" height="10" class="pf2"/></pattern>
<pattern id="p-preparing" width="9" height="9" patternUnits="userSpaceOnUse"><rect width="9" height="9" class="pp1"/><circle cx="2.6" cy="2.6" r="1.7" class="pp2"/><circle cx="7.1" cy="7.1" r="1.7" class="pp2"/></pattern>
<pattern id="p-aborted" width="9" height="9" patternUnits="userSpaceOnUse"><rect width="9" height="9" class="pa1"/><path d="M0 0L9 9M9 0L0 9" class="pa2"/></pattern>
<pattern id="p-wait" width="12" height="12" patternUnits="userSpaceOnUse" patternTransform="rotate(45)"><rect width="12" height="12" class="pw1"/><rect width="5" height="12" class="pw2"/></pattern>
<pattern id="p-never" width="8" height="8" patternUnits="userSpaceOnUse"><rect width="8" height="8" class="pn1"/><path d="M0 0L8 8M8 0L0 8" class="pn2"/></pattern>
</defs></svg>
<div class="story" id="story">
<header class="st-bar">
<a id="st-previous" class="way" hidden></a>
<h1 id="st-title"></h1>
<a id="st-after" class="way" hidden></a>
<nav aria-label="Moves">
<button type="button" id="st-prev" aria-label="One move back" title="← one move back; Home: to the start">‹</button>
<output id="st-position"></output>
<button type="button" id="st-next" aria-label="One move on" title="→ or space: one move on">›</button>
<button type="button" id="st-end" title="End: what it all comes to">Verdict</button>
</nav>
<button type="button" id="st-back" hidden title="Back to where you were">‹ Back</button>
<span id="st-which"></span>
<button type="button" id="st-compare" aria-pressed="false" title="c: the levels under one another">Compare</button>
<button type="button" id="st-machine" aria-pressed="false" title="m: versions, words and waits in this move">Machine</button>
</header>
<div class="st-body">
<section id="st-main" aria-label="The story">
<div id="st-say" aria-live="polite"></div>
<div id="st-stage" tabindex="-1"><div id="st-grid"></div></div>
<div id="st-cards" role="group" aria-label="This order at each level, and the outcomes of all orders"></div>
</section>
<aside id="st-beside"><pre id="st-text" aria-label="The text" tabindex="0"></pre><article id="st-prose" aria-label="The run in words" tabindex="0"></article></aside>
</div>
</div>
<header id="bar">
<a id="previous" class="way" hidden></a>
<h1><span id="title"></span> <span id="about"></span></h1>
<a id="next" class="way" hidden></a>
<span class="space"></span>
<span id="score" role="status" hidden></span>
<nav aria-label="Steps">
<button type="button" data-do="first" aria-label="To the start" title="Home"><svg viewBox="0 0 20 16" class="icon" aria-hidden="true"><path d="M3 2h2.4v12H3zM17 2v12L7 8z"/></svg></button>
<button type="button" data-do="back" aria-label="One step back" title="left arrow, Page Up"><svg viewBox="0 0 20 16" class="icon" aria-hidden="true"><path d="M14.5 1.5v13L4 8z"/></svg></button>
<output id="position"></output>
<button type="button" data-do="on" aria-label="One step on" title="right arrow, Page Down, Space"><svg viewBox="0 0 20 16" class="icon" aria-hidden="true"><path d="M5.500 1.5v13L16 8z"/></svg></button>
<button type="button" data-do="last" aria-label="To the end" title="End"><svg viewBox="0 0 20 16" class="icon" aria-hidden="true"><path d="M14.600 2h2.4v12h-2.4zM3 2v12L13 8z"/></svg></button>
</nav>
<span class="modes">
<button type="button" data-do="story" title="m : the story of this step" hidden>Story</button>
<button type="button" data-do="levels" title="the outcomes at all levels" hidden>Levels</button>
<button type="button" data-do="predict" aria-pressed="false" title="? : guess each reply before it is shown">Predict</button>
<button type="button" data-do="secret" aria-pressed="false" title="? : hide the outcomes, to guess" hidden>Hide outcomes</button>
<button type="button" data-do="future" aria-pressed="false" title="f : show the steps to come">Future</button>
<button type="button" data-do="present" aria-pressed="false" title="p : larger type">Larger</button>
<button type="button" data-do="theme" aria-label="Light or dark" title="d : light or dark"><svg viewBox="0 0 20 16" class="icon" aria-hidden="true"><path d="M10 1.500a6.500 6.500 0 0 0 0 13z"/><circle cx="10" cy="8" r="6.500" fill="none" stroke="currentColor" stroke-width="1.600"/></svg></button>
<button type="button" data-do="legend" title="g : what bars and arrows mean">Legend</button>
<button type="button" data-do="picture" title="i : saves this step as one picture, SVG">Save picture</button>
<button type="button" data-do="help" aria-label="Keys" title="h : keys">Keys</button>
</span>
</header>
<main>
<section id="levels" aria-label="All levels"></section>
<section id="top">
<div id="lanes" aria-label="Timeline: a lane for each transaction"></div>
<input type="range" id="slider" min="0" aria-label="Position, in steps done" hidden>
<div id="path" hidden></div>
<section id="say" aria-label="This step">
<div id="said" aria-live="polite" tabindex="-1"></div>
<div id="because"></div>
</section>
</section>
<section id="versions" class="panel" aria-labelledby="versions-title">
<h2 id="versions-title">Versions <small><span class="sub">from Begin to End, by the clock</span> <span class="legend"><svg viewBox="0 0 20 20"><circle cx="10" cy="10" r="8"/></svg>reads <svg viewBox="0 0 20 20"><rect x="1" y="3" width="18" height="14"/></svg>writes <svg viewBox="0 0 20 20" class="g"><circle cx="10" cy="10" r="8.500"/><path d="M4.500 10h11"/></svg>no more reads</span></small></h2>
<div id="chains" class="fill"></div>
</section>
<section id="waits" class="panel" aria-labelledby="waits-title">
<h2 id="waits-title">Who waits for whom</h2>
<div id="graph" class="fill"></div>
<p id="graph-said" class="hidden"></p>
</section>
<section id="words" class="panel" aria-labelledby="words-title">
<h2 id="words-title">Lock word</h2>
<div id="word" class="fill"></div>
</section>
</main>
<dialog id="dialog"><div id="dialog-body"></div><form method="dialog"><button>Close</button></form></dialog>
<div id="blank" hidden></div>
<div id="print"></div>
<noscript><p>This page needs its script: the states are data in it.</p></noscript>
<script type="application/json" id="data">
"##;

pub(crate) const BETWEEN: &str = r#"
</script>
<script type="application/json" id="plays">
"#;

pub(crate) const BACK: &str = r#"
</script>
<script>
"#;

pub(crate) const END: &str = r#"
</script>
</body>
</html>
"#;
