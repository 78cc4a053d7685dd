//! The parts of the page that are always the same.
ghost use Rattle.std.specs.Prelude.{◌≡◌};
ghost use Rattle.wy_report.specs.Template.{between as the_between, closing as the_closing, middle as the_middle, opening as the_opening, styles as the_styles};

/// Up to the title. Nothing is loaded and no script runs, which a browser is asked to see to as well.
#[tactic(auto, unfolding(crate::specs::Template::opening))]
pub(crate) fn opening() -> &'static str
    ensures { result.now ≡ the_opening }
{
    "<!DOCTYPE html>
<html lang='en'>
<head>
<meta charset='utf-8'>
<meta http-equiv='Content-Security-Policy' content='default-src &#39;none&#39;; style-src &#39;unsafe-inline&#39;'>
<meta name='viewport' content='width=device-width, initial-scale=1'>
<title>"
}

/// Between the title and the heading. The colours follow what the reader prefers, light or dark, and paper is light.
#[tactic(auto, unfolding(crate::specs::Template::styles))]
pub(crate) fn styles() -> &'static str
    ensures { result.now ≡ the_styles }
{
    "</title>
<style>
:root { color-scheme: light dark; --ink: #1c1c1c; --paper: #ffffff; --dim: #5c5c5c; --rule: #d8d8d8; --data: #ffefb0; --other: #e4ecfb; }
@media screen and (prefers-color-scheme: dark) { :root { --ink: #e4e4e4; --paper: #15171a; --dim: #b0b0b0; --rule: #34373b; --data: #463d10; --other: #243350; } }
body { margin: 2rem auto; max-width: 76rem; padding: 0 1rem; background: var(--paper); color: var(--ink); font: 15px/1.5 system-ui, sans-serif; }
h1, table, .key { font-family: ui-monospace, 'DejaVu Sans Mono', monospace; font-size: 14px; }
h1 { font-size: 17px; overflow-wrap: anywhere; white-space: pre-wrap; }
h2 { font-size: 15px; margin: 1.5rem 0 .5rem; }
table { border-collapse: collapse; width: 100%; }
td { padding: .05rem .6rem; vertical-align: top; white-space: pre-wrap; tab-size: 4; overflow-wrap: anywhere; }
.source td:nth-child(1), .source td:nth-child(2) { width: 1%; color: var(--dim); text-align: right; overflow-wrap: normal; }
.events td { border-top: 1px solid var(--rule); }
.events td:nth-child(2) { width: 35%; }
.events td:nth-child(2) a { white-space: nowrap; }
.key { padding: 0 .4rem; white-space: nowrap; }
.data { background: var(--data); }
.other { background: var(--other); }
a { color: inherit; text-decoration-color: var(--dim); }
:target { outline: 2px solid var(--ink); outline-offset: -2px; }
@media print { :root { color-scheme: light; } body { margin: 0; max-width: none; padding: 0; } .data, .other { -webkit-print-color-adjust: exact; print-color-adjust: exact; } h2 { break-after: avoid; } tr { break-inside: avoid; } }
</style>
</head>
<body>
<h1>"
}

/// Between the heading and the source.
#[tactic(auto, unfolding(crate::specs::Template::middle))]
pub(crate) fn middle() -> &'static str
    ensures { result.now ≡ the_middle }
{
    "</h1>
<p>All that this event comes from: <span class='key data'>* by data</span> <span class='key other'>- in another way</span></p>
<h2>Source</h2>
<table class='source'>
"
}

/// Between the source and the events.
#[tactic(auto, unfolding(crate::specs::Template::between))]
pub(crate) fn between() -> &'static str
    ensures { result.now ≡ the_between }
{
    "</table>
<h2>Events, each with those that it comes from directly</h2>
<table class='events'>
"
}

/// Behind the events.
#[tactic(auto, unfolding(crate::specs::Template::closing))]
pub(crate) fn closing() -> &'static str
    ensures { result.now ≡ the_closing }
{
    "</table>
</body>
</html>
"
}
