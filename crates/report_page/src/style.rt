// How the page looks.
ghost use Rattle.std.specs.Prelude.{◌≡◌};
ghost use Rattle.report_page.specs.Texts as texts;

/// The page's style sheet: system fonts, colours that colour-blind readers tell apart, and dashes where they are
/// printed. No byte of it begins or ends a mark, so it stands in the page as it is.
const STYLE: &[u8] = b"
body { margin: 1.5rem auto; padding: 0 1rem; max-width: 80rem; font: 1rem/1.45 system-ui, sans-serif; color: #1a1a1a;
  background: #fff }
h1 { margin: 0 0 .3rem; font-size: 1.6rem }
h2 { margin: 2.2rem 0 .6rem; padding-bottom: .2rem; font-size: 1.2rem; border-bottom: 1px solid #999 }
table { border-collapse: collapse; font-variant-numeric: tabular-nums }
th, td { padding: .15rem .8rem .15rem 0; text-align: left; border-bottom: 1px solid #ddd }
th { font-weight: 600 }
.numbers th { font-weight: normal }
.dwells .number, .walk .number { text-align: right }
.least td:nth-child(4) { font-weight: 600 }
.greatest td:nth-child(4) { font-weight: 600; color: #a33c00 }
.walk tr:last-child td { font-weight: 600 }
.wide { overflow-x: auto; padding: 8px 0 }
.diagram { overflow: visible }
.key { margin-right: 1.5rem; white-space: nowrap }
svg { vertical-align: middle }
line, polyline { fill: none; stroke-width: 1; vector-effect: non-scaling-stroke }
.name, .tick { font-size: 12px; fill: #333 }
.name { text-anchor: end }
.tick { text-anchor: middle }
.grid { stroke: #e8e8e8 }
.tank { stroke: #ccc }
.end { stroke: #444; stroke-dasharray: 5 4 }
.window .end { stroke-dasharray: none }
.way line, .way polyline { stroke: #333 }
.bar { opacity: .5 }
.bar line { stroke-width: 9 }
.window .bar { stroke-width: 6; stroke-linecap: square }
.ride polyline { stroke-width: 4 }
.c0 { stroke: #0072b2 }
.c1 { stroke: #d55e00; stroke-dasharray: 14 2 }
.c2 { stroke: #009e73; stroke-dasharray: 6 2 }
.c3 { stroke: #cc79a7; stroke-dasharray: 14 2 4 2 }
td.c0, td.c1, td.c2, td.c3 { stroke: none; font-weight: 600 }
td.c0 { color: #0072b2 }
td.c1 { color: #a84a00 }
td.c2 { color: #00795a }
td.c3 { color: #a54f80 }
.share line { stroke-width: 10 }
.carrying { stroke: #0072b2 }
.driving { stroke: #e69f00 }
.standing { stroke: #bbb }
.shares th:nth-child(2) { border-bottom: 3px solid #0072b2 }
.shares th:nth-child(3) { border-bottom: 3px solid #e69f00 }
.shares th:nth-child(4) { border-bottom: 3px solid #bbb }
@media print { body { max-width: none } .wide { overflow: visible } tr, svg { break-inside: avoid } }
";

#[tactic(auto, unfolding(crate::specs::Texts::style_sheet))]
/// The page's style sheet.
pub(crate) fn style_sheet() -> &'static [u8]
    ensures { result.now ≡ texts.style_sheet }
{
    STYLE
}
