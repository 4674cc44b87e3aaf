//! How a page looks: on a wide screen and on a narrow one, in light and in dark, and on paper.

/// The style sheet. It has no character that is escaped, so that it stands in a page as it stands here.
pub const STYLE_SHEET: &str = "
:root{color-scheme:light dark;--back:#ffffff;--ink:#1b2733;--soft:#5b6773;--rule:#e6eaee;--lane:#9aa6b2;--good:#0b7a3b;--bad:#b3261e;
--offered:#f4c95d;--connected:#5aa469;--away:#bfe3c8;--letting:#a9c7e8;--reset:#e07a5f;--function:#9db4c0;--activity:#5aa469;
--status:#c0504d;--request:#8e44ad;--gone:#6b7280;--wire:#7f93a8;
--p0:#1f5fa8;--p1:#8a5a00;--p2:#1b7f3b;--p3:#7b3fb0;--p4:#b0246e;--p5:#007c8a;--p6:#5d6d00;--p7:#455a64}
@media screen and (prefers-color-scheme:dark){:root{--back:#12181f;--ink:#e4e9ee;--soft:#9fabb7;--rule:#26303a;--lane:#5b6773;--good:#5fd38a;
--bad:#ff8a80;--offered:#d9a92f;--connected:#3f8a50;--away:#2c5c3a;--letting:#4a78ad;--reset:#c2593d;--function:#5f7886;--activity:#3f8a50;
--status:#d0605c;--request:#a96bc9;--gone:#8b95a1;--wire:#5e748a;
--p0:#6cb2ff;--p1:#e0a84a;--p2:#5fd38a;--p3:#c79bf2;--p4:#ff8fbf;--p5:#4dd0e1;--p6:#c6cf4f;--p7:#a9bcc6}}
*{box-sizing:border-box}
body{margin:0;padding:1rem;background:var(--back);color:var(--ink);font:16px/1.5 system-ui,'Segoe UI',Roboto,'DejaVu Sans',sans-serif}
h1{font-size:1.35rem;line-height:1.3;margin:0 0 .5rem}h2{font-size:1.15rem;margin:1.75rem 0 .5rem}
p{max-width:75ch;margin:.25rem 0}
.box{overflow-x:auto;border:1px solid var(--rule);border-radius:6px}
.box:focus-visible,summary:focus-visible{outline:3px solid var(--p0);outline-offset:1px}
svg{display:block;max-width:none}
svg text{font:13px system-ui,'Segoe UI',Roboto,'DejaVu Sans',sans-serif;fill:var(--ink);paint-order:stroke;stroke:var(--back);stroke-width:4px;stroke-linejoin:round}
svg .head{font-weight:600;font-size:15px}svg .soft{fill:var(--soft)}svg .number{fill:var(--soft);text-anchor:end}svg a:hover .number{fill:var(--p0)}
svg .words,svg .code,svg .bad{font:14px ui-monospace,'Cascadia Mono',Menlo,'DejaVu Sans Mono',monospace}
svg .code{fill:var(--good);font-weight:600}svg .bad{fill:var(--bad);font-weight:600}
svg .label{text-anchor:middle}svg .label.bad{font:13px system-ui,'Segoe UI',Roboto,'DejaVu Sans',sans-serif}
svg .strong{font-weight:600}svg .cross{fill:var(--bad);font-size:18px;font-weight:600;text-anchor:middle}
svg .track{text-anchor:end}svg .column{text-anchor:middle;fill:var(--soft);font-size:12px}svg .level{text-anchor:middle;font-size:12px;stroke:none}
.rule{stroke:var(--rule)}.lane{stroke:var(--lane);stroke-dasharray:3 3}.path-down{stroke:var(--bad);stroke-dasharray:2 4;stroke-width:2}
.path-up{stroke:var(--good);stroke-dasharray:2 4;stroke-width:2}
.signal{stroke-width:1.8;fill:none}
.p0{stroke:var(--p0);marker-end:url(#h0)}.p1{stroke:var(--p1);marker-end:url(#h1)}.p2{stroke:var(--p2);marker-end:url(#h2)}
.p3{stroke:var(--p3);marker-end:url(#h3)}.p4{stroke:var(--p4);marker-end:url(#h4)}.p5{stroke:var(--p5);marker-end:url(#h5)}
.p6{stroke:var(--p6);marker-end:url(#h6)}.p7{stroke:var(--p7);marker-end:url(#h7)}
.signal.ignored{stroke:var(--bad);stroke-dasharray:6 4;marker-end:url(#hx)}.signal.lost{stroke:var(--bad);stroke-dasharray:6 4;marker-end:none}
.signal.waits{marker-end:none}
.h0{fill:var(--p0)}.h1{fill:var(--p1)}.h2{fill:var(--p2)}.h3{fill:var(--p3)}.h4{fill:var(--p4)}.h5{fill:var(--p5)}.h6{fill:var(--p6)}
.h7{fill:var(--p7)}.hx{fill:var(--bad)}
.offered{fill:var(--offered);background:var(--offered)}.connected{fill:var(--connected);background:var(--connected)}
.away{fill:var(--away);background:var(--away)}.letting{fill:var(--letting);background:var(--letting)}
.reset{fill:var(--reset);background:var(--reset)}.function{fill:var(--function)}.activity{fill:var(--activity)}.status{fill:var(--status)}
.request{fill:var(--request)}.gone{fill:var(--gone)}.wire{fill:var(--wire)}
.legend{max-width:none;margin:.25rem 0 .75rem}.entry{white-space:nowrap;margin-right:.6rem}.key{display:inline-block;margin-right:.35rem;width:.8rem;height:.8rem;border-radius:2px}
.key.lost{height:0;width:1.4rem;border-top:2px dashed var(--bad);vertical-align:.25rem}
table{border-collapse:collapse;width:100%}th,td{text-align:left;padding:.3rem .7rem;border-top:1px solid var(--rule);white-space:nowrap}th{border-top:0}
details{border-top:1px solid var(--rule);padding:.25rem 0}details:target{background:var(--rule)}
summary{cursor:pointer;overflow-wrap:anywhere}details[id] summary,pre{font-family:ui-monospace,'Cascadia Mono',Menlo,'DejaVu Sans Mono',monospace;font-size:15px}
pre{margin:.25rem 0 .5rem 1.25rem;white-space:pre-wrap;overflow-wrap:anywhere}
@media (max-width:600px){body{padding:.75rem}h1{font-size:1.2rem}pre{margin-left:.25rem}}
@media print{body{padding:0}.box{overflow:visible;border:0}svg{width:100%;height:auto}details::details-content{content-visibility:visible;display:block;height:auto}}
";
