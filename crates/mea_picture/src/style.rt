/// The end of the head: how the shapes of a picture look on a light and on a dark ground, the signs, and the legend.
pub const STYLE: &[u8] = b"\">\n\
    <style>\n\
    svg{font:11px ui-monospace,Menlo,Consolas,'DejaVu Sans Mono','Liberation Mono',monospace;--paper:#ffffff;--words:#1b1f24;--faint:#e3e7eb;--span:#9aa4ae;--waits:#e69f00;--woken:#56b4e9;--ready:#009e73;--refused:#d55e00;--ended:#57606a;--arrow:#0072b2;--free:#cc79a7}\n\
    @media(prefers-color-scheme:dark){svg{--paper:#0d1117;--words:#e6edf3;--faint:#262c34;--span:#5d6772;--waits:#f0b429;--woken:#79c7f5;--ready:#2fc79a;--refused:#ff7a3d;--ended:#a9b1bb;--arrow:#6cb6ff;--free:#e59ac6}}\n\
    path{fill:none}text{fill:var(--words)}marker{overflow:visible}.paper{fill:var(--paper)}\n\
    .column{stroke:transparent;stroke-width:26;pointer-events:stroke}.guide{stroke:var(--faint);stroke-dasharray:12 10}\n\
    .object{font-weight:bold}.count{font-size:9px;stroke:var(--paper);stroke-width:2.5px;paint-order:stroke}.near{text-anchor:end;font-size:10px;stroke:var(--paper);stroke-width:3px;paint-order:stroke}.why{fill:var(--refused);font-weight:bold}\n\
    .span{stroke:var(--span);stroke-width:1.5}.waiting{stroke:var(--waits);stroke-width:8}.woken{stroke:var(--woken);stroke-width:8;stroke-dasharray:3 1.5}.free{stroke:var(--free);stroke-width:2}\n\
    .arrow{stroke:var(--arrow);stroke-width:1.5;marker-end:url(#arrow)}.cause{stroke:var(--refused);stroke-width:1.5;stroke-dasharray:4 3;marker-end:url(#cause)}\n\
    .pending{marker-end:url(#pending)}.ready{marker-end:url(#ready)}.refused{marker-end:url(#refused)}.ended{marker-end:url(#ended)}.stray{marker-end:url(#stray)}\n\
    </style>\n\
    <defs>\n\
    <marker id='arrow' markerUnits='userSpaceOnUse' orient='auto'><path d='M1 0L-7 -5V5Z' style='fill:var(--arrow)'/></marker>\n\
    <marker id='pending' markerUnits='userSpaceOnUse'><circle r='4.5' style='fill:var(--paper);stroke:var(--waits);stroke-width:2.5'/></marker>\n\
    <marker id='ready' markerUnits='userSpaceOnUse'><circle r='6' style='fill:var(--ready)'/><path d='M-3 0L-0.8 2.6L3.2 -2.4' style='stroke:var(--paper);stroke-width:1.8'/></marker>\n\
    <marker id='refused' markerUnits='userSpaceOnUse'><path d='M-5 -5L5 5M-5 5L5 -5' style='stroke:var(--refused);stroke-width:3'/></marker>\n\
    <marker id='ended' markerUnits='userSpaceOnUse'><rect x='-4.5' y='-4.5' width='9' height='9' style='fill:var(--ended)'/></marker>\n\
    <marker id='stray' markerUnits='userSpaceOnUse'><path d='M0 -6L6 0L0 6L-6 0Z' style='fill:var(--paper);stroke:var(--arrow);stroke-width:1.8'/></marker>\n\
    <marker id='cause' markerUnits='userSpaceOnUse'><path d='M0 -8L8 6H-8Z' style='fill:var(--refused)'/><path d='M0 -3.5V1.5M0 3V4.8' style='stroke:var(--paper);stroke-width:1.8'/></marker>\n\
    </defs>\n\
    <rect class='paper' width='100%' height='100%'/>\n\
    <g>\n\
    <path class='waiting' d='M12 20H34'/><text x='40' y='24'>waits</text>\n\
    <path class='woken' d='M90 20H112'/><text x='118' y='24'>woken</text>\n\
    <path class='pending' d='M178 20H178'/><text x='190' y='24'>pending</text>\n\
    <path class='ready' d='M262 20H262'/><text x='274' y='24'>ready</text>\n\
    <path class='refused' d='M332 20H332'/><text x='344' y='24'>refused</text>\n\
    <path class='ended' d='M416 20H416'/><text x='428' y='24'>ended</text>\n\
    <path class='arrow' d='M486 10V26'/><text x='498' y='24'>wakes</text>\n\
    <path class='stray' d='M558 20H558'/><text x='570' y='24'>wakes nobody</text>\n\
    <path class='free' d='M670 24H681V16H692'/><text x='698' y='24'>free permits</text>\n\
    <path class='cause' d='M802 21H802'/><text x='816' y='24'>not played</text>\n\
    </g>\n";
