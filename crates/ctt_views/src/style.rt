//! The style sheet of the page.

/// The style sheet of the page. It uses the system's colours, light or dark. Each course has a soft
/// colour by its number, the same in both. A wide window has two columns of grids. The columns of a
/// grid are of one width; a grid wider than its place scrolls sideways in its own box, whose sides
/// are shaded where there is more, with the column of its periods fixed. The entry and the links to
/// the parts stay visible, and a link to a cell shows the grid around it. In print each grid has a
/// sheet of its own, and what is closed is left out.
pub(crate) const STYLE: &str = "
:root { color-scheme: light dark; --broken: #9c001c; --costs: #5f3c00; --line: #767676;
  --quiet: color-mix(in srgb, CanvasText 75%, Canvas); --shade: rgb(128 128 128 / 0.25); }
@media (prefers-color-scheme: dark) { :root { --broken: #ffb4b4; --costs: #f4cc7a; --line: #8c8c8c; } }
body { background: Canvas; color: CanvasText; font: 100%/1.4 system-ui, sans-serif;
  margin: 0 auto; max-width: 88rem; padding: 1rem; overflow-wrap: anywhere; }
#skip { left: 1rem; position: absolute; top: -4rem; }
#skip:focus { background: Canvas; padding: 0.5rem; top: 0.2rem; z-index: 2; }
h1 { font-size: 1.5rem; margin: 0 0 0.2rem; }
#verdict { font-size: 1.1rem; margin: 0 0 0.6rem; }
nav { background: Canvas; border-bottom: 1px solid var(--line); padding: 0.3rem 0 0.5rem; position: sticky; top: 0; z-index: 1; }
nav a { margin-right: 0.6rem; }
#entry { margin-bottom: 0.3rem; }
input { background: Canvas; border: 1px solid var(--line); color: CanvasText; font: inherit; max-width: 100%; padding: 0.2rem 0.4rem; width: 16rem; }
input::placeholder { color: var(--quiet); opacity: 1; }
h2, h3, h4 { scroll-margin-top: 6.5rem; }
summary { margin: 0.8rem 0 0.4rem; }
summary h2, summary h3, summary h4 { display: inline; }
summary h4 { font-weight: normal; }
summary + ul { margin-top: 0.2rem; }
article { display: grid; gap: 0 2rem; grid-template-columns: repeat(auto-fill, minmax(min(100%, 38rem), 1fr)); }
section { contain-intrinsic-size: auto 24rem; content-visibility: auto; min-width: 0; }
section h3 { margin: 0.8rem 0 0.3rem; }
section div { overflow-x: auto;
  background: linear-gradient(to right, Canvas 40%, transparent) left / 3rem 100% local no-repeat,
    linear-gradient(to left, Canvas 40%, transparent) right / 3rem 100% local no-repeat,
    linear-gradient(to right, var(--shade), transparent) left / 1.2rem 100% scroll no-repeat,
    linear-gradient(to left, var(--shade), transparent) right / 1.2rem 100% scroll no-repeat; }
table { border-collapse: collapse; }
section table { min-width: calc(3.8rem + var(--days) * 6.84rem); table-layout: fixed; width: 100%; }
th, td { border: 1px solid var(--line); padding: 0.2rem 0.25rem; text-align: left; vertical-align: top; }
section th:first-child { background: Canvas; font-size: 0.9em; left: 0; position: sticky; width: 3.8rem; }
section th:first-child::after { border-right: 1px solid var(--line); bottom: 0; content: ''; position: absolute; right: -1px; top: 0; }
td:has(em) { background: rgb(128 128 128 / 0.15); }
em { font-size: 0.9em; }
td p { --hue: calc(var(--course) * 137.5deg); background: hsl(var(--hue) 60% 50% / 0.13);
  border-left: 4px solid hsl(var(--hue) 60% 50%); margin: 0 0 0.3rem; padding: 0 0.1rem 0 0.25rem; }
td p a, h3 a { color: inherit; text-decoration-color: var(--line); }
kbd { white-space: nowrap; }
b, i { color: var(--broken); font-style: normal; }
i { color: var(--costs); font-weight: bold; }
p b, p i { display: block; font-size: 0.8em; font-weight: normal; }
#verdict b { display: inline; font-size: 1em; font-weight: bold; }
ul { columns: 26rem; column-gap: 2rem; padding-left: 1.2rem; }
ul#entries { columns: 9rem; column-gap: 1rem; }
li { break-inside: avoid; }
[hidden] { display: none; }
ul:not(:has(li))::after, ol:not(:has(li))::after, article:not(:has(section))::after { content: 'none'; }
h3:target, td:target { outline: 3px solid LinkText; }
td:target { outline-offset: -3px; scroll-margin: 40vh 7rem; }
@media print {
  body { font-size: 0.9rem; max-width: none; padding: 0 2px; }
  nav, #skip, #only, details:not([open]), details:has(#index), #found:not(:has(details[open])), #found div:not(:has(details[open])) { display: none; }
  h1, h2, h3, h4, summary { break-after: avoid; }
  summary { list-style: none; }
  article { display: block; }
  section { break-inside: avoid; content-visibility: visible; }
  section:not([hidden]) ~ section, details:has(section:not([hidden])) ~ details:has(section:not([hidden])), #found { break-before: page; }
  section div { background: none; overflow: visible; }
  section table { font-size: 0.85em; min-width: 0; }
  section th:first-child { background: none; position: static; }
  section th:first-child::after { content: none; }
  td p { print-color-adjust: exact; }
  a { color: inherit; text-decoration: none; }
  ul { columns: 16rem; }
}
";
