//! The script of the page.

/// The script of the page. It shows the entry. What is typed there leaves the grids in whose heading
/// it stands, or else in whose cells, and the findings in which it or the name of such a grid stands.
/// No heading is left over an empty place, and what is left is said. Enter goes to the first grid,
/// Escape shows all again, as does a link to a grid that is not shown. Without it the page has all
/// but the entry.
pub(crate) const SCRIPT: &str = "
const find = document.getElementById('find');
const shown = document.getElementById('shown');
const found = document.getElementById('found');
const all = (selector, root = document) => [...root.querySelectorAll(selector)];
let grids = null;
let findings = null;

function learn() {
  grids = all('#entries a').map((link) => {
    const head = document.getElementById(link.hash.slice(1));
    return { link, section: head.parentElement, text: head.textContent.toLowerCase(), name: head.querySelector('bdi').textContent };
  });
  findings = all('li', found).map((item) => {
    return { item, text: item.textContent.toLowerCase(), names: all('bdi', item).map((name) => name.textContent) };
  });
}

function counted(count, noun) {
  return `${count} ${noun}${count === 1 ? '' : 's'}`;
}

function narrow() {
  const word = find.value.trim().toLowerCase();
  if (grids === null) {
    learn();
  }
  let left = grids.filter((grid) => grid.text.includes(word));
  const names = new Set(left.map((grid) => grid.name));
  if (left.length === 0) {
    left = grids.filter((grid) => grid.section.textContent.toLowerCase().includes(word));
  }
  const told = findings.filter((each) => each.text.includes(word) || each.names.some((name) => names.has(name)));
  for (const grid of grids) {
    grid.section.hidden = grid.link.parentElement.hidden = true;
  }
  for (const grid of left) {
    grid.section.hidden = grid.link.parentElement.hidden = false;
  }
  for (const each of findings) {
    each.item.hidden = true;
  }
  for (const each of told) {
    each.item.hidden = false;
  }
  for (const part of all('main details, #found, #found div')) {
    part.hidden = word !== '' && !part.querySelector('section:not([hidden]), li:not([hidden])');
  }
  const lines = told.filter((each) => !each.item.closest('ol')).length;
  shown.textContent = word === '' ? '' : left.length + told.length === 0 ? 'Nothing here has this name. Escape shows all.'
    : `${counted(left.length, 'grid')}, ${counted(lines, 'finding')}. Escape shows all.`;
}

function show_all() {
  find.value = '';
  narrow();
}

function open_around(id) {
  const place = document.getElementById(id);
  if (place !== null && place.closest('[hidden]') !== null) {
    show_all();
  }
  for (let part = place; part !== null; part = part.parentElement) {
    if (part.tagName === 'DETAILS') {
      part.open = true;
    }
  }
}

document.getElementById('entry').hidden = false;
find.addEventListener('input', narrow);
document.addEventListener('keydown', (event) => {
  if (event.key === 'Escape' && find.value !== '') {
    show_all();
  } else if (event.key === 'Enter' && event.target === find && find.value !== '') {
    const first = grids.find((grid) => !grid.section.hidden);
    if (first) {
      location.hash = first.link.hash;
    }
  }
});
document.addEventListener('click', (event) => {
  const link = event.target.closest('a');
  if (link !== null && link.hash !== '') {
    open_around(link.hash.slice(1));
  }
});
open_around(location.hash.slice(1));
";
