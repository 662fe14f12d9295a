//! What stands around all objects of a page, the same in each: nothing in it is from elsewhere, and its policy lets a browser fetch nothing
//! and run no script but this one. bin/reports looks whether the policy's hashes are those of the style and the script.

/// What a page begins with, up to its objects, one piece behind another.
pub static HEAD: [&str; 3] = [
    r#"<!doctype html>
<html lang="en">
<head>
<meta charset="utf-8">
<meta http-equiv="Content-Security-Policy" content="default-src 'none'; base-uri 'none'; form-action 'none';
  style-src 'sha256-uxfsrE8iWdwYOgTnOj7hAIodWrfj3o1i5GxO62QZP+c='; script-src 'sha256-sdLBs6nMw10XCdntIn5vxa2g5mAKc7Oc/RRY3E6zJ88='">
<meta name="viewport" content="width=device-width, initial-scale=1">
<meta name="referrer" content="no-referrer">
<title>x509_report</title>
<style>"#,
    STYLE,
    r#"</style>
</head>
<body>
<header><h1>x509_report</h1></header>
<ol>
"#,
];

/// What a page ends with, behind its objects, one piece behind another.
pub static FOOT: [&str; 3] = ["</ol>\n<script>", SCRIPT, "</script>\n</body>\n</html>\n"];

/// How a page looks: report and elements side by side, one below the other where there is little room; light or dark as the reader's system.
const STYLE: &str = r#"
:root { color-scheme: light dark; --back: #fff; --fore: #1c2126; --dim: #65707b; --line: #dde1e6; --type: #0550ae; --name: #6f3196;
  --bad: #b3261e; --bad-back: #fdeceb; --hot: #fff4cc; --head: #fde2b8; --rest: #dcefdc; }
@media (prefers-color-scheme: dark) {
  :root { --back: #15181b; --fore: #dfe3e7; --dim: #8c969f; --line: #30363c; --type: #79b8ff; --name: #cfa3ee;
    --bad: #ff9d94; --bad-back: #43201d; --hot: #3a3417; --head: #5a4213; --rest: #1f3f26; }
}
* { box-sizing: border-box; }
body { margin: 0; background: var(--back); color: var(--fore); font: 15px/1.5 system-ui, sans-serif; }
header { position: sticky; top: 0; z-index: 1; display: flex; flex-wrap: wrap; gap: .5rem 1rem; align-items: center; padding: .5rem 1rem;
  background: var(--back); border-bottom: 1px solid var(--line); }
h1 { margin: 0; font-size: 1rem; }
select, button { font: inherit; max-width: 100%; min-width: 0; }
select { flex: 1 1 12rem; }
ol { margin: 0; padding: 0; list-style: none; }
li { display: grid; grid-template-columns: minmax(0, 2fr) minmax(0, 3fr); column-gap: 1.5rem; padding: 1rem; border-bottom: 1px solid var(--line); }
li[hidden], aside[hidden] { display: none; }
article { grid-column: 1; }
article ~ article { grid-column: 1 / -1; margin-top: .75rem; }
section { grid-area: 1 / 2; font: 13px/1.5 ui-monospace, monospace; }
section div { text-indent: 1.25em; }
summary { cursor: pointer; overflow-wrap: anywhere; }
summary:focus-visible, section div:focus-visible { outline: 2px solid var(--type); }
details > :not(summary) { margin-left: .5rem; padding-left: .6rem; border-left: 1px solid var(--line); }
article > details > summary { font-weight: 600; }
article div, section div { overflow-wrap: anywhere; }
article b { color: var(--dim); font-weight: 400; }
article b:empty { display: none; }
article span { display: inline-block; max-width: 100%; max-height: 7.5em; overflow: auto; vertical-align: top; }
article i { color: var(--dim); }
section b { color: var(--dim); font-weight: 400; display: inline-block; min-width: 2.4em; text-indent: 0; }
section code { color: var(--type); font: inherit; }
section i { color: var(--name); font-style: normal; }
section p { margin-top: 0; margin-bottom: 0; background: var(--bad-back); color: var(--bad); }
section strong::before { content: "\25b2\a0"; }
section pre, aside pre { margin: 0; white-space: pre-wrap; overflow-wrap: anywhere; font: 12px/1.5 ui-monospace, monospace; }
.bad { color: var(--bad); }
.hot > summary, div.hot { background: var(--hot); }
aside { position: sticky; bottom: 0; margin-left: auto; width: 60%; max-height: 40vh; overflow: auto; padding: .5rem 1rem;
  background: var(--back); border-top: 1px solid var(--line); border-left: 1px solid var(--line); }
aside u { text-decoration: none; color: var(--dim); }
aside em { font-style: normal; background: var(--head); }
aside mark { color: inherit; background: var(--rest); }
@media (max-width: 60rem) {
  li { display: block; padding: .75rem; }
  section { margin-top: .75rem; font-size: 12px; }
  aside { width: 100%; border-left: 0; }
}
"#;

/// The script: it names objects and the items of lists by what they say, lets one object be chosen, and shows the octets of the element
/// under the pointer. It holds no data, and makes no text of the page anything but text.
const SCRIPT: &str = r#"
"use strict";
(() => {
  const make = (name, text) => {
    const made = document.createElement(name);
    made.textContent = text;
    return made;
  };

  // what a part says under a key, and the part that stands under it
  const said = (part, key) => {
    for (const member of part.children) {
      if (member.localName === "div" && member.children[0].textContent === key) {
        return member.children[1].children.length > 0 ? "" : member.children[1].textContent;
      }
    }
    return "";
  };
  const under = (part, key) => [...part.children].find((it) => it.localName === "details" && it.firstChild.textContent === key);

  // items of lists, the innermost first
  const name_items = (article) => {
    for (const list of [...article.querySelectorAll("details")].reverse()) {
      let number = 0;
      for (const item of list.children) {
        if (item.localName === "details" && item.firstChild.textContent === "") {
          const value = said(item, "value") || said(item, "word");
          const inner = item.children.length > 1 && item.children[1].localName === "details" ? item.children[1].firstChild.textContent : "";
          const words = [said(item, "name") || said(item, "oid") || said(item, "type") || said(item, "kind"), value.length < 80 ? value : ""];
          item.firstChild.textContent = `[${number}] ${words.join(" ").trim() || inner.replace(/^\[0\] /, "")}`;
          if (said(item, "kind") === "refused" || said(item, "word")) item.firstChild.className = "bad";
        }
        if (item.localName !== "summary") number += 1;
      }
    }
  };

  const objects = [...document.querySelectorAll("li")];
  let refused = 0;
  const titles = objects.map((object) => {
    const top = object.querySelector("article > details");
    const named = under(top, "subject") || under(top, "issuer");
    const kind = said(top, "kind");
    const title = `${said(top, "file")} [${said(top, "index")}]: ${kind}${named ? " " + said(named, "text") : ""}`;
    if (kind === "refusal") {
      refused += 1;
      top.firstChild.className = "bad";
    }
    top.firstChild.textContent = title;
    for (const article of object.querySelectorAll("article")) name_items(article);
    return title;
  });

  // the list to choose from, and folding
  const header = document.querySelector("header");
  const choose = make("select", "");
  const chosen = () => objects.filter((object) => !object.hidden);
  if (objects.length > 1) {
    choose.setAttribute("aria-label", "object");
    choose.append(make("option", `all ${objects.length} objects, ${refused} refused`), ...titles.map((title) => make("option", title)));
    choose.addEventListener("change", () => {
      objects.forEach((object, index) => {
        object.hidden = choose.selectedIndex !== 0 && choose.selectedIndex !== index + 1;
      });
      scrollTo(0, 0);
    });
    header.append(choose);
    if (objects.length > 8) {
      choose.selectedIndex = 1;
      choose.dispatchEvent(new Event("change"));
    }
  }
  for (const [word, open] of [["unfold all", true], ["fold all", false]]) {
    const button = make("button", word);
    button.addEventListener("click", () => {
      for (const object of chosen()) {
        for (const part of object.querySelectorAll("details details, section > details:not(.octets)")) {
          if (!part.classList.contains("octets")) part.open = open;
        }
      }
    });
    header.append(button);
  }

  // the octets of an element: its header, its contents, and what stands in the same rows
  const aside = make("aside", "");
  const heading = make("div", "");
  const view = make("pre", "");
  aside.hidden = true;
  aside.append(heading, view);
  document.body.append(aside);
  const MOST = 512;
  const sign = (octet) => (octet >= 32 && octet < 127 ? String.fromCharCode(octet) : ".");
  let hot = null;
  const show = (row) => {
    const octets = row.closest("section").querySelector("pre").textContent;
    const at = Number(row.dataset.at);
    const behind = at + Number(row.dataset.size || 0);
    const end = row.dataset.rest === undefined ? at + 1 : behind + Number(row.dataset.rest);
    const count = innerWidth < 700 ? 8 : 16;
    const last = Math.min(end, at + MOST, octets.length / 2);
    view.textContent = "";
    for (let from = at - (at % count); from < last; from += count) {
      view.append(make("u", String(from).padStart(6) + "  "));
      let signs = "  ";
      let run = null;
      for (let i = from; i < from + count; i += 1) {
        const pair = octets.slice(2 * i, 2 * i + 2);
        const name = i < at || i >= end ? "u" : i < behind ? "em" : "mark";
        if (run === null || run.localName !== name) {
          run = make(name, "");
          view.append(run);
        }
        run.append(pair === "" ? "   " : pair + " ");
        signs += pair === "" ? " " : sign(parseInt(pair, 16));
      }
      view.append(make("u", signs + "\n"));
    }
    heading.textContent = `octets ${at} to ${Math.max(at, end - 1)}${end > last ? `, of which up to ${last - 1}` : ""}`;
    aside.hidden = false;
    if (hot !== null) hot.classList.remove("hot");
    row.classList.add("hot");
    hot = row;
  };
  for (const leaf of document.querySelectorAll("section div")) leaf.tabIndex = 0;
  for (const event of ["pointerover", "click", "focusin"]) {
    document.addEventListener(event, (it) => {
      const row = it.target.closest("[data-at]");
      if (row !== null && row !== hot) show(row);
    });
  }
})();
"#;
