//! What a page can't contain, whatever the names on a sheet are.
//!
//! These functions do nothing: each stands for the law that it ensures.

ghost use Rattle.std.specs.Prelude.{◌≡◌, ℕ, List, false};
ghost use Rattle.std.specs.List.{list_any};
ghost use Rattle.notation.specs.declared.entry.Entry.{Entry};
ghost use Rattle.cards.specs.Sheet.{Sheet};
ghost use Rattle.toml.specs.Data.{Members};
ghost use Rattle.page.specs.Escapes.{escaped, is_markup};
ghost use Rattle.page.specs.Markup.{HasListedMarkup};
ghost use Rattle.page.specs.Page.{page_text};

/// An escaped text has no `<`, no `>` and no quote: no element and no attribute begins or ends in it.
pub fn no_text_is_markup()
    ensures { (text : List ℕ) → list_any is_markup (escaped text) ≡ false }
{}

/// A page has no tags and no references but its own, whatever the names, titles and lines are.
pub fn every_tag_is_listed()
    ensures { (s : Sheet) → (document : Members) → (book : List Entry) → HasListedMarkup (page_text s document book) }
{}
