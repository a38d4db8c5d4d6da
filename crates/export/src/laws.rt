//! What an export says about its match.
//!
//! These functions do nothing: each stands for the laws that it ensures.

ghost use Rattle.std.specs.Prelude.{◌≡◌, ℕ, IsUtf8, List, codes, true};
ghost use Rattle.notation.specs.declared.entry.Entry.{Entry};
ghost use Rattle.ball_laws.specs.History.{History};
ghost use Rattle.corrections.specs.CleanList.{history_of};
ghost use Rattle.corrections.specs.Legal.{IsLegalBook};
ghost use Rattle.cards.specs.Sheet.{Sheet};
ghost use Rattle.toml.specs.Data.{Members};
ghost use Rattle.falls.specs.Laws.{FallsStand};
ghost use Rattle.json.specs.Json.{string};
ghost use Rattle.json_fields.specs.Values.{Field};
ghost use Rattle.sheet_check.specs.Handed.{is_fine_document};
ghost use Rattle.export.specs.Escapes.{IsPlain, IsReadBack, is_obeyed};
ghost use Rattle.export.specs.Given.{HandsOn};
ghost use Rattle.export.specs.Laws.{HasEachEntry, HasEachKey, LeavesOwn, TellsDay, TellsOfFile, TotalsAddUp, WicketsAddUp, in_meta};
ghost use Rattle.archive_deliveries.specs.Names.{NamesTwoSides};
ghost use Rattle.export.specs.WorkedDocuments.{WorkedDocuments};

/// In the value of an innings in an export, the totals of the deliveries and the penalty runs before and after add up to the
/// innings' total. Where the innings has a delivery, its deliveries have as many wickets as have fallen, not counting players
/// retired hurt. Each fall of the card stands with the over and the ball at which that player was out. Each entry of the book
/// stands once, at its place.
pub fn exports_add_up()
    ensures totals { (s : Sheet) → (n : ℕ) → (book : List Entry) → IsLegalBook n book → TotalsAddUp s book }
    ensures wickets { (s : Sheet) → (n : ℕ) → (book : List Entry) → IsLegalBook n book → WicketsAddUp s book }
    ensures falls { (n : ℕ) → (book : List Entry) → IsLegalBook n book
        → (i : ℕ) → FallsStand (history_of book) i }
    ensures entries { (book : List Entry) → HasEachEntry book }
{}

/// The two sides of an export have different names, even where the sheet has one name for both: so no key stands twice.
pub fn exports_name_two_sides()
    ensures { (s : Sheet) → NamesTwoSides s }
{}

/// Each key of the sheet's table `[info]` stands under `info` with its value, except the keys that the export writes itself:
/// these aren't copied, so that no key stands twice. For a document that isn't refused, the day and the revision in the table
/// `[meta]` stand under `meta` with their values; the version of the format is the export's own.
#[tactic(auto, using(crate::proofs::HandedLemmas::has_each_key, crate::proofs::HandedLemmas::leaves_own, crate::proofs::MetaLemmas::tells_of_file, crate::proofs::MetaLemmas::tells_day))]
pub fn exports_hand_on()
    ensures each { (s : Sheet) → (h : History) → (document : Members) → (given : List Field)
        → HandsOn document given → HasEachKey s h document given }
    ensures own { (document : Members) → (given : List Field) → HandsOn document given → LeavesOwn given }
    ensures file { (document : Members) → is_fine_document document ≡ true → TellsOfFile document }
    ensures day { (document : Members) → is_fine_document document ≡ true → TellsDay document }
    ensures version { (document : Members) → in_meta (codes "data_version") document ≡ string (codes "1.1.0") }
{}

/// An export writes each character that a terminal obeys, or that turns or breaks a line, as an escape in plain text, and a
/// JSON reader reads each string as it was before escaping.
#[tactic(auto, using(crate::proofs::EscapeLemmas::plain_text, crate::proofs::EscapedStrings::string_read))]
pub fn escapes_read_back()
    ensures plain { (c : ℕ) → is_obeyed c ≡ true → IsPlain c }
    ensures strings { (s : List ℕ) → IsUtf8 s → IsReadBack s }
{}

/// Worked documents: the check computes from the definitions what `meta` says, and which documents are refused.
fn worked_documents()
    ensures { WorkedDocuments }
{}
