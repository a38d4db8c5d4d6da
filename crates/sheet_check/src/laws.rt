//! Laws of a sheet's faults and the number by which it is refused. These functions do nothing: each states the law it ensures.

ghost use Rattle.std.specs.Prelude.{◌≡◌, [], true, Ok};
ghost use Rattle.toml.specs.Data.{Members};
ghost use Rattle.cards.specs.Reading.{sheet_from};
ghost use Rattle.cards.specs.Sheet.{Sheet};
ghost use Rattle.sheet_check.specs.Faults.{faults, first_of};
ghost use Rattle.sheet_check.specs.Handed.{handed_faults, is_fine_document};
ghost use Rattle.sheet_check.specs.Reports.{why_of};

/// States that a sheet is refused by the number of its first fault, and that a sheet that is taken has no fault.
pub fn first_fault_is_the_number()
    ensures { (ms : Members) → first_of (faults ms) ≡ why_of (sheet_from ms) }
{}

/// States that a sheet that is taken has no fault.
pub fn fine_sheets_have_no_fault()
    ensures { (ms : Members) (sheet : Sheet) → sheet_from ms ≡ Ok sheet → faults ms ≡ [] }
{}

/// States that what a document passes on has no fault exactly if the document is fine.
pub fn fine_documents_have_no_fault()
    ensures fine { (document : Members) → is_fine_document document ≡ true → handed_faults document ≡ [] }
    ensures faultless { (document : Members) → handed_faults document ≡ [] → is_fine_document document ≡ true }
{}
