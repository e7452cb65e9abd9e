// Laws of what is exported, which hold of the definitions alone.
ghost use Rattle.std.specs.Prelude.{◌≡◌, ◌≢◌, ◌<◌, ◌≤◌, ◌^◌, ℕ, AllPairs, List};
ghost use Rattle.kq_catalog_journal.specs.History.{History, cursor};
ghost use Rattle.kq_world.specs.Outside.{Put};
ghost use Rattle.kq_export_ranges.specs.declared.range.ExportRange.{ExportRange};
ghost use Rattle.kq_export_ranges.specs.Ranges.{InOne};
ghost use Rattle.kq_export_ranges.specs.Exported.{IsExported};
ghost use Rattle.kq_export_ranges.specs.Exports.{Exports, artefact_name, end_of, ranges_of};

/// Of the ranges of an export, exactly one holds the cursor of each record up to the last exported cursor.
pub fn each_record_is_in_one_range()
    ensures { (h : History) (x : Exports) (puts : List Put) (n c : ℕ) → IsExported h x puts → 0 < c → c ≤ end_of n x → InOne c (ranges_of n x.ranges) }
{}

/// The name of an artefact tells its export and its range: artefacts of different exports or ranges have different names.
pub fn artefact_names_differ()
    ensures { (name other : List ℕ) (r s : ExportRange) → r.above < r.to → r.to < 2 ^ 64 → s.above < s.to → s.to < 2 ^ 64 → artefact_name name r.above r.to ≡ artefact_name other s.above s.to → (name ≡ other) × (r.above ≡ s.above) × (r.to ≡ s.to) }
{}

/// No artefact is put over another: all that was put has different names.
pub fn each_artefact_is_put_once()
    ensures { (h : History) (x : Exports) (puts : List Put) → IsExported h x puts → cursor h < 2 ^ 64 → AllPairs (λ (p q : Put). p.name ≢ q.name) puts }
{}
