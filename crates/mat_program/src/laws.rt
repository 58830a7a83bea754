//! What holds of the words of a report.

ghost use Rattle.std.specs.Prelude.{◌≡◌, ℕ, List, [], ◌∷◌, false, bytes_eq, codes, Some};
ghost use Rattle.mat_command.specs.CommandLines.{asked_by};
ghost use Rattle.mat_report.specs.Reports.{check_of};

/// A report on two names asks what the top call asks by `check` before them. There `--workers` names no file; to a report it does.
pub fn report_laws()
    ensures check { (description certificate : List ℕ) → bytes_eq description (codes "--workers") ≡ false
        → asked_by (codes "check" ∷ description ∷ certificate ∷ []) ≡ Some (check_of description certificate) }
{}
