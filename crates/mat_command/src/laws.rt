//! What holds of every number of workers.

ghost use Rattle.std.specs.Prelude.{◌≡◌, ℕ, List, ◌∷◌, option_map, false, pos, bytes_eq, codes};
ghost use Rattle.mat_work.specs.Workers.{AreWorkers};
ghost use Rattle.mat_words.specs.Numbers.{numeral};
ghost use Rattle.mat_command.specs.CommandLines.{by_workers, begins_with_option, command_line, asked_by};

/// What holds of each number of workers from 1 to 16: with the option a command asks for what it asks for without it, but for `show`,
/// `cuts`, `convert`, `witness` and `verify`, which take none. So what is said of a task is said for each number of workers.
pub fn command_line_laws()
    ensures option { (command : List ℕ) (arguments : List (List ℕ)) (n : ℕ) → AreWorkers n
        → bytes_eq command (codes "show") ≡ false → bytes_eq command (codes "cuts") ≡ false
        → bytes_eq command (codes "convert") ≡ false → bytes_eq command (codes "witness") ≡ false
        → bytes_eq command (codes "verify") ≡ false → begins_with_option arguments ≡ false
        → command_line (command ∷ codes "--workers" ∷ numeral (pos n) ∷ arguments)
        ≡ option_map (by_workers n) (asked_by (command ∷ arguments)) }
{}
