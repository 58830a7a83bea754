//! What holds of every certificate, and of every text.
ghost use Rattle.std.specs.Prelude.{◌≡◌, ◌<◌, ◌≤◌, ◌↔◌, ◌⊎◌, ℕ, List, length, Ok, Err};
ghost use Rattle.mat_sets.specs.declared.weight.Weight.{Weight};
ghost use Rattle.mat_words.specs.Weights.{weight_word};
ghost use Rattle.mat_cert.specs.{
  Certificates.{Certificate, IsPrinted, IsPrintedWeight, IsRanged, certificate_text},
  Faults.{Fault},
  Limits.{certificate_limit},
  Reading.{read_of},
};

/// What holds of every certificate in range: its text has at most 2^26 bytes, and no other certificate in range has that text. The text has
/// fewer than 24,000,000 bytes where each number of each weight is from -3 * 10^20 to 3 * 10^20, as in all that the program prints: the word
/// of such a weight has at most 45 bytes.
pub fn certificate_laws()
    ensures short { (c : Certificate) → IsRanged c → length (certificate_text c) ≤ certificate_limit }
    ensures one_certificate { (first second : Certificate) → IsRanged first → IsRanged second
        → certificate_text first ≡ certificate_text second → first ≡ second }
    ensures word { (w : Weight) → IsPrintedWeight w → length (weight_word w) ≤ 45 }
    ensures printed { (c : Certificate) → IsRanged c → IsPrinted c → length (certificate_text c) < 24000000 }
{}

/// The reading of a text gives exactly the certificate in range whose text it is. So a text is that of such a certificate or has exactly
/// one first fault, and never both.
pub fn reading_laws()
    ensures exact { (text : List ℕ) (c : Certificate) → (read_of text ≡ Ok c) ↔ (IsRanged c × (text ≡ certificate_text c)) }
    ensures either { (text : List ℕ) → ((c : Certificate) × IsRanged c × (text ≡ certificate_text c))
        ⊎ ((fault : Fault) × (read_of text ≡ Err fault)) }
    ensures never_both { (c : Certificate) (fault : Fault) → IsRanged c → read_of (certificate_text c) ≡ Err fault → ⊥ }
    ensures one_fault { (text : List ℕ) (first second : Fault) → read_of text ≡ Err first → read_of text ≡ Err second → first ≡ second }
{}
