//! Laws of generated scripts and of their runs in number order.

ghost use Rattle.std.specs.Prelude.{◌≡◌, ◌≤◌, ℕ, List};
ghost use Rattle.c5_rows.specs.Sizes.{max_transactions};
ghost use Rattle.c5_definitions.specs.Summaries.{summary_at};
ghost use Rattle.c5_gen.specs.Laws.{IsWithinLimits, KeepsMoney, ArePlaces, SummaryLaw};

/// A generated script is a script, and within the limits.
pub fn limits_law()
    ensures { (count : ℕ) → count ≤ max_transactions → IsWithinLimits count }
{}

/// After each transaction the rows add to all money, and before the first to nothing.
pub fn money_law()
    ensures { (count : ℕ) → 1 ≤ count → KeepsMoney count }
{}

/// What the summary says, and that it is the same wherever the reads are answered.
pub fn summary_law()
    ensures { (count : ℕ) (places : List ℕ) → 1 ≤ count → ArePlaces count places
        → SummaryLaw count places }
{}

/// The first counts of a script's run, which were computed by hand.
pub fn worked_summaries()
    ensures one { (places : List ℕ) → (summary_at 1 places).bytes ≡ 1258 }
    ensures two { (places : List ℕ) → (summary_at 2 places).bytes ≡ 1317 }
    ensures declined { (places : List ℕ) → (summary_at 2 places).declined ≡ 0 }
    ensures writes { (places : List ℕ) → (summary_at 2 places).writes ≡ 66 }
{}
