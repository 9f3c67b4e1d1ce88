//! The input of a caller: the words of a sheet, or the weights of a board.
ghost use Rattle.std.specs.Prelude.{◌≡◌, ◌↔◌, IfOk, IfErr, IsOk, IsOkUnless};
ghost use Rattle.council_core.specs.declared.refusals.Refusal.TheVariants.{BadSheet};
ghost use Rattle.c_values.specs.Counts.{IsSheetInRange};
ghost use Rattle.board_c.specs.Counts.{words_of_weights};

use council_core::{CHAIRS, Refusal, SHEET_WORDS, Sheet, TOTAL};

// The sheet with these words, which must be 34.
pub(crate) fn sheet_of(words: &[u64]) -> Result<Sheet, Refusal>
    ensures in_range { IsOk result ↔ IsSheetInRange words.now }
    ensures kept { IfOk result (λ sheet. sheet ≡ words.now) }
    ensures refused { IsOkUnless result BadSheet }
{
    if words.len() != SHEET_WORDS {
        return Err(Refusal::BadSheet);
    }
    let mut all = [0; SHEET_WORDS];
    all.copy_from_slice(words);
    Sheet::from_words(&all)
}

// The words of a sheet whose first chairs are open with these weights. Too many weights, and a
// weight that does not fit in a word, are refused.
pub(crate) fn words_at(weights: &[u64], total: u64) -> Result<[u64; SHEET_WORDS], Refusal>
    ensures same { IfOk result (λ words. words ≡ words_of_weights weights.now total) }
    ensures refused { IfErr result
        (λ why. (why ≡ BadSheet) × (IsSheetInRange (words_of_weights weights.now total) → ⊥)) }
{
    if weights.len() > CHAIRS {
        return Err(Refusal::BadSheet);
    }
    let mut words = [0; SHEET_WORDS];
    words[TOTAL] = total;
    for index in 0..weights.len() {
        let Some(word) = weights[index].checked_add(1) else {
            return Err(Refusal::BadSheet);
        };
        words[index] = word;
    }
    Ok(words)
}
