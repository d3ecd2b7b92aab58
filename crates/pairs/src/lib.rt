// The list of pairs, read once: which entry each sync manager uses, and whether a number is above 15.
#![tactic(auto)]

ghost use Rattle.std.specs.Prelude.{◌≡◌, ltb};
ghost use Rattle.passes.specs.Use.{past_last as pair_past_last, chosen_of, chosen_by};

use passes::{Chosen, FmmuMode, FmmuPair};

// Whether a number is none of sixteen.
fn past_last(number: u8) -> bool
    ensures { result ≡ ltb 15 number }
{
    15 < number
}

// Whether a number of a pair is above 15.
fn is_above(pair: FmmuPair) -> bool
    ensures { result ≡ pair_past_last pair }
{
    past_last(pair.fmmu) || past_last(pair.sync_manager)
}

// What the pairs say. The last one is written first, so that the first one for a sync manager stays, and none leaves its own number.
fn said_by(pairs: &[FmmuPair]) -> Chosen
    ensures { result ≡ chosen_of pairs.now }
{
    let mut entries = [0, 1, 2, 3, 4, 5, 6, 7, 8, 9, 10, 11, 12, 13, 14, 15];
    let mut above = false;
    // by number: so an edit can change which pair is read, and nothing else
    for k in (0..pairs.len()).rev() {
        let pair = pairs[k];
        above = is_above(pair) | above;
        if !past_last(pair.sync_manager) {
            entries[usize::from(pair.sync_manager)] = pair.fmmu;
        }
    }
    Chosen { entries, above }
}

// The entry of each sync manager: the first pair for it decides, none means its own number. By own numbers the list isn't read, and nothing is handed on.
pub fn fmmu_mappings(mode: FmmuMode, pairs: &[FmmuPair]) -> Chosen
    ensures { result ≡ chosen_by mode pairs.now }
{
    match mode {
        FmmuMode::OwnNumber => Chosen::none(),
        FmmuMode::Paired => said_by(pairs),
    }
}
