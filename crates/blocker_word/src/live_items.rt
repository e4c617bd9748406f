ghost use Rattle.std.specs.Prelude.{ℕ, List};
ghost use Rattle.blocker_word.specs.Word.{IsCounted};
ghost use Rattle.blocker_word.specs.Worth.{CountsLive};
ghost use Rattle.blocker_word.specs.declared.view.View.{View};

/// What the word is worth, at each moment, whatever the threads do: before shutdown is done its count is that of the live
/// items. A word of 1, at which shutdown becomes done, has none. Once shutdown is done no item is live, the count is that of
/// refused begins alone, and each begin that finds such a word is refused. The token of a shutdown that is done says that
/// the word has the done bit; no call takes that token back, so none is live ever after.
#[tactic(auto, using(crate::proofs::Worth::counts_live))]
pub fn no_item_is_live_after_done()
    ensures { (word : ℕ) (tokens : List View) → IsCounted word tokens → CountsLive word tokens }
{}
