ghost use Rattle.std.specs.Prelude.{◌≡◌, ◌≢◌, List, All};
ghost use Rattle.task_base.specs.declared.entry.Entry.{Entry};
ghost use Rattle.log_model.specs.Fits.{Fits};
ghost use Rattle.log_model.specs.LogText.{log_lines, log_text, log_json};

/// Two different histories have different texts in each version, and no text of version 2 is one of version 1. Each of
/// the histories' numbers is in the range of its type, as in every history that the code can hold.
#[tactic(auto, using(crate::proofs::Laws::LogTexts::same_history, crate::proofs::Laws::LogTexts::versions_differ))]
pub fn log_texts_differ()
    ensures lines { (a b : List Entry) → All Fits a → All Fits b → log_lines a ≡ log_lines b → a ≡ b }
    ensures texts { (a b : List Entry) → All Fits a → All Fits b → log_text a ≡ log_text b → a ≡ b }
    ensures versions { (a b : List Entry) → log_text a ≢ log_lines b }
{}

/// Two different histories have different JSON forms. Each of their numbers is in the range of its type, as in
/// every history that the code can hold.
#[tactic(auto, using(crate::proofs::Laws::LogJsons::same_history_json))]
pub fn log_jsons_differ()
    ensures { (a b : List Entry) → All Fits a → All Fits b → log_json a ≡ log_json b → a ≡ b }
{}
