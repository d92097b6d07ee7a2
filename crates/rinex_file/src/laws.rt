//! Laws of the text of a file.
ghost use Rattle.std.specs.Prelude.{◌≡◌, ◌≢◌, ℕ, List, [], Option};
ghost use Rattle.gnss_obs.specs.declared.cell.StationValues.{StationValues};
ghost use Rattle.gnss_obs.specs.Values.{PlanValue, Closed};
ghost use Rattle.rinex_file.specs.Texts.{HeaderLists};
ghost use Rattle.rinex_file.specs.FileValues.{AreTexts};
ghost use Rattle.rinex_file.specs.Gathered.{AreSignals, IsGatheredFile};
ghost use Rattle.rinex_file.specs.File.{header_text, file_text, gathered, IsTextInParts};

use crate::header::texts::HeaderTexts;
use gnss_obs::Plan;

/// The output of the writers is the text of a file value: the header of the first epoch, and then
/// each epoch in turn, after an event if its station values differ from those before.
pub fn file()
    // The text of epochs that were gathered under a plan is the text of their file value.
    ensures text { (texts : HeaderLists) (interval : Option ℕ) (plan : PlanValue) (values : StationValues) (c : Closed)
        (cs : List Closed) → IsTextInParts texts interval plan values c cs }
    // Without an epoch the file is empty.
    ensures none { (texts : HeaderLists) (interval : Option ℕ) (plan : PlanValue) (values : StationValues)
        → file_text (gathered texts interval plan values []) ≡ [] }
    // A header isn't empty.
    ensures some { (texts : HeaderLists) (interval : Option ℕ) (plan : PlanValue) (values : StationValues) (first : ℕ)
        → header_text texts interval plan values first ≢ [] }
{}

/// Epochs that are gathered from messages that were read make a file value, so their text can be
/// read back.
pub fn values()
    ensures { IsGatheredFile }
{}

/// The texts and the plan of every header are those of a file value.
pub fn head(texts: &HeaderTexts, plan: &Plan)
    ensures texts { AreTexts texts.now }
    ensures plan { AreSignals plan.now }
{
    texts.are_texts();
    plan.are_listed();
}
