//! The texts of generations.
ghost use Rattle.wf_laws.specs.Texts.{FetchesAreText, GenerationsAreBorn, TextsAreTold, TextsStay};

/// A generation's text never changes.
pub fn texts_stay()
    ensures { TextsStay }
{}

/// A generation that is born has the next number, and its parent's text, or that spliced with the
/// patch that the entry names.
pub fn texts_are_told()
    ensures { TextsAreTold }
{}

/// A generation that is there was there at the start, or was born with an entry of the journal.
pub fn generations_are_born()
    ensures { GenerationsAreBorn }
{}

/// A fetch gives four bytes of the text of the generation of its hart's last move, and before its
/// first move of the generation that it began in.
pub fn fetches_are_text()
    ensures { FetchesAreText }
{}
