//! The laws of a text of journals.

ghost use Rattle.satip_audit.specs.LegalTexts.{YesIsLegal};
ghost use Rattle.satip_audit.specs.OneThing.{SaysOneThing};

/// States that a text has one content: its notes, or the number of its first wrong line. It does
/// nothing; its contract is the law.
pub fn journals_say_one_thing()
    ensures one { SaysOneThing }
{}

/// States that the verdict on a text is `yes` exactly if its entries are one legal history, with
/// each place once and each value within its type. It does nothing; its contract is the law.
pub fn yes_is_legal()
    ensures law { YesIsLegal }
{}
