//! What holds of each text, whatever a reader does.

ghost use Rattle.conf_text.specs.Laws.{HasOneReading, HasOneFault, IsFaultless, IsOneOrOther, SingleQuotesKeep, DoubleQuotesKeep, SettingsAreRead, OpeningsAreRead, EndsAreRead, ElementsAreRead};

/// Each text is a configuration of one list of elements, or has one first fault, and never both.
pub fn each_text_has_one_reading()
    ensures reading { HasOneReading }
    ensures fault { HasOneFault }
    ensures faultless { IsFaultless }
    ensures one { IsOneOrOther }
{}

/// Each value can be written between single quotes, and each that embeds no code between double
/// quotes, and is read back.
pub fn quotes_keep_values()
    ensures single { SingleQuotesKeep }
    ensures double { DoubleQuotesKeep }
{}

/// Each parameter, each opening whose argument has no `#` and no blanks at its ends, and each end
/// is what its line is read as.
pub fn lines_are_read()
    ensures settings { SettingsAreRead }
    ensures openings { OpeningsAreRead }
    ensures ends { EndsAreRead }
{}

/// The lines of elements whose names are names, whose arguments have no `#` and no blanks at their
/// ends, and which nest at most eight deep, are read as these elements, but for the numbers of
/// their lines.
pub fn written_elements_are_read()
    ensures { ElementsAreRead }
{}
