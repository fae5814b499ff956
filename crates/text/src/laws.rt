// What holds of every text.
ghost use Rattle.text.specs.Standing.{WordsStand, WordsBounded, NameLengths};

// Every word that is read stands in the text at its place, on the line that it names, and has 1 to 32 bytes, of which none is `#`.
pub fn words_stand()
    ensures { WordsStand }
{}

// A text holds no more words than bytes.
pub fn words_bounded()
    ensures { WordsBounded }
{}

// A name of 32 bytes serves, and one of 33 is refused.
pub fn name_lengths_hold()
    ensures { NameLengths }
{}
