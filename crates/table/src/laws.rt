ghost use Rattle.table.specs.Laws.{Examples, FitsByBits, MeansOne, ReadsBack};

/// Table bits by themselves: below 2^(2^pins) is no bit at or above 2^pins.
pub fn fits_by_bits()
    ensures { FitsByBits }
{}

/// Lines mean one table at most.
pub fn one_meaning()
    ensures { MeansOne }
{}

/// Writing a table and reading it, at any number of pins.
pub fn reads_back()
    ensures { ReadsBack }
{}

/// `-1 1` means 12, `11 0` means 7, and two pins without a line mean 0.
pub fn examples_hold()
    ensures { Examples }
{}
