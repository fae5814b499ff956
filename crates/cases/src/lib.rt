// The worked cases of edits, covers, names, batches and marks hold of the rules.
#![tactic(auto)]

ghost use Rattle.cases.specs.Cases.{WorkedCases};
ghost use Rattle.cases.specs.Marks.{SecondMarkRefused};

pub fn all_cases_hold()
    ensures { WorkedCases }
{
    netlist::worked_cases_hold();
    table::examples_hold();
    text::name_lengths_hold();
    editor::worked_batches_hold();
}

// Over any store of D = 3 a caller's second mark is refused with 20: by what the making and the calls promise, and nothing else.
pub fn second_mark_is_refused()
    ensures { SecondMarkRefused }
{}
