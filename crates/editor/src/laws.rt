// Theorems about the calls and the questions of an editor, each the contract of a function that does nothing else.
ghost use Rattle.editor.specs.Laws.{EqualWordsReplyAlike, NoSignalsTellNothing, EditsGiveOneBoard, WorkedBatches};

// Nothing but M, D, the words and the number of open levels decides a reply to a call or a question.
pub fn equal_words_reply_alike()
    ensures { EqualWordsReplyAlike }
{}

// At M = 0 nothing is told of a signal or a place.
pub fn no_signals_tell_nothing()
    ensures { NoSignalsTellNothing }
{}

// The edits that survive a log give one board.
pub fn edits_give_one_board()
    ensures { EditsGiveOneBoard }
{}

// The worked cases of batches and marks hold.
pub fn worked_batches_hold()
    ensures { WorkedBatches }
{}
