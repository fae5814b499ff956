// A call played on an editor.
use crate::call::Reply;
use crate::compare::compare;
use crate::difference::{Difference, Finding};
use crate::fault::ensure;
use crate::model::Model;
use desk::Desk;
use editor::Call;
use words::Store;

// By which call an edit is made, at a desk over either store: a closure that makes it could take the desk of one alone. Which calls take flags hangs on
// it too.
#[derive(Clone, Copy)]
pub enum Way {
    // that of its name
    Named,
    // that which takes any edit
    Any,
}

// Plays a call that the model has played, which replied what is owed. The flags that it is handed may hold anything.
pub fn play<S: Store>(
    desk: &mut Desk<S>,
    call: Call,
    way: Way,
    model: &Model,
    owed: Reply,
) -> Result<(), Finding> {
    let mut flags = [165; 1024];
    let reply = match (call, way) {
        (Call::Make(edit), Way::Named) => desk.make_named(edit, &mut flags),
        _ => desk.play(call, &mut flags),
    };
    let found = |difference| Finding {
        difference,
        call,
        reply,
    };
    ensure(reply == owed, found(Difference::Reply))?;
    let clear = flags.iter().all(|flag| *flag == 0);
    ensure(clear || !takes_flags(call, way), found(Difference::Flags))?;
    compare(desk.editor(), model).map_err(found)
}

// Of the calls by name those of edits that put no pin take no flags.
fn takes_flags(call: Call, way: Way) -> bool {
    match (call, way) {
        (Call::Make(edit), Way::Named) => edit.may_put(),
        (Call::Make(_), Way::Any) => true,
        _ => false,
    }
}
