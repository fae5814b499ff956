// The lines that go to one editor, from the one that makes it to the next one that makes another.
use crate::command::{Command, Shape, parse};
use crate::lines::Lines;
use crate::reply::{print_bad, print_flags, print_reply};
use crate::show::show;
use desk::Desk;
use editor::{Call, Editor, words_for};
use netlist::Refusal;
use std::io::BufRead;
use words::{InverseLog, LEVELS_MOST, Snapshot, Store};

const SIGNALS_MOST: u32 = 1024;

// The store below the editor.
#[derive(Clone, Copy)]
pub enum Bottom {
    Log,
    Snapshot,
}

impl Bottom {
    // How often the memory has room for the words of a store. The console plays in memory of just the needed size, and a snapshot takes about
    // a third of what an inverse log does: `memory` would lend it as much.
    fn parts(self, limit: usize) -> usize {
        match self {
            Bottom::Log => limit.saturating_mul(3).saturating_add(2),
            Bottom::Snapshot => limit.saturating_add(1),
        }
    }
}

impl Shape {
    // How many words the store of an editor has. None where no editor has the shape: its making refuses by itself.
    fn words(self) -> usize {
        if self.signals > SIGNALS_MOST || self.limit as usize > LEVELS_MOST {
            return 0;
        }
        words_for(self.signals)
    }
}

// Reads up to the first line that makes an editor. There is none yet for another line to call.
pub fn first_editor<R: BufRead + Drop>(
    rt: &HostRuntime,
    lines: &mut Lines<R>,
) -> anyhow::Result<Option<Shape>> {
    for (number, line) in lines {
        match parse(line?.as_slice()) {
            Some(Command::Editor(shape)) => return Ok(Some(shape)),
            _ => print_bad(rt, number)?,
        }
    }
    Ok(None)
}

// Plays the lines for one editor, and gives the shape of the next one, if the input asks for it.
pub fn play_one<R: BufRead + Drop>(
    rt: &HostRuntime,
    bottom: Bottom,
    shape: Shape,
    lines: &mut Lines<R>,
) -> anyhow::Result<Option<Shape>> {
    let size = shape.words();
    let limit = shape.limit as usize;
    let mut memory = vec![in rt.alloc(); 0u32; size.saturating_mul(bottom.parts(limit))]?;
    match bottom {
        Bottom::Log => play_on(rt, InverseLog::new(&mut memory, size, limit), shape, lines),
        Bottom::Snapshot => play_on(rt, Snapshot::new(&mut memory, size, limit), shape, lines),
    }
}

// Makes an editor over a store, and plays the lines for it. A batch that is still open then is dropped.
fn play_on<S: Store + Drop, R: BufRead + Drop>(
    rt: &HostRuntime,
    store: S,
    shape: Shape,
    lines: &mut Lines<R>,
) -> anyhow::Result<Option<Shape>> {
    let test = Editor::test(&store, shape.signals);
    let mut desk = Desk::new(store, shape.signals);
    let mut session = Session {
        rt,
        desk: &mut desk,
    };
    let next = session.play(test, lines);
    let _ = desk.close();
    next
}

// An editor that is played from the input.
#[derive(Drop)]
struct Session<'a, S: Store> {
    rt: &'a HostRuntime,
    desk: &'a mut Desk<S>,
}

impl<S: Store> Session<'_, S> {
    // Says how the test of the editor went, and plays the lines for it. Gives the shape of the next one, if the input asks for it.
    fn play<R: BufRead + Drop>(
        &mut self,
        test: Result<(), Refusal>,
        lines: &mut Lines<R>,
    ) -> anyhow::Result<Option<Shape>> {
        print_reply(self.rt, self.desk.editor(), test.map(|()| 0))?;
        for (number, line) in lines {
            match parse(line?.as_slice()) {
                Some(Command::Editor(shape)) => return Ok(Some(shape)),
                Some(Command::Call(call)) => self.call(call)?,
                Some(Command::Show) => show(self.rt, self.desk.editor())?,
                None => print_bad(self.rt, number)?,
            }
        }
        Ok(None)
    }

    // The flags that a call is handed may hold anything.
    fn call(&mut self, call: Call) -> anyhow::Result<()> {
        let mut flags = [165; 1024];
        let reply = match call {
            // by its name: so one that puts no pin opens no level, which a snapshot copies whole
            Call::Make(edit) => self.desk.make_named(edit, &mut flags),
            _ => self.desk.play(call, &mut flags),
        };
        print_reply(self.rt, self.desk.editor(), reply)?;
        if matches!(call, Call::Make(edit) if edit.may_put()) {
            print_flags(self.rt, &flags)?;
        }
        Ok(())
    }
}
