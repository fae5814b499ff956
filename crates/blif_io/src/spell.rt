// Lines as they are spelled, pushed to the end of a text.
ghost use Rattle.std.specs.Prelude.{◌≡◌, ◌++◌, ◌∷◌, [], ◌≤◌, map, vec_items, OnOk};
ghost use Rattle.std.specs.List.{flat_map};
ghost use Rattle.table.specs.Written.{line_at, lines_of};
ghost use Rattle.blif.specs.Statement.{cover_words};
ghost use Rattle.blif.specs.Description.{name_of};
ghost use Rattle.blif.specs.Written.{spelled_line, spelled_names, spelled};

use names::NameTable;
use std::alloc::AllocError;
use table::{Table, plane};

// Words, each behind a blank.
fn push_words(out: &mut Vec<u8>, words: &[&[u8]]) -> Result<(), AllocError>
    ensures { OnOk result (out.new.items ≡ out.old.items ++ spelled_names (map (λ x. x.now) words.now)) }
{
    for word in words {
        out.push(b' ')?;
        out.extend_from_slice(word)?;
    }
    Ok(())
}

// A line: its first word, and the words behind it.
pub(crate) fn push_line(out: &mut Vec<u8>, first: &[u8], words: &[&[u8]]) -> Result<(), AllocError>
    ensures { OnOk result (out.new.items ≡ out.old.items ++ spelled_line (first.now ∷ map (λ x. x.now) words.now)) }
{
    out.extend_from_slice(first)?;
    push_words(out, words)?;
    out.push(b'\n')?;
    Ok(())
}

// The name of a signal, which is empty where it has none.
pub(crate) fn name_bytes(names: &NameTable, signal: u32) -> &[u8]
    ensures { result.now ≡ name_of names.now.signals signal }
{
    match names.name(signal) {
        Some(name) => name,
        None => &[],
    }
}

// The names of signals, each behind a blank.
pub(crate) fn push_signals(
    out: &mut Vec<u8>,
    names: &NameTable,
    signals: &[u32],
) -> Result<(), AllocError>
    ensures { OnOk result (out.new.items ≡ out.old.items
        ++ spelled_names (map (name_of names.now.signals) signals.now)) }
{
    for signal in signals {
        out.push(b' ')?;
        out.extend_from_slice(name_bytes(names, *signal))?;
    }
    Ok(())
}

// The line of one minterm: its plane, if the gate has pins, and the output 1.
fn push_minterm(out: &mut Vec<u8>, pins: u32, minterm: u32) -> Result<(), AllocError>
    requires { pins ≤ 4 }
    ensures { OnOk result (out.new.items ≡ out.old.items ++ spelled_line (cover_words pins (line_at pins minterm))) }
{
    if pins == 0 {
        return push_line(out, b"1", &[]);
    }
    let plane = plane(minterm);
    push_line(out, &plane[..pins as usize], &[b"1"])
}

// The lines of a gate's cover: its 1-minterms, ascending.
pub(crate) fn push_cover(out: &mut Vec<u8>, table: Table) -> Result<(), AllocError>
    ensures { OnOk result (out.new.items ≡ out.old.items
        ++ spelled (map (cover_words table.pins) (lines_of table.pins table.bits))) }
{
    for minterm in 0..1u32 << table.pins() {
        if table.value(minterm) {
            push_minterm(out, table.pins(), minterm)?;
        }
    }
    Ok(())
}
