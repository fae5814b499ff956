// Files that are refused, each with the report that it gives: layer, number, line and name.
use crate::bench::{Bench, Verdict};
use crate::difference::Difference;
use crate::report::Report;
use crate::told::shown;
use memory::Pair;

struct Row(&'static [u8], &'static str);

// For an editor of four signals.
static ROWS: [Row; 73] = [
    // bytes and words
    Row(b".model t\r\n.end\n", "text,31,1,"),
    Row(b".model t\n.inputs a,b\n.end\n", "text,31,2,"),
    Row(b".model t\n.inputs a=b\n.end\n", "text,31,2,"),
    Row(b".model t\n.inputs a \\\nb\n.end\n", "text,31,2,"),
    Row(b".model t\n\n.end\x7f\n", "text,31,3,"),
    Row(b".model t\n.inputs \xc3\xa9\n.end\n", "text,31,2,"),
    Row(
        b".model t\n.inputs abcdefghijklmnopqrstuvwxyz0123456\n.end\n",
        "text,32,2,",
    ),
    Row(
        b".model t\n.inputs abcdefghijklmnopqrstuvwxyz0123456 =\n.end\n",
        "text,31,2,",
    ),
    Row(
        b".model t\n.abcdefghijklmnopqrstuvwxyz012345\n.end\n",
        "text,32,2,",
    ),
    // the first word
    Row(b".model t\n.gate a\n.end\n", "form,33,2,"),
    Row(b".model t\n11 1\n.end\n", "form,33,2,"),
    Row(b".model t\n.inputs a\n1 1\n.end\n", "form,33,3,"),
    Row(b".model t\n.End\n", "form,33,2,"),
    Row(b".model t\n.end\nx\n", "form,33,3,"),
    Row(b"x\n", "form,33,1,"),
    // the number of words
    Row(b".model\n.end\n", "form,34,1,"),
    Row(b".model a b\n.end\n", "form,34,1,"),
    Row(b".model t\n.latch a\n.end\n", "form,34,2,"),
    Row(b".model t\n.latch a b 0 0\n.end\n", "form,34,2,"),
    Row(b".model t\n.latch\n.end\n", "form,34,2,"),
    Row(b".model t\n.names\n.end\n", "form,34,2,"),
    Row(b".model t\n.names a b c d a b\n.end\n", "form,34,2,"),
    Row(b".model t\n.end x\n", "form,34,2,"),
    Row(b".model t\n.end\n.end x\n", "form,34,3,"),
    // a cover line's words
    Row(b".model t\n.names a b\n1\n.end\n", "form,34,3,"),
    Row(b".model t\n.names a b\n1 1 1\n.end\n", "form,34,3,"),
    Row(b".model t\n.names a\n1 1\n.end\n", "form,34,3,"),
    Row(b".model t\n.names a b c\n1 1 1\n.end\n", "form,34,3,"),
    // a start value, a plane, an output
    Row(b".model t\n.latch a b 4\n.end\n", "form,35,2,"),
    Row(b".model t\n.latch a b 00\n.end\n", "form,35,2,"),
    Row(b".model t\n.latch a b re\n.end\n", "form,35,2,"),
    Row(b".model t\n.names a b\n2 1\n.end\n", "form,35,3,"),
    Row(b".model t\n.names a b\n11 1\n.end\n", "form,35,3,"),
    Row(b".model t\n.names a b c\n1 1\n.end\n", "form,35,3,"),
    Row(b".model t\n.names a b\n1 -\n.end\n", "form,35,3,"),
    Row(b".model t\n.names a b\n1 11\n.end\n", "form,35,3,"),
    Row(b".model t\n.names a\n-\n.end\n", "form,35,3,"),
    Row(b".model t\n.names a\n2\n.end\n", "form,35,3,"),
    // names
    Row(b".model t\n.inputs a b c d e\n.end\n", "form,36,2,"),
    Row(
        b".model t\n.inputs a b c d\n.outputs a e\n.end\n",
        "form,36,3,",
    ),
    Row(
        b".model t\n.inputs a b c d\n.latch a e\n.end\n",
        "form,36,3,",
    ),
    Row(
        b".model t\n.inputs a b c d\n.names a e\n1 1\n.end\n",
        "form,36,3,",
    ),
    // both ends
    Row(
        b".model t\n.inputs a\n.names a b\n1 1\n0 0\n.end\n",
        "form,37,5,",
    ),
    Row(b".model t\n.names b\n0\n1\n.end\n", "form,37,4,"),
    // `.model` and `.end`
    Row(b".inputs a\n.end\n", "form,38,1,"),
    Row(b".end\n", "form,38,1,"),
    Row(b".model t\n.model t\n.end\n", "form,38,2,"),
    Row(b".model t\n.inputs a\n", "form,38,0,"),
    Row(b".model t\n.names a\n", "form,38,0,"),
    Row(b"", "form,38,0,"),
    Row(b" # nothing\n\t\n", "form,38,0,"),
    Row(b".model t\n.end\n.inputs a\n", "form,38,3,"),
    Row(b".model t\n.end\n\n.end\n", "form,38,4,"),
    Row(b".model t\n.end\n.model t\n", "form,38,3,"),
    // the editor's refusals
    Row(b".model t\n.inputs a a\n.end\n", "editor,14,2,a"),
    Row(b".model t\n.inputs a\n.inputs b a\n.end\n", "editor,14,3,a"),
    Row(
        b".model t\n.inputs a b\n.latch a b\n.end\n",
        "editor,14,3,b",
    ),
    Row(
        b".model t\n.inputs a\n.names a\n1\n1\n.end\n",
        "editor,14,3,a",
    ),
    Row(b".model t\n.outputs a\n.end\n", "editor,24,0,a"),
    Row(b".model t\n.latch b a\n.end\n", "editor,24,0,b"),
    Row(
        b".model t\n.outputs d\n.names c a\n1 1\n.names b c\n1 1\n.end\n",
        "editor,24,0,d",
    ),
    Row(b".model t\n.names a a\n1 1\n.end\n", "editor,25,2,a"),
    Row(
        b".model t\n.names b a\n1 1\n.names c b\n1 1\n.names a c\n1 1\n.end\n",
        "editor,25,6,c",
    ),
    // what comes first: a cover's fault before its gate's refusal, the gate's refusal before the line behind it
    Row(b".model t\n.inputs a\n.names a\n2\n.end\n", "form,35,4,"),
    Row(
        b".model t\n.inputs a\n.names a\n1\n.gate\n",
        "editor,14,3,a",
    ),
    Row(b".model t\n.inputs a\n.names a\n1\n.x =\n", "editor,14,3,a"),
    Row(b".model t\n.inputs a\n.names a\n1\nx =\n", "text,31,5,"),
    Row(b".model t\n.names a a\n1 1\n", "editor,25,2,a"),
    // 36 before 38 on one line, and 38 before 24 at the end
    Row(b".inputs a b c d e\n", "form,36,1,"),
    Row(
        b".model t\n.inputs a b c d\n.end\n.inputs e\n",
        "form,36,4,",
    ),
    Row(b".model t\n.outputs a\n", "form,38,0,"),
    // the first line with a fault, whatever its number
    Row(b".model t\n.inputs a a\n.x\n.end\n", "editor,14,2,a"),
    Row(b".model t\n.end\n.latch a b 7\n", "form,35,3,"),
];

// What the plain reader is told, if it is not what is written down.
fn as_written(found: &str, row: &Row, verdicts: Pair<Verdict>) -> Pair<Verdict> {
    if found == row.1 {
        verdicts
    } else {
        Pair {
            log: Err(Difference::Row),
            snapshot: Err(Difference::Row),
        }
    }
}

fn try_row(report: &mut Report, bench: &mut Bench, row: &Row, limit: usize) -> anyhow::Result<()> {
    let trial = bench.try_text(row.0, limit)?;
    let found = match trial.told {
        Some(told) => format!(in bench.heap; "{told}")?,
        None => format!(in bench.heap; "accepted")?,
    };
    let verdicts = as_written(&found, row, trial.verdicts);
    let text = shown(row.0);
    report.case(format_args!("refused: {text:?}: {found}:"), verdicts)
}

pub fn try_faults(report: &mut Report) -> anyhow::Result<()> {
    let mut bench = Bench::new(report.rt.alloc(), 4, 1024)?;
    for row in &ROWS {
        try_row(report, &mut bench, row, row.0.len())?;
    }
    // a byte over the limit, and over the most that a limit can be
    try_row(
        report,
        &mut bench,
        &Row(b".model t\n.end\n", "text,30,0,"),
        13,
    )?;
    try_row(report, &mut bench, &Row(b"=", "text,30,0,"), 0)?;
    let mut none = Bench::new(report.rt.alloc(), 0, 1024)?;
    try_row(report, &mut none, &Row(b"=", "editor,1,0,"), 0)
}
