// Files that are accepted, and what is written of them.
use crate::bench::Bench;
use crate::report::Report;
use crate::told::shown;

pub struct Worked {
    title: &'static str,
    text: &'static [u8],
}

pub static WORKED: [Worked; 12] = [
    Worked {
        title: "two gates",
        text: b".model t\n.inputs a b\n.outputs y\n.names a b n\n11 1\n.names n y\n1 1\n.end\n",
    },
    Worked {
        title: "nothing",
        text: b".model e\n.end\n",
    },
    Worked {
        title: "a latch without a start, and one with",
        text: b".model l\n.inputs d\n.outputs q r\n.latch d q\n.latch q r 0\n.end\n",
    },
    Worked {
        title: "a latch on itself, and a ring through a latch",
        text: b".model l\n.latch s s 2\n.names q n\n0 1\n.latch n q 1\n.end\n",
    },
    Worked {
        title: "comments, blanks, tabs, empty lines, no last line end",
        text: b"# a file\n\n \t.model\tt # its name\n.inputs  a\t b \n\t\n.outputs y#\n.names a b y # and\n # a comment among covers , = \\\n\n 11\t 1 \n.end #",
    },
    Worked {
        title: "constants",
        text: b".model c\n.outputs zero also one\n.names zero\n.names also\n0\n.names one\n1\n.end\n",
    },
    Worked {
        title: "names used before they are driven, gates in the wrong order",
        text: b".model w\n.outputs y\n.names n y\n1 1\n.names m n\n0 1\n.names a m\n1 0\n.inputs a\n.end\n",
    },
    Worked {
        title: "inputs and outputs given again, and without names",
        text: b".model i\n.inputs a\n.outputs a a\n.inputs\n.inputs b\n.outputs b a\n.outputs\n.end\n",
    },
    Worked {
        title: "covers: dashes, both ends, lines twice, no lines",
        text: b".model c\n.inputs a b\n.outputs w x y z\n.names a b w\n-1 1\n.names a b x\n11 0\n.names a b y\n.names a b z\n1- 1\n1- 1\n01 1\n.end\n",
    },
    Worked {
        title: "four pins, some on one signal",
        text: b".model p\n.inputs a b c\n.outputs y\n.names a b a c y\n1--0 0\n-01- 0\n.end\n",
    },
    Worked {
        title: "any word is a name, and the longest",
        text: b".model .model\n.inputs .end 0 -\n.outputs abcdefghijklmnopqrstuvwxyz012345\n.names .end 0 - abcdefghijklmnopqrstuvwxyz012345\n111 1\n.end\n",
    },
    Worked {
        title: "a model named as a signal, and an input that is an output",
        text: b".model a\n.inputs a\n.outputs a\n.end\n",
    },
];

pub fn try_worked(report: &mut Report) -> anyhow::Result<()> {
    let mut bench = Bench::new(report.rt.alloc(), 8, 1024)?;
    for worked in &WORKED {
        let title = worked.title;
        let trial = bench.try_text(worked.text, worked.text.len())?;
        let accepted = trial.told.is_none();
        report.case(
            format_args!("file: {title}: accepted {accepted}, written and read back:"),
            trial.verdicts,
        )?;
        print!(report.rt; "{}", shown(&trial.written))?;
    }
    Ok(())
}
