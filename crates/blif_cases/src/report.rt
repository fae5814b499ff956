// The lines of the cases.
use crate::bench::Verdict;
use memory::Pair;
use std::fmt::Display;

// Where they are printed, and how many of the cases found a difference.
#[derive(Drop)]
pub struct Report<'a> {
    pub rt: &'a HostRuntime,
    pub differing: u32,
}

impl Report<'_> {
    // What a case found over each store: the differences, and the line that tells how it went.
    pub fn case(
        &mut self,
        head: impl Display + Drop,
        verdicts: Pair<Verdict>,
    ) -> anyhow::Result<()> {
        self.differences(verdicts)?;
        let well = well(verdicts);
        println!(self.rt; "{head} {well}")?;
        Ok(())
    }

    // One of many cases: a line only where there is a difference.
    pub fn quiet(
        &mut self,
        head: impl Display + Drop,
        text: &[u8],
        verdicts: Pair<Verdict>,
    ) -> anyhow::Result<()> {
        let well = well(verdicts);
        if !well.both() {
            println!(self.rt; "{head} {well}, bytes {text:?}")?;
        }
        self.differences(verdicts)
    }

    fn differences(&mut self, verdicts: Pair<Verdict>) -> anyhow::Result<()> {
        self.difference(verdicts.log)?;
        self.difference(verdicts.snapshot)?;
        let differing = u32::from(!well(verdicts).both());
        self.differing = self.differing.saturating_add(differing);
        Ok(())
    }

    fn difference(&self, verdict: Verdict) -> anyhow::Result<()> {
        if let Err(difference) = verdict {
            println!(self.rt; "difference: {difference}")?;
        }
        Ok(())
    }
}

fn well(verdicts: Pair<Verdict>) -> Pair<bool> {
    Pair {
        log: verdicts.log.is_ok(),
        snapshot: verdicts.snapshot.is_ok(),
    }
}
