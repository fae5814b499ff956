// The lines of the cases.
use memory::Pair;
use std::fmt::Display;

// Where they are printed, and how many of the cases found a difference.
#[derive(Drop)]
pub struct Report<'a> {
    pub rt: &'a HostRuntime,
    pub differing: u32,
}

impl Report<'_> {
    // What a case found over each store: the differences, and the line that tells how it went.
    pub fn case<E: Display + Copy>(
        &mut self,
        head: impl Display + Drop,
        verdicts: Pair<Result<(), E>>,
    ) -> anyhow::Result<()> {
        self.difference(verdicts.log)?;
        self.difference(verdicts.snapshot)?;
        let well = Pair {
            log: verdicts.log.is_ok(),
            snapshot: verdicts.snapshot.is_ok(),
        };
        println!(self.rt; "{head} {well}")?;
        let differing = u32::from(!well.both());
        self.differing = self.differing.saturating_add(differing);
        Ok(())
    }

    fn difference<E: Display + Drop>(&self, verdict: Result<(), E>) -> anyhow::Result<()> {
        if let Err(difference) = verdict {
            println!(self.rt; "difference: {difference}")?;
        }
        Ok(())
    }
}
