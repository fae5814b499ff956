// Numbers for tests, the same for the same seed on every machine: the upper bits of a linear congruential generator.
#![tactic(auto)]

ghost use Rattle.std.specs.Prelude.{◌≡◌, ℕ, ◌<◌};
ghost use Rattle.draws.specs.Generator.{next_state, drawn};

use std::marker::Model;

#[derive(Clone, Copy, PartialEq, Eq, Debug)]
pub struct Draws {
    state: u64,
}

impl Model for Draws {
    ghost Value = { ℕ };

    ghost view = { λ d. d.state };

    ghost inverse = { λ n. record { state = n } };
}

impl Draws {
    pub fn new(seed: u64) -> Draws
        ensures { result ≡ seed }
    {
        Draws { state: seed }
    }

    // The next number, below `bound`; 0 where nothing is below it.
    pub fn below(&mut self, bound: u32) -> u32
        ensures state { self.new ≡ next_state self.old }
        ensures drawn { result ≡ drawn (next_state self.old) bound }
        ensures low { 0 < bound → result < bound }
    {
        self.state = self
            .state
            .wrapping_mul(6364136223846793005)
            .wrapping_add(1442695040888963407);
        let upper = (self.state >> 33) as u32;
        upper.checked_rem(bound).unwrap_or(0)
    }
}

#[cfg(test)]
mod tests {
    use super::*;

    #[test]
    fn a_seed_fixes_the_numbers(rt: HostRuntime) {
        let mut draws = Draws::new(1);
        for (bound, drawn) in [(100, 74), (100, 53), (0, 0), (1000, 870)] {
            assert_eq!(rt; draws.below(bound), drawn);
        }
    }
}
