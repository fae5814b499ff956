// A sequence of commands that a seed fixes: runs of opening, writing and closing, so that all levels come into use.
use draws::Draws;
use store_script::Command;

// Where a run of commands goes: into new levels, or back out of those that are open.
#[derive(Clone, Copy)]
enum Direction {
    Down,
    Up,
}

impl Direction {
    fn turned(self) -> Direction {
        match self {
            Direction::Down => Direction::Up,
            Direction::Up => Direction::Down,
        }
    }
}

#[derive(Clone, Copy)]
pub struct Sequence {
    draws: Draws,
    size: u32,
    limit: u32,
    // how many commands are left of the present run, and where it goes
    left: u32,
    direction: Direction,
}

impl Sequence {
    pub fn new(seed: u64, size: usize, limit: usize) -> Sequence {
        Sequence {
            draws: Draws::new(seed),
            size: size.min(65536) as u32,
            limit: limit.min(8) as u32,
            left: 0,
            direction: Direction::Up,
        }
    }

    fn next_command(&mut self) -> Command {
        if self.left == 0 {
            self.direction = self.direction.turned();
            let extra = self.draws.below(6);
            self.left = self.limit.saturating_mul(4).saturating_add(extra);
        }
        self.left = self.left.saturating_sub(1);
        if self.draws.below(2) == 0 {
            self.level_command()
        } else {
            self.write_command()
        }
    }

    fn level_command(&mut self) -> Command {
        match self.direction {
            Direction::Down => Command::Open,
            Direction::Up if self.draws.below(2) == 0 => Command::Keep,
            Direction::Up => Command::Drop,
        }
    }

    // Mostly a word of the store, now and then one behind it.
    fn write_command(&mut self) -> Command {
        let narrow = self.draws.below(4) > 0;
        let at = self.draws.below(if narrow {
            self.size.min(6)
        } else {
            self.size.saturating_add(1)
        });
        let word = self.draws.below(1000);
        Command::Set { at, word }
    }
}

impl Iterator for Sequence {
    type Item = Command;

    fn next(&mut self) -> Option<Command> {
        Some(self.next_command())
    }
}
