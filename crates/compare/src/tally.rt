// What both engines answered to the same calls.
use engine::fault::EngineFault;
use std::fmt;

// How often each answer came, and how often the two answers differed.
#[derive(Clone, Copy, Default)]
pub(crate) struct Tally {
    held: u32,
    out_of_range: u32,
    full: u32,
    circles: u32,
    dropped: u32,
    differing: usize,
}

impl Tally {
    pub(crate) fn note_add(&mut self, answer: Result<(), EngineFault>) {
        let count = match answer {
            Ok(()) => &mut self.held,
            Err(EngineFault::Full) => &mut self.full,
            Err(EngineFault::RisingCircle) => &mut self.circles,
            Err(_) => &mut self.out_of_range,
        };
        *count = count.saturating_add(1);
    }

    pub(crate) fn note_drop(&mut self, answer: Result<(), EngineFault>) {
        if answer.is_ok() {
            self.dropped = self.dropped.saturating_add(1);
        }
    }

    pub(crate) fn note_agreement(&mut self, agree: bool) {
        self.note_differing(usize::from(!agree));
    }

    // How many answers differed. It is no part of what a tally prints, so that each line is one write.
    pub(crate) fn differing(&self) -> usize {
        self.differing
    }

    pub(crate) fn note_differing(&mut self, answers: usize) {
        self.differing = self.differing.saturating_add(answers);
    }
}

impl fmt::Display for Tally {
    fn fmt<W: fmt::Write>(&self, f: &mut fmt::Formatter<W>) -> fmt::Result {
        write!(
            f,
            "  added {}, dropped {}, refused: circle {}, out of range {}, full {}",
            self.held, self.dropped, self.circles, self.out_of_range, self.full
        )
    }
}
