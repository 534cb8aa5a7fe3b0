// How many lines of each kind agreed.
use crate::kinds::Kind;
use replay_answers::Verdict;
use std::io;

#[derive(Clone, Copy)]
struct Count {
    seen: u64,
    agreed: u64,
}

#[derive(Clone, Copy)]
pub struct Tally {
    // In the order of the kinds.
    counts: [Count; Kind::ALL.len()],
    unread: u64,
    // The number of the first line that did not agree or could not be read.
    first: Option<u64>,
}

impl Tally {
    pub fn new() -> Tally {
        Tally {
            counts: [Count { seen: 0, agreed: 0 }; Kind::ALL.len()],
            unread: 0,
            first: None,
        }
    }

    // Counts a line, by its number, its kind and the verdict on it.
    pub fn count(&mut self, number: u64, replayed: Option<(Kind, Verdict)>) {
        let Some((kind, verdict)) = replayed else {
            self.unread = self.unread.saturating_add(1);
            self.note(number);
            return;
        };
        let count = &mut self.counts[kind as usize];
        count.seen = count.seen.saturating_add(1);
        match verdict {
            Verdict::Agree => count.agreed = count.agreed.saturating_add(1),
            Verdict::Differ => self.note(number),
        }
    }

    fn note(&mut self, number: u64) {
        self.first = self.first.or(Some(number));
    }

    pub fn print(&self, rt: &impl Print) -> io::Result<()> {
        for (kind, count) in Kind::ALL.iter().zip(&self.counts) {
            let agreed = count.agreed;
            let seen = count.seen;
            println!(rt; "{kind}: {agreed} of {seen} agree")?;
        }
        let unread = self.unread;
        println!(rt; "unread: {unread}")?;
        if let Some(first) = self.first {
            println!(rt; "first at line {first}")?;
        }
        Ok(())
    }
}
