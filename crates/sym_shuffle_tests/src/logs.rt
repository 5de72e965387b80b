//! Logs: texts, and records that a fixed generator draws.
use std::alloc::Global;
use sym_base::NoMemory;
use sym_given::Draws;

/// The records of a log that is drawn, with the columns of all scripts.
#[derive(Clone, Copy)]
pub(crate) struct Draw {
    pub(crate) seed: u32,
    pub(crate) records: u32,
    pub(crate) users: u32,
    /// Every other record is of the first user.
    pub(crate) is_skewed: bool,
    /// The numbers of two rows that are no records; 0 is none.
    pub(crate) bad: [u32; 2],
}

#[derive(Clone, Copy)]
pub(crate) enum Log {
    Text(&'static str),
    Drawn(Draw),
    /// So many records with two words each, of which some are empty and some are long.
    Noted(u32),
}

const ENDINGS: [&str; 3] = ["win", "draw", "loss"];

impl Draw {
    // The number of a user.
    fn user(&self, draws: &mut Draws) -> u32 {
        let drawn = draws.next();
        if self.is_skewed && drawn % 2 == 0 {
            return 0;
        }
        drawn / 2 % self.users.max(1)
    }

    fn push(
        &self,
        alloc: Global,
        log: &mut String,
        no: u32,
        draws: &mut Draws,
    ) -> Result<(), NoMemory> {
        let user = self.user(draws);
        let drawn = draws.next();
        let end = ENDINGS[drawn as usize % 3];
        let team = drawn / 3 % 5;
        let x = i64::from(drawn / 15 % 9) - 4;
        let ts = u64::from(no) * 7 + u64::from(drawn % 60);
        if self.bad.contains(&no) {
            log.push_str("u,t,x,win,n,ts\n")?;
            return Ok(());
        }
        let line = format!(in alloc; "user {user},{team},{x},{end},note {drawn},{ts}\n")?;
        log.push_str(line.as_str())?;
        Ok(())
    }

    fn text(&self, alloc: Global) -> Result<String, NoMemory> {
        let mut draws = Draws::of(self.seed);
        let mut log = String::from_str(alloc, "user,team,x,end,note,ts\n")?;
        'records: for place in 0..self.records.min(100_000) {
            self.push(alloc, &mut log, place + 1, &mut draws)?;
        }
        Ok(log)
    }
}

const LETTERS: [&str; 4] = ["a", "é", "日", "🦀"];

// A word: a letter up to 6 times, or 9,500 times.
fn push_note(log: &mut String, number: u32) -> Result<(), NoMemory> {
    let letter = LETTERS[number as usize % 4];
    let times = if number % 50 == 0 { 9_500 } else { number % 7 };
    'letters: for _place in 0..times {
        log.push_str(letter)?;
    }
    Ok(())
}

// Records of 37 users. Neighbouring ones have equal words.
fn noted(alloc: Global, records: u32) -> Result<String, NoMemory> {
    let mut log = String::from_str(alloc, "user,first,x,end,second\n")?;
    'records: for place in 0..records.min(10_000) {
        let user = place % 37;
        log.push_str(format!(in alloc; "user {user},")?.as_str())?;
        push_note(&mut log, place / 2)?;
        log.push_str(format!(in alloc; ",{place},win,")?.as_str())?;
        push_note(&mut log, place / 3 + 1)?;
        log.push_str("\n")?;
    }
    Ok(log)
}

impl Log {
    pub(crate) fn text(&self, alloc: Global) -> Result<String, NoMemory> {
        match self {
            Log::Text(text) => Ok(String::from_str(alloc, text)?),
            Log::Drawn(draw) => draw.text(alloc),
            Log::Noted(records) => noted(alloc, *records),
        }
    }
}
