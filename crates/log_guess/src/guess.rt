//! A guess from a log: a lock that is held at each access of a place, else the thread if one alone accesses it, else nothing.
ghost use Rattle.std.specs.Prelude.{◌≡◌, ◌≢◌, ◌<◌, ◌≤◌, ℕ, List, IsSome, IfOk, OnOk, IfErr, IsErrOf, IfSome, length};
ghost use Rattle.edge.specs.Faults.{Rose};

use edge::Folder;
use logs::{Deed, Guard, Guards, Said, Table, read_line};
use std::alloc::{AllocError as NoMemory, Global};

/// A lock that a thread holds, which it took so often.
#[derive(Drop)]
struct Held {
    lock: Vec<u8>,
    times: u64,
}

/// What was seen of a place: the locks that were held at each access, its first user, and whether that was the only one.
#[derive(Drop)]
struct Used {
    locks: Vec<Vec<u8>>,
    user: Vec<u8>,
    alone: bool,
}

/// What was seen of locks and places.
#[derive(Drop)]
struct Guess {
    held: Table<Vec<Held>>,
    used: Table<Used>,
}

/// Whether a lock is among those that are held.
fn is_held(held: &[Held], lock: &[u8]) -> bool {
    held.iter().any(|one| one.lock.as_slice() == lock)
}

/// Takes a lock.
fn take(alloc: Global, held: &mut Vec<Held>, lock: &[u8]) -> Result<(), NoMemory> {
    for one in held.iter_mut() {
        if one.lock.as_slice() == lock {
            one.times = one.times.saturating_add(1);
            return Ok(());
        }
    }
    let lock = Vec::from_slice(alloc, lock)?;
    held.push(Held { lock, times: 1 })?;
    Ok(())
}

/// Gives a lock back.
fn give(held: &mut Vec<Held>, lock: &[u8]) {
    for one in held.iter_mut() {
        if one.lock.as_slice() == lock {
            one.times = one.times.saturating_sub(1);
        }
    }
    held.retain(|one| one.times > 0);
}

/// The locks that are held.
fn locks_of(alloc: Global, held: &[Held]) -> Result<Vec<Vec<u8>>, NoMemory> {
    let mut locks = Vec::new(alloc);
    for one in held {
        let lock = Vec::from_slice(alloc, one.lock.as_slice())?;
        locks.push(lock)?;
    }
    Ok(locks)
}

/// A place that a thread uses for the first time, with these locks held.
fn first_use(alloc: Global, held: &[Held], thread: &[u8]) -> Result<Used, NoMemory> {
    let locks = locks_of(alloc, held)?;
    let user = Vec::from_slice(alloc, thread)?;
    Ok(Used {
        locks,
        user,
        alone: true,
    })
}

/// Sees that a thread uses a place once more, with these locks held.
fn see(used: &mut Used, held: &[Held], thread: &[u8]) {
    used.locks.retain(|lock| is_held(held, lock.as_slice()));
    if used.user.as_slice() != thread {
        used.alone = false;
    }
}

impl Guess {
    fn new(alloc: Global) -> Guess {
        Guess {
            held: Table::new(alloc),
            used: Table::new(alloc),
        }
    }

    /// Sees that a thread takes a lock.
    fn take(&mut self, alloc: Global, thread: &[u8], lock: &[u8]) -> Result<(), NoMemory> {
        if self.held.get(thread).is_none() {
            self.held.put(alloc, thread, Vec::new(alloc))?;
        }
        match self.held.get_mut(thread) {
            Some(held) => take(alloc, held, lock),
            None => Ok(()),
        }
    }

    /// Sees that a thread gives a lock back.
    fn give(&mut self, thread: &[u8], lock: &[u8]) {
        if let Some(held) = self.held.get_mut(thread) {
            give(held, lock);
        }
    }

    /// Sees an access.
    fn access(&mut self, alloc: Global, thread: &[u8], place: &[u8]) -> Result<(), NoMemory> {
        let none = Vec::new(alloc);
        let held = match self.held.get(thread) {
            Some(held) => held,
            None => &none,
        };
        if let Some(used) = self.used.get_mut(place) {
            see(used, held.as_slice(), thread);
            return Ok(());
        }
        let used = first_use(alloc, held.as_slice(), thread)?;
        self.used.put(alloc, place, used)
    }

    /// Sees a line.
    fn note(&mut self, alloc: Global, said: &Said<'_>) -> Result<(), NoMemory> {
        match said.deed {
            Deed::Take(lock) => self.take(alloc, said.thread, lock),
            Deed::Give(lock) => {
                self.give(said.thread, lock);
                Ok(())
            }
            Deed::Read(place, _) => self.access(alloc, said.thread, place),
            Deed::Write(place, _) => self.access(alloc, said.thread, place),
            Deed::Change(place, _, _) => self.access(alloc, said.thread, place),
            _ => Ok(()),
        }
    }

    /// The guards that are guessed.
    fn guards(&self, alloc: Global) -> Result<Guards, NoMemory> {
        let mut guards = Guards::new(alloc);
        for number in 0..self.used.len() {
            if let Some((place, used)) = self.used.entry(number) {
                if let Some(guard) = guard_of(alloc, used)? {
                    guards.places.put(alloc, place, guard)?;
                }
            }
        }
        Ok(guards)
    }
}

/// The guard of a place that was used so.
fn guard_of(alloc: Global, used: &Used) -> Result<Option<Guard>, NoMemory> {
    if let Some(lock) = used.locks.first() {
        return Ok(Some(Guard::ByLock(Vec::from_slice(alloc, lock.as_slice())?)));
    }
    if used.alone {
        return Ok(Some(Guard::ByThread(Vec::from_slice(alloc, used.user.as_slice())?)));
    }
    Ok(None)
}

/// A guess that goes on, and the bytes behind the last line's end.
#[derive(Drop)]
struct Pass {
    guess: Guess,
    row: Vec<u8>,
}

impl Pass {
    /// Goes through these bytes. Rows that are no lines are passed over.
    fn feed(&mut self, alloc: Global, bytes: &[u8]) -> Result<(), NoMemory> {
        for byte in bytes {
            if *byte != b'\n' {
                self.row.push(*byte)?;
                continue;
            }
            if let Some(said) = read_line(self.row.as_slice()) {
                self.guess.note(alloc, &said)?;
            }
            self.row.clear();
        }
        Ok(())
    }
}

/// Why a file was not read to its end.
#[derive(Clone, Copy, PartialEq, Eq)]
pub enum GuessEnd {
    /// A read failed.
    Fault,
    /// The file has more bytes than the limit.
    TooLarge,
    NoMemory,
}

impl From<NoMemory> for GuessEnd {
    ghost use Rattle.std.specs.Prelude.{◌≡◌};
    ghost use Rattle.log_guess.specs.declared.guess.GuessEnd.TheVariants as ends;

    ghost from_gives = { λ _ end. end ≡ ends.NoMemory };

    fn from(_: NoMemory) -> Self {
        GuessEnd::NoMemory
    }
}

/// The guards that are guessed from a file, and how many bytes it has.
#[derive(Drop)]
pub struct Guessed {
    pub guards: Guards,
    pub many: u64,
}

/// How many bytes a read asks for.
const CHUNK: usize = 4096;

/// Guesses from the file `name`, where it has at most `limit` bytes.
pub fn guess_file<F: Folder>(
    alloc: Global,
    folder: &mut F,
    name: &str,
    limit: u32,
) -> Result<Guessed, GuessEnd>
    ensures many { IfOk result (λ g. IfSome (F.told folder.old name.now) (λ file. length file ≡ g.many)) }
    ensures fault { IsErrOf result GuessEnd.Fault → Rose (F.faults folder.old name.now) (F.faults folder.new name.now) }
    ensures too_large { IsErrOf result GuessEnd.TooLarge → IfSome (F.told folder.old name.now) (λ file. limit < length file) }
    ensures calm { OnOk result ((other : List ℕ) → F.faults folder.new other ≡ F.faults folder.old other) }
    ensures calm_end { IfErr result (λ end. end ≢ GuessEnd.Fault →
        (other : List ℕ) → F.faults folder.new other ≡ F.faults folder.old other) }
    ensures never_fall { (other : List ℕ) → F.faults folder.old other ≤ F.faults folder.new other }
    ensures others { (other : List ℕ) → other ≢ name.now → IsSome (F.told folder.old other) →
        F.faults folder.new other ≡ F.faults folder.old other }
    ensures told { (other : List ℕ) → F.told folder.new other ≡ F.told folder.old other }
{
    let mut pass = Pass {
        guess: Guess::new(alloc),
        row: Vec::new(alloc),
    };
    let mut chunk = [0; CHUNK];
    let mut at = 0;
    'chunks: while at <= limit as u64 {
        let Ok(n) = folder.read_at(name, at, &mut chunk) else {
            return Err(GuessEnd::Fault);
        };
        if n == 0 {
            let guards = pass.guess.guards(alloc)?;
            return Ok(Guessed { guards, many: at });
        }
        if let Err(NoMemory) = pass.feed(alloc, &chunk[..n]) {
            return Err(GuessEnd::NoMemory);
        }
        at += n as u64;
    }
    Err(GuessEnd::TooLarge)
}
